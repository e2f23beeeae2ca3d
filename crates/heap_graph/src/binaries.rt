// Which cells refer to binaries.
ghost use Rattle.std.specs.Prelude.{◌≡◌};
ghost use Rattle.heap_graph.specs.Binaries.{is_binary_kind};

use cell_records::Kind;

/// Whether a cell of this kind refers to a binary outside of the heap: whether it is a RefBin or a SubBin. A malformed
/// cell has no kind.
pub fn is_binary_kind(kind: Option<Kind>) -> bool
    ensures { result ≡ is_binary_kind kind }
{
    matches!(kind, Some(Kind::RefBin | Kind::SubBin))
}
