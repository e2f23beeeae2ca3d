// How many roots bytes have.
ghost use Rattle.std.specs.Prelude.{◌≡◌, length};
ghost use Rattle.root_views.specs.Kinds.{roots_in};

use crate::RootKind;

/// How many roots of this kind bytes have.
pub(crate) fn root_count(kind: RootKind, bytes: &[u8]) -> usize
    ensures { result ≡ length (roots_in kind bytes.now) }
{
    let mut count = 0;
    for _root in kind.roots(bytes) {
        count += 1;
    }
    count
}
