// What a cell is in the unfolding, by the kind of its form.
ghost use Rattle.std.specs.Prelude.{◌≡◌};
ghost use Rattle.term_unfold.specs.Kinds.{are_keys, item_kind, term_kind};

use crate::node::NodeKind;
use heap_cells::Kind;

/// What a cell is as a term.
#[derive(Clone, Copy)]
pub enum TermKind {
    /// A leaf, which has no children.
    Leaf,
    /// A node.
    Node(NodeKind),
    /// A flat map, which is a node if it has no values or if its keys are available.
    Flat,
    /// Malformed.
    Malformed,
}

/// What a cell is as a term, by the kind of its form. A malformed cell has none.
#[inline(always)]
pub fn term_kind(kind: Option<Kind>) -> TermKind
    ensures { result ≡ term_kind kind }
{
    let Some(kind) = kind else {
        return TermKind::Malformed;
    };
    match kind {
        Kind::List => TermKind::Node(NodeKind::Cons),
        Kind::Tuple => TermKind::Node(NodeKind::Tuple),
        Kind::Flat => TermKind::Flat,
        Kind::Hash => TermKind::Node(NodeKind::Hash),
        Kind::Node => TermKind::Malformed,
        _ => TermKind::Leaf,
    }
}

/// The node that a cell is as a child of a hash map or of one of its inner nodes, by the kind of its form: a cons cell
/// is a pair, a tuple or a node an inner node, and any other is malformed there.
#[inline(always)]
pub fn item_kind(kind: Option<Kind>) -> Option<NodeKind>
    ensures { result ≡ item_kind kind }
{
    match kind {
        Some(Kind::List) => Some(NodeKind::Pair),
        Some(Kind::Tuple) => Some(NodeKind::Inner),
        Some(Kind::Node) => Some(NodeKind::Inner),
        _ => None,
    }
}

/// Whether a cell holds the keys of a flat map with this many values, by
/// the kind of its form and how many elements that has.
#[inline(always)]
pub fn are_keys(kind: Option<Kind>, elements: u64, values: u64) -> bool
    ensures { result ≡ are_keys kind elements values }
{
    match kind {
        Some(Kind::Tuple) => elements == values,
        _ => false,
    }
}
