// The kinds of nodes that have children.

/// The kind of a node that has children.
#[derive(Clone, Copy)]
pub enum NodeKind {
    /// A cons cell: its head and its tail.
    Cons,
    /// A tuple: its elements.
    Tuple,
    /// A flat map: key, value, key, value and so on.
    Flat,
    /// A hash map: pairs and inner nodes.
    Hash,
    /// An inner node of a hash map: pairs and inner nodes.
    Inner,
    /// A pair of a hash map: its key and its value.
    Pair,
}
