// What a term is judged to be.
use heap_cells::Why;

/// What a term is judged to be within a budget of nodes.
#[derive(Clone, Copy)]
pub enum Verdict {
    /// None of the nodes is bad.
    Clean,
    /// The address of the first bad node, and why it is bad.
    Bad(u64, Why),
}
