// The roots that are kept, and the lines in which they stand.

use crate::RootKind;

/// A root that is kept.
#[derive(Clone, Copy)]
pub(crate) struct KeptRoot {
    /// The root's offset in the file.
    pub(crate) at: u64,
    /// Where the root's line begins among the kept lines.
    pub(crate) start: usize,
    /// Where the root's line ends among the kept lines.
    pub(crate) end: usize,
    /// The root's place among the roots of its line, from 0.
    pub(crate) place: usize,
}

/// Roots that are kept. A line that has several of them is kept once.
#[derive(Drop)]
pub(crate) struct KeptRoots {
    /// Of which kind the roots are.
    pub(crate) kind: RootKind,
    /// The raw lines in which the roots stand, one behind another.
    pub(crate) lines: Vec<u8>,
    pub(crate) roots: Vec<KeptRoot>,
}
