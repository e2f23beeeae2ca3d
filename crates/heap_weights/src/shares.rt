// How many cells and words parts hold.

/// How many cells, how many words they have in all, and how many of them refer to binaries.
#[derive(Clone, Copy)]
pub struct Weight {
    pub cells: u32,
    pub words: u128,
    pub binaries: u32,
}

/// What the parts of a heap hold of its own cells.
#[derive(Drop)]
pub struct Shares {
    /// Of each part what it alone holds.
    pub alone: Vec<Weight>,
    /// What two or more parts reach.
    pub shared: Weight,
    /// What any part reaches.
    pub reached: Weight,
    /// All own cells.
    pub own: Weight,
}
