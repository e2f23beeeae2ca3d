// What is kept of a cell that refers to a binary, and what is shown of it.
use crate::FewBytes;

/// The first bytes of the range to which a cell refers, and the size that the cell states.
#[derive(Clone, Copy)]
pub enum Preview<'a> {
    /// The first bytes, at most 32, and the size of the whole range.
    Bytes(&'a [u8], u64),
    /// The bytes are unknown; the stated size of the range.
    Unknown(u64),
}

// The number of a cell, the size that it states, and the bytes that are shown of it.
#[derive(Drop)]
pub(crate) struct Entry {
    pub cell: u32,
    pub size: u64,
    pub bytes: Option<FewBytes>,
}
