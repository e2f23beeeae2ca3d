// What is found of processes and of binaries.
use text_groups::{Measured, MeasuredTwice};

/// What a process holds of some binaries.
#[derive(Clone, Copy, Drop)]
pub struct Holding {
    /// The place of the process in the process table, from 0.
    pub process: usize,
    /// How many bytes of binaries the node itself counted for the process. It may be above 2^64 - 1.
    pub counted: u128,
    /// The sizes of the binaries that it holds, together, in
    /// bytes; each counts once, and a sum above 2^64 - 1 is given as that.
    pub bytes: u64,
    /// The sizes of the binaries that it holds, together, in bytes, even above 2^64 - 1; each counts once.
    pub total: u128,
    /// How many of the binaries it holds.
    pub count: u64,
    /// How many lines of its heap refer to a binary, to one of these or to another one.
    pub lines: u64,
    /// How many of these lines refer to one of the binaries.
    pub cells: u64,
    /// The address of the first line that refers to one of them, or 0 if none does.
    pub first: u64,
}

impl MeasuredTwice for Holding {
    ghost first = { λ holding. holding.counted };

    ghost second = { λ holding. holding.total };

    fn first(&self) -> u128 {
        self.counted
    }

    fn second(&self) -> u128 {
        self.total
    }
}

/// A binary outside the heaps, and how many processes hold it.
#[derive(Clone, Copy, Drop)]
pub struct BinaryRow {
    /// The size that its section states, in bytes, or 0 if it states none.
    pub size: u64,
    /// How many processes hold it.
    pub holders: u64,
    /// The number of the binary, which is its address.
    pub number: u64,
    /// The offset in the file of its section's header.
    pub at: u64,
}

/// Lines of heaps that refer to binaries as a whole.
#[derive(Clone, Copy, Drop)]
pub struct WholeLines {
    /// How many lines refer to binaries as a whole; at most 2^64 - 1.
    pub count: u64,
    /// How many of these lines refer to no stored binary; at most 2^64 - 1.
    pub unstored: u64,
}

impl Measured for BinaryRow {
    ghost size = { λ row. row.size };

    fn size(&self) -> u128 {
        u128::from(self.size)
    }
}
