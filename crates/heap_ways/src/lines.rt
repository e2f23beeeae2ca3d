// What is shown of a step.
use cell_records::Kind;

/// A step of a way.
#[derive(Clone, Copy)]
pub enum WayLine<'a> {
    /// Lists that follow on each other: the address of the first, and how many they are.
    Tails(u64, u32),
    /// A cell: its address; its kind, which a malformed one doesn't have; the first of its places, from 0, that leads to the
    /// next cell, unless it is the last; and if it is a tuple its shape, as that of an element of a message.
    Cell(u64, Option<Kind>, Option<usize>, Option<&'a [u8]>),
}
