// What a report says of a part.
use cell_records::Kind;

/// A part that alone holds cells.
#[derive(Clone, Copy)]
pub struct PartRow<'a> {
    /// How many words the cells have that it alone holds.
    pub words: u128,
    /// How many cells it alone holds.
    pub cells: u32,
    /// How many of these refer to binaries: how many are RefBins or SubBins.
    pub binaries: u32,
    /// The kind of its cell. A malformed cell has none.
    pub kind: Option<Kind>,
    /// The address of its cell.
    pub address: u64,
    /// How many of the weighed elements lead to its cell.
    pub elements: u64,
    /// Where the first element that leads to its cell stands: the offset in the
    /// file of the element's root, or its place among the elements of a cell.
    pub at: u64,
    /// The label of the first element's root, or `-` if the elements of a cell are weighed.
    pub label: &'a [u8],
}
