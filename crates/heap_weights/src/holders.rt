// Who holds a cell.

/// Who holds a cell.
#[derive(Clone, Copy)]
pub enum Holder {
    /// No part reaches the cell.
    Nobody,
    /// Two or more parts reach the cell.
    Several,
    /// This part reaches the cell, and no other does.
    Part(u32),
}
