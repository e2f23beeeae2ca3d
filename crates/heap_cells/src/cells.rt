// What an address or an element leads to.
use cell_records::CellIx;
use term_forms::shapes::Elem;

/// What an address leads to.
#[derive(Clone, Copy)]
pub enum Seat {
    /// No cell has the address.
    Missing,
    /// The cell that has the address; its text spells no form.
    Malformed(CellIx),
    /// The cell that has the address; its text spells a form.
    Cell(CellIx),
}

/// An element of a cell's form, with its reference resolved.
#[derive(Clone, Copy)]
pub enum Kid<'a> {
    /// An immediate: the element itself, which is no reference.
    Imm(Elem<'a>),
    /// The element refers to this cell, which may be malformed.
    Cell(CellIx),
    /// The element refers to this address, which no cell has.
    Gone(u64),
}
