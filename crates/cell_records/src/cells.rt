// Cells by their numbers, their kinds, and what of their elements is stored.
ghost use Rattle.std.specs.Prelude.{◌≡◌};
ghost use Rattle.cell_records.specs.Numbers.{number};

/// A cell of a heap, by its number.
#[derive(Clone, Copy)]
pub struct CellIx(u32);

impl CellIx {
    /// The cell with a number.
    pub fn new(n: u32) -> CellIx
        ensures { result ≡ record { 0 = n } }
    {
        CellIx(n)
    }

    /// The number of the cell, from 0, in the order of the heap's lines.
    pub fn number(self) -> u32
        ensures { result ≡ number self }
    {
        self.0
    }
}

/// Why a reference leads to no term.
#[derive(Clone, Copy)]
pub enum Why {
    /// No cell has the address.
    Missing,
    /// The text of the cell spells no form, or none that is allowed there.
    Malformed,
    /// The cell is one of those through which the reference was reached.
    OnPath,
}

/// The kind of a cell's form.
#[derive(Clone, Copy)]
pub enum Kind {
    List,
    Tuple,
    Float,
    Long,
    Pid,
    Port,
    Ext,
    HeapBin,
    RefBin,
    SubBin,
    Flat,
    Hash,
    Node,
}

/// The part of a heap's texts that spells an element. What a heap promises doesn't depend on it.
#[derive(Clone, Copy)]
pub struct Span {
    /// How many bytes of the texts stand before the element.
    pub at: u32,
    /// How many bytes the element has.
    pub len: u32,
}

/// An element of a cell's form as it is stored, with its reference resolved.
#[derive(Clone, Copy)]
pub enum Slot {
    /// An immediate, which is no reference, by the part of the texts that spells it.
    Imm(Span),
    /// The element refers to this cell, which may be malformed.
    Cell(CellIx),
    /// The element refers to this address, which no cell has.
    Gone(u64),
}
