// What is held of heap lines while a heap is loaded.
ghost use Rattle.std.specs.Prelude.{◌≡◌, ◌+◌, ◌<◌, ◌++◌, ◌∷◌, [], OnOk};
ghost use Rattle.heap_graph.specs.Elements.{Keeps};
ghost use Rattle.heap_graph.specs.Held.{start_at, IsHeld, IsSmall};

use crate::elements::Elements;
use cell_records::{Kind, Located};
use std::alloc::{AllocError, Global};

// The most cells and elements.
const MOST: usize = u32::MAX as usize - 1;

/// A cell without its kind and its elements.
#[derive(Clone, Copy)]
pub struct CellPart {
    /// The address of the cell.
    pub address: u64,
    /// How many bytes stand before the cell's line or, if slots of elements are kept, before the text of its form.
    pub at: u64,
    /// The place of the cell's first element among those of all cells. Its elements end where those of the next cell begin.
    pub first: u32,
    /// The number of the cell's words or, if slots of elements are kept, of the bytes of the text of its form.
    pub size: u32,
}

impl Located for CellPart {
    ghost address = { λ p. p.address };

    fn address(&self) -> u64 {
        self.address
    }
}

/// The cells of the heap lines so far, whose elements aren't resolved yet.
#[derive(Drop)]
pub struct Held {
    pub parts: Vec<CellPart>,
    // Beside the other parts of a cell a kind would take four more bytes.
    pub kinds: Vec<Option<Kind>>,
    pub elements: Elements,
}

/// The place of the first element of a cell, or where all elements end if there is no such cell.
pub fn start_at(parts: &[CellPart], i: usize, total: usize) -> usize
    ensures { result ≡ start_at parts.now i total }
{
    match parts.get(i) {
        Some(part) => part.first as usize,
        None => total,
    }
}

impl Held {
    /// No cells, given no elements, of which is kept what is to be kept.
    pub fn new(alloc: Global, elements: Elements) -> Held
        requires { Keeps elements [] }
        ensures held { IsHeld [] result }
        ensures small { IsSmall result }
        ensures elements { result.elements ≡ elements }
    {
        Held {
            parts: Vec::new(alloc),
            kinds: Vec::new(alloc),
            elements,
        }
    }

    // Appends a cell, whose elements were appended already from a place on. Returns an
    // error if memory is lacking, or if there are more cells and elements than are held.
    #[inline(always)]
    pub(crate) fn push(&mut self, part: CellPart, kind: Option<Kind>) -> Result<(), AllocError>
        ensures parts { OnOk result (self.new.parts.items ≡ self.old.parts.items ++ part ∷ []) }
        ensures kinds { OnOk result (self.new.kinds.items ≡ self.old.kinds.items ++ kind ∷ []) }
        ensures elements { OnOk result (self.new.elements ≡ self.old.elements) }
        ensures small { OnOk result (IsSmall self.new) }
    {
        self.parts.push(part)?;
        self.kinds.push(kind)?;
        if self.parts.len() > MOST || self.elements.len() > MOST - self.parts.len() {
            return Err(AllocError);
        }
        Ok(())
    }

    /// Lets go of all cells, and keeps the room that they took.
    pub fn clear(&mut self)
        ensures { IsSmall self.new }
    {
        self.parts.clear();
        self.kinds.clear();
        self.elements.clear();
    }
}
