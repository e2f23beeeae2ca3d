// Where the elements of cells lead while not all cells are known.
ghost use Rattle.std.specs.Prelude.{◌≡◌, ◌∷◌, [], take, OnOk};
ghost use Rattle.heap_graph.specs.Leads.{mark, Pushes};

use std::alloc::{AllocError, Global};

// Stands for no cell.
pub const NOWHERE: u32 = u32::MAX;

// Stand for elements whose addresses aren't resolved yet.
pub const CELL: u32 = 0;

pub const BINARY: u32 = 1;

/// Where an element leads.
#[derive(Clone, Copy)]
pub enum Lead {
    /// To no cell.
    Nowhere,
    /// To the cell with this address, if there is one.
    Cell(u64),
    /// To the heap binary with this address, if there is one.
    Binary(u64),
}

/// Where elements lead, in order.
#[derive(Drop)]
pub struct Leads {
    /// For each element whether it has an address, and which kind of cell it leads to.
    pub marks: Vec<u32>,
    /// The addresses of those elements that have one.
    pub references: Vec<u64>,
}

fn mark(lead: Lead) -> u32
    ensures { result ≡ mark lead }
{
    match lead {
        Lead::Nowhere => NOWHERE,
        Lead::Cell(_) => CELL,
        Lead::Binary(_) => BINARY,
    }
}

impl Leads {
    // No elements.
    pub(crate) fn new(alloc: Global) -> Leads
        ensures marks { result.marks.items ≡ [] }
        ensures references { result.references.items ≡ [] }
    {
        Leads {
            marks: Vec::new(alloc),
            references: Vec::new(alloc),
        }
    }

    // Appends an element.
    pub(crate) fn push(&mut self, lead: Lead) -> Result<(), AllocError>
        ensures { OnOk result (Pushes self.old self.new (lead ∷ [])) }
    {
        self.marks.push(mark(lead))?;
        match lead {
            Lead::Nowhere => {}
            Lead::Cell(address) | Lead::Binary(address) => self.references.push(address)?,
        }
        Ok(())
    }

    // Takes back all elements but the first ones.
    pub(crate) fn truncate(&mut self, marks: usize, references: usize)
        ensures marks { self.new.marks.items ≡ take marks self.old.marks.items }
        ensures references { self.new.references.items ≡ take references self.old.references.items }
    {
        self.marks.truncate(marks);
        self.references.truncate(references);
    }
}
