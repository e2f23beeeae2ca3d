// Elements whose cells aren't easily told.
ghost use Rattle.std.specs.Prelude.{◌≡◌, IfOk, OnOk};
ghost use Rattle.heap_skeleton.specs.Inner.Resolving.{far_with, no_far};

use cell_records::Ranks;
use std::alloc::{AllocError, Global};

/// The addresses of elements whose cells are looked up later, each with the place of its element among all.
#[derive(Drop)]
pub(crate) struct Far {
    /// Of elements that lead to any cell.
    pub cells: Ranks,
    /// Of elements that lead to heap binaries alone.
    pub binaries: Ranks,
}

// The address of the first pair, or 0 if there is none.
fn first_address(ranks: &Ranks) -> u64 {
    if ranks.len() == 0 { 0 } else { ranks.get(0).0 }
}

impl Far {
    // No elements yet, of at most so many, which mostly lead to the cells of these pairs.
    pub(crate) fn new(alloc: Global, ranks: &Ranks, elements: usize) -> Result<Far, AllocError>
        ensures { IfOk result (λ far. far ≡ no_far) }
    {
        let first = first_address(ranks);
        Ok(Far {
            cells: Ranks::around(alloc, first, elements, 0)?,
            binaries: Ranks::around(alloc, first, elements, 0)?,
        })
    }

    // Appends an element.
    pub(crate) fn push(
        &mut self,
        alloc: Global,
        to_binary: bool,
        address: u64,
        place: u32,
    ) -> Result<(), AllocError>
        ensures { OnOk result (self.new ≡ far_with self.old to_binary (address, place)) }
    {
        if to_binary {
            self.binaries.push(alloc, address, place)
        } else {
            self.cells.push(alloc, address, place)
        }
    }
}
