// Where references mostly lead.
ghost use Rattle.std.specs.Prelude.{◌≡◌, Some, IfSome, map};
ghost use Rattle.cell_records.specs.Order.{number_with, AreAllFirst, AreRanked};

use crate::located::Located;
use crate::order::{number_near, stands_at};
use crate::ranks::Ranks;

// After how many references that led one cell further a search is worth its time, where one leads elsewhere.
const RUN: u32 = 8;

/// Where the next reference of a heap mostly leads: to the cell behind the one to which the last one led.
#[derive(Clone, Copy)]
pub struct Near {
    // The cell behind the one to which the last reference led that was found.
    cell: u32,
    // How many references in a row led there.
    run: u32,
}

impl Near {
    /// Before the first reference, which mostly leads to one of the first cells.
    pub fn new() -> Near {
        Near { cell: 0, run: RUN }
    }

    /// The number of the cell with an address, where no two cells have the same address, if it is easily told: if it
    /// is the one expected, or if so many references in a row led where they were expected that a search costs
    /// little beside them. `None` says nothing of the address.
    #[inline(always)]
    pub fn find<T: Located>(&mut self, ranks: &Ranks, cells: &[T], address: u64) -> Option<u32>
        requires ranked { AreRanked (map T.address cells.now) ranks.now }
        requires distinct { AreAllFirst (map T.address cells.now) }
        ensures { IfSome result (λ n. number_with (map T.address cells.now) address ≡ Some n) }
    {
        if self.run < RUN && !stands_at(cells, self.cell, address) {
            return None;
        }
        let number = number_near(ranks, cells, self.cell, address)?;
        self.run = if number == self.cell {
            self.run.saturating_add(1)
        } else {
            0
        };
        self.cell = number.saturating_add(1);
        Some(number)
    }
}
