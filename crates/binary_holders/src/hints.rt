// A table of hints that is asked before the search by the order of numbers.
ghost use Rattle.std.specs.Prelude.{◌≡◌, ◌<◌, length, slice_index, IfSome};
ghost use Rattle.binary_holders.specs.Inner.Places.{numbers_in};

use crate::targets::Binary;
use std::alloc::{AllocError, Global};

// The place of a binary for each slot. Nothing is promised of a hint, since it is compared where it is used.
#[derive(Drop)]
pub(crate) struct Hints {
    slots: Vec<u32>,
}

// An odd number with which a number is multiplied, so that all its bits reach
// the upper half: 2^64 divided by the golden ratio, which spreads equal steps best.
const SPREAD: u64 = 11_400_714_819_323_198_485;

// The slot of a number in a table of `slots` slots.
fn slot_of(number: u64, slots: usize) -> usize {
    let mixed = number.wrapping_mul(SPREAD) >> 32;
    (mixed.wrapping_mul(slots as u64) >> 32) as usize
}

impl Hints {
    // The hints for these binaries, in four times as many slots. Of
    // the binaries whose numbers have the same slot, the last has it.
    pub(crate) fn of(alloc: Global, binaries: &[Binary]) -> Result<Hints, AllocError> {
        let count = binaries.len().saturating_mul(4);
        let mut slots = vec![in alloc; 0u32; count]?;
        for place in 0..binaries.len().min(u32::MAX as usize) {
            if let Some(slot) = slots.get_mut(slot_of(binaries[place].number, count)) {
                *slot = place as u32;
            }
        }
        Ok(Hints { slots })
    }

    // The place of the binary with a number, if the hint in its slot is right.
    #[inline(always)]
    pub(crate) fn find(&self, binaries: &[Binary], number: u64) -> Option<usize>
        ensures within { IfSome result (λ place. place < length binaries.now) }
        ensures number { IfSome result (λ place. slice_index (numbers_in binaries.now) place
            ≡ number) }
    {
        let hint = *self.slots.get(slot_of(number, self.slots.len()))? as usize;
        let binary = binaries.get(hint)?;
        if binary.number == number {
            Some(hint)
        } else {
            None
        }
    }
}
