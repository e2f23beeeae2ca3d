// A table of hints that is asked before the search by the order of pids: pids that are
// looked up one after another are mostly close to each other, and so are their slots.
ghost use Rattle.std.specs.Prelude.{◌≡◌, ◌<◌, ◌≤◌, length, position, Some, IfSome};
ghost use Rattle.dump_io.specs.Limits.{usual};
ghost use Rattle.process_table.specs.Inner.Finding.{AreOwn, has_pid};

use crate::pids::PidPlace;
use std::alloc::{AllocError, Global};

// The number of a pid for each slot. Nothing is promised of a hint, since it is compared where it is used.
#[derive(Drop)]
pub(crate) struct Hints {
    slots: Vec<u32>,
}

// The second number of a pid, such as 123 of `<0.123.0>`. Any other text gives some number too.
fn number_in(pid: &[u8]) -> usize {
    let mut number = 0usize;
    for i in 3..pid.len() {
        let digit = pid[i].wrapping_sub(b'0');
        if digit > 9 {
            break;
        }
        number = number.wrapping_mul(10).wrapping_add(digit as usize);
    }
    number
}

// The slot of a pid in a table of `slots` slots, whose number is a power of two.
fn slot_of(pid: &[u8], slots: usize) -> usize {
    number_in(pid) & slots.wrapping_sub(1)
}

impl Hints {
    // The hints for these pids, in at least twice as many
    // slots. Of the pids with the same slot, the last has it.
    pub(crate) fn of(alloc: Global, places: &[PidPlace]) -> Result<Hints, AllocError>
        requires { length places.now ≤ usual.sections }
    {
        let count = (2 * places.len()).next_power_of_two();
        let mut slots = vec![in alloc; 0u32; count]?;
        for i in 0..places.len() {
            if let Some(slot) = slots.get_mut(slot_of(places[i].pid.as_slice(), count)) {
                *slot = i as u32;
            }
        }
        Ok(Hints { slots })
    }

    // The number of a pid, if the hint in its slot is right.
    pub(crate) fn find(&self, places: &[PidPlace], pid: &[u8]) -> Option<usize>
        requires { AreOwn places.now }
        ensures number { IfSome result (λ i. position (has_pid pid.now) places.now ≡ Some i) }
        ensures within { IfSome result (λ i. i < length places.now) }
    {
        let hint = *self.slots.get(slot_of(pid, self.slots.len()))? as usize;
        let place = places.get(hint)?;
        if pid == place.pid.as_slice() {
            Some(hint)
        } else {
            None
        }
    }
}
