// The parts that alone hold cells.
ghost use Rattle.std.specs.Prelude.{◌≡◌, ◌<◌, ◌++◌, length, take, All, IfOk, OnOk};
ghost use Rattle.std.specs.Option.{option_to_list};
ghost use Rattle.part_weights.specs.Held.{held_part, held_parts, sorted_parts};

use heap_weights::Weight;
use std::alloc::{AllocError, Global};
use text_groups::{Measured, sort_most_first};

/// A part that alone holds a cell.
#[derive(Clone, Copy)]
pub struct HeldPart {
    /// The number of the part.
    pub part: usize,
    /// What the part alone holds.
    pub weight: Weight,
}

impl Measured for HeldPart {
    ghost size = { λ held. held.weight.words };

    fn size(&self) -> u128 {
        self.weight.words
    }
}

// Appends a part, if it alone holds a cell.
fn push_held(held: &mut Vec<HeldPart>, part: usize, weight: Weight) -> Result<(), AllocError>
    ensures { OnOk result (held.new.items
        ≡ held.old.items ++ option_to_list (held_part (part, weight))) }
{
    if weight.cells > 0 {
        held.push(HeldPart { part, weight })?;
    }
    Ok(())
}

// The parts that alone hold a cell, in order, of parts that alone hold this.
fn held_parts(alloc: Global, alone: &[Weight]) -> Result<Vec<HeldPart>, AllocError>
    ensures { IfOk result (λ held. held.items ≡ held_parts alone.now) }
{
    let mut held = Vec::new(alloc);
    for part in 0..alone.len() {
        push_held(&mut held, part, alone[part])?;
    }
    Ok(held)
}

/// The first of the parts that alone hold a cell, at most `most`, those with the most words first.
pub fn first_held(alloc: Global, alone: &[Weight], most: usize) -> Result<Vec<HeldPart>, AllocError>
    ensures value { IfOk result (λ held. held.items ≡ take most (sorted_parts alone.now)) }
    ensures within { IfOk result (λ held. All (λ h. h.part < length alone.now) held.items) }
{
    let mut held = sorted_parts(alloc, alone)?;
    held.truncate(most);
    held.shrink_to_fit();
    Ok(held)
}

/// The parts that alone hold a cell, those with the most words first, of parts that alone hold this.
pub(crate) fn sorted_parts(alloc: Global, alone: &[Weight]) -> Result<Vec<HeldPart>, AllocError>
    ensures value { IfOk result (λ held. held.items ≡ sorted_parts alone.now) }
    ensures within { IfOk result (λ held. All (λ h. h.part < length alone.now) held.items) }
{
    let mut held = held_parts(alloc, alone)?;
    sort_most_first(&mut held)?;
    Ok(held)
}
