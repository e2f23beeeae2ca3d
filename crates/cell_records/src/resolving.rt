// Resolving references to the cells that they lead to.
ghost use Rattle.std.specs.Prelude.{◌≡◌, ◌<◌, ◌++◌, length, slice_index_or, map, IfOk, OnOk, ◌^◌, []};
ghost use Rattle.cell_records.specs.Order.{AreAllFirst, AreRanked, IsRanking};
ghost use Rattle.cell_records.specs.Resolving.{settled, AreSettled};
ghost use Rattle.cell_records.specs.Inner.References.{reference_of, found_at, AreReferences, IsHalfSettled};

use crate::cells::{CellIx, Slot};
use crate::located::Located;
use crate::near::Near;
use crate::ranks::Ranks;
use crate::search::Search;
use std::alloc::{AllocError, Global};

fn push_reference(
    alloc: Global,
    references: &mut Ranks,
    slot: Slot,
    place: u32,
) -> Result<(), AllocError>
    ensures { OnOk result (references.new ≡ references.old ++ reference_of slot place) }
{
    if let Slot::Gone(address) = slot {
        references.push(alloc, address, place)?;
    }
    Ok(())
}

// The address of the first pair.
fn first_address(ranks: &Ranks) -> u64
    ensures { result ≡ (slice_index_or ranks.now 0 (0, 0)).0 }
{
    if ranks.len() == 0 { 0 } else { ranks.get(0).0 }
}

// Appends the address of each slot that is a reference, with the place of the slot.
fn push_references(alloc: Global, references: &mut Ranks, slots: &[Slot]) -> Result<(), AllocError>
    requires few { length slots.now < 2 ^ 32 }
    requires none { references.old ≡ [] }
    ensures { OnOk result (AreReferences slots.now references.new) }
{
    for i in 0..slots.len() {
        push_reference(alloc, references, slots[i], i as u32)?;
    }
    Ok(())
}

// The address of each slot that is a reference, with the place of the slot.
fn references_of(alloc: Global, slots: &[Slot], ranks: &Ranks) -> Result<Ranks, AllocError>
    requires { length slots.now < 2 ^ 32 }
    ensures { IfOk result (AreReferences slots.now) }
{
    let mut references = Ranks::around(alloc, first_address(ranks), slots.len(), 0)?;
    push_references(alloc, &mut references, slots)?;
    Ok(references)
}

fn put_cell(slots: &mut [Slot], place: usize, number: Option<u32>)
    requires { place < length slots.old }
    ensures { slots.new ≡ found_at slots.old place number }
{
    if let Some(n) = number {
        slots[place] = Slot::Cell(CellIx::new(n));
    }
}

// Makes each of these references to the address of a cell that cell. If their addresses ascend, one pass finds the cells.
fn resolve_each(slots: &mut [Slot], references: &Ranks, ranks: &Ranks)
    requires references { AreReferences slots.old references.now }
    requires ranking { IsRanking ranks.now }
    ensures { AreSettled ranks.now slots.old slots.new }
{
    let mut search = Search::new(ranks);
    for k in 0..references.len() {
        let (address, place) = references.get(k);
        let number = search.find(address);
        put_cell(slots, place as usize, number);
    }
}

// Makes each reference to the address of a cell that cell, if there is memory.
fn resolve_part(alloc: Global, slots: &mut [Slot], ranks: &Ranks) -> Result<(), AllocError>
    requires few { length slots.old < 2 ^ 32 }
    requires ranking { IsRanking ranks.now }
    ensures { OnOk result (AreSettled ranks.now slots.old slots.new) }
{
    let mut references = references_of(alloc, slots, ranks)?;
    references.sort();
    resolve_each(slots, &references, ranks);
    Ok(())
}

// Resolves the references in parts, by repeated halving, so that only those of one part at a time take memory.
fn resolve_parts(
    alloc: Global,
    slots: &mut [Slot],
    ranks: &Ranks,
    halvings: u32,
) -> Result<(), AllocError>
    requires few { length slots.old < 2 ^ 32 }
    requires ranking { IsRanking ranks.now }
    ensures { OnOk result (AreSettled ranks.now slots.old slots.new) }
{
    if halvings == 0 {
        return resolve_part(alloc, slots, ranks);
    }
    let half = slots.len() / 2;
    let (first, rest) = slots.split_at_mut(half);
    resolve_parts(alloc, first, ranks, halvings - 1)?;
    resolve_parts(alloc, rest, ranks, halvings - 1)
}

// The slot with its reference resolved, if that is easily told.
fn settled_near<T: Located>(slot: Slot, ranks: &Ranks, cells: &[T], near: &mut Near) -> Slot
    requires ranked { AreRanked (map T.address cells.now) ranks.now }
    requires distinct { AreAllFirst (map T.address cells.now) }
    ensures { IsHalfSettled (map T.address cells.now) slot result }
{
    let Slot::Gone(address) = slot else {
        return slot;
    };
    match near.find(ranks, cells, address) {
        Some(number) => Slot::Cell(CellIx::new(number)),
        None => slot,
    }
}

// Resolves the references that are easily told.
fn resolve_near<T: Located>(slots: &mut [Slot], ranks: &Ranks, cells: &[T])
    requires ranked { AreRanked (map T.address cells.now) ranks.now }
    requires distinct { AreAllFirst (map T.address cells.now) }
    ensures count { length slots.new ≡ length slots.old }
    ensures half { map (settled (map T.address cells.now)) slots.new
        ≡ map (settled (map T.address cells.now)) slots.old }
{
    let mut near = Near::new();
    for i in 0..slots.len() {
        slots[i] = settled_near(slots[i], ranks, cells, &mut near);
    }
}

// Makes each reference to the address of a cell that cell, if there is memory: first
// those that are easily told, then the others, whose addresses are sorted.
fn resolve<T: Located>(
    alloc: Global,
    slots: &mut [Slot],
    ranks: &Ranks,
    cells: &[T],
) -> Result<(), AllocError>
    requires few { length slots.old < 2 ^ 32 }
    requires ranked { AreRanked (map T.address cells.now) ranks.now }
    requires distinct { AreAllFirst (map T.address cells.now) }
    ensures { OnOk result (slots.new ≡ map (settled (map T.address cells.now)) slots.old) }
{
    resolve_near(slots, ranks, cells);
    resolve_parts(alloc, slots, ranks, 2)
}

/// The slots, with each reference to the address of a cell resolved to that cell, if there is
/// memory. The pairs are the addresses of the cells with their numbers, sorted.
pub fn resolved<T: Located>(
    alloc: Global,
    mut slots: Vec<Slot>,
    ranks: &Ranks,
    cells: &[T],
) -> Result<Vec<Slot>, AllocError>
    requires few { length slots.items < 2 ^ 32 }
    requires ranked { AreRanked (map T.address cells.now) ranks.now }
    requires distinct { AreAllFirst (map T.address cells.now) }
    ensures { IfOk result (λ new. new.items ≡ map (settled (map T.address cells.now)) slots.items) }
{
    resolve(alloc, &mut slots, ranks, cells)?;
    Ok(slots)
}
