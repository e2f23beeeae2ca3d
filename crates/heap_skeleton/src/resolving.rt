// The numbers of the cells to which elements lead.
ghost use Rattle.std.specs.Prelude.{◌≡◌, ◌<◌, ◌^◌, List, None, length, map, slice_index_or, slice_set, OnOk, IfOk};
ghost use Rattle.cell_records.specs.Order.{AreAllFirst, AreRanked, IsRanking};
ghost use Rattle.heap_graph.specs.declared.leads.Lead.{Lead};
ghost use Rattle.heap_graph.specs.Held.{addresses_of};
ghost use Rattle.heap_graph.specs.Leads.{marks, references};
ghost use Rattle.heap_skeleton.specs.Inner.Resolving.{no_far, AreNearResolved, IsFarSettled, ResolvesNext};
ghost use Rattle.heap_skeleton.specs.Inner.Targets.{is_bin, number_for, resolved};

use crate::far::Far;
use cell_records::{Kind, Near, Ranks, Search};
use heap_graph::{BINARY, CellPart, NOWHERE};
use std::alloc::{AllocError, Global};

// Whether the cell with a number is a heap binary.
fn is_bin(kinds: &[Option<Kind>], number: u32) -> bool
    ensures { result ≡ is_bin (slice_index_or kinds.now number None) }
{
    match kinds.get(number as usize) {
        Some(Some(Kind::HeapBin)) => true,
        _ => false,
    }
}

// The number that stands for the cell that was found, which may have to be a heap binary.
fn number_for(kinds: &[Option<Kind>], to_binary: bool, found: Option<u32>) -> u32
    ensures { result ≡ number_for kinds.now to_binary found }
{
    let Some(number) = found else {
        return NOWHERE;
    };
    if to_binary && !is_bin(kinds, number) {
        return NOWHERE;
    }
    number
}

// Makes of the mark of the element at a place the number of the cell to which it leads, if that is easily told; otherwise
// the element is far. Given are the addresses of the elements from there on; returns those of the elements behind it.
fn resolve_next<'a>(
    alloc: Global,
    numbers: &mut [u32],
    i: usize,
    references: &'a [u64],
    ranks: &Ranks,
    parts: &[CellPart],
    kinds: &[Option<Kind>],
    near: &mut Near,
    far: &mut Far,
) -> Result<Option<&'a [u64]>, AllocError>
    requires place { i < length numbers.old }
    requires few { length numbers.old < 2 ^ 32 }
    requires ranked { AreRanked (addresses_of parts.now) ranks.now }
    requires distinct { AreAllFirst (addresses_of parts.now) }
    ensures { IfOk result (ResolvesNext (addresses_of parts.now) kinds.now i
        numbers.old references.now far.old numbers.new far.new) }
{
    let mark = numbers[i];
    if mark == NOWHERE {
        return Ok(Some(references));
    }
    let Some((address, behind)) = references.split_first() else {
        return Ok(None);
    };
    let to_binary = mark == BINARY;
    let Some(number) = near.find(ranks, parts, *address) else {
        far.push(alloc, to_binary, *address, i as u32)?;
        return Ok(Some(behind));
    };
    numbers[i] = number_for(kinds, to_binary, Some(number));
    Ok(Some(behind))
}

// Resolves the elements whose cells are easily told, given the addresses of those that have one. The others are far.
fn resolve_near(
    alloc: Global,
    numbers: &mut [u32],
    addresses: &[u64],
    ranks: &Ranks,
    parts: &[CellPart],
    kinds: &[Option<Kind>],
    far: &mut Far,
) -> Result<(), AllocError>
    requires few { length numbers.old < 2 ^ 32 }
    requires ranked { AreRanked (addresses_of parts.now) ranks.now }
    requires distinct { AreAllFirst (addresses_of parts.now) }
    requires none { far.old ≡ no_far }
    ensures { OnOk result ((leads : List Lead) → numbers.old ≡ marks leads → addresses.now ≡ references leads
        → AreNearResolved (addresses_of parts.now) kinds.now leads (length leads) numbers.new far.new) }
{
    let mut rest = addresses;
    let mut near = Near::new();
    for i in 0..numbers.len() {
        let next = resolve_next(alloc, numbers, i, rest, ranks, parts, kinds, &mut near, far)?;
        let Some(behind) = next else {
            return Ok(());
        };
        rest = behind;
    }
    Ok(())
}

// Keeps a number for the element at a place, if there is one.
fn put_number(numbers: &mut [u32], place: u32, number: u32)
    ensures { numbers.new ≡ slice_set numbers.old place number }
{
    let place = place as usize;
    if place < numbers.len() {
        numbers[place] = number;
    }
}

// Resolves elements that are far. If their addresses ascend, one pass finds the cells.
fn settle_far(
    numbers: &mut [u32],
    far: &Ranks,
    ranks: &Ranks,
    kinds: &[Option<Kind>],
    to_binary: bool,
)
    requires ranking { IsRanking ranks.now }
    ensures count { length numbers.new ≡ length numbers.old }
    ensures settled { IsFarSettled ranks.now kinds.now to_binary far.now numbers.old numbers.new (length far.now) }
{
    let mut search = Search::new(ranks);
    for k in 0..far.len() {
        let (address, place) = far.get(k);
        let found = search.find(address);
        let number = number_for(kinds, to_binary, found);
        put_number(numbers, place, number);
    }
}

// Makes of the mark of each element the number of the cell to which it leads, given the addresses of those that have one.
// Mostly an element leads to the cell behind the one to which the element before it led. The addresses of the others are sorted.
pub(crate) fn resolve(
    alloc: Global,
    numbers: &mut [u32],
    addresses: &[u64],
    ranks: &Ranks,
    parts: &[CellPart],
    kinds: &[Option<Kind>],
) -> Result<(), AllocError>
    requires few { length numbers.old < 2 ^ 32 }
    requires ranked { AreRanked (addresses_of parts.now) ranks.now }
    requires distinct { AreAllFirst (addresses_of parts.now) }
    ensures { OnOk result ((leads : List Lead) → numbers.old ≡ marks leads → addresses.now ≡ references leads
        → numbers.new ≡ map (resolved (addresses_of parts.now) kinds.now) leads) }
{
    let mut far = Far::new(alloc, ranks, numbers.len())?;
    resolve_near(alloc, numbers, addresses, ranks, parts, kinds, &mut far)?;
    let Far {
        mut cells,
        mut binaries,
    } = far;
    cells.sort();
    binaries.sort();
    settle_far(numbers, &cells, ranks, kinds, false);
    settle_far(numbers, &binaries, ranks, kinds, true);
    Ok(())
}
