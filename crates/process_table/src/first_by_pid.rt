// Finding the first section of each process.
ghost use Rattle.std.specs.Prelude.{◌≡◌, ◌+◌, ◌<◌, ◌≤◌, ◌^◌, true, length, take, slice_get, Some, OnOk, IfOk, IfSome};
ghost use Rattle.std.specs.Option.{option_copied};
ghost use Rattle.dump_io.specs.Limits.{usual};
ghost use Rattle.dump_sections.specs.Index.{sections_in};
ghost use Rattle.dump_sections.specs.Bodies.{section_at};
ghost use Rattle.process_table.specs.Records.{placed_sections};
ghost use Rattle.process_table.specs.Inner.Finding.{AreFound, AreFoundRising, AreNumbered, AreOrdered, AreOwn, AreRanked, pid_in};

use crate::pids::{PidOrder, PidPlace, comes_behind, order_of, push_place};
use dump_sections::Index;
use std::alloc::{AllocError, Global};
use std::collections::BTreeMap;

// The first sections of processes, in dump order, and how many further sections of processes there are.
#[derive(Drop)]
pub(crate) struct Found {
    pub places: Vec<PidPlace>,
    pub repeated: u64,
}

// The pid, if the section at a place is that of a process.
fn pid_of(index: &Index, i: usize) -> Option<&[u8]>
    requires { i < length index.now.headers }
    ensures pid { option_copied result ≡ pid_in (section_at index.now i) }
    ensures section { slice_get (sections_in index.now) i ≡ Some (section_at index.now i) }
{
    let section = index.section(i);
    if section.tag == b"proc".as_slice() {
        section.id
    } else {
        None
    }
}

// Takes the section at a place, after those before it, whose pids the tree maps to their numbers.
fn find_at<'a>(
    alloc: Global,
    found: &mut Found,
    numbers: &mut BTreeMap<&'a [u8], u32>,
    index: &'a Index,
    i: usize,
) -> Result<(), AllocError>
    requires place { i < length index.now.headers }
    requires few { i < 2 ^ 32 }
    requires before { AreFound found.old (take i (placed_sections (sections_in index.now))) }
    requires numbered { AreNumbered numbers.old found.old.places.items }
    ensures found { OnOk result (AreFound found.new
        (take (i + 1) (placed_sections (sections_in index.now)))) }
    ensures numbered { OnOk result (AreNumbered numbers.new found.new.places.items) }
{
    let Some(pid) = pid_of(index, i) else {
        return Ok(());
    };
    if numbers.contains_key(pid) {
        found.repeated += 1;
        return Ok(());
    }
    numbers.insert(pid, found.places.len() as u32)?;
    push_place(alloc, &mut found.places, pid, i)?;
    Ok(())
}

// Finds the first section of each process, and the order of their pids, in whatever order they come.
fn find_ranked(alloc: Global, index: &Index) -> Result<(Found, Vec<u32>), AllocError>
    ensures found { IfOk result (λ found. AreFound found.0
        (placed_sections (sections_in index.now))) }
    ensures own { IfOk result (λ found. AreOwn found.0.places.items) }
    ensures ranked { IfOk result (λ found. AreRanked found.0.places.items found.1.items) }
    ensures count { IfOk result (λ found. length found.0.places.items ≤ usual.sections) }
{
    let mut found = Found {
        places: Vec::new(alloc),
        repeated: 0,
    };
    let mut numbers = BTreeMap::new(alloc);
    for i in 0..index.len() {
        find_at(alloc, &mut found, &mut numbers, index, i)?;
    }
    let order = order_of(alloc, &numbers)?;
    Ok((found, order))
}

// Takes the section at a place, after those before it, whose pids rise.
// Returns whether they still do; if they don't, nothing is taken.
fn find_rising_at(
    alloc: Global,
    places: &mut Vec<PidPlace>,
    index: &Index,
    i: usize,
) -> Result<bool, AllocError>
    requires place { i < length index.now.headers }
    requires before { AreFoundRising places.old (take i (placed_sections (sections_in index.now))) }
    ensures { IfOk result (λ rises. rises ≡ true → AreFoundRising places.new
        (take (i + 1) (placed_sections (sections_in index.now)))) }
{
    let Some(pid) = pid_of(index, i) else {
        return Ok(true);
    };
    if !comes_behind(places.as_slice(), pid) {
        return Ok(false);
    }
    push_place(alloc, places, pid, i)?;
    Ok(true)
}

// Finds the first section of each process, if each pid is greater than those before it: then none
// is repeated, and no further check is needed that it is new. Returns `None` if some pid isn't.
fn find_rising(alloc: Global, index: &Index) -> Result<Option<Vec<PidPlace>>, AllocError>
    ensures found { IfOk result (λ found. IfSome found
        (λ places. AreFoundRising places (placed_sections (sections_in index.now)))) }
    ensures count { IfOk result (λ found. IfSome found
        (λ places. length places.items ≤ usual.sections)) }
{
    let mut places = Vec::new(alloc);
    for place in 0..index.len() {
        if !find_rising_at(alloc, &mut places, index, place)? {
            return Ok(None);
        }
    }
    Ok(Some(places))
}

// Finds the first section of each process of an index, and the order of their pids.
pub(crate) fn find(alloc: Global, index: &Index) -> Result<(Found, PidOrder), AllocError>
    ensures found { IfOk result (λ found. AreFound found.0
        (placed_sections (sections_in index.now))) }
    ensures ordered { IfOk result (λ found. AreOrdered found.0.places.items found.1) }
    ensures count { IfOk result (λ found. length found.0.places.items ≤ usual.sections) }
{
    if let Some(places) = find_rising(alloc, index)? {
        let found = Found {
            places,
            repeated: 0,
        };
        return Ok((found, PidOrder::Rising));
    }
    let (found, order) = find_ranked(alloc, index)?;
    Ok((found, PidOrder::Ranked(order)))
}
