// Pids with the places of their sections, in dump order, and how a pid is found among
// them: by their order, since whoever writes a dump could give all pids one hash.
ghost use Rattle.std.specs.Prelude.{◌≡◌, ◌<◌, List, length, position, OnOk, IfOk, IfSome};
ghost use Rattle.std.specs.BTreeMap.{IsOrdered, values};
ghost use Rattle.std.specs.Cmp.Lexicographic.{slice_cmp};
ghost use Rattle.std.specs.Ordering.{nat_cmp};
ghost use Rattle.process_table.specs.declared.pids.PidPlace.{PidPlace};
ghost use Rattle.process_table.specs.Inner.Finding.{AreNumbered, AreOrdered, AreOwn, AreRanked, AreRising, HasGained, has_pid, is_behind, pid_at, rising_cmp};

use std::alloc::{AllocError, Global};
use std::cmp::Ordering;
use std::collections::BTreeMap;

// A pid, and the place of the first section that has it.
#[derive(Drop)]
pub(crate) struct PidPlace {
    pub pid: Vec<u8>,
    pub section: usize,
}

// The order by which pids are looked up.
#[derive(Drop)]
pub(crate) enum PidOrder {
    // Each pid is greater than those before it, as in the dumps of real
    // nodes that were examined: the places themselves are searched.
    Rising,
    // Some pid isn't. These are the numbers of all pids, in the order of their bytes.
    Ranked(Vec<u32>),
}

// How pids compare where they rise: a shorter one is less, so that `<0.9.0>` comes
// before `<0.10.0>`, and of two with the same length the one whose bytes are less.
fn compare_rising(pid: &[u8], other: &[u8]) -> Ordering
    ensures { result ≡ rising_cmp pid.now other.now }
{
    (pid.len(), pid).cmp(&(other.len(), other))
}

// Whether a pid is greater than the last one, if there is one.
pub(crate) fn comes_behind(places: &[PidPlace], pid: &[u8]) -> bool
    ensures { result ≡ is_behind places.now pid.now }
{
    match places.last() {
        Some(last) => compare_rising(last.pid.as_slice(), pid).is_lt(),
        None => true,
    }
}

// Appends a pid and the place of its section.
pub(crate) fn push_place(
    alloc: Global,
    places: &mut Vec<PidPlace>,
    pid: &[u8],
    section: usize,
) -> Result<(), AllocError>
    ensures { OnOk result (HasGained places.old.items places.new.items pid.now section) }
{
    let pid = Vec::from_slice(alloc, pid)?;
    places.push(PidPlace { pid, section })?;
    Ok(())
}

// The pid with a number; past the last one, an empty text.
fn pid_at(places: &[PidPlace], number: u32) -> &[u8]
    ensures { result.now ≡ pid_at places.now number }
{
    match places.get(number as usize) {
        Some(place) => place.pid.as_slice(),
        None => b"",
    }
}

// How the pid with a number compares to another one.
fn compare(places: &[PidPlace], number: u32, pid: &[u8]) -> Ordering
    ensures { result ≡ slice_cmp nat_cmp (pid_at places.now number) pid.now }
{
    pid_at(places, number).cmp(pid)
}

// The numbers in a tree, in the order of its keys.
fn values_of(alloc: Global, numbers: &BTreeMap<&[u8], u32>) -> Result<Vec<u32>, AllocError>
    ensures values { IfOk result (λ order. order.items ≡ values numbers.now) }
    ensures ordered { IsOrdered (λ x y. slice_cmp nat_cmp x.now y.now) numbers.now }
{
    numbers.values().copied().collect(alloc)
}

// The numbers in the order of their pids.
pub(crate) fn order_of(
    alloc: Global,
    numbers: &BTreeMap<&[u8], u32>,
) -> Result<Vec<u32>, AllocError>
    ensures { IfOk result (λ order. (places : List PidPlace) → AreNumbered numbers.now places
        → AreRanked places order.items) }
{
    values_of(alloc, numbers)
}

// The number of a pid, among pids that rise.
fn rising_number(places: &[PidPlace], pid: &[u8]) -> Option<usize>
    requires own { AreOwn places.now }
    requires rising { AreRising places.now }
    ensures number { result ≡ position (has_pid pid.now) places.now }
    ensures within { IfSome result (λ i. i < length places.now) }
{
    match places.binary_search_by(|place| compare_rising(place.pid.as_slice(), pid)) {
        Ok(number) => Some(number),
        Err(_) => None,
    }
}

// The number of a pid, found by the order of all pids.
fn ranked_number(places: &[PidPlace], order: &[u32], pid: &[u8]) -> Option<usize>
    requires { AreRanked places.now order.now }
    ensures number { result ≡ position (has_pid pid.now) places.now }
    ensures within { IfSome result (λ i. i < length places.now) }
{
    match order.binary_search_by(|number| compare(places, *number, pid)) {
        Ok(at) => Some(order[at] as usize),
        Err(_) => None,
    }
}

// The number of a pid.
pub(crate) fn number_of(places: &[PidPlace], order: &PidOrder, pid: &[u8]) -> Option<usize>
    requires { AreOrdered places.now order.now }
    ensures number { result ≡ position (has_pid pid.now) places.now }
    ensures within { IfSome result (λ i. i < length places.now) }
{
    match order {
        PidOrder::Rising => rising_number(places, pid),
        PidOrder::Ranked(order) => ranked_number(places, order.as_slice(), pid),
    }
}
