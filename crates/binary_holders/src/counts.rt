// Counting what a heap refers to.
ghost use Rattle.std.specs.Prelude.{◌≡◌, [], ◌∷◌, ◌+◌, ◌-◌, ◌<◌, ◌^◌, ◌&&◌, not, ℕ, List, ◌++◌, length, IfOk, slice_index, slice_set, min, if◌then◌else◌};
ghost use Rattle.binary_holders.specs.declared.targets.Binary.{Binary};
ghost use Rattle.binary_holders.specs.Inner.Counting.{HasCounted, HasRoom, Adds, AddsNumbers, KeepsRoom, counted, first_with, line_more, no_lines};
ghost use Rattle.binary_holders.specs.Inner.Places.{numbers_in};
ghost use Rattle.binary_holders.specs.StoredBinaries.{is_among};

use crate::rows::{Holding, WholeLines};
use crate::targets::Targets;
use crate::texts::Reference;
use std::alloc::{AllocError, Global};
use text_groups::capped;

/// The lines of a heap that refer to binaries: how many there are, how many of them refer
/// to one of the targets, and the address of the first of these, or 0.
#[derive(Clone, Copy, Drop)]
pub(crate) struct HeapLines {
    pub lines: u64,
    pub cells: u64,
    pub first: u64,
}

/// What has been counted so far. Of the heap whose turn it is: how many binaries it holds,
/// of how many bytes, and its lines. Of all heaps: how many lines refer to binaries as a whole.
/// For each binary: the turn of the last heap that holds it, and how many heaps do.
#[derive(Drop)]
pub(crate) struct Counts {
    pub turn: u32,
    pub count: u64,
    pub total: u128,
    pub heap: HeapLines,
    pub lines: WholeLines,
    pub seen: Vec<u32>,
    pub holders: Vec<u32>,
}

// A count with one more, if something counts. It doesn't go beyond the end of its type.
fn count_if(count: u64, counts: bool) -> u64
    ensures { result ≡ min (count + (if counts then 1 else 0)) (2 ^ 64 - 1) }
{
    if counts {
        count.saturating_add(1)
    } else {
        count
    }
}

// A heap of which no line was counted yet.
const NO_LINES: HeapLines = HeapLines {
    lines: 0,
    cells: 0,
    first: 0,
};

// The address of the first line that refers to a target, once a line with an address was counted.
fn first_with(heap: HeapLines, address: u64, known: bool) -> u64
    ensures { result ≡ first_with address known heap }
{
    if known && heap.cells == 0 {
        address
    } else {
        heap.first
    }
}

// The lines of a heap with one more, which has an address, and refers to a target or not.
fn line_more(heap: HeapLines, address: u64, known: bool) -> HeapLines
    ensures { result ≡ line_more address known heap }
{
    HeapLines {
        lines: heap.lines.saturating_add(1),
        cells: count_if(heap.cells, known),
        first: first_with(heap, address, known),
    }
}

impl Counts {
    /// Nothing has been counted of the first heap yet, for this many binaries.
    pub fn new(alloc: Global, count: usize) -> Result<Counts, AllocError>
        ensures turn { IfOk result (λ counts. counts.turn ≡ 1) }
        ensures room { IfOk result (HasRoom count) }
        ensures counted { IfOk result (λ counts. (binaries : List Binary)
            → length binaries ≡ count → HasCounted binaries [] [] counts) }
        ensures heap { IfOk result (λ counts. counts.heap ≡ no_lines) }
        ensures lines { IfOk result (λ counts. counts.lines ≡ record { count = 0; unstored = 0 }) }
    {
        let seen = vec![in alloc; 0u32; count]?;
        let holders = vec![in alloc; 0u32; count]?;
        Ok(Counts {
            turn: 1,
            count: 0,
            total: 0,
            heap: NO_LINES,
            lines: WholeLines {
                count: 0,
                unstored: 0,
            },
            seen,
            holders,
        })
    }

    /// Passes the turn to the next heap.
    pub fn turn(&mut self)
        requires { self.old.turn + 1 < 2 ^ 32 }
        ensures turn { self.new.turn ≡ self.old.turn + 1 }
        ensures room { (count : ℕ) → HasRoom count self.old → HasRoom count self.new }
        ensures counted { (binaries : List Binary) (heaps : List (List ℕ)) (references : List ℕ)
            → HasCounted binaries heaps references self.old
            → HasCounted binaries (heaps ++ references ∷ []) [] self.new }
        ensures heap { self.new.heap ≡ no_lines }
        ensures lines { self.new.lines ≡ self.old.lines }
    {
        self.turn += 1;
        self.count = 0;
        self.total = 0;
        self.heap = NO_LINES;
    }

    // The binary at a place is held, and wasn't before. No count
    // reaches the end of its type: the turn is the number of the heap.
    fn hold(&mut self, place: usize, size: u64)
        requires seen { place < length self.old.seen.items }
        requires holders { place < length self.old.holders.items }
        ensures turn { self.new.turn ≡ self.old.turn }
        ensures seen { self.new.seen.items ≡ slice_set self.old.seen.items place self.old.turn }
        ensures holders { self.new.holders.items
            ≡ slice_set self.old.holders.items place
            (min (slice_index self.old.holders.items place + 1) (2 ^ 32 - 1)) }
        ensures count { self.new.count ≡ min (self.old.count + 1) (2 ^ 64 - 1) }
        ensures total { self.new.total ≡ min (self.old.total + size) (2 ^ 128 - 1) }
        ensures heap { self.new.heap ≡ self.old.heap }
        ensures lines { self.new.lines ≡ self.old.lines }
    {
        self.seen[place] = self.turn;
        self.holders[place] = self.holders[place].saturating_add(1);
        self.count = self.count.saturating_add(1);
        self.total = self.total.saturating_add(u128::from(size));
    }

    // A line refers to the binary with this number. Returns whether that is one of the targets.
    fn add_number(&mut self, targets: &Targets, number: u64) -> bool
        requires { HasRoom (length targets.now) self.old }
        ensures room { KeepsRoom self.old self.new }
        ensures adds { AddsNumbers targets.now self.old self.new (number ∷ []) }
        ensures heap { self.new.heap ≡ self.old.heap }
        ensures lines { self.new.lines ≡ self.old.lines }
        ensures known { result ≡ is_among (numbers_in targets.now) number }
    {
        let Some(place) = targets.place(number) else {
            return false;
        };
        if self.seen[place] != self.turn {
            self.hold(place, targets.binaries()[place].size);
        }
        true
    }

    // A line has this reference, to one of the targets or not.
    fn add_line(&mut self, reference: Reference, known: bool)
        ensures room { KeepsRoom self.old self.new }
        ensures counted { (binaries : List Binary) (heaps : List (List ℕ)) (references : List ℕ)
            → HasCounted binaries heaps references self.old
            → HasCounted binaries heaps references self.new }
        ensures heap { self.new.heap ≡ line_more reference.address known self.old.heap }
        ensures count { self.new.lines.count
            ≡ min (self.old.lines.count + (if reference.whole then 1 else 0)) (2 ^ 64 - 1) }
        ensures unstored { let gone = reference.whole && not known in self.new.lines.unstored
            ≡ min (self.old.lines.unstored + (if gone then 1 else 0)) (2 ^ 64 - 1) }
    {
        self.heap = line_more(self.heap, reference.address, known);
        self.lines = WholeLines {
            count: count_if(self.lines.count, reference.whole),
            unstored: count_if(self.lines.unstored, reference.whole && !known),
        };
    }

    /// Counts a reference.
    pub fn add(&mut self, targets: &Targets, reference: Reference)
        requires { HasRoom (length targets.now) self.old }
        ensures room { KeepsRoom self.old self.new }
        ensures adds { Adds targets.now self.old self.new (reference ∷ []) }
    {
        let known = self.add_number(targets, reference.number);
        self.add_line(reference, known);
    }

    /// What the process at a place holds, from its heap, and from what the node counted for it.
    pub fn holding(&self, process: usize, bytes: u128) -> Holding
        ensures { result ≡ counted process bytes self.now }
    {
        Holding {
            process,
            counted: bytes,
            bytes: capped(self.total),
            total: self.total,
            count: self.count,
            lines: self.heap.lines,
            cells: self.heap.cells,
            first: self.heap.first,
        }
    }
}
