// Down from the roots of a kind, level after level.
ghost use Rattle.std.specs.Prelude.{◌≡◌, ◌*◌, ◌<◌, ◌≤◌, ◌++◌, List, [], ◌∷◌, length, nat_lt, IfOk, OnOk};
ghost use Rattle.cell_parts.specs.Elements.{cell_elements};
ghost use Rattle.cell_parts.specs.Parts.{ArePartsOf, PartElement};
ghost use Rattle.cell_parts.specs.Over.{IsOver};
ghost use Rattle.heap_levels.specs.Levels.{heaviest};
ghost use Rattle.heap_levels.specs.Inner.Plain.{descent, elements_below, no_parts};
ghost use Rattle.heap_levels.specs.Inner.Descent.{shown_parts, IsDescent, IsDescentWithin};

use crate::level_parts::{LevelParts, no_level_parts};
use crate::level_rows::LevelRows;
use crate::levels::{KeyedLevel, Level, Subject, weigh_level};
use cell_parts::{Parts, add_elements};
use heap_skeleton::Skeleton;
use root_views::RootKind;
use std::alloc::{AllocError, Global};

// How many levels there are at most below level 0.
const MOST_LEVELS: usize = 19;

// Whether a number of words is more than half of a total.
pub(crate) fn is_most(words: u128, total: u128) -> bool
    ensures { result ≡ nat_lt total (2 * words) }
{
    match words.checked_mul(2) {
        Some(double) => total < double,
        None => true,
    }
}

// The address of the part that alone holds the most words, if these are more than half of a total.
fn heaviest(rows: &LevelRows, total: u128) -> Option<u64>
    ensures { result ≡ heaviest total rows.now }
{
    if rows.len() == 0 {
        return None;
    }
    let row = rows.row(0);
    if is_most(row.words, total) {
        Some(row.address)
    } else {
        None
    }
}

// The address of the cell whose elements are weighed on the level below, if there is to be one.
fn next_below(level: &Level, total: u128) -> Option<u64>
    ensures { result ≡ heaviest total level.now.rows }
{
    heaviest(level.all_rows(), total)
}

// No parts.
fn no_parts(alloc: Global, skeleton: &Skeleton) -> Result<Parts, AllocError>
    ensures over { IfOk result (IsOver skeleton.now) }
    ensures parts { IfOk result (ArePartsOf []) }
{
    Parts::new(alloc, skeleton.cells() as usize)
}

// The parts that the elements of a cell make.
fn parts_of_cell(alloc: Global, skeleton: &Skeleton, cell: u32) -> Result<Parts, AllocError>
    requires { cell < length skeleton.now.leads }
    ensures over { IfOk result (IsOver skeleton.now) }
    ensures parts { IfOk result (ArePartsOf
        (cell_elements skeleton.now.kinds skeleton.now.leads cell)) }
{
    let mut parts = no_parts(alloc, skeleton)?;
    add_elements(alloc, &mut parts, skeleton, cell)?;
    Ok(parts)
}

// The parts that the elements of the cell at an address make. They are none if there is no such cell.
fn parts_below(alloc: Global, skeleton: &Skeleton, address: u64) -> Result<Parts, AllocError>
    ensures over { IfOk result (IsOver skeleton.now) }
    ensures parts { IfOk result (ArePartsOf (elements_below skeleton.now address)) }
{
    match skeleton.find(address) {
        None => no_parts(alloc, skeleton),
        Some(cell) => parts_of_cell(alloc, skeleton, cell),
    }
}

/// Levels before texts are read, and the parts of the last one.
#[derive(Drop)]
pub(crate) struct Descent {
    pub levels: Vec<KeyedLevel>,
    pub last: LevelParts,
}

/// No levels.
pub(crate) fn no_levels(alloc: Global) -> Descent
    ensures levels { result.levels.items ≡ [] }
    ensures last { shown_parts result.last ≡ no_parts }
{
    Descent {
        levels: Vec::new(alloc),
        last: no_level_parts(alloc),
    }
}

impl Descent {
    // One more level.
    fn push(&mut self, level: KeyedLevel, parts: LevelParts) -> Result<(), AllocError>
        ensures levels { OnOk result (self.new.levels.items ≡ self.old.levels.items ++ level ∷ []) }
        ensures last { self.new.last ≡ parts }
    {
        self.last = parts;
        self.levels.push(level)?;
        Ok(())
    }
}

/// The levels below level 0, whose heaviest kind of roots makes these parts: each with at most `most` rows.
pub(crate) fn descend(
    alloc: Global,
    skeleton: &Skeleton,
    kind: RootKind,
    first: Parts,
    total: u128,
    most: usize,
) -> Result<Descent, AllocError>
    requires over { IsOver skeleton.now first }
    requires some { 1 ≤ most }
    ensures within { IfOk result (IsDescentWithin (length skeleton.now.leads)) }
    ensures levels { IfOk result (λ found. (elements : List PartElement) → ArePartsOf elements first
        → IsDescent most skeleton.now (descent 19 skeleton.now total (Subject.OfKind kind) elements) found) }
{
    let mut found = no_levels(alloc);
    let mut subject = Subject::OfKind(kind);
    let mut parts = first;
    for _level in 0..MOST_LEVELS {
        if parts.len() == 0 {
            return Ok(found);
        }
        let weighed = weigh_level(alloc, skeleton, subject, &parts, most)?;
        let next = next_below(&weighed.keyed.level, total);
        found.push(weighed.keyed, weighed.parts)?;
        let Some(address) = next else {
            return Ok(found);
        };
        subject = Subject::OfCell(address);
        parts = parts_below(alloc, skeleton, address)?;
    }
    Ok(found)
}
