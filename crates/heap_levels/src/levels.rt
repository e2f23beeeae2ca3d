// A level.
ghost use Rattle.std.specs.Prelude.{◌≡◌, ◌<◌, List, length, map, slice_get, All, IfOk, Some};
ghost use Rattle.cell_parts.specs.Parts.{ArePartsOf, PartElement};
ghost use Rattle.heap_graph.specs.Binaries.{binaries_among};
ghost use Rattle.heap_weights.specs.Shares.{AreShares};
ghost use Rattle.cell_parts.specs.Over.{IsOver};
ghost use Rattle.part_keys.specs.KeyPlaces.{AreKeysWithin};
ghost use Rattle.heap_levels.specs.Inner.Plain.{keys_of};
ghost use Rattle.heap_levels.specs.Inner.Descent.{ArePartsWithin, IsWeighed};
ghost use Rattle.part_weights.specs.Shown.{row};

use crate::level_parts::{LevelParts, parts_of_level};
use crate::level_rows::{LevelRows, rows_at};
use cell_parts::Parts;
use heap_skeleton::Skeleton;
use heap_weights::{Shares, Weight, weigh};
use part_keys::KeyPlace;
use part_weights::{HeldPart, PartRow, first_held, held_keys};
use root_views::RootKind;
use std::alloc::{AllocError, Global};
use std::marker::Model;

/// What is weighed on a level.
#[derive(Clone, Copy)]
pub enum Subject {
    /// The terms among the roots of a kind.
    OfKind(RootKind),
    /// The elements of the cell at an address.
    OfCell(u64),
}

/// A level. Contracts see what it says.
#[derive(Drop)]
pub struct Level {
    subject: Subject,
    rows: LevelRows,
    shared: Weight,
    reached: Weight,
    parts: usize,
}

impl Model for Level {
    ghost use Rattle.heap_levels.specs.Levels.{Level as LevelMap};

    ghost Value = { LevelMap };

    ghost view = { λ l. record { subject = l.subject; rows = l.rows; shared = l.shared; reached = l.reached; parts = l.parts } };
}

impl Level {
    // A level of parts.
    pub(crate) fn new(
        subject: Subject,
        rows: LevelRows,
        shared: Weight,
        reached: Weight,
        parts: usize,
    ) -> Level
        ensures { result ≡ record { subject = subject; rows = rows; shared = shared; reached = reached; parts = parts } }
    {
        Level {
            subject,
            rows,
            shared,
            reached,
            parts,
        }
    }

    // All rows.
    pub(crate) fn all_rows(&self) -> &LevelRows
        ensures { result.now ≡ self.now.rows }
    {
        &self.rows
    }

    /// What is weighed.
    pub fn subject(&self) -> Subject
        ensures { result ≡ self.now.subject }
    {
        self.subject
    }

    /// How many rows there are: parts that alone hold a cell, of which at most so many are kept as were asked for.
    pub fn rows(&self) -> usize
        ensures { result ≡ length self.now.rows }
    {
        self.rows.len()
    }

    /// The row at a place. The part with the most words comes first; of equal ones that to which an element leads first.
    /// The label of a part of a map is the shape of the key under which it stands (`part_keys`).
    pub fn row(&self, i: usize) -> PartRow<'_>
        requires { i < length self.now.rows }
        ensures { slice_get self.now.rows i ≡ Some (row result) }
    {
        self.rows.row(i)
    }

    /// The own cells that two or more parts reach.
    pub fn shared(&self) -> Weight
        ensures { result ≡ self.now.shared }
    {
        self.shared
    }

    /// The own cells that any part reaches.
    pub fn reached(&self) -> Weight
        ensures { result ≡ self.now.reached }
    {
        self.reached
    }

    /// How many parts there are, also those that alone hold nothing.
    pub fn parts(&self) -> usize
        ensures { result ≡ self.now.parts }
    {
        self.parts
    }
}

/// A level, and where the keys stand that are the labels of its rows, if they are parts of a cell.
#[derive(Drop)]
pub(crate) struct KeyedLevel {
    pub level: Level,
    pub keys: Vec<KeyPlace>,
}

// What the cells alone hold that are those of parts, and what they reach.
fn weigh_parts(alloc: Global, skeleton: &Skeleton, parts: &Parts) -> Result<Shares, AllocError>
    requires { IsOver skeleton.now parts.now }
    ensures { IfOk result (AreShares skeleton.now.leads skeleton.now.words (binaries_among skeleton.now.kinds)
        skeleton.now.own (map (λ part. part.cell) parts.now.parts)) }
{
    weigh(alloc, skeleton, parts.cells())
}

// Where the keys stand under which some parts of the cell at an address do.
fn cell_keys(
    alloc: Global,
    skeleton: &Skeleton,
    address: u64,
    parts: &Parts,
    held: &[HeldPart],
) -> Result<Vec<KeyPlace>, AllocError>
    requires over { IsOver skeleton.now parts.now }
    requires held { All (λ h. h.part < length parts.now.parts) held.now }
    ensures keys { IfOk result (λ keys. keys.items
        ≡ keys_of skeleton.now (Subject.OfCell address) parts.now.parts held.now) }
    ensures within { IfOk result (λ keys. AreKeysWithin (length skeleton.now.leads) keys.items) }
{
    match skeleton.find(address) {
        None => Ok(Vec::new(alloc)),
        Some(cell) => held_keys(alloc, skeleton, parts, held, cell),
    }
}

// Where the keys stand under which some parts do, if they are those of a cell.
fn keys_of(
    alloc: Global,
    skeleton: &Skeleton,
    subject: Subject,
    parts: &Parts,
    held: &[HeldPart],
) -> Result<Vec<KeyPlace>, AllocError>
    requires over { IsOver skeleton.now parts.now }
    requires held { All (λ h. h.part < length parts.now.parts) held.now }
    ensures keys { IfOk result (λ keys. keys.items
        ≡ keys_of skeleton.now subject parts.now.parts held.now) }
    ensures within { IfOk result (λ keys. AreKeysWithin (length skeleton.now.leads) keys.items) }
{
    match subject {
        Subject::OfKind(_) => Ok(Vec::new(alloc)),
        Subject::OfCell(address) => cell_keys(alloc, skeleton, address, parts, held),
    }
}

/// A level before texts are read, with its parts.
#[derive(Drop)]
pub(crate) struct WeighedLevel {
    pub keyed: KeyedLevel,
    pub parts: LevelParts,
}

/// What the parts of a subject alone hold, with at most `most` rows.
pub(crate) fn weigh_level(
    alloc: Global,
    skeleton: &Skeleton,
    subject: Subject,
    parts: &Parts,
    most: usize,
) -> Result<WeighedLevel, AllocError>
    requires { IsOver skeleton.now parts.now }
    ensures keys { IfOk result (λ weighed. AreKeysWithin (length skeleton.now.leads) weighed.keyed.keys.items) }
    ensures parts { IfOk result (λ weighed. ArePartsWithin (length skeleton.now.leads) weighed.parts) }
    ensures level { IfOk result (λ weighed. (elements : List PartElement) → ArePartsOf elements parts.now
        → IsWeighed most skeleton.now (subject, elements) weighed) }
{
    let Shares {
        alone,
        shared,
        reached,
        ..
    } = weigh_parts(alloc, skeleton, parts)?;
    let held = first_held(alloc, &alone, most)?;
    let rows = rows_at(alloc, skeleton, parts, &held)?;
    let keys = keys_of(alloc, skeleton, subject, parts, &held)?;
    let level = Level {
        subject,
        rows,
        shared,
        reached,
        parts: parts.len(),
    };
    let parts = parts_of_level(alloc, skeleton, subject, parts, &alone)?;
    Ok(WeighedLevel {
        keyed: KeyedLevel { level, keys },
        parts,
    })
}
