// The rows of a level.
ghost use Rattle.std.specs.Prelude.{◌≡◌, ◌<◌, ◌+◌, ◌++◌, [], ◌∷◌, length, slice_get, slice_index_or, All, IfOk, OnOk, Some};
ghost use Rattle.heap_levels.specs.Inner.Plain.{rows_labelled};
ghost use Rattle.part_weights.specs.Held.{row_at, rows_at};
ghost use Rattle.part_weights.specs.Shown.{row};
ghost use Rattle.cell_parts.specs.Over.{IsOver};

use cell_parts::Parts;
use heap_skeleton::{Kind, Skeleton};
use part_weights::{HeldPart, PartRow, part_row};
use std::alloc::{AllocError, Global};
use std::marker::Model;
use tuple_fronts::Texts;

// A row without its label.
#[derive(Clone, Copy)]
pub(crate) struct LevelRow {
    pub words: u128,
    pub cells: u32,
    pub binaries: u32,
    pub kind: Option<Kind>,
    pub address: u64,
    pub elements: u64,
    pub at: u64,
}

/// The parts of a level that alone hold cells, of the first ones as many as are shown. Contracts see the list of them.
#[derive(Drop)]
pub(crate) struct LevelRows {
    rows: Vec<LevelRow>,
    labels: Texts,
}

impl Model for LevelRows {
    ghost use Rattle.std.specs.Prelude.{◌≡◌, List, length};
    ghost use Rattle.part_weights.specs.Weights.{Row};
    ghost use Rattle.heap_levels.specs.Inner.Descent.{shown_rows};

    ghost Value = { List Row };

    ghost view = { λ r. shown_rows r.rows.items r.labels };

    ghost invariant = { λ r. length r.labels ≡ length r.rows.items };
}

// The row at a place, without its label.
fn level_row(rows: &[LevelRow], i: usize) -> LevelRow
    requires { i < length rows.now }
    ensures { slice_get rows.now i ≡ Some result }
{
    rows[i]
}

impl LevelRows {
    // No rows.
    pub(crate) fn new(alloc: Global) -> LevelRows
        ensures { result ≡ [] }
    {
        LevelRows {
            rows: Vec::new(alloc),
            labels: Texts::new(alloc),
        }
    }

    // Appends a row.
    pub(crate) fn push(&mut self, found: &PartRow<'_>) -> Result<(), AllocError>
        ensures { OnOk result (self.new ≡ self.old ++ row found.now ∷ []) }
    {
        self.rows.reserve(1)?;
        self.labels.push(found.label)?;
        self.rows.push_reserved(LevelRow {
            words: found.words,
            cells: found.cells,
            binaries: found.binaries,
            kind: found.kind,
            address: found.address,
            elements: found.elements,
            at: found.at,
        });
        Ok(())
    }

    /// How many rows there are.
    pub(crate) fn len(&self) -> usize
        ensures { result ≡ length self.now }
    {
        self.rows.len()
    }

    /// The row at a place.
    pub(crate) fn row(&self, i: usize) -> PartRow<'_>
        requires { i < length self.now }
        ensures { slice_get self.now i ≡ Some (row result) }
    {
        let found = level_row(&self.rows, i);
        PartRow {
            words: found.words,
            cells: found.cells,
            binaries: found.binaries,
            kind: found.kind,
            address: found.address,
            elements: found.elements,
            at: found.at,
            label: self.labels.get(i),
        }
    }
}

// Appends the row of a part, with the part's own label.
fn push_part(
    rows: &mut LevelRows,
    skeleton: &Skeleton,
    parts: &Parts,
    held: HeldPart,
) -> Result<(), AllocError>
    requires over { IsOver skeleton.now parts.now }
    requires part { held.part < length parts.now.parts }
    ensures { OnOk result (rows.new ≡ rows.old ++ row_at skeleton.now parts.now.parts held ∷ []) }
{
    let label = parts.label(held.part);
    rows.push(&part_row(skeleton, parts, held, label))
}

// The part at a place.
fn held_at(held: &[HeldPart], i: usize) -> HeldPart
    requires { i < length held.now }
    ensures { slice_get held.now i ≡ Some result }
{
    held[i]
}

/// The rows of parts that alone hold cells, with their own labels.
pub(crate) fn rows_at(
    alloc: Global,
    skeleton: &Skeleton,
    parts: &Parts,
    held: &[HeldPart],
) -> Result<LevelRows, AllocError>
    requires over { IsOver skeleton.now parts.now }
    requires held { All (λ h. h.part < length parts.now.parts) held.now }
    ensures { IfOk result (λ rows. rows ≡ rows_at skeleton.now parts.now.parts held.now) }
{
    let mut rows = LevelRows::new(alloc);
    for i in 0..held.len() {
        push_part(&mut rows, skeleton, parts, held_at(held, i))?;
    }
    Ok(rows)
}

// Appends a row with another label.
fn push_labelled(
    labelled: &mut LevelRows,
    found: &PartRow<'_>,
    label: &[u8],
) -> Result<(), AllocError>
    ensures { OnOk result (labelled.new ≡ labelled.old ++ record (row found.now) { label = label.now } ∷ []) }
{
    labelled.push(&PartRow { label, ..*found })
}

// The label at a place. Past the last one it is empty.
fn label_at(labels: &Texts, i: usize) -> &[u8]
    ensures { result.now ≡ slice_index_or labels.now i [] }
{
    if i < labels.len() { labels.get(i) } else { b"" }
}

// The place that is `i` behind another. Past the last place there is no memory for labels.
pub(crate) fn place_behind(from: usize, i: usize) -> Result<usize, AllocError>
    ensures { IfOk result (λ place. place ≡ from + i) }
{
    match from.checked_add(i) {
        Some(place) => Ok(place),
        None => Err(AllocError),
    }
}

/// The rows with the labels from a place on.
pub(crate) fn rows_labelled(
    alloc: Global,
    rows: &LevelRows,
    labels: &Texts,
    from: usize,
) -> Result<LevelRows, AllocError>
    ensures { IfOk result (λ labelled. labelled ≡ rows_labelled labels.now from rows.now) }
{
    let mut labelled = LevelRows::new(alloc);
    for i in 0..rows.len() {
        let place = place_behind(from, i)?;
        push_labelled(&mut labelled, &rows.row(i), label_at(labels, place))?;
    }
    Ok(labelled)
}

/// The same rows once more.
pub(crate) fn rows_copied(alloc: Global, rows: &LevelRows) -> Result<LevelRows, AllocError>
    ensures { IfOk result (λ copied. copied ≡ rows.now) }
{
    let mut copied = LevelRows::new(alloc);
    for i in 0..rows.len() {
        copied.push(&rows.row(i))?;
    }
    Ok(copied)
}
