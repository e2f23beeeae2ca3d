// All levels of a process.
ghost use Rattle.std.specs.Prelude.{◌≡◌, ◌+◌, ◌*◌, ◌<◌, ◌≤◌, length, slice_get, IfErr, IfOk, Some};
ghost use Rattle.dump_io.specs.Dumps.{IfTold, ReadsAtMost};
ghost use Rattle.dump_io.specs.Faults.{IsReadCauseOf};
ghost use Rattle.dump_sections.specs.Index.{sections_in, IsBuiltOver};
ghost use Rattle.dump_sections.specs.Loading.{bodies_length};
ghost use Rattle.heap_cells.specs.Loading.{heap_bodies};
ghost use Rattle.root_views.specs.Sections.{root_bodies};
ghost use Rattle.heap_levels.specs.Levels.{heavy_levels, process_of};
ghost use Rattle.heap_levels.specs.Shown.{shown_level, shown_shape};
ghost use Rattle.heap_levels.specs.Inner.Plain.{levels_finished};
ghost use Rattle.heap_levels.specs.Inner.Reading.{shown_found};

use crate::found_levels::{FoundLevels, keys_of_all, levels_of, read_kinds};
use crate::kinds::KindLevel;
use crate::labelling::levels_labelled;
use crate::levels::Level;
use crate::shape_rows::{ShapeRow, ShapeRows, shapes_of_parts};
use dump_io::{Dumps, ReadFault};
use dump_sections::Index;
use heap_skeleton::Skeleton;
use part_keys::{PartTexts, read_shapes};
use std::alloc::{AllocError, Global};
use std::marker::Model;

/// The levels of a process. Contracts see level 0, those below it, and the shapes of the parts of the last one.
#[derive(Drop)]
pub struct Levels {
    zero: KindLevel,
    below: Vec<Level>,
    shapes: ShapeRows,
}

impl Model for Levels {
    ghost use Rattle.heap_levels.specs.Levels.{HeavyLevels};
    ghost use Rattle.heap_levels.specs.Shown.{shown_level};

    ghost Value = { HeavyLevels };

    ghost view = { λ l. record { zero = shown_level l.zero; below = l.below.items; shapes = l.shapes } };
}

// The levels, given the labels of their rows and the shapes of the parts of the last one.
fn levels_finished(
    alloc: Global,
    found: FoundLevels,
    texts: &PartTexts,
    most: usize,
) -> Result<Levels, AllocError>
    requires { length texts.now.shapes ≡ length found.below.last.words.items }
    ensures { IfOk result (λ levels. levels ≡ levels_finished most (shown_found found) texts.now.labels texts.now.shapes) }
{
    let FoundLevels { mut zero, below } = found;
    zero.rows.truncate(most);
    let shapes = shapes_of_parts(alloc, &texts.shapes, &below.last.words, most)?;
    let below = levels_labelled(alloc, &below.levels, &texts.labels)?;
    Ok(Levels {
        zero,
        below,
        shapes,
    })
}

impl Levels {
    /// Weighs the kinds of the roots of a process, and level after level the parts to which the heaviest one leads,
    /// each with at most `most` rows. The parts of the last level are grouped by their shapes, unless that is level 0. The
    /// index was built over the open file, which stays open. The process need not be there; a missing section counts as
    /// empty.
    ///
    /// Nothing that the sections hold is refused. Returns `Read` only if the device's count of faults rose; `Memory` may
    /// come from any allocation, and comes where a [`Skeleton`] can't hold the heap, where the texts that [`read_shapes`]
    /// keeps have 4 GiB or more, or where the parts of a level alone hold 2^64 words or more, which no file is long enough
    /// for. Whatever it returns, at most as many bytes are read as the bodies with the roots have, and three times as many
    /// as that of the heap and that of the literals: twice for the keys and the shapes.
    pub fn load<D: Dumps>(
        alloc: Global,
        dumps: &mut D,
        index: &Index,
        pid: &[u8],
        most: usize,
    ) -> Result<Levels, ReadFault>
        requires over { IsBuiltOver (D.state dumps.old).now index.now }
        requires some { 1 ≤ most }
        ensures reads { let sections = sections_in index.now in
            ReadsAtMost (D.state dumps.old) (D.state dumps.new)
            (3 * bodies_length (heap_bodies pid.now sections) + bodies_length (root_bodies pid.now sections)) }
        ensures fault { IfErr result (IsReadCauseOf (D.state dumps.old) (D.state dumps.new)) }
        ensures levels { IfOk result (λ levels. IfTold (D.state dumps.old).now
            (λ dump. levels ≡ heavy_levels most (process_of dump index.now pid.now))) }
    {
        let skeleton = Skeleton::load(alloc, dumps, index, pid)?;
        let kinds = read_kinds(alloc, dumps, index, pid, &skeleton)?;
        let found = levels_of(alloc, &skeleton, kinds, most)?;
        let keys = keys_of_all(alloc, &found.below.levels)?;
        let shaped = &found.below.last.shaped;
        let texts = read_shapes(alloc, dumps, index, pid, &skeleton, &keys, shaped)?;
        let levels = levels_finished(alloc, found, &texts, most)?;
        Ok(levels)
    }

    /// Level 0: what the kinds of roots alone hold. It has at most as many rows as were asked for.
    pub fn zero(&self) -> &KindLevel
        ensures { shown_level result.now ≡ self.now.zero }
    {
        &self.zero
    }

    /// How many levels there are below level 0.
    pub fn below(&self) -> usize
        ensures { result ≡ length self.now.below }
    {
        self.below.len()
    }

    /// The level at a place below level 0, from 0 for level 1.
    pub fn level(&self, i: usize) -> &Level
        requires { i < length self.now.below }
        ensures { slice_get self.now.below i ≡ Some result.now }
    {
        &self.below[i]
    }

    /// How many shapes of parts of the last level there are, at most as many as were asked for.
    pub fn shapes(&self) -> usize
        ensures { result ≡ length self.now.shapes }
    {
        self.shapes.len()
    }

    /// The shape at a place. That whose parts alone hold the most words comes first; of equal ones that of the first part.
    pub fn shape(&self, i: usize) -> ShapeRow<'_>
        requires { i < length self.now.shapes }
        ensures { slice_get self.now.shapes i ≡ Some (shown_shape result) }
    {
        self.shapes.row(i)
    }
}
