// The parts of a level, as they are kept until texts are read.
ghost use Rattle.std.specs.Prelude.{◌≡◌, ◌<◌, List, All, length, map, IfOk, IfSome};
ghost use Rattle.cell_parts.specs.Parts.{PartElement, ArePartsOf};
ghost use Rattle.heap_levels.specs.Inner.Descent.{shown_parts, ArePartsWithin};
ghost use Rattle.heap_levels.specs.Inner.Plain.{alone_of, no_parts, parts_with, subject_cell};
ghost use Rattle.part_keys.specs.PartShapes.{shaped_part, AreShapedWithin};
ghost use Rattle.cell_parts.specs.Over.{IsOver};

use crate::levels::Subject;
use cell_parts::Parts;
use heap_skeleton::Skeleton;
use heap_weights::Weight;
use part_keys::{ShapedPart, shaped_part};
use std::alloc::{AllocError, Global};

/// The parts of a level: where the shape of each stands, and how many words it alone holds.
#[derive(Drop)]
pub(crate) struct LevelParts {
    pub shaped: Vec<ShapedPart>,
    pub words: Vec<u64>,
}

/// No parts.
pub(crate) fn no_level_parts(alloc: Global) -> LevelParts
    ensures { shown_parts result ≡ no_parts }
{
    LevelParts {
        shaped: Vec::new(alloc),
        words: Vec::new(alloc),
    }
}

// The cell whose elements are weighed, if they are those of one.
fn subject_cell(skeleton: &Skeleton, subject: Subject) -> Option<u32>
    ensures value { result ≡ subject_cell skeleton.now subject }
    ensures within { IfSome result (λ cell. cell < length skeleton.now.leads) }
{
    match subject {
        Subject::OfKind(_) => None,
        Subject::OfCell(address) => skeleton.find(address),
    }
}

// Where the shapes stand of the parts with these cells.
fn shaped_parts(
    alloc: Global,
    skeleton: &Skeleton,
    whole: Option<u32>,
    cells: &[u32],
) -> Result<Vec<ShapedPart>, AllocError>
    requires whole { IfSome whole (λ cell. cell < length skeleton.now.leads) }
    requires cells { All (λ cell. cell < length skeleton.now.leads) cells.now }
    ensures shaped { IfOk result (λ shaped. shaped.items ≡ map (shaped_part skeleton.now whole) cells.now) }
    ensures within { IfOk result (λ shaped. AreShapedWithin (length skeleton.now.leads) shaped.items) }
{
    let mut shaped = Vec::with_capacity(alloc, cells.len())?;
    for cell in cells {
        shaped.push(shaped_part(skeleton, whole, *cell))?;
    }
    Ok(shaped)
}

// The words that each part alone holds. There are none that hold more than 2^64 - 1, since a word takes a byte of the
// file; more are answered as want of memory.
fn words_of(alloc: Global, alone: &[Weight]) -> Result<Vec<u64>, AllocError>
    ensures { IfOk result (λ words. words.items ≡ map (λ weight. weight.words) alone.now) }
{
    let mut words = Vec::with_capacity(alloc, alone.len())?;
    for weight in alone {
        let Ok(own) = u64::try_from(weight.words) else {
            return Err(AllocError);
        };
        words.push(own)?;
    }
    Ok(words)
}

/// The parts of the level of a subject, which alone hold this.
pub(crate) fn parts_of_level(
    alloc: Global,
    skeleton: &Skeleton,
    subject: Subject,
    parts: &Parts,
    alone: &[Weight],
) -> Result<LevelParts, AllocError>
    requires over { IsOver skeleton.now parts.now }
    requires count { length alone.now ≡ length parts.now.parts }
    ensures within { IfOk result (ArePartsWithin (length skeleton.now.leads)) }
    ensures parts { IfOk result (λ found. (elements : List PartElement) → ArePartsOf elements parts.now
        → alone.now ≡ alone_of skeleton.now parts.now.parts → shown_parts found ≡ parts_with skeleton.now (subject, elements)) }
{
    let whole = subject_cell(skeleton, subject);
    let shaped = shaped_parts(alloc, skeleton, whole, parts.cells())?;
    let words = words_of(alloc, alone)?;
    Ok(LevelParts { shaped, words })
}
