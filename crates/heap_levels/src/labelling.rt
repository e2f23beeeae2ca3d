// Levels with the labels of their rows.
ghost use Rattle.std.specs.Prelude.{◌≡◌, map, IfOk};
ghost use Rattle.heap_levels.specs.Inner.Plain.{level_labelled, levels_labelled};
ghost use Rattle.heap_levels.specs.Inner.Descent.{shown_keyed};

use crate::level_rows::{place_behind, rows_copied, rows_labelled};
use crate::levels::{KeyedLevel, Level, Subject};
use std::alloc::{AllocError, Global};
use tuple_fronts::Texts;

// A level with the labels from a place on, if it is one of the parts of a cell.
fn level_labelled(
    alloc: Global,
    level: &Level,
    labels: &Texts,
    from: usize,
) -> Result<Level, AllocError>
    ensures { IfOk result (λ labelled. labelled ≡ level_labelled labels.now from level.now) }
{
    let rows = match level.subject() {
        Subject::OfKind(_) => rows_copied(alloc, level.all_rows())?,
        Subject::OfCell(_) => rows_labelled(alloc, level.all_rows(), labels, from)?,
    };
    Ok(Level::new(
        level.subject(),
        rows,
        level.shared(),
        level.reached(),
        level.parts(),
    ))
}

/// Levels with their labels, of which those of the rows of each level stand behind those of the one before.
pub(crate) fn levels_labelled(
    alloc: Global,
    levels: &[KeyedLevel],
    labels: &Texts,
) -> Result<Vec<Level>, AllocError>
    ensures { IfOk result (λ labelled. labelled.items ≡ levels_labelled labels.now 0 (map shown_keyed levels.now)) }
{
    let mut labelled = Vec::new(alloc);
    let mut from = 0;
    for keyed in levels {
        labelled.push(level_labelled(alloc, &keyed.level, labels, from)?)?;
        from = place_behind(from, keyed.keys.len())?;
    }
    Ok(labelled)
}
