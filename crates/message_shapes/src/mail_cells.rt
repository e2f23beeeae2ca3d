// The cells to which messages refer.
ghost use Rattle.std.specs.Prelude.{ℕ, ◌<◌, All, Contains, IfOk};
ghost use Rattle.std.specs.List.Sorted.{IsStrictlyIncreasing};
ghost use Rattle.message_shapes.specs.Inner.Telling.{AreCells, told_cells};

use crate::heard::{Heard, Source};
use std::alloc::{AllocError, Global};
use tuple_fronts::CellSet;

/// The cells to which messages refer.
pub(crate) fn subject_cells(alloc: Global, heard: &Heard) -> Result<CellSet, AllocError>
    ensures all { IfOk result (λ cells. (n : ℕ) → Contains (told_cells heard.now) n → Contains cells n) }
    ensures ascending { IfOk result IsStrictlyIncreasing }
    ensures within { (size : ℕ) → AreCells size heard.now → IfOk result (λ cells. All (λ n. n < size) cells) }
{
    let mut cells = Vec::new(alloc);
    for i in 0..heard.len() {
        if let Source::Cell(cell) = heard.source(i) {
            cells.push(cell)?;
        }
    }
    Ok(CellSet::of(cells))
}
