// Hearing the lines of cells.
ghost use Rattle.tuple_fronts.specs.Inner.Hearing.{HasCells, TakesFronts};

use crate::kept::Kept;
use crate::runs::keep_run;
use body_lines::WholeLineSink;
use heap_skeleton::Skeleton;
use std::alloc::AllocError;
use term_forms::Enc;

/// Keeps the fronts of cells as their lines are heard.
#[derive(Drop)]
pub(crate) struct FrontSink<'a> {
    /// Where the lines of all cells begin.
    pub skeleton: &'a Skeleton,
    /// The cells whose lines weren't heard yet, in the order of these lines.
    pub cells: &'a [u32],
    /// How payloads are written.
    pub enc: Enc,
    pub kept: Kept,
}

impl<'a> WholeLineSink for FrontSink<'a> {
    type Stop = AllocError;

    ghost ready = { λ s. HasCells s.skeleton.now s.cells.now };

    ghost hears = { TakesFronts };

    ghost stops = { λ _ _ _ _. Unit {0} };

    fn lines(&mut self, at: u64, run: &[u8]) -> Result<(), AllocError> {
        self.cells = keep_run(&mut self.kept, self.enc, self.skeleton, self.cells, at, run)?;
        Ok(())
    }
}
