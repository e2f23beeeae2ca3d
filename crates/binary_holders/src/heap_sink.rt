// Counting what the lines of heaps refer to.
ghost use Rattle.std.specs.Prelude.{◌≡◌, ◌<◌};
ghost use Rattle.binary_holders.specs.Inner.HeapSinks.{IsReady, AddsLines};

use crate::counts::Counts;
use crate::scanning::count_lines;
use crate::targets::Targets;
use body_lines::LineSink;
use std::convert::Infallible;
use term_forms::{Enc, form_is_read, number_is_read};

// A line that refers to a binary has at most 71 bytes: 69 of text, and CR and LF.
const KEPT: u16 = 72;

/// Counts what the lines of heaps refer to.
#[derive(Drop)]
pub(crate) struct HeapSink<'a> {
    pub enc: Enc,
    pub targets: &'a Targets,
    pub counts: Counts,
}

impl<'a> LineSink for HeapSink<'a> {
    type Stop = Infallible;

    ghost kept = { 72 };

    ghost ready = { IsReady };

    ghost hears = { AddsLines };

    ghost stops = { λ _ _ _ _. ⊥ };

    fn kept() -> u16
        ensures { result ≡ 72 }
    {
        KEPT
    }

    fn lines(&mut self, at: u64, run: &[u8]) -> Result<(), Infallible> {
        number_is_read();
        form_is_read(self.enc);
        count_lines(run, self.enc, self.targets, &mut self.counts);
        Ok(())
    }

    fn long_line(&mut self, at: u64, front: &[u8], size: u64) -> Result<(), Infallible> {
        number_is_read();
        form_is_read(self.enc);
        Ok(())
    }
}
