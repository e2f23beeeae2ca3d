// Hearing the lines of a heap.
ghost use Rattle.heap_graph.specs.Held.{IsSmall};
ghost use Rattle.heap_skeleton.specs.Inner.Hearing.{TakesLines};

use body_lines::WholeLineSink;
use heap_graph::{Held, gather_run};
use std::alloc::AllocError;
use term_forms::Enc;

/// Gathers heap lines whose payloads are written in one way.
#[derive(Drop)]
pub(crate) struct HeapSink {
    pub held: Held,
    pub enc: Enc,
}

impl WholeLineSink for HeapSink {
    type Stop = AllocError;

    ghost ready = { λ s. IsSmall s.held };

    ghost hears = { TakesLines };

    ghost stops = { λ _ _ _ _. Unit {0} };

    fn lines(&mut self, at: u64, run: &[u8]) -> Result<(), AllocError> {
        gather_run(&mut self.held, self.enc, at, run)
    }
}
