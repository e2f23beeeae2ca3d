// What hears the lines of a body for its roots.
ghost use Rattle.root_views.specs.Inner.Hearing.{IsReady, TakesLines};

use crate::kept_roots::KeptRoots;
use crate::roots_of_lines::hear_run;
use body_lines::WholeLineSink;
use std::alloc::AllocError;

/// Counts the roots of a body, and keeps some of them.
#[derive(Drop)]
pub(crate) struct RootSink {
    /// The place of the first root that is kept, from 0.
    pub(crate) first: u64,
    /// How many are kept at most.
    pub(crate) most: u64,
    /// How many roots were heard.
    pub(crate) count: u64,
    pub(crate) kept: KeptRoots,
}

impl WholeLineSink for RootSink {
    type Stop = AllocError;

    ghost ready = { IsReady };

    ghost hears = { TakesLines };

    ghost stops = { λ _ _ _ _. Unit {0} };

    fn lines(&mut self, at: u64, run: &[u8]) -> Result<(), AllocError> {
        hear_run(self, at, run)
    }
}
