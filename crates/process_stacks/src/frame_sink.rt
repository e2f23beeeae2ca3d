// Hearing the lines of a stack.
ghost use Rattle.std.specs.Prelude.{◌<◌};
ghost use Rattle.process_stacks.specs.Inner.Hearing.{IsOpen, StopsAt, TakesLines};

use crate::frames::take_frames;
use body_lines::WholeLineSink;

/// Why no further line of a stack is heard.
#[derive(Drop)]
pub(crate) enum Stop {
    /// There are as many frames as are wanted.
    Full,
    /// There was no memory for a line.
    NoMemory,
}

/// Takes the frames of a stack.
#[derive(Drop)]
pub(crate) struct FrameSink {
    /// How many more frames are wanted.
    pub left: usize,
    /// The lines of a place, those of the frames last.
    pub lines: Vec<u8>,
}

impl WholeLineSink for FrameSink {
    type Stop = Stop;

    ghost ready = { IsOpen };

    ghost hears = { TakesLines };

    ghost stops = { StopsAt };

    fn lines(&mut self, at: u64, run: &[u8]) -> Result<(), Stop> {
        take_frames(self, run)
    }
}
