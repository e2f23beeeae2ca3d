// A sink that throws away what is written.
ghost use Rattle.std.specs.Prelude.{None};

use dump_io::{Failed, Sink};

#[derive(Drop)]
pub struct Nowhere;

impl Sink for Nowhere {
    ghost state = { λ _. record { written = None; faults = 0 } };

    fn write(&mut self, piece: &[u8]) -> Result<usize, Failed> {
        Ok(piece.len())
    }
}
