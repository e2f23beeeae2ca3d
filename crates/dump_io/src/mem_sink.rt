// A sink in memory, which can take small steps and fail.
ghost use Rattle.std.specs.Prelude.{◌≡◌, ◌<◌, true, [], length, is_err, not, IsErr, IfOk, ◌&&◌};
ghost use Rattle.dump_io.specs.Counts.{plus_capped, risen_if};
ghost use Rattle.dump_io.specs.Sinks.{TakesSome};
ghost use Rattle.dump_io.specs.MemSink.{state_of, is_failing, taken_by};

use crate::count::Count;
use crate::dumps::Failed;
use crate::sink::Sink;
use std::alloc::Global;
use std::marker::Model;

/// A sink that tells what was written.
///
/// A write takes the first `step` bytes of its piece, or the whole piece if it is shorter or `step` is 0.
/// The writes are numbered from 1; one whose number is in `fails` fails, as does one that finds no memory.
#[derive(Drop)]
pub struct MemSink {
    bytes: Vec<u8>,
    step: usize,
    fails: Vec<u64>,
    writes: Count,
    lacked: Count,
    faults: Count,
}

impl Model for MemSink {
    ghost use Rattle.dump_io.specs.Count.{number_in};
    ghost use Rattle.dump_io.specs.MemSink.{MemState};

    ghost Value = { MemState };

    ghost view = { λ sink. record {
      written = sink.bytes.items;
      step = sink.step;
      fails = sink.fails.items;
      writes = number_in sink.writes;
      lacked = number_in sink.lacked;
      faults = number_in sink.faults;
    } };
}

impl MemSink {
    /// An empty sink, with counts of 0. It takes no memory.
    pub fn new(alloc: Global, step: usize, fails: Vec<u64>) -> MemSink
        ensures { result ≡ record {
          written = [];
          step = step;
          fails = fails.items;
          writes = 0;
          lacked = 0;
          faults = 0;
        } }
    {
        MemSink {
            bytes: Vec::new(alloc),
            step,
            fails,
            writes: Count::new(),
            lacked: Count::new(),
            faults: Count::new(),
        }
    }

    /// The bytes that were written.
    pub fn written(&self) -> &[u8]
        ensures { result.now ≡ self.now.written }
    {
        self.bytes.as_slice()
    }

    /// How many writes found no memory.
    pub fn lacked(&self) -> u64
        ensures { result ≡ self.now.lacked }
    {
        self.lacked.number()
    }
}

impl Sink for MemSink {
    ghost state = { state_of };

    fn write(&mut self, piece: &[u8]) -> Result<usize, Failed>
        requires { 0 < length piece.now }
        ensures some { TakesSome (state_of self.old) (state_of self.new) piece.now result }

        ensures number { self.new.writes ≡ plus_capped self.old.writes 1 }
        ensures step { self.new.step ≡ self.old.step }
        ensures fails { self.new.fails ≡ self.old.fails }
        ensures failing { is_failing self.new ≡ true → IsErr result }
        ensures lacked { self.new.lacked ≡ risen_if (is_err result && not
            (is_failing self.new)) self.old.lacked }
        ensures count { self.new.faults ≡ risen_if (is_err result) self.old.faults }
        ensures takes { IfOk result (λ n. n ≡ taken_by self.old.step (length piece.now)) }
    {
        self.writes.rise();
        if self.fails.contains(&self.writes.number()) {
            self.faults.rise();
            return Err(Failed);
        }
        let n = if self.step == 0 {
            piece.len()
        } else {
            self.step.min(piece.len())
        };
        if self.bytes.extend_from_slice(&piece[..n]).is_err() {
            self.lacked.rise();
            self.faults.rise();
            return Err(Failed);
        }
        Ok(n)
    }
}
