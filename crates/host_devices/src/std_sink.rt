// The streams of the machine.
ghost use Rattle.std.specs.Prelude.{◌≡◌, ◌≤◌, ◌<◌, true, false, length, take, is_err, vec_len, vec_capacity, IsErr, IfOk, OnErr, OnOk, []};
ghost use Rattle.std.specs.Io.KnownBytes.{Appends, Keeps};
ghost use Rattle.dump_io.specs.Counts.{Rose, risen_if};
ghost use Rattle.dump_io.specs.Sinks.{TakesSome};

use dump_io::{Count, Failed, Sink};
use std::alloc::{AllocError, Global};
use std::io::Write;

// How many bytes a stream's buffer holds.
const GATHERED: usize = 131_072;

/// A stream of the machine. The sink buffers what is written and passes it on once 128 KiB have
/// accumulated, and on `flush`; while nothing is buffered, whole multiples of 128 KiB go past the buffer.
/// It doesn't tell what was written, and counts each error as a fault, including a write that takes
/// nothing. After a fault it passes on nothing more, and each later call fails. Until then, what the
/// stream got and what is buffered are all that was taken, in order.
#[derive(Drop)]
pub struct StdSink<W: Write + Drop> {
    stream: W,
    gathered: Vec<u8>,
    is_broken: bool,
    faults: Count,
    ghost within: { vec_len gathered ≤ 131072 },
    ghost room: { 131072 ≤ vec_capacity gathered },
}

impl<W: Write + Drop> StdSink<W> {
    ghost use Rattle.host_devices.specs.Devices.{count_of, held_by, is_broken_in, sink_state_of, stream_of};

    /// A sink over a stream. Its buffer is all the memory that it takes.
    pub fn new(alloc: Global, stream: W) -> Result<StdSink<W>, AllocError>
        ensures faults { IfOk result (λ sink. count_of sink ≡ 0) }
        ensures sound { IfOk result (λ sink. is_broken_in sink ≡ false) }
        ensures stream { IfOk result (λ sink. stream_of sink ≡ stream) }
        ensures empty { IfOk result (λ sink. sink.gathered.items ≡ []) }
    {
        Ok(StdSink {
            stream,
            gathered: Vec::with_capacity(alloc, GATHERED)?,
            is_broken: false,
            faults: Count::new(),
        })
    }

    /// Passes on what is buffered. Returns `Failed` if the stream fails
    /// now or failed before; the count of faults rises exactly then.
    pub fn flush(&mut self) -> Result<(), Failed>
        ensures later { count_of self.old ≤ count_of self.new }
        ensures failed { OnErr result (Rose (count_of self.old) (count_of self.new)) }
        ensures count { count_of self.new ≡ risen_if (is_err result) (count_of self.old) }
        ensures broken { is_broken_in self.new ≡ is_err result }
        ensures failing { is_broken_in self.old ≡ true → IsErr result }
        ensures silent { is_broken_in self.old ≡ true → stream_of self.new ≡ stream_of self.old }
        ensures empty { OnOk result (self.new.gathered.items ≡ []) }

        // The stream then holds what was buffered, if it tells its bytes.
        ensures held { OnOk result (Keeps (held_by self.old) (held_by self.new)) }
    {
        if !self.is_broken && self.hand_on() {
            self.gathered.clear();
            return Ok(());
        }
        self.is_broken = true;
        self.faults.rise();
        Err(Failed)
    }

    // Passes on a piece past the buffer, which is empty.
    fn pass_on(&mut self, piece: &[u8]) -> Result<usize, Failed>
        requires some { 0 < length piece.now }
        requires empty { self.old.gathered.items ≡ [] }
        requires sound { is_broken_in self.old ≡ false }
        ensures takes { TakesSome (sink_state_of self.old) (sink_state_of self.new)
            piece.now result }
        ensures count { count_of self.new ≡ risen_if (is_err result) (count_of self.old) }
        ensures broken { is_broken_in self.new ≡ is_err result }
        ensures all { IfOk result (λ n. n ≡ length piece.now) }
        ensures held { OnOk result (Appends (held_by self.old) (held_by self.new) piece.now) }
    {
        if self.stream.write_all(piece).is_ok() {
            return Ok(piece.len());
        }
        self.is_broken = true;
        self.faults.rise();
        Err(Failed)
    }

    fn hand_on(&mut self) -> bool
        ensures gathered { self.new.gathered ≡ self.old.gathered }
        ensures broken { self.new.is_broken ≡ self.old.is_broken }
        ensures count { self.new.faults ≡ self.old.faults }
        ensures handed { result ≡ true
            → Appends (W.contents self.old.stream) (W.contents self.new.stream) self.old.gathered.items }
    {
        self.stream.write_all(self.gathered.as_slice()).is_ok() && self.stream.flush().is_ok()
    }
}

impl<W: Write + Drop> Sink for StdSink<W> {
    ghost use Rattle.host_devices.specs.Devices.{count_of, held_by, is_broken_in, sink_state_of, stream_of};

    ghost state = { sink_state_of };

    fn write(&mut self, piece: &[u8]) -> Result<usize, Failed>
        requires { 0 < length piece.now }
        ensures takes { TakesSome (sink_state_of self.old) (sink_state_of self.new)
            piece.now result }

        ensures count { count_of self.new ≡ risen_if (is_err result) (count_of self.old) }
        ensures broken { is_broken_in self.new ≡ is_err result }
        ensures failing { is_broken_in self.old ≡ true → IsErr result }
        ensures silent { is_broken_in self.old ≡ true → stream_of self.new ≡ stream_of self.old }

        // What it takes comes after all that it took before, if the stream tells its bytes.
        ensures held { IfOk result
            (λ n. Appends (held_by self.old) (held_by self.new) (take n piece.now)) }
    {
        if self.is_broken || self.gathered.len() == GATHERED {
            self.flush()?;
        }
        if self.gathered.is_empty() && piece.len() >= GATHERED {
            return self.pass_on(&piece[..piece.len() / GATHERED * GATHERED]);
        }
        let n = piece.len().min(GATHERED - self.gathered.len());
        self.gathered.extend_from_slice(&piece[..n]).unwrap();
        Ok(n)
    }
}
