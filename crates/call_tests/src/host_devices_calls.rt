ghost use Rattle.std.specs.Prelude.{◌+◌, ◌<◌, ◌≤◌};
ghost use Rattle.dump_io.specs.Dumps.{IsOpen, size_of};

use dump_io::{Dumps, Failed, Sink, read_full, write_all};
use host_devices::{FileDumps, StdSink, read_retrying};
use std::alloc::Global;
use std::cell::{Cell, RefCell};
use std::fs;
use std::io::{self, ErrorKind, Write};
use std::os::unix::fs::FileExt;
use std::process::{self, Abort};
use std::test::Fail;

// How many bytes a sink's buffer holds.
const BUFFER: usize = 131_072;

// The path of a file of this process alone, so that what another user's run left isn't in its way.
fn own_path(rt: &HostRuntime, name: &str) -> Result<String, Fail> {
    Ok(format!(in rt.alloc(); "/tmp/edump-{name}-{}", process::id(rt.process()))?)
}

// Reads seven bytes of the open file from an offset on.
fn seven_at<D: Dumps>(dumps: &mut D, at: u64) -> Result<[u8; 7], Failed>
    requires open { IsOpen (D.state dumps.old).now }
    requires inside { at + 7 ≤ size_of (D.state dumps.old).now }
{
    let mut into = [0u8; 7];
    read_full(dumps, at, &mut into)?;
    Ok(into)
}

// Reads once into a buffer of twenty bytes, and returns how many came, and the buffer.
fn one_read<D: Dumps>(dumps: &mut D, at: u64) -> Result<(usize, [u8; 20]), Failed>
    requires inside { at < size_of (D.state dumps.old).now }
{
    let mut into = [b'.'; 20];
    let n = dumps.read_at(at, &mut into)?;
    Ok((n, into))
}

#[test]
fn a_read_puts_its_bytes_at_the_start_of_a_larger_buffer(rt: HostRuntime) -> Result<(), Fail> {
    let path = own_path(&rt, "start")?;
    fs::write(&rt, path.as_str(), "0123456789")?;
    let mut dumps = FileDumps::new(&rt);
    assert_eq!(rt; dumps.open_dump(&path)?, 10);
    assert_eq!(rt; one_read(&mut dumps, 6)?, (4, *b"6789................"));
    fs::remove_file(&rt, path.as_str())?;
    Ok(())
}

// A file whose reads are interrupted some times, and then answer once each.
#[derive(Drop)]
struct Interrupted {
    times: Cell<u32>,
    answer: Result<u8, ErrorKind>,
}

impl FileExt for Interrupted {
    fn read_at(&self, buf: &mut [u8], _offset: u64) -> io::Result<usize> {
        let times = self.times.get();
        if times > 0 {
            self.times.set(times - 1);
            return Err(ErrorKind::Interrupted.into());
        }
        match self.answer {
            Ok(byte) => {
                buf.fill(byte);
                Ok(buf.len())
            }
            Err(kind) => Err(kind.into()),
        }
    }

    fn write_at(&self, _buf: &[u8], _offset: u64) -> io::Result<usize> {
        Err(ErrorKind::Unsupported.into())
    }
}

#[test]
fn an_interrupted_read_is_tried_again_and_another_error_is_not(
    rt: HostRuntime,
) -> Result<(), Fail> {
    let file = Interrupted {
        times: Cell::new(3),
        answer: Ok(b'x'),
    };
    let mut into = [b'.'; 3];
    assert_eq!(rt; read_retrying(&file, &mut into, 0)?, 3);
    assert_eq!(rt; into, *b"xxx");
    let file = Interrupted {
        times: Cell::new(1),
        answer: Err(ErrorKind::TimedOut),
    };
    assert!(rt; read_retrying(&file, &mut into, 0).is_err());
    assert_eq!(rt; file.times.get(), 0);
    Ok(())
}

#[test]
fn the_named_one_of_two_files_is_read(rt: HostRuntime) -> Result<(), Fail> {
    let first = own_path(&rt, "first")?;
    let second = own_path(&rt, "second")?;
    fs::write(&rt, first.as_str(), "first file")?;
    fs::write(&rt, second.as_str(), "0123456789")?;
    let mut dumps = FileDumps::new(&rt);
    assert_eq!(rt; dumps.open_dump(&first)?, 10);
    assert_eq!(rt; seven_at(&mut dumps, 2)?, *b"rst fil");
    assert_eq!(rt; dumps.open_dump(&second)?, 10);
    assert_eq!(rt; seven_at(&mut dumps, 2)?, *b"2345678");
    fs::remove_file(&rt, first.as_str())?;
    assert!(rt; dumps.open_dump(&first).is_err());
    fs::remove_file(&rt, second.as_str())?;
    Ok(())
}

#[test]
fn a_file_that_was_cut_since_it_was_opened(rt: HostRuntime) -> Result<(), Fail> {
    let path = own_path(&rt, "cut")?;
    fs::write(&rt, path.as_str(), "0123456789")?;
    let mut dumps = FileDumps::new(&rt);
    assert_eq!(rt; dumps.open_dump(&path)?, 10);
    fs::write(&rt, path.as_str(), "0123")?;
    assert!(rt; seven_at(&mut dumps, 3).is_err());
    fs::remove_file(&rt, path.as_str())?;
    Ok(())
}

// What a stream took, how many bytes it takes from now on, how often it was
// flushed, and whether that succeeds. A test sees them while a sink holds the stream.
#[derive(Drop)]
struct Taken {
    bytes: RefCell<Vec<u8>>,
    room: Cell<usize>,
    flushes: Cell<usize>,
    can_flush: Cell<bool>,
}

impl Taken {
    fn with_room(alloc: Global, room: usize) -> Taken {
        Taken {
            bytes: RefCell::new(Vec::new(alloc)),
            room: Cell::new(room),
            flushes: Cell::new(0),
            can_flush: Cell::new(true),
        }
    }
}

// A stream that takes few bytes at a time, and none once its room is used up.
#[derive(Drop)]
struct Narrow<'a> {
    taken: &'a Taken,
    step: usize,
}

impl Write for Narrow<'_> {
    fn write(&mut self, buf: &[u8]) -> io::Result<usize> {
        let room = self.taken.room.get();
        let n = buf.len().min(self.step).min(room);
        if let Ok(mut bytes) = self.taken.bytes.try_borrow_mut() {
            bytes.extend_from_slice(&buf[..n])?;
        }
        self.taken.room.set(room - n);
        Ok(n)
    }

    fn flush(&mut self) -> io::Result<()> {
        self.taken
            .flushes
            .set(self.taken.flushes.get().wrapping_add(1));
        if self.taken.can_flush.get() {
            return Ok(());
        }
        Err(ErrorKind::StorageFull.into())
    }
}

// Whether the stream took these bytes and no others.
fn took(taken: &Taken, all: &[u8]) -> bool {
    match taken.bytes.try_borrow() {
        Ok(bytes) => bytes.as_slice() == all,
        Err(_) => false,
    }
}

#[test]
fn a_stream_gets_what_was_gathered_until_it_fails(rt: HostRuntime) -> Result<(), Fail> {
    let taken = Taken::with_room(rt.alloc(), 8);
    let narrow = Narrow {
        taken: &taken,
        step: 3,
    };
    let mut sink = StdSink::new(rt.alloc(), narrow)?;
    write_all(&mut sink, b"01234567")?;
    assert!(rt; took(&taken, b""));
    assert_eq!(rt; taken.flushes.get(), 0);
    sink.flush()?;
    assert!(rt; took(&taken, b"01234567"));
    assert_eq!(rt; taken.flushes.get(), 1);
    write_all(&mut sink, b"8")?;
    assert!(rt; sink.flush().is_err());
    // There is room again, but nothing more is written.
    taken.room.set(8);
    assert!(rt; sink.flush().is_err());
    assert!(rt; sink.write(b"9").is_err());
    assert!(rt; took(&taken, b"01234567"));
    Ok(())
}

#[test]
fn a_flush_reaches_the_stream_if_nothing_is_buffered_and_its_failure_counts(
    rt: HostRuntime,
) -> Result<(), Fail> {
    let taken = Taken::with_room(rt.alloc(), 8);
    let narrow = Narrow {
        taken: &taken,
        step: 3,
    };
    let mut sink = StdSink::new(rt.alloc(), narrow)?;
    sink.flush()?;
    assert_eq!(rt; taken.flushes.get(), 1);
    write_all(&mut sink, b"0123")?;
    taken.can_flush.set(false);
    assert!(rt; sink.flush().is_err());
    assert!(rt; took(&taken, b"0123"));
    // The stream could be flushed again, but it failed once.
    taken.can_flush.set(true);
    assert!(rt; sink.flush().is_err());
    assert_eq!(rt; taken.flushes.get(), 2);
    Ok(())
}

#[test]
fn a_stream_that_fails_halfway_gets_no_byte_twice(rt: HostRuntime) -> Result<(), Fail> {
    let taken = Taken::with_room(rt.alloc(), 5);
    let narrow = Narrow {
        taken: &taken,
        step: 3,
    };
    let mut sink = StdSink::new(rt.alloc(), narrow)?;
    write_all(&mut sink, b"01234567")?;
    assert!(rt; sink.flush().is_err());
    assert!(rt; took(&taken, b"01234"));
    taken.room.set(8);
    assert!(rt; sink.flush().is_err());
    assert!(rt; sink.write(b"8").is_err());
    assert!(rt; took(&taken, b"01234"));
    Ok(())
}

#[test]
fn pieces_larger_than_the_buffer(rt: HostRuntime) -> Result<(), Fail> {
    let taken = Taken::with_room(rt.alloc(), 1_000_000);
    let wide = Narrow {
        taken: &taken,
        step: 1_000_000,
    };
    let mut sink = StdSink::new(rt.alloc(), wide)?;
    let mut all = Vec::from_slice(rt.alloc(), b"0123456789")?;
    write_all(&mut sink, all.as_slice())?;
    let piece = vec![in rt.alloc(); b'a'; 2 * BUFFER + 10]?;
    // The buffer is filled first, and then as many bytes go past it.
    let (filled, rest) = piece.split_at(BUFFER - 10);
    assert_eq!(rt; sink.write(piece.as_slice())?, filled.len());
    assert!(rt; took(&taken, b""));
    let (passed, left) = rest.split_at(BUFFER);
    assert_eq!(rt; sink.write(rest)?, passed.len());
    all.extend_from_slice(filled)?;
    all.extend_from_slice(passed)?;
    assert!(rt; took(&taken, all.as_slice()));
    write_all(&mut sink, left)?;
    sink.flush()?;
    all.extend_from_slice(left)?;
    assert!(rt; took(&taken, all.as_slice()));
    Ok(())
}
