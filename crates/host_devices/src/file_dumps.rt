// The files of the machine.
ghost use Rattle.std.specs.Prelude.{◌≡◌, ◌≢◌, ◌<◌, length, is_err, IfErr};
ghost use Rattle.std.specs.Io.{ReadsAtMost};
ghost use Rattle.std.specs.IoError.{error_kind};
ghost use Rattle.dump_io.specs.Count.{number_in-small};
ghost use Rattle.dump_io.specs.Counts.{risen_if};
ghost use Rattle.dump_io.specs.Dumps.{closed, size_of, Opens, ReadsSome};
ghost use Rattle.host_devices.specs.Devices.{faults_of, now_of, state_of, now_in-small};

use dump_io::{Count, Dumps, Failed};
use std::fs::{self, File, OpenFile};
use std::io::{self, ErrorKind};
use std::os::unix::fs::FileExt;

/// Reads from a file once, at an offset, and again as often as a signal interrupts the read, as std does with writes.
/// Returns the file's error, or `TimedOut` after 2^64 - 1 reads that were interrupted.
pub fn read_retrying<F: FileExt>(file: &F, into: &mut [u8], at: u64) -> io::Result<usize>
    ensures bound { ReadsAtMost result into.new }
    ensures retried { IfErr result (λ e. error_kind e ≢ ErrorKind.Interrupted) }
{
    for _ in 0..u64::MAX {
        match file.read_at(into, at) {
            Ok(n) => return Ok(n),
            Err(error) => {
                if error.kind() != ErrorKind::Interrupted {
                    return Err(error);
                }
            }
        }
    }
    Err(io::Error::from(ErrorKind::TimedOut))
}

#[derive(Drop)]
struct OpenDump {
    file: File,
    size: u64,
}

/// The files of the machine. The device tells neither its files nor their bytes, and
/// counts each error of the machine as a fault: a name that can't be opened, a read
/// that fails, and a file that ends before the size that it had when it was opened.
/// A read that a signal interrupts is no fault: it is tried again.
#[derive(Drop)]
pub struct FileDumps<'a> {
    rt: &'a HostRuntime,
    open: Option<OpenDump>,
    faults: Count,
    taken: Count,
}

impl<'a> FileDumps<'a> {
    /// The machine's files, none of which is open yet.
    pub fn new(rt: &'a HostRuntime) -> FileDumps<'a>
        ensures now { now_of result ≡ closed }
        ensures faults { faults_of result ≡ 0 }
        ensures taken { (state_of result).taken ≡ 0 }
    {
        FileDumps {
            rt,
            open: None,
            faults: Count::new(),
            taken: Count::new(),
        }
    }

    fn open_named(&self, name: &str) -> Option<OpenDump> {
        let file = fs::open(self.rt, name).ok()?;
        let size = file.metadata().ok()?.len();
        Some(OpenDump { file, size })
    }
}

impl<'a> Dumps for FileDumps<'a> {
    ghost state = { state_of };

    ghost small_size = { λ d. now_in-small d.«open» };

    ghost small_taken = { λ d. number_in-small d.taken };

    fn open_dump(&mut self, name: &str) -> Result<u64, Failed>
        ensures opens { Opens (state_of self.old) (state_of self.new) name.now result }

        ensures count { faults_of self.new ≡ risen_if (is_err result) (faults_of self.old) }
    {
        self.open = None;
        match self.open_named(name) {
            None => {
                self.faults.rise();
                Err(Failed)
            }
            Some(open) => {
                let size = open.size;
                self.open = Some(open);
                Ok(size)
            }
        }
    }

    fn read_at(&mut self, at: u64, into: &mut [u8]) -> Result<usize, Failed>
        requires inside { at < size_of (now_of self.old) }
        requires room { 0 < length into.old }
        ensures reads { ReadsSome (state_of self.old) (state_of self.new) at into.new result }

        ensures count { faults_of self.new ≡ risen_if (is_err result) (faults_of self.old) }
    {
        let Some(open) = &self.open else {
            unreachable!()
        };
        let left = open.size - at;
        let most = if (into.len() as u64) <= left {
            into.len()
        } else {
            left as usize
        };
        match read_retrying(&open.file, &mut into[..most], at) {
            Ok(n) if n > 0 => {
                self.taken.add(n as u64);
                Ok(n)
            }
            _ => {
                self.faults.rise();
                Err(Failed)
            }
        }
    }
}
