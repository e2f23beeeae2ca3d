// A device that holds one file and never fails.
ghost use Rattle.std.specs.Prelude.{◌≡◌, ◌-◌, ◌<◌, length, min, None, Some, IfOk, if◌then◌else◌};
ghost use Rattle.dump_io.specs.Count.{number_in-small};
ghost use Rattle.dump_io.specs.Dumps.{closed, size_of, most_at, ReadsSome};
ghost use Rattle.dump_io.specs.File.{opened-small};
ghost use Rattle.dump_io.specs.HeldDump.{file_of, now_of, state_of};

use crate::count::Count;
use crate::dumps::{Dumps, Failed};
use crate::file::DumpFile;

/// A device that tells its one file and never cuts a read short. Its count of
/// faults is always 0, so it fails only when `open_dump` asks for another name.
#[derive(Drop)]
pub struct HeldDump {
    file: DumpFile,
    is_open: bool,
    taken: Count,
}

impl HeldDump {
    /// A device with this file, which isn't open yet.
    pub fn new(file: DumpFile) -> HeldDump
        ensures file { file_of result ≡ file }
        ensures now { now_of result ≡ closed }
        ensures taken { (state_of result).taken ≡ 0 }
    {
        HeldDump {
            file,
            is_open: false,
            taken: Count::new(),
        }
    }
}

impl Dumps for HeldDump {
    ghost state = { state_of };

    ghost small_size = { λ d. opened-small (if d.is_open then Some d.file else None) };

    ghost small_taken = { λ d. number_in-small d.taken };

    fn open_dump(&mut self, name: &str) -> Result<u64, Failed> {
        self.is_open = self.file.name.as_str() == name;
        if !self.is_open {
            return Err(Failed);
        }
        Ok(self.file.bytes.len() as u64)
    }

    fn read_at(&mut self, at: u64, into: &mut [u8]) -> Result<usize, Failed>
        requires inside { at < size_of (now_of self.old) }
        requires room { 0 < length into.old }
        ensures reads { ReadsSome (state_of self.old) (state_of self.new) at into.new result }

        ensures uncut { IfOk result (λ n. n ≡ most_at (now_of self.old) at into.old) }
    {
        let rest = &self.file.bytes.as_slice()[at as usize..];
        let n = rest.len().min(into.len());
        into[..n].copy_from_slice(&rest[..n]);
        self.taken.add(n as u64);
        Ok(n)
    }
}
