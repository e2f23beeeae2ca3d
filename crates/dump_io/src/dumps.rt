// A device that holds dumps.
ghost use Rattle.std.specs.Prelude.{◌<◌, ◌^◌, length, codes, Some};
ghost use Rattle.dump_io.specs.Dumps.{DeviceState, size_of, Opens, ReadsSome};

use std::error::Error;
use std::fmt;

/// The fault of a device or a sink, whose count of faults shows it.
#[derive(Clone, Copy, Debug, PartialEq, Eq)]
pub struct Failed;

impl fmt::Display for Failed {
    ghost output = { λ _. Some (codes "the device failed") };

    fn fmt<W: fmt::Write>(&self, f: &mut fmt::Formatter<W>) -> fmt::Result {
        write!(f, "the device failed")
    }
}

impl Error for Failed {}

/// A device of dumps: it has at most one file open at a time, and gives the file's bytes in pieces of its choice.
pub trait Dumps {
    /// The state of the device: the files where it tells them, which no call changes, what is open, how often it has
    /// failed and how many bytes it has given. Both counts stay at 2^64 - 1 once they have reached it.
    ghost state: { Self → DeviceState };

    /// Closes what was open, opens the named file and returns its size in bytes.
    ///
    /// `Failed` comes only where the count of faults rose, or where the files are told and none has that name.
    /// No file is open then.
    fn open_dump(&mut self, name: &str) -> Result<u64, Failed>
        ensures { Opens (state self.old) (state self.new) name.now result };

    /// Puts bytes of the open file, from the offset `at` on, into `into`: as many as the device
    /// likes, but at least one. Returns how many. The bytes of `into` after them may hold anything.
    ///
    /// `Failed` comes only where the count of faults rose, and `into` may hold anything then. The file stays open.
    fn read_at(&mut self, at: u64, into: &mut [u8]) -> Result<usize, Failed>
        requires inside { at < size_of (state self.old).now }
        requires room { 0 < length into.old }
        ensures { ReadsSome (state self.old) (state self.new) at into.new result };

    /// A size is a number of 64 bits.
    ghost small_size: { (d : Self) → size_of (state d).now < 2 ^ 64 };

    /// The count of bytes taken is a number of 64 bits.
    ghost small_taken: { (d : Self) → (state d).taken < 2 ^ 64 };
}
