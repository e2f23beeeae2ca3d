// Which dumps are accepted.
ghost use Rattle.std.specs.Prelude.{◌≡◌};

use dump_io::Text;
use line_source::{HeaderStop, ScanFault};
use thiserror::Error;

/// Why a dump wasn't opened. Offsets count bytes from the beginning of the file.
///
/// A header is a line that begins with `=`. Of the three refusals of a header, that of the first
/// such header in the dump is returned; if several hold for that header, the one listed first here.
#[derive(Debug, Drop, Error)]
pub enum OpenFault {
    /// The file begins with `1F 8B`, as gzip writes.
    #[error("compressed")]
    Compressed,
    /// The file doesn't begin with `=erl_crash_dump:`.
    #[error("not a dump")]
    NotADump,
    /// The first line names a version that isn't read; `text` is its id.
    #[error("a version that isn't read")]
    Version { text: Text },
    /// The file has more bytes than the limit on dumps; `size` is their number.
    #[error("a dump of {size} bytes is too large")]
    TooLarge { size: u64 },
    /// The header at this offset has more bytes before its LF
    /// or the end of the file than the limit; a CR counts.
    #[error("the header at {at} is too long")]
    HeaderTooLong { at: u64 },
    /// As many headers as the limit allows stand before the header at this offset.
    #[error("the section at {at} is one too many")]
    TooManySections { at: u64 },
    /// The texts of the headers up to and including the one at
    /// this offset have more bytes together than the limit.
    #[error("the headers up to {at} are too large together")]
    HeadersTooLarge { at: u64 },
    /// The device failed, or has no file of that name.
    #[error("the dump can't be read")]
    Read,
    /// There was no memory for the index.
    #[error("out of memory")]
    Memory,
}

impl From<ScanFault> for OpenFault {
    ghost use Rattle.section_index.specs.Inner.Scanning.{open_fault_of};

    ghost from_gives = { λ fault open'. open' ≡ open_fault_of fault };

    fn from(fault: ScanFault) -> OpenFault {
        match fault {
            ScanFault::HeaderTooLong { at } => OpenFault::HeaderTooLong { at },
            ScanFault::Stop(HeaderStop::TooMany { at }) => OpenFault::TooManySections { at },
            ScanFault::Stop(HeaderStop::PoolFull { at }) => OpenFault::HeadersTooLarge { at },
            ScanFault::Stop(HeaderStop::Memory) => OpenFault::Memory,
        }
    }
}
