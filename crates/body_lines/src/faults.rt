// Why the lines of a body weren't all heard.
use dump_io::ReadFault;
use std::alloc::AllocError;

/// Why the lines weren't all heard.
#[derive(Drop)]
pub enum LinesFault<S> {
    /// The device failed.
    Read,
    /// What hears the lines stopped, with this answer.
    Stopped(S),
}

/// Why the lines weren't all heard, each of them whole.
#[derive(Drop)]
pub enum WholeLinesFault<S> {
    /// The lines weren't all read: the device failed, or there was no memory for a line.
    Unread(ReadFault),
    /// What hears the lines stopped, with this answer.
    Stopped(S),
}

impl From<WholeLinesFault<AllocError>> for ReadFault {
    ghost use Rattle.std.specs.Prelude.{◌≡◌};
    ghost use Rattle.body_lines.specs.WholeLines.{read_fault};

    ghost from_gives = { λ fault read. read ≡ read_fault fault };

    fn from(fault: WholeLinesFault<AllocError>) -> ReadFault {
        match fault {
            WholeLinesFault::Unread(fault) => fault,
            WholeLinesFault::Stopped(_) => ReadFault::Memory,
        }
    }
}
