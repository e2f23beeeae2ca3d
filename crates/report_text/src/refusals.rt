// The lines that say why a command is refused.
ghost use Rattle.std.specs.Prelude.{[], ◌∷◌, codes, decimal};
ghost use Rattle.dump_io.specs.Pieces.{piece_text};
ghost use Rattle.dump_io.specs.Sinks.{Puts};
ghost use Rattle.report_lines.specs.Lines.{line_of, word_space};
ghost use Rattle.report_text.specs.Refusals.{IsRefusal, refusal_line};

use dump_io::{Failed, Piece, Sink, Text, write_all};
use report_lines::put_line;
use section_index::OpenFault;

/// Why a command is refused.
#[derive(Drop)]
pub enum Refusal {
    /// The dump wasn't opened.
    Open(OpenFault),
    /// No section of a process has this id.
    NoProcess(Text),
    /// A body that the command loads has more bytes than the limit on a section's body; `at`
    /// is the offset of its section in the file, and `len` the number of bytes of the body.
    SectionTooLarge { at: u64, len: u64 },
    /// The heap has more lines and elements than the limit; `count` is their number.
    TooDense { count: u64 },
    /// The heap has no cell at this address.
    NoAddress { addr: u64 },
    /// The heap's cell at this address isn't an external term.
    NotExt { addr: u64 },
    /// The bytes of the external term at this address aren't 131 and one
    /// term; `at` is the length of their longest prefix that begins one.
    BadExt { addr: u64, at: u64 },
    /// No section is that of the binary with this address.
    NoBinary { addr: u64 },
    /// The first line of the body isn't that of a binary; `at` is the offset of its section in the file.
    BadBinary { at: u64 },
}

// Writes a line whose cause is a text followed by a piece.
fn put_cause<'x, K: Sink>(sink: &mut K, cause: &'x [u8], what: Piece<'x>) -> Result<(), Failed>
    ensures { Puts (K.state sink.old) (K.state sink.new)
        (line_of word_space (codes "refused:" ∷ cause.now ∷ piece_text what.entry ∷ [])) result }
{
    put_line(
        sink,
        b" ",
        &[Piece::Bytes(b"refused:"), Piece::Bytes(cause), what],
    )
}

// Writes a line whose cause is a text and a piece, followed by another text and a number.
fn put_long_cause<'x, K: Sink>(
    sink: &mut K,
    cause: &'x [u8],
    what: Piece<'x>,
    link: &'x [u8],
    number: u64,
) -> Result<(), Failed>
    ensures { let parts = cause.now ∷ piece_text what.entry ∷ link.now ∷ decimal number ∷ [] in
        Puts (K.state sink.old) (K.state sink.new)
        (line_of word_space (codes "refused:" ∷ parts)) result }
{
    put_line(
        sink,
        b" ",
        &[
            Piece::Bytes(b"refused:"),
            Piece::Bytes(cause),
            what,
            Piece::Bytes(link),
            Piece::Dec(number),
        ],
    )
}

fn put_open_fault<K: Sink>(sink: &mut K, fault: &OpenFault) -> Result<(), Failed>
    requires { IsRefusal (Refusal.Open fault.now) }
    ensures { Puts (K.state sink.old) (K.state sink.new)
        (refusal_line (Refusal.Open fault.now)) result }
{
    match fault {
        OpenFault::Compressed => write_all(sink, b"refused: compressed\n"),
        OpenFault::NotADump => write_all(sink, b"refused: not a dump\n"),
        OpenFault::Version { text } => put_cause(sink, b"version", Piece::Bytes(text.bytes())),
        OpenFault::TooLarge { size } => put_cause(sink, b"dump too large", Piece::Dec(*size)),
        OpenFault::HeaderTooLong { at } => put_cause(sink, b"header too long at", Piece::Dec(*at)),
        OpenFault::TooManySections { at } => put_cause(
            sink,
            b"too many sections at",
            Piece::Dec(*at),
        ),
        OpenFault::HeadersTooLarge { at } => put_cause(
            sink,
            b"headers too large at",
            Piece::Dec(*at),
        ),
        OpenFault::Read | OpenFault::Memory => unreachable!(),
    }
}

/// Writes `refused: ` and the cause, as a line. An `Open` fault is neither `Read` nor `Memory`.
pub fn put_refusal<K: Sink>(sink: &mut K, refusal: &Refusal) -> Result<(), Failed>
    requires { IsRefusal refusal.now }
    ensures { Puts (K.state sink.old) (K.state sink.new) (refusal_line refusal.now) result }
{
    match refusal {
        Refusal::Open(fault) => put_open_fault(sink, fault),
        Refusal::NoProcess(pid) => put_cause(sink, b"no process", Piece::Bytes(pid.bytes())),
        Refusal::SectionTooLarge { at, len } => put_long_cause(
            sink,
            b"section too large at",
            Piece::Dec(*at),
            b"length",
            *len,
        ),
        Refusal::TooDense { count } => put_cause(sink, b"heap too dense", Piece::Dec(*count)),
        Refusal::NoAddress { addr } => put_cause(sink, b"no address", Piece::Hex(*addr)),
        Refusal::NotExt { addr } => put_cause(sink, b"not external", Piece::Hex(*addr)),
        Refusal::BadExt { addr, at } => {
            put_long_cause(sink, b"bad external", Piece::Hex(*addr), b"at", *at)
        }
        Refusal::NoBinary { addr } => put_cause(sink, b"no binary", Piece::Hex(*addr)),
        Refusal::BadBinary { at } => put_cause(sink, b"bad binary at", Piece::Dec(*at)),
    }
}
