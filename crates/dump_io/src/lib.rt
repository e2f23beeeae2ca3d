//! Devices that hold dumps, sinks that take reports, and the numbers and limits of a dump.
//!
//! A [`Dumps`] opens a dump by its name and gives its bytes in pieces, and a [`Sink`] takes the
//! bytes of a report. Both are traits whose ghost members say what a device holds and what a
//! sink took, so that the layers above are proved once for real files and for those in memory:
//!
//! ```text
//! let size = dumps.open_dump("erl_crash.dump")?;
//! let mut first = [0; 2];
//! read_full(&mut dumps, 0, &mut first)?;
//! put_pieces(&mut out, &[Piece::Bytes(b"size "), Piece::Dec(size), Piece::Bytes(b"\n")])?;
//! ```
//!
//! Each call that writes has the one clause `Puts (K.state sink.old) (K.state sink.new) text result`,
//! and each that reads from what is open `ReadsAtMost (D.state dumps.old) (D.state dumps.new) n`.
//! Calls in a row are joined by the lemmas of `specs/Laws/`. The definitions of lines and headers, which
//! every layer above speaks of, stand in `specs/Lines.antt`.
#![tactic(auto)]

mod atoms;
mod colons;
mod count;
mod dumps;
mod faults;
mod file;
mod held_dump;
mod hex;
mod limits;
mod lines;
mod mem_dumps;
mod mem_sink;
mod numbers;
mod parts;
mod pieces;
mod read;
mod short_text;
mod sink;
mod text;

pub use atoms::put_atom;
pub use colons::split_at_colon;
pub use count::Count;
pub use dumps::{Dumps, Failed};
pub use faults::ReadFault;
pub use file::DumpFile;
pub use held_dump::HeldDump;
pub use hex::{HexText, hex_digit, hex_pair, put_hex, put_hex_bytes};
pub use limits::Limits;
pub use lines::{line_len, line_text, lines_are_one, text_before_lf};
pub use mem_dumps::MemDumps;
pub use mem_sink::MemSink;
pub use numbers::{dec_u64, hex_front, hex_u64, is_digits, put_dec};
pub use parts::{bytes_from, items_between};
pub use pieces::{Piece, put_pieces};
pub use read::read_full;
pub use sink::{Sink, write_all};
pub use text::Text;
