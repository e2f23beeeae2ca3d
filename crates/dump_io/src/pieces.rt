// Writing a line from pieces.
ghost use Rattle.std.specs.Prelude.{◌≡◌, ◌≤◌, [], ◌++◌, length, drop, if◌then◌else◌};
ghost use Rattle.dump_io.specs.Pieces.{piece_text, pieces_text};
ghost use Rattle.dump_io.specs.Sinks.{Puts};

use crate::dumps::Failed;
use crate::hex::{HexText, put_hex};
use crate::numbers::put_dec;
use crate::short_text::ShortText;
use crate::sink::{Sink, write_all};

/// A piece of a line: bytes as they are, a number in decimal, or a number in upper-case hex.
#[derive(Clone, Copy)]
pub enum Piece<'a> {
    /// These bytes.
    Bytes(&'a [u8]),
    /// This number in decimal, without leading zeros.
    Dec(u64),
    /// This number in upper-case hex, without leading zeros.
    Hex(u64),
}

fn put_piece<K: Sink>(sink: &mut K, piece: &Piece<'_>) -> Result<(), Failed>
    ensures { Puts (K.state sink.old) (K.state sink.new) (piece_text piece.now) result }
{
    match piece {
        Piece::Bytes(bytes) => write_all(sink, bytes),
        Piece::Dec(n) => put_dec(sink, *n),
        Piece::Hex(n) => put_hex(sink, *n),
    }
}

// Writes each piece separately.
fn put_each<K: Sink>(sink: &mut K, pieces: &[Piece<'_>]) -> Result<(), Failed>
    ensures { Puts (K.state sink.old) (K.state sink.new) (pieces_text pieces.now) result }
{
    for piece in pieces {
        put_piece(sink, piece)?;
    }
    Ok(())
}

// Puts a piece before a short text, and returns whether there was room.
fn put_before(text: &mut ShortText, piece: &Piece<'_>) -> bool
    ensures { text.new ≡ (if result then piece_text piece.now ++ text.old else text.old) }
{
    match piece {
        Piece::Bytes(bytes) => text.put(bytes),
        Piece::Dec(n) => text.put_dec(*n),
        Piece::Hex(n) => text.put(HexText::new(*n).bytes()),
    }
}

// Puts pieces into a short text, the last one first, and returns how many are left, for which there was no room.
fn gather(text: &mut ShortText, pieces: &[Piece<'_>]) -> usize
    requires { text.old ≡ [] }
    ensures within { result ≤ length pieces.now }
    ensures text { text.new ≡ pieces_text (drop result pieces.now) }
{
    let mut left = pieces.len();
    while left > 0 {
        if !put_before(text, &pieces[left - 1]) {
            return left;
        }
        left -= 1;
    }
    left
}

/// Writes the pieces one after another; a short line goes out in one write.
/// Returns `Failed` when [`write_all`] does, with the same effect on the sink.
pub fn put_pieces<K: Sink>(sink: &mut K, pieces: &[Piece<'_>]) -> Result<(), Failed>
    ensures { Puts (K.state sink.old) (K.state sink.new) (pieces_text pieces.now) result }
{
    let mut text = ShortText::new();
    let left = gather(&mut text, pieces);
    put_each(sink, &pieces[..left])?;
    write_all(sink, text.bytes())
}
