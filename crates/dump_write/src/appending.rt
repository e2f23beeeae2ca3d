// Appending texts and lines to a vector.
ghost use Rattle.std.specs.Prelude.{◌≡◌, ◌++◌, OnOk};
ghost use Rattle.std.specs.List.{flat_map};
ghost use Rattle.dump_io.specs.Pieces.{piece_text, pieces_text};
ghost use Rattle.dump_write.specs.Inner.Pieces.{pieces_line};
ghost use Rattle.dump_write.specs.Written.{line};
ghost use Rattle.term_forms.specs.Appending.{Appends};

use dump_io::{HexText, Piece};
use itoa::Buffer;
use std::alloc::AllocError;

// An empty text is appended without a call, since a call that fails has to leave out some of the text.
pub(crate) fn append(into: &mut Vec<u8>, text: &[u8]) -> Result<(), AllocError>
    ensures { Appends into.old into.new text.now result }
{
    if text.is_empty() {
        return Ok(());
    }
    into.extend_from_slice(text)
}

fn append_piece(into: &mut Vec<u8>, piece: &Piece<'_>) -> Result<(), AllocError>
    ensures { Appends into.old into.new (piece_text piece.now) result }
{
    match piece {
        Piece::Bytes(bytes) => append(into, bytes),
        Piece::Dec(n) => append(into, Buffer::new().format(*n).as_bytes()),
        Piece::Hex(n) => append(into, HexText::new(*n).bytes()),
    }
}

pub(crate) fn append_pieces(into: &mut Vec<u8>, pieces: &[Piece<'_>]) -> Result<(), AllocError>
    ensures { Appends into.old into.new (pieces_text pieces.now) result }
{
    for piece in pieces {
        append_piece(into, piece)?;
    }
    Ok(())
}

// Appends the pieces and LF.
pub(crate) fn append_line(into: &mut Vec<u8>, pieces: &[Piece<'_>]) -> Result<(), AllocError>
    ensures { Appends into.old into.new (line (pieces_text pieces.now)) result }
{
    append_pieces(into, pieces)?;
    append(into, b"\n")
}

// Appends a line for each list of pieces.
pub(crate) fn append_lines(into: &mut Vec<u8>, lines: &[&[Piece<'_>]]) -> Result<(), AllocError>
    ensures { OnOk result (into.new.items ≡ into.old.items ++ flat_map pieces_line lines.now) }
{
    for pieces in lines {
        append_line(into, pieces)?;
    }
    Ok(())
}
