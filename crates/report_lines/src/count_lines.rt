// Lines of parts, and those of what is counted.
ghost use Rattle.std.specs.Prelude.{◌≤◌, ◌<◌, length, map};
ghost use Rattle.dump_io.specs.Pieces.{piece_text};
ghost use Rattle.dump_io.specs.Sinks.{Puts};
ghost use Rattle.report_lines.specs.Lines.{count_line, line_of, total_line};

use dump_io::{Failed, Piece, Sink, put_pieces};

/// Writes a line of one to eight parts, with the same bytes between each two of them. Returns
/// `Failed` only if the sink's count of faults rose; a proper prefix of the line was written then.
pub fn put_line<'x, K: Sink>(
    sink: &mut K,
    between: &'x [u8],
    parts: &[Piece<'x>],
) -> Result<(), Failed>
    requires some { 0 < length parts.now }
    requires few { length parts.now ≤ 8 }
    ensures { Puts (K.state sink.old) (K.state sink.new)
        (line_of between.now (map piece_text parts.now)) result }
{
    // Each part has a piece behind it, and that of the last one ends the line.
    let mut pieces = [Piece::Bytes(between); 16];
    let mut end = 0;
    for part in parts {
        pieces[end] = *part;
        end += 2;
    }
    pieces[end - 1] = Piece::Bytes(b"\n");
    put_pieces(sink, &pieces[..end])
}

/// Writes the last line of a list: what its lines are, and how many there are. Returns
/// `Failed` only if the sink's count of faults rose; a proper prefix of the line was written then.
pub fn put_total_line<K: Sink>(sink: &mut K, word: &[u8], count: u64) -> Result<(), Failed>
    ensures { Puts (K.state sink.old) (K.state sink.new) (total_line word.now count) result }
{
    put_line(sink, b" ", &[Piece::Bytes(word), Piece::Dec(count)])
}

/// Writes the line of something that occurs a number of times: a word, the number, and what
/// it is, with tabs between them. What doesn't occur has no line. Returns `Failed` only
/// if the sink's count of faults rose; a proper prefix of the line was written then.
pub fn put_count_line<'x, K: Sink>(
    sink: &mut K,
    word: &'x [u8],
    counted: &'x [u8],
    count: u64,
) -> Result<(), Failed>
    ensures { Puts (K.state sink.old) (K.state sink.new)
        (count_line word.now counted.now count) result }
{
    if count == 0 {
        return Ok(());
    }
    put_line(
        sink,
        b"\t",
        &[Piece::Bytes(word), Piece::Dec(count), Piece::Bytes(counted)],
    )
}
