// The report of `path`.
ghost use Rattle.std.specs.Prelude.{◌≡◌, codes, decimal};
ghost use Rattle.std.specs.List.{flat_map};
ghost use Rattle.std.specs.Option.{option_map};
ghost use Rattle.dump_io.specs.Pieces.{piece_text};
ghost use Rattle.dump_io.specs.Sinks.{Puts};
ghost use Rattle.heap_ways.specs.Shown.{line};
ghost use Rattle.report_lines.specs.Lines.{text_or_dash, total_line};
ghost use Rattle.skeleton_commands.specs.Paths.{path_report, root_line, step_line, way_lines};

use dump_io::{Failed, Piece, Sink};
use heap_ways::{HeapWay, WayLine};
use report_lines::{put_line, put_total_line};
use term_text::kind_word;

fn place_piece<'a>(place: Option<usize>) -> Piece<'a>
    ensures { piece_text result ≡ text_or_dash (option_map decimal place) }
{
    match place {
        Some(place) => Piece::Dec(place as u64),
        None => Piece::Bytes(b"-"),
    }
}

fn text_piece(text: Option<&[u8]>) -> Piece<'_>
    ensures { piece_text result ≡ text_or_dash (option_map (λ t. t.now) text.entry) }
{
    match text {
        Some(text) => Piece::Bytes(text),
        None => Piece::Bytes(b"-"),
    }
}

// Writes the line of a step.
fn put_step<K: Sink>(sink: &mut K, step: &WayLine<'_>) -> Result<(), Failed>
    ensures { Puts (K.state sink.old) (K.state sink.new) (step_line (line step.now)) result }
{
    match *step {
        WayLine::Tails(address, count) => put_line(
            sink,
            b"\t",
            &[
                Piece::Bytes(b"tails"),
                Piece::Hex(address),
                Piece::Dec(u64::from(count)),
            ],
        ),
        WayLine::Cell(address, kind, place, front) => put_line(
            sink,
            b"\t",
            &[
                Piece::Bytes(b"cell"),
                Piece::Hex(address),
                Piece::Bytes(kind_word(kind)),
                place_piece(place),
                text_piece(front),
            ],
        ),
    }
}

// Writes the line of the root with which a way begins.
fn put_root<K: Sink>(sink: &mut K, way: &HeapWay) -> Result<(), Failed>
    ensures { Puts (K.state sink.old) (K.state sink.new) (root_line way.now.root) result }
{
    put_line(
        sink,
        b"\t",
        &[
            Piece::Bytes(b"root"),
            Piece::Dec(way.root_at()),
            Piece::Bytes(way.root_label()),
        ],
    )
}

// Writes the lines of the steps.
fn put_steps<K: Sink>(sink: &mut K, way: &HeapWay) -> Result<(), Failed>
    ensures { Puts (K.state sink.old) (K.state sink.new) (flat_map step_line way.now.lines) result }
{
    for i in 0..way.len() {
        put_step(sink, &way.line(i))?;
    }
    Ok(())
}

fn put_depth<K: Sink>(sink: &mut K, depth: u32) -> Result<(), Failed>
    ensures { Puts (K.state sink.old) (K.state sink.new) (total_line (codes "depth") depth) result }
{
    put_total_line(sink, b"depth", u64::from(depth))
}

// Writes a way to a cell of this depth.
fn put_way<K: Sink>(sink: &mut K, way: &HeapWay, depth: u32) -> Result<(), Failed>
    ensures { Puts (K.state sink.old) (K.state sink.new) (way_lines way.now depth) result }
{
    put_root(sink, way)?;
    put_steps(sink, way)?;
    put_depth(sink, depth)
}

/// Writes a way: `root OFFSET LABEL` of the root with which it begins; for each step a line, `tails ADDR COUNT` of lists that
/// follow on each other, or `cell ADDR KIND PLACE FRONT` of a cell, with tabs between the parts; and then `depth D`. A PLACE
/// or a FRONT that there is none of is `-`. For a cell that isn't reached it writes `unreached` alone.
///
/// Returns `Failed` only if the sink's count of faults rose; a proper prefix of the text was written then. It takes
/// no memory.
pub fn put_path<K: Sink>(sink: &mut K, way: &HeapWay) -> Result<(), Failed>
    ensures { Puts (K.state sink.old) (K.state sink.new) (path_report way.now) result }
{
    match way.depth() {
        Some(depth) => put_way(sink, way, depth),
        None => put_line(sink, b" ", &[Piece::Bytes(b"unreached")]),
    }
}
