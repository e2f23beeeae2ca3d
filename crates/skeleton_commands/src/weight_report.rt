// The report of `weigh`.
ghost use Rattle.std.specs.Prelude.{◌≡◌, codes, length, min, take};
ghost use Rattle.std.specs.List.{flat_map};
ghost use Rattle.dump_io.specs.Sinks.{Puts};
ghost use Rattle.part_weights.specs.Shown.{row};
ghost use Rattle.skeleton_commands.specs.Weights.{cell_line, held_text, part_line, parts_line, totals, weight_line, weights_report, within_line};

use dump_io::{Failed, Piece, Sink, put_pieces};
use heap_weights::Weight;
use part_weights::{PartRow, Weights};
use report_lines::put_line;
use term_text::kind_word;
use text_groups::capped;

// Writes what stands before the kind in the line of a part: the numbers of what it alone holds.
fn put_held<K: Sink>(sink: &mut K, part: &PartRow<'_>) -> Result<(), Failed>
    ensures { Puts (K.state sink.old) (K.state sink.new) (held_text (row part.now)) result }
{
    put_pieces(
        sink,
        &[
            Piece::Bytes(b"part\t"),
            Piece::Dec(capped(part.words)),
            Piece::Bytes(b"\t"),
            Piece::Dec(u64::from(part.cells)),
            Piece::Bytes(b"\t"),
            Piece::Dec(u64::from(part.binaries)),
            Piece::Bytes(b"\t"),
        ],
    )
}

// Writes the rest of the line of a part: its cell, and the elements that lead to it.
fn put_cell<K: Sink>(sink: &mut K, part: &PartRow<'_>) -> Result<(), Failed>
    ensures { Puts (K.state sink.old) (K.state sink.new) (cell_line (row part.now)) result }
{
    put_line(
        sink,
        b"\t",
        &[
            Piece::Bytes(kind_word(part.kind)),
            Piece::Hex(part.address),
            Piece::Dec(part.elements),
            Piece::Dec(part.at),
            Piece::Bytes(part.label),
        ],
    )
}

/// Writes the line of a part.
pub(crate) fn put_part<K: Sink>(sink: &mut K, part: &PartRow<'_>) -> Result<(), Failed>
    ensures { Puts (K.state sink.old) (K.state sink.new) (part_line (row part.now)) result }
{
    put_held(sink, part)?;
    put_cell(sink, part)
}

// How many parts are shown, if at most `most` are.
fn shown_parts(weights: &Weights, most: u32) -> usize
    ensures { result ≡ min most (length weights.now.rows) }
{
    weights.rows().min(most as usize)
}

// Writes the lines of the first parts, at most `most`.
fn put_parts<K: Sink>(sink: &mut K, weights: &Weights, most: u32) -> Result<(), Failed>
    ensures { Puts (K.state sink.old) (K.state sink.new)
        (flat_map part_line (take most weights.now.rows)) result }
{
    for i in 0..shown_parts(weights, most) {
        put_part(sink, &weights.row(i))?;
    }
    Ok(())
}

/// Writes the line of several cells.
pub(crate) fn put_weight<K: Sink>(sink: &mut K, word: &[u8], weight: Weight) -> Result<(), Failed>
    ensures { Puts (K.state sink.old) (K.state sink.new) (weight_line word.now weight) result }
{
    put_line(
        sink,
        b"\t",
        &[
            Piece::Bytes(word),
            Piece::Dec(capped(weight.words)),
            Piece::Dec(u64::from(weight.cells)),
            Piece::Dec(u64::from(weight.binaries)),
        ],
    )
}

// Writes the line of what the cell reaches whose elements are weighed, if they are those of one.
fn put_within<K: Sink>(sink: &mut K, weights: &Weights) -> Result<(), Failed>
    ensures { Puts (K.state sink.old) (K.state sink.new) (within_line weights.now.within) result }
{
    match weights.within() {
        Some(weight) => put_weight(sink, b"cell", weight),
        None => Ok(()),
    }
}

fn put_shared<K: Sink>(sink: &mut K, weights: &Weights) -> Result<(), Failed>
    ensures { Puts (K.state sink.old) (K.state sink.new)
        (weight_line (codes "shared") weights.now.shared) result }
{
    put_weight(sink, b"shared", weights.shared())
}

fn put_reached<K: Sink>(sink: &mut K, weights: &Weights) -> Result<(), Failed>
    ensures { Puts (K.state sink.old) (K.state sink.new)
        (weight_line (codes "reached") weights.now.reached) result }
{
    put_weight(sink, b"reached", weights.reached())
}

fn put_own<K: Sink>(sink: &mut K, weights: &Weights) -> Result<(), Failed>
    ensures { Puts (K.state sink.old) (K.state sink.new)
        (weight_line (codes "own") weights.now.own) result }
{
    put_weight(sink, b"own", weights.own())
}

// Writes the last line.
fn put_count<K: Sink>(sink: &mut K, weights: &Weights) -> Result<(), Failed>
    ensures { Puts (K.state sink.old) (K.state sink.new)
        (parts_line weights.now.elements weights.now.parts) result }
{
    put_line(
        sink,
        b" ",
        &[
            Piece::Bytes(b"elements"),
            Piece::Dec(weights.elements()),
            Piece::Bytes(b"parts"),
            Piece::Dec(weights.parts() as u64),
        ],
    )
}

// Writes the lines behind those of the parts.
fn put_totals<K: Sink>(sink: &mut K, weights: &Weights) -> Result<(), Failed>
    ensures { Puts (K.state sink.old) (K.state sink.new) (totals weights.now) result }
{
    put_within(sink, weights)?;
    put_shared(sink, weights)?;
    put_reached(sink, weights)?;
    put_own(sink, weights)?;
    put_count(sink, weights)
}

/// Writes at most `most` parts that alone hold cells, in the order given. The line of a part is
/// `part WORDS CELLS BINARIES KIND ADDR ELEMENTS PLACE LABEL` with tabs between its parts: the words and the number of
/// the cells that it alone holds and how many of these refer to binaries, kind and address of its cell, how many of the
/// weighed elements lead to it, and where the first of them stands: offset and label of the root, or the place among the
/// elements of a cell and `-`. Behind them come lines with the same three numbers of several cells: `cell` of those that
/// the cell reaches, if its elements are weighed, `shared`, `reached` and `own`; and then `elements E parts K`.
///
/// Returns `Failed` only if the sink's count of faults rose; a proper prefix of the text was written then. It takes
/// no memory.
pub fn put_weights<K: Sink>(sink: &mut K, weights: &Weights, most: u32) -> Result<(), Failed>
    ensures { Puts (K.state sink.old) (K.state sink.new) (weights_report most weights.now) result }
{
    put_parts(sink, weights, most)?;
    put_totals(sink, weights)
}
