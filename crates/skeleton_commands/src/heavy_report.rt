// The report of `heavy`.
ghost use Rattle.std.specs.Prelude.{◌≡◌, ◌+◌, codes, length};
ghost use Rattle.std.specs.List.{enumerate_from, flat_map};
ghost use Rattle.dump_io.specs.Pieces.{piece_text};
ghost use Rattle.dump_io.specs.Sinks.{Puts};
ghost use Rattle.heap_levels.specs.Shown.{shown_level, shown_shape};
ghost use Rattle.report_lines.specs.Lines.{total_line};
ghost use Rattle.text_groups.specs.Sums.{capped};
ghost use Rattle.skeleton_commands.specs.Heavy.{heavy_report, kind_line, kind_word, level_line, level_lines, shape_line, subject_text, zero_lines};
ghost use Rattle.skeleton_commands.specs.Weights.{part_line, weight_line};

use crate::weight_report::{put_part, put_weight};
use dump_io::{Failed, Piece, Sink};
use heap_levels::{KindLevel, KindRow, Level, Levels, ShapeRow, Subject};
use heap_weights::Weight;
use report_lines::{put_line, put_total_line};
use root_views::RootKind;
use text_groups::capped;

// The word of a kind of roots.
fn kind_word(kind: RootKind) -> &'static [u8]
    ensures { result.now ≡ kind_word kind }
{
    match kind {
        RootKind::Stack => b"stack",
        RootKind::Dict => b"dict",
        RootKind::Mail => b"mail",
    }
}

// Whose parts a level has.
fn subject_piece<'a>(subject: Subject) -> Piece<'a>
    ensures { piece_text result ≡ subject_text subject }
{
    match subject {
        Subject::OfKind(kind) => Piece::Bytes(kind_word(kind)),
        Subject::OfCell(address) => Piece::Hex(address),
    }
}

// Writes the first line of level 0.
fn put_top<K: Sink>(sink: &mut K, reached: Weight) -> Result<(), Failed>
    ensures { Puts (K.state sink.old) (K.state sink.new) (level_line 0 (codes "-") reached) result }
{
    put_line(
        sink,
        b"\t",
        &[
            Piece::Bytes(b"level"),
            Piece::Dec(0),
            Piece::Bytes(b"-"),
            Piece::Dec(capped(reached.words)),
            Piece::Dec(u64::from(reached.cells)),
            Piece::Dec(u64::from(reached.binaries)),
        ],
    )
}

// Writes the first line of a level below it.
fn put_head<K: Sink>(
    sink: &mut K,
    number: u64,
    subject: Subject,
    reached: Weight,
) -> Result<(), Failed>
    ensures { Puts (K.state sink.old) (K.state sink.new)
        (level_line number (subject_text subject) reached) result }
{
    put_line(
        sink,
        b"\t",
        &[
            Piece::Bytes(b"level"),
            Piece::Dec(number),
            subject_piece(subject),
            Piece::Dec(capped(reached.words)),
            Piece::Dec(u64::from(reached.cells)),
            Piece::Dec(u64::from(reached.binaries)),
        ],
    )
}

fn put_shared<K: Sink>(sink: &mut K, shared: Weight) -> Result<(), Failed>
    ensures { Puts (K.state sink.old) (K.state sink.new) (weight_line (codes "shared") shared) result }
{
    put_weight(sink, b"shared", shared)
}

// Writes the line of a kind of roots.
fn put_kind<K: Sink>(sink: &mut K, row: &KindRow) -> Result<(), Failed>
    ensures { Puts (K.state sink.old) (K.state sink.new) (kind_line row.now) result }
{
    put_line(
        sink,
        b"\t",
        &[
            Piece::Bytes(b"part"),
            Piece::Dec(capped(row.weight.words)),
            Piece::Dec(u64::from(row.weight.cells)),
            Piece::Dec(u64::from(row.weight.binaries)),
            Piece::Bytes(kind_word(row.kind)),
        ],
    )
}

// Writes the lines of the kinds.
fn put_kinds<K: Sink>(sink: &mut K, rows: &[KindRow]) -> Result<(), Failed>
    ensures { Puts (K.state sink.old) (K.state sink.new) (flat_map kind_line rows.now) result }
{
    for row in rows {
        put_kind(sink, row)?;
    }
    Ok(())
}

// Writes the lines of level 0.
fn put_zero<K: Sink>(sink: &mut K, zero: &KindLevel) -> Result<(), Failed>
    ensures { Puts (K.state sink.old) (K.state sink.new) (zero_lines (shown_level zero.now)) result }
{
    put_top(sink, zero.reached)?;
    put_kinds(sink, &zero.rows)?;
    put_shared(sink, zero.shared)
}

// Writes the lines of the parts of a level.
fn put_rows<K: Sink>(sink: &mut K, level: &Level) -> Result<(), Failed>
    ensures { Puts (K.state sink.old) (K.state sink.new) (flat_map part_line level.now.rows) result }
{
    for i in 0..level.rows() {
        put_part(sink, &level.row(i))?;
    }
    Ok(())
}

// Writes the lines of a level, which has this number.
fn put_level<K: Sink>(sink: &mut K, number: u64, level: &Level) -> Result<(), Failed>
    ensures { Puts (K.state sink.old) (K.state sink.new) (level_lines (number, level.now)) result }
{
    put_head(sink, number, level.subject(), level.reached())?;
    put_rows(sink, level)?;
    put_shared(sink, level.shared())
}

// Writes the lines of the levels below level 0.
fn put_below<K: Sink>(sink: &mut K, levels: &Levels) -> Result<(), Failed>
    ensures { Puts (K.state sink.old) (K.state sink.new)
        (flat_map level_lines (enumerate_from 1 levels.now.below)) result }
{
    for i in 0..levels.below() {
        put_level(sink, 1 + i as u64, levels.level(i))?;
    }
    Ok(())
}

// Writes the line of a shape.
fn put_shape<K: Sink>(sink: &mut K, shape: &ShapeRow<'_>) -> Result<(), Failed>
    ensures { Puts (K.state sink.old) (K.state sink.new) (shape_line (shown_shape shape.now)) result }
{
    put_line(
        sink,
        b"\t",
        &[
            Piece::Bytes(b"shape"),
            Piece::Dec(shape.parts),
            Piece::Dec(capped(shape.words)),
            Piece::Bytes(shape.text),
        ],
    )
}

// Writes the lines of the shapes.
fn put_shapes<K: Sink>(sink: &mut K, levels: &Levels) -> Result<(), Failed>
    ensures { Puts (K.state sink.old) (K.state sink.new) (flat_map shape_line levels.now.shapes) result }
{
    for i in 0..levels.shapes() {
        put_shape(sink, &levels.shape(i))?;
    }
    Ok(())
}

// Writes the last line.
fn put_count<K: Sink>(sink: &mut K, levels: &Levels) -> Result<(), Failed>
    ensures { Puts (K.state sink.old) (K.state sink.new)
        (total_line (codes "levels") (capped (1 + length levels.now.below))) result }
{
    put_total_line(sink, b"levels", capped(1 + levels.below() as u128))
}

/// Writes level after level: `level L ADDR WORDS CELLS BINARIES`, with the number of the level, the address of the cell
/// whose parts it has, the word of a kind of roots on level 1 and `-` on level 0, and the words and the number of the
/// cells that any of its parts reaches and how many of these refer to binaries; a line `part` for each of its rows, as
/// `weigh` has it, and on level 0 with the word of the kind behind the three numbers; and `shared` with the same numbers of
/// what two or more parts reach. Then a line `shape PARTS WORDS TEXT` for each shape, all with tabs, and `levels K`.
///
/// Returns `Failed` only if the sink's count of faults rose; a proper prefix of the text was written then. It takes
/// no memory.
pub(crate) fn put_heavy<K: Sink>(sink: &mut K, levels: &Levels) -> Result<(), Failed>
    ensures { Puts (K.state sink.old) (K.state sink.new) (heavy_report levels.now) result }
{
    put_zero(sink, levels.zero())?;
    put_below(sink, levels)?;
    put_shapes(sink, levels)?;
    put_count(sink, levels)
}
