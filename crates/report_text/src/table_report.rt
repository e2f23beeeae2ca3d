// The report of a table.
ghost use Rattle.std.specs.Prelude.{◌≡◌, ◌<◌, length};
ghost use Rattle.std.specs.List.{flat_map};
ghost use Rattle.dump_io.specs.Sinks.{Puts};
ghost use Rattle.section_rows.specs.Rows.{row_at, cell_at, text_in, AreEven};
ghost use Rattle.report_lines.specs.Lines.{text_or_dash};
ghost use Rattle.report_text.specs.Inner.Rows.{next_cell};
ghost use Rattle.report_text.specs.Tables.{row_line, rows_report};

use dump_io::{Failed, Piece, Sink, put_dec, put_pieces, write_all};
use report_lines::put_total_line;
use table_sections::Rows;

/// The text of a cell, or `-`.
pub fn text_at(rows: &Rows, i: usize, c: usize) -> &[u8]
    requires row { i < length rows.now.rows }
    requires column { c < rows.now.width }
    ensures { result.now ≡ text_or_dash (text_in (cell_at (row_at rows.now.rows i) c)) }
{
    match rows.cell(i, c) {
        Some(text) => text,
        None => b"-",
    }
}

fn put_cells<K: Sink>(sink: &mut K, rows: &Rows, i: usize) -> Result<(), Failed>
    requires even { AreEven rows.now }
    requires place { i < length rows.now.rows }
    ensures { Puts (K.state sink.old) (K.state sink.new)
        (flat_map next_cell (row_at rows.now.rows i).cells) result }
{
    for c in 0..rows.columns() {
        put_pieces(
            sink,
            &[Piece::Bytes(b"\t"), Piece::Bytes(text_at(rows, i, c))],
        )?;
    }
    Ok(())
}

fn put_row<K: Sink>(sink: &mut K, rows: &Rows, i: usize) -> Result<(), Failed>
    requires even { AreEven rows.now }
    requires place { i < length rows.now.rows }
    ensures { Puts (K.state sink.old) (K.state sink.new)
        (row_line (row_at rows.now.rows i)) result }
{
    put_dec(sink, rows.at(i))?;
    put_cells(sink, rows, i)?;
    write_all(sink, b"\n")
}

fn put_all<K: Sink>(sink: &mut K, rows: &Rows) -> Result<(), Failed>
    ensures { Puts (K.state sink.old) (K.state sink.new) (flat_map row_line rows.now.rows) result }
{
    for i in 0..rows.len() {
        put_row(sink, rows, i)?;
    }
    Ok(())
}

/// Writes a line for each row: the offset of its section, and its cells, with a
/// tab before each, where `-` stands for a missing cell. Then comes `rows N`.
pub fn put_rows<K: Sink>(sink: &mut K, rows: &Rows) -> Result<(), Failed>
    ensures { Puts (K.state sink.old) (K.state sink.new) (rows_report rows.now) result }
{
    put_all(sink, rows)?;
    put_total_line(sink, b"rows", rows.len() as u64)
}
