// The report of the fields of a section.
ghost use Rattle.std.specs.Prelude.{◌≡◌, ◌+◌, ◌<◌, ◌^◌, [], ◌∷◌, filter, length};
ghost use Rattle.std.specs.List.{flat_map};
ghost use Rattle.dump_io.specs.Sinks.{Puts};
ghost use Rattle.field_lines.specs.Lines.{text_lines};
ghost use Rattle.field_lines.specs.Shown.{shown_line};
ghost use Rattle.report_text.specs.Inner.Rows.{line_row};
ghost use Rattle.report_text.specs.Tables.{columns, field_line, fields_report, has_row};

use dump_io::{Failed, Piece, Sink};
use field_lines::Line;
use field_lines::reading::{field, lines};
use report_lines::{put_line, put_total_line};

// The key and the value of a line, or `-` and the text of a plain line.
fn columns(text: &[u8]) -> (&[u8], &[u8])
    ensures { result.0.now ∷ result.1.now ∷ [] ≡ columns text.now }
{
    match field(text) {
        Some(parts) => parts,
        None => (b"-", text),
    }
}

fn put_field<K: Sink>(sink: &mut K, base: u64, line: &Line<'_>) -> Result<(), Failed>
    requires { base + line.now.at < 2 ^ 64 }
    ensures { Puts (K.state sink.old) (K.state sink.new)
        (field_line base (shown_line line.now)) result }
{
    let (key, value) = columns(line.text);
    put_line(
        sink,
        b"\t",
        &[
            Piece::Dec(base + line.at as u64),
            Piece::Bytes(key),
            Piece::Bytes(value),
        ],
    )
}

// Writes the row of a line, if its text isn't empty.
fn put_row<K: Sink>(sink: &mut K, base: u64, line: &Line<'_>) -> Result<(), Failed>
    requires { base + line.now.at < 2 ^ 64 }
    ensures { Puts (K.state sink.old) (K.state sink.new)
        (line_row base (shown_line line.now)) result }
{
    if line.text.is_empty() {
        return Ok(());
    }
    put_field(sink, base, line)
}

fn put_lines<K: Sink>(sink: &mut K, body: &[u8], base: u64) -> Result<(), Failed>
    requires { base + length body.now < 2 ^ 64 }
    ensures { Puts (K.state sink.old) (K.state sink.new)
        (flat_map (field_line base) (filter has_row (text_lines body.now))) result }
{
    for line in lines(body) {
        put_row(sink, base, &line)?;
    }
    Ok(())
}

// How many lines have a row.
fn rows(body: &[u8]) -> u64
    ensures { result ≡ length (filter has_row (text_lines body.now)) }
{
    let mut rows = 0;
    for line in lines(body) {
        if !line.text.is_empty() {
            rows += 1;
        }
    }
    rows
}

/// Writes a row for each line of a body with a text, `OFFSET KEY VALUE` with tabs
/// between them, or `OFFSET - TEXT` for a line without a colon, and then `rows N`.
/// `base` is the offset of the body in the file, and the offsets are of the file.
pub fn put_fields<K: Sink>(sink: &mut K, body: &[u8], base: u64) -> Result<(), Failed>
    requires { base + length body.now < 2 ^ 64 }
    ensures { Puts (K.state sink.old) (K.state sink.new) (fields_report base body.now) result }
{
    put_lines(sink, body, base)?;
    put_total_line(sink, b"rows", rows(body))
}
