// The report of `fields`.
ghost use Rattle.std.specs.Prelude.{◌<◌, length};
ghost use Rattle.std.specs.List.{flat_map};
ghost use Rattle.dump_io.specs.Sinks.{Puts};
ghost use Rattle.section_rows.specs.Rows.{row_at};
ghost use Rattle.report_text.specs.Tables.{section_field_line, section_fields_report};

use crate::process_report::text_of;
use dump_io::{Failed, Piece, Sink};
use report_lines::{put_line, put_total_line};
use table_sections::SectionFields;

fn put_section_field<K: Sink>(sink: &mut K, fields: &SectionFields, i: usize) -> Result<(), Failed>
    requires { i < length fields.now }
    ensures { Puts (K.state sink.old) (K.state sink.new)
        (section_field_line (row_at fields.now i)) result }
{
    put_line(
        sink,
        b"\t",
        &[
            Piece::Bytes(text_of(&fields.cell(i, 0))),
            Piece::Dec(fields.at(i)),
            Piece::Bytes(text_of(&fields.cell(i, 1))),
        ],
    )
}

fn put_all<K: Sink>(sink: &mut K, fields: &SectionFields) -> Result<(), Failed>
    ensures { Puts (K.state sink.old) (K.state sink.new)
        (flat_map section_field_line fields.now) result }
{
    for i in 0..fields.len() {
        put_section_field(sink, fields, i)?;
    }
    Ok(())
}

/// Writes a line for each section with a tag, `ID AT VALUE` with tabs between them: its id, the offset of its
/// header, and the value of the field, where `-` stands for a missing id or value. Then comes `sections N`.
pub fn put_section_fields<K: Sink>(sink: &mut K, fields: &SectionFields) -> Result<(), Failed>
    ensures { Puts (K.state sink.old) (K.state sink.new) (section_fields_report fields.now) result }
{
    put_all(sink, fields)?;
    put_total_line(sink, b"sections", fields.len() as u64)
}
