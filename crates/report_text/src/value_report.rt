// The report of `field`.
ghost use Rattle.std.specs.Prelude.{◌<◌, length};
ghost use Rattle.std.specs.List.{flat_map};
ghost use Rattle.dump_io.specs.Sinks.{Puts};
ghost use Rattle.section_rows.specs.Rows.{row_at};
ghost use Rattle.report_text.specs.Tables.{processes_line, value_line, values_report};

use crate::process_report::{put_counts, text_of};
use dump_io::{Failed, Piece, Sink};
use process_table::FieldTable;
use report_lines::put_line;

fn put_value<K: Sink>(sink: &mut K, table: &FieldTable, i: usize) -> Result<(), Failed>
    requires { i < length table.now.rows }
    ensures { Puts (K.state sink.old) (K.state sink.new)
        (value_line (row_at table.now.rows i)) result }
{
    put_line(
        sink,
        b"\t",
        &[
            Piece::Bytes(text_of(&table.cell(i, 0))),
            Piece::Bytes(text_of(&table.cell(i, 1))),
            Piece::Dec(table.at(i)),
            Piece::Bytes(text_of(&table.cell(i, 2))),
        ],
    )
}

fn put_all<K: Sink>(sink: &mut K, table: &FieldTable) -> Result<(), Failed>
    ensures { Puts (K.state sink.old) (K.state sink.new)
        (flat_map value_line table.now.rows) result }
{
    for i in 0..table.len() {
        put_value(sink, table, i)?;
    }
    Ok(())
}

fn put_total<K: Sink>(sink: &mut K, table: &FieldTable) -> Result<(), Failed>
    ensures { Puts (K.state sink.old) (K.state sink.new)
        (processes_line (length table.now.rows) table.now.repeated) result }
{
    put_counts(sink, table.len() as u64, table.repeated())
}

/// Writes a line for each process, `PID NAME AT VALUE` with tabs between them: its pid, its name, the offset of
/// the header of its section, and the value of the field, where `-` stands for a missing name or value. Then
/// comes `processes N repeated R`, as in the report of `procs`.
pub fn put_values<K: Sink>(sink: &mut K, table: &FieldTable) -> Result<(), Failed>
    ensures { Puts (K.state sink.old) (K.state sink.new) (values_report table.now) result }
{
    put_all(sink, table)?;
    put_total(sink, table)
}
