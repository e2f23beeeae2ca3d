// The report of `procs`, and what other reports say of a process.
ghost use Rattle.std.specs.Prelude.{◌≡◌, ◌<◌, [], ◌∷◌, All, length};
ghost use Rattle.std.specs.List.{flat_map};
ghost use Rattle.dump_io.specs.Pieces.{piece_text};
ghost use Rattle.dump_io.specs.Sinks.{Puts};
ghost use Rattle.process_table.specs.Processes.{IsProcessIn, process_at};
ghost use Rattle.process_table.specs.Shown.{shown_process};
ghost use Rattle.section_rows.specs.Shown.{shown_cell};
ghost use Rattle.report_text.specs.Tables.{cell_text, process_end, process_line, processes_line, procs_report};

use dump_io::{Failed, Piece, Sink};
use dump_sections::Index;
use process_table::{Kept, Proc, Procs};
use report_lines::put_line;

/// The text of a field, or `-`.
pub fn text_of<'a>(cell: &Option<Kept<'a>>) -> &'a [u8]
    ensures { result.now ≡ cell_text (shown_cell cell.now) }
{
    match cell {
        Some(kept) => kept.text,
        None => b"-",
    }
}

fn put_process<K: Sink>(sink: &mut K, process: &Proc<'_>) -> Result<(), Failed>
    ensures { Puts (K.state sink.old) (K.state sink.new)
        (process_line (shown_process process.now)) result }
{
    put_line(
        sink,
        b"\t",
        &[
            Piece::Bytes(process.pid),
            Piece::Bytes(text_of(&process.state)),
            Piece::Bytes(text_of(&process.name)),
            Piece::Bytes(text_of(&process.queue)),
            Piece::Bytes(text_of(&process.memory)),
        ],
    )
}

/// The end of a line on the process at a place: its pid, its name
/// or `-`, and the offset of the header of its section.
pub fn process_end<'x>(
    index: &Index,
    procs: &'x Procs,
    place: usize,
) -> (Piece<'x>, Piece<'x>, Piece<'x>)
    requires place { place < length procs.now.processes }
    requires processes { All (IsProcessIn index.now) procs.now.processes }
    ensures { piece_text result.0 ∷ piece_text result.1 ∷ piece_text result.2 ∷ []
        ≡ process_end index.now (process_at procs.now.processes place) }
{
    let process = procs.at(place);
    (
        Piece::Bytes(process.pid),
        Piece::Bytes(text_of(&process.name)),
        Piece::Dec(index.section(process.section).at),
    )
}

fn put_processes<K: Sink>(sink: &mut K, procs: &Procs) -> Result<(), Failed>
    ensures { Puts (K.state sink.old) (K.state sink.new)
        (flat_map process_line procs.now.processes) result }
{
    for i in 0..procs.len() {
        put_process(sink, &procs.at(i))?;
    }
    Ok(())
}

// Writes how many processes there are, and how many sections of processes were passed over.
pub(crate) fn put_counts<K: Sink>(sink: &mut K, count: u64, repeated: u64) -> Result<(), Failed>
    ensures { Puts (K.state sink.old) (K.state sink.new) (processes_line count repeated) result }
{
    put_line(
        sink,
        b" ",
        &[
            Piece::Bytes(b"processes"),
            Piece::Dec(count),
            Piece::Bytes(b"repeated"),
            Piece::Dec(repeated),
        ],
    )
}

/// Writes `processes N repeated R`: how many processes there are, and how many sections of processes were passed over.
///
/// Returns `Failed` only if the sink failed; a proper prefix of the line was written then.
pub fn put_processes_line<K: Sink>(sink: &mut K, procs: &Procs) -> Result<(), Failed>
    ensures { Puts (K.state sink.old) (K.state sink.new)
        (processes_line (length procs.now.processes) procs.now.repeated) result }
{
    put_counts(sink, procs.len() as u64, procs.repeated())
}

/// Writes a line for each process, `PID STATE NAME QUEUE MEMORY` with tabs between them, where `-`
/// stands for a missing field. Then comes `processes N repeated R`: how many processes there are,
/// and how many sections of processes were passed over because an earlier section has the same pid.
pub fn put_procs<K: Sink>(sink: &mut K, procs: &Procs) -> Result<(), Failed>
    ensures { Puts (K.state sink.old) (K.state sink.new) (procs_report procs.now) result }
{
    put_processes(sink, procs)?;
    put_processes_line(sink, procs)
}
