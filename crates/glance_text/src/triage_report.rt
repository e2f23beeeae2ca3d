// The report of `triage`.
ghost use Rattle.std.specs.Prelude.{◌≡◌, ◌-◌, ◌<◌, drop, length, slice_get, All, Some};
ghost use Rattle.std.specs.List.{flat_map};
ghost use Rattle.dump_io.specs.Sinks.{Puts};
ghost use Rattle.field_lines.specs.Lines.{text_lines};
ghost use Rattle.field_lines.specs.Shown.{shown_line};
ghost use Rattle.dump_sections.specs.Bodies.{section_at};
ghost use Rattle.dump_sections.specs.Index.{dump_state, sections_in};
ghost use Rattle.process_table.specs.Processes.{IsProcessIn};
ghost use Rattle.table_sections.specs.Tables.{IsTableOver};
ghost use Rattle.table_sections.specs.declared.kinds.TableKind.TheVariants.{Ets, PortUses};
ghost use Rattle.dump_triage.specs.Triage.{FitsTriage};
ghost use Rattle.glance_text.specs.Triage.{dump_line, dump_lines, finding_counts, finding_line, is_slogan, last_line, last_lines, memory_line, triage_heading, triage_report};

use crate::triage_rows::{put_group_lines, put_process_lines, put_table_lines};
use dump_io::{Failed, Piece, Sink};
use dump_sections::{Index, State};
use dump_triage::{FindingCounts, Triage};
use field_lines::reading::{field, find, lines};
use field_lines::{FieldAt, Line};
use process_table::{Procs, Stands};
use report_lines::put_line;
use report_text::{put_heading, put_processes_line, put_state};
use table_sections::Rows;

// Whether the slogan stands in a line.
fn is_slogan(slogan: &Option<FieldAt>, line: &Line<'_>) -> bool
    ensures { result ≡ is_slogan slogan.now (shown_line line.now) }
{
    match slogan {
        Some(field) => field.at == line.at,
        None => false,
    }
}

// Writes the line of a line of the first section's body.
fn put_dump_line<K: Sink>(
    sink: &mut K,
    slogan: &Option<FieldAt>,
    line: &Line<'_>,
) -> Result<(), Failed>
    ensures { Puts (K.state sink.old) (K.state sink.new)
        (dump_line slogan.now (shown_line line.now)) result }
{
    if line.text.is_empty() || is_slogan(slogan, line) {
        return Ok(());
    }
    put_line(
        sink,
        b"\t",
        &[Piece::Bytes(b"dump"), Piece::Bytes(line.text)],
    )
}

fn put_dump<K: Sink>(sink: &mut K, body: &[u8]) -> Result<(), Failed>
    ensures { Puts (K.state sink.old) (K.state sink.new) (dump_lines body.now) result }
{
    let slogan = find(body, b"Slogan");
    for line in lines(body) {
        put_dump_line(sink, &slogan, &line)?;
    }
    Ok(())
}

// Writes the line of a field of the `memory` section.
fn put_memory_line<K: Sink>(sink: &mut K, line: &Line<'_>) -> Result<(), Failed>
    ensures { Puts (K.state sink.old) (K.state sink.new)
        (memory_line (shown_line line.now)) result }
{
    let Some((key, value)) = field(line.text) else {
        return Ok(());
    };
    put_line(
        sink,
        b"\t",
        &[
            Piece::Bytes(b"memory"),
            Piece::Bytes(key),
            Piece::Bytes(value),
        ],
    )
}

fn put_memory<K: Sink>(sink: &mut K, body: &[u8]) -> Result<(), Failed>
    ensures { Puts (K.state sink.old) (K.state sink.new)
        (flat_map memory_line (text_lines body.now)) result }
{
    for line in lines(body) {
        put_memory_line(sink, &line)?;
    }
    Ok(())
}

// Writes the lines about the node.
fn put_node<K: Sink>(
    sink: &mut K,
    index: &Index,
    first_body: &[u8],
    memory_body: &[u8],
    procs: &Procs,
) -> Result<(), Failed>
    ensures { Puts (K.state sink.old) (K.state sink.new)
        (triage_heading index.now first_body.now memory_body.now procs.now) result }
{
    put_heading(sink, index, first_body)?;
    put_dump(sink, first_body)?;
    put_memory(sink, memory_body)?;
    put_processes_line(sink, procs)
}

// Writes how many findings of a kind there are, and how many of these are in flight, if there are any.
fn put_finding_count<'x, K: Sink>(
    sink: &mut K,
    kind: &'x [u8],
    count: u64,
    waiting: u64,
) -> Result<(), Failed>
    ensures { Puts (K.state sink.old) (K.state sink.new)
        (finding_line kind.now count waiting) result }
{
    if count == 0 {
        return Ok(());
    }
    put_line(
        sink,
        b"\t",
        &[
            Piece::Bytes(b"finding"),
            Piece::Dec(count),
            Piece::Bytes(kind),
            Piece::Dec(waiting),
        ],
    )
}

fn put_finding_counts<K: Sink>(
    sink: &mut K,
    counts: FindingCounts,
    waiting: FindingCounts,
) -> Result<(), Failed>
    ensures { Puts (K.state sink.old) (K.state sink.new) (finding_counts counts waiting) result }
{
    put_finding_count(sink, b"link", counts.links, waiting.links)?;
    put_finding_count(sink, b"monitor-to", counts.monitors_to, waiting.monitors_to)?;
    put_finding_count(
        sink,
        b"monitor-from",
        counts.monitors_from,
        waiting.monitors_from,
    )?;
    put_finding_count(
        sink,
        b"unread-links",
        counts.unread_links,
        waiting.unread_links,
    )?;
    put_finding_count(
        sink,
        b"unread-queue",
        counts.unread_queues,
        waiting.unread_queues,
    )
}

// Writes where a section begins, and its header.
fn put_last_section<K: Sink>(sink: &mut K, index: &Index, i: usize) -> Result<(), Failed>
    requires { i < length index.now.headers }
    ensures puts { Puts (K.state sink.old) (K.state sink.new)
        (last_line (section_at index.now i)) result }
    ensures there { slice_get (sections_in index.now) i ≡ Some (section_at index.now i) }
{
    let section = index.extent(i);
    put_line(
        sink,
        b"\t",
        &[
            Piece::Bytes(b"last"),
            Piece::Dec(section.at),
            Piece::Bytes(section.text),
        ],
    )
}

// Writes the lines of the last two sections, or of the one that there is.
fn put_last_two<K: Sink>(sink: &mut K, index: &Index) -> Result<(), Failed>
    ensures { let sections = sections_in index.now in Puts (K.state sink.old) (K.state sink.new)
        (flat_map last_line (drop (length sections - 2) sections)) result }
{
    let count = index.len();
    for i in count.saturating_sub(2)..count {
        put_last_section(sink, index, i)?;
    }
    Ok(())
}

// Writes the lines of the last sections, if the dump is truncated.
fn put_last_lines<K: Sink>(sink: &mut K, index: &Index) -> Result<(), Failed>
    ensures { Puts (K.state sink.old) (K.state sink.new)
        (last_lines (sections_in index.now) (dump_state index.now.headers)) result }
{
    match index.state() {
        State::Whole => Ok(()),
        State::TruncatedIn(_) => put_last_two(sink, index),
    }
}

/// Writes one page on a dump: version, size, number of sections and slogan, as in
/// [`put_info`](report_text::put_info); `dump TEXT` for each other line of the first section's body that has a
/// text; `memory KEY VALUE` for each field of the body of the first `memory` section, which is empty if there is
/// none; the number of processes, as in [`put_procs`](report_text::put_procs); `state COUNT STATE PID NAME AT` with
/// the first process in that state, and `group COUNT BYTES PID NAME AT WHERE SPAWNED` with the first of the group;
/// `queue LENGTH PID NAME AT WHERE SPAWNED`, `process BYTES ..` and `binary BYTES ..`, `ets BYTES ID NAME AT OWNER` and
/// `port COUNT LINE ID AT` for each row of the triage, with a sum above 2^64 - 1 as that; `finding COUNT KIND K` for
/// each kind of findings that occurs, of which K are in flight; for a truncated dump `last AT HEADER` for its last two
/// sections; and the state line, as in [`put_index`](report_text::put_index). Words and values have tabs between
/// them, `-` stands for what is missing, and AT is the offset of the section.
///
/// The processes, the tables and the ports are those of the index, and the triage
/// fits them, as that of [`Triage::of`](dump_triage::Triage::of) does.
pub fn put_triage<K: Sink>(
    sink: &mut K,
    index: &Index,
    first_body: &[u8],
    memory_body: &[u8],
    procs: &Procs,
    stands: &Stands,
    tables: &Rows,
    ports: &Rows,
    triage: &Triage,
) -> Result<(), Failed>
    requires sections { All (IsProcessIn index.now) procs.now.processes }
    requires stands { length stands.now ≡ length procs.now.processes }
    requires tables { IsTableOver Ets index.now tables.now }
    requires ports { IsTableOver PortUses index.now ports.now }
    requires fits { FitsTriage procs.now.processes tables.now.rows ports.now.rows triage.now }
    ensures { Puts (K.state sink.old) (K.state sink.new)
        (triage_report index.now first_body.now memory_body.now procs.now stands.now tables.now.rows ports.now.rows triage.now) result }
{
    put_node(sink, index, first_body, memory_body, procs)?;
    put_group_lines(sink, index, procs, stands, triage)?;
    put_process_lines(sink, index, procs, stands, triage)?;
    put_table_lines(sink, procs, tables, ports, triage)?;
    put_finding_counts(sink, triage.findings(), triage.in_flight())?;
    put_last_lines(sink, index)?;
    put_state(sink, index)
}
