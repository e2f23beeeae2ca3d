// The rows of the report of `triage`.
ghost use Rattle.std.specs.Prelude.{◌≡◌, ◌∷◌, [], ◌<◌, length, All};
ghost use Rattle.std.specs.List.{flat_map};
ghost use Rattle.std.specs.Option.{option_copied};
ghost use Rattle.dump_io.specs.Pieces.{piece_text};
ghost use Rattle.dump_io.specs.Sinks.{Puts};
ghost use Rattle.process_table.specs.Processes.{IsProcessIn};
ghost use Rattle.dump_triage.specs.Ranking.{AreWithin};
ghost use Rattle.dump_triage.specs.Triage.{AreGroupsWithin};
ghost use Rattle.glance_text.specs.Triage.{group_line, group_lines, owner_name, port_line, process_lines, process_number_line, standing, standing_end, state_count_line, table_bytes_line, table_lines};

use dump_io::{Failed, Piece, Sink};
use dump_sections::Index;
use dump_triage::{Ranked, Triage, shown_text};
use process_table::{Procs, Stands};
use report_lines::put_line;
use report_text::{process_end, text_at, text_of};
use table_sections::Rows;
use text_groups::{TextGroup, capped, cut_text};

// Writes the line of a state.
fn put_state_count<K: Sink>(
    sink: &mut K,
    index: &Index,
    procs: &Procs,
    row: &Ranked,
) -> Result<(), Failed>
    requires place { row.now.place < length procs.now.processes }
    requires sections { All (IsProcessIn index.now) procs.now.processes }
    ensures { Puts (K.state sink.old) (K.state sink.new)
        (state_count_line index.now procs.now.processes row.now) result }
{
    let process = procs.at(row.place);
    let (pid, name, at) = process_end(index, procs, row.place);
    put_line(
        sink,
        b"\t",
        &[
            Piece::Bytes(b"state"),
            Piece::Dec(capped(row.number)),
            Piece::Bytes(text_of(&process.state)),
            pid,
            name,
            at,
        ],
    )
}

fn put_states<K: Sink>(
    sink: &mut K,
    index: &Index,
    procs: &Procs,
    rows: &[Ranked],
) -> Result<(), Failed>
    requires within { AreWithin (length procs.now.processes) rows.now }
    requires sections { All (IsProcessIn index.now) procs.now.processes }
    ensures { Puts (K.state sink.old) (K.state sink.new)
        (flat_map (state_count_line index.now procs.now.processes) rows.now) result }
{
    for row in rows {
        put_state_count(sink, index, procs, row)?;
    }
    Ok(())
}

// Which process is at a place, where it stands, and as what it was spawned, as the parts of a line.
fn standing_end<'x>(
    index: &Index,
    procs: &'x Procs,
    stands: &'x Stands,
    p: usize,
) -> (Piece<'x>, Piece<'x>, Piece<'x>, Piece<'x>, Piece<'x>)
    requires place { p < length procs.now.processes }
    requires sections { All (IsProcessIn index.now) procs.now.processes }
    requires stands { length stands.now ≡ length procs.now.processes }
    ensures { piece_text result.0 ∷ piece_text result.1 ∷ piece_text result.2 ∷ piece_text result.3 ∷ piece_text result.4 ∷ []
        ≡ standing_end (standing index.now procs.now.processes stands.now) p }
{
    let (pid, name, at) = process_end(index, procs, p);
    let place = Piece::Bytes(shown_text(stands.place(p)));
    let spawned = Piece::Bytes(shown_text(stands.spawned(p)));
    (pid, name, at, place, spawned)
}

// Writes the line of a group of processes.
fn put_group<'x, K: Sink>(
    sink: &mut K,
    index: &Index,
    procs: &'x Procs,
    stands: &'x Stands,
    group: &TextGroup,
) -> Result<(), Failed>
    requires place { group.now.first < length procs.now.processes }
    requires sections { All (IsProcessIn index.now) procs.now.processes }
    requires stands { length stands.now ≡ length procs.now.processes }
    ensures { Puts (K.state sink.old) (K.state sink.new)
        (group_line (standing index.now procs.now.processes stands.now) group.now) result }
{
    let (pid, name, at, place, spawned) = standing_end(index, procs, stands, group.first);
    put_line(
        sink,
        b"\t",
        &[
            Piece::Bytes(b"group"),
            Piece::Dec(group.count),
            Piece::Dec(group.weight),
            pid,
            name,
            at,
            place,
            spawned,
        ],
    )
}

fn put_groups<K: Sink>(
    sink: &mut K,
    index: &Index,
    procs: &Procs,
    stands: &Stands,
    groups: &[TextGroup],
) -> Result<(), Failed>
    requires within { AreGroupsWithin (length procs.now.processes) groups.now }
    requires sections { All (IsProcessIn index.now) procs.now.processes }
    requires stands { length stands.now ≡ length procs.now.processes }
    ensures { Puts (K.state sink.old) (K.state sink.new)
        (flat_map (group_line (standing index.now procs.now.processes stands.now)) groups.now) result }
{
    for group in groups {
        put_group(sink, index, &*procs, &*stands, group)?;
    }
    Ok(())
}

// Writes the line of a process with one of its numbers.
fn put_process_number<'x, K: Sink>(
    sink: &mut K,
    word: &'x [u8],
    index: &Index,
    procs: &'x Procs,
    stands: &'x Stands,
    row: &Ranked,
) -> Result<(), Failed>
    requires place { row.now.place < length procs.now.processes }
    requires sections { All (IsProcessIn index.now) procs.now.processes }
    requires stands { length stands.now ≡ length procs.now.processes }
    ensures { Puts (K.state sink.old) (K.state sink.new)
        (process_number_line word.now (standing index.now procs.now.processes stands.now) row.now) result }
{
    let (pid, name, at, place, spawned) = standing_end(index, procs, stands, row.place);
    put_line(
        sink,
        b"\t",
        &[
            Piece::Bytes(word),
            Piece::Dec(capped(row.number)),
            pid,
            name,
            at,
            place,
            spawned,
        ],
    )
}

// Writes the lines of processes, each after a word.
fn put_process_numbers<K: Sink>(
    sink: &mut K,
    word: &[u8],
    index: &Index,
    procs: &Procs,
    stands: &Stands,
    rows: &[Ranked],
) -> Result<(), Failed>
    requires within { AreWithin (length procs.now.processes) rows.now }
    requires sections { All (IsProcessIn index.now) procs.now.processes }
    requires stands { length stands.now ≡ length procs.now.processes }
    ensures { Puts (K.state sink.old) (K.state sink.new)
        (flat_map (process_number_line word.now (standing index.now procs.now.processes stands.now)) rows.now) result }
{
    for row in rows {
        put_process_number(sink, &*word, index, &*procs, &*stands, row)?;
    }
    Ok(())
}

// The name of the process whose pid is the id of a table, or `-`.
fn owner_name<'x>(procs: &'x Procs, id: Option<&[u8]>) -> &'x [u8]
    ensures { result.now ≡ owner_name procs.now.processes (option_copied id.entry) }
{
    match id {
        None => b"-",
        Some(id) => match procs.get(id) {
            Some(p) => text_of(&procs.at(p).name),
            None => b"-",
        },
    }
}

// Writes the line of an ETS table with its number of bytes.
fn put_table_bytes<'x, K: Sink>(
    sink: &mut K,
    procs: &'x Procs,
    tables: &'x Rows,
    row: &Ranked,
) -> Result<(), Failed>
    requires place { row.now.place < length tables.now.rows }
    requires width { tables.now.width ≡ 5 }
    ensures { Puts (K.state sink.old) (K.state sink.new)
        (table_bytes_line procs.now.processes tables.now.rows row.now) result }
{
    let owner = owner_name(procs, tables.cell(row.place, 0));
    put_line(
        sink,
        b"\t",
        &[
            Piece::Bytes(b"ets"),
            Piece::Dec(capped(row.number)),
            Piece::Bytes(text_at(tables, row.place, 0)),
            Piece::Bytes(text_at(tables, row.place, 2)),
            Piece::Dec(tables.at(row.place)),
            Piece::Bytes(owner),
        ],
    )
}

fn put_tables<K: Sink>(
    sink: &mut K,
    procs: &Procs,
    tables: &Rows,
    rows: &[Ranked],
) -> Result<(), Failed>
    requires within { AreWithin (length tables.now.rows) rows.now }
    requires width { tables.now.width ≡ 5 }
    ensures { Puts (K.state sink.old) (K.state sink.new)
        (flat_map (table_bytes_line procs.now.processes tables.now.rows) rows.now) result }
{
    for row in rows {
        put_table_bytes(sink, &*procs, &*tables, row)?;
    }
    Ok(())
}

// Writes the line of a group of ports.
fn put_port<K: Sink>(sink: &mut K, ports: &Rows, group: &TextGroup) -> Result<(), Failed>
    requires place { group.now.first < length ports.now.rows }
    requires width { ports.now.width ≡ 2 }
    ensures { Puts (K.state sink.old) (K.state sink.new)
        (port_line ports.now.rows group.now) result }
{
    put_line(
        sink,
        b"\t",
        &[
            Piece::Bytes(b"port"),
            Piece::Dec(group.count),
            Piece::Bytes(cut_text(text_at(ports, group.first, 1))),
            Piece::Bytes(text_at(ports, group.first, 0)),
            Piece::Dec(ports.at(group.first)),
        ],
    )
}

fn put_ports<K: Sink>(sink: &mut K, ports: &Rows, groups: &[TextGroup]) -> Result<(), Failed>
    requires within { AreGroupsWithin (length ports.now.rows) groups.now }
    requires width { ports.now.width ≡ 2 }
    ensures { Puts (K.state sink.old) (K.state sink.new)
        (flat_map (port_line ports.now.rows) groups.now) result }
{
    for group in groups {
        put_port(sink, ports, group)?;
    }
    Ok(())
}

/// Writes the lines of states and of groups of processes.
pub(crate) fn put_group_lines<K: Sink>(
    sink: &mut K,
    index: &Index,
    procs: &Procs,
    stands: &Stands,
    triage: &Triage,
) -> Result<(), Failed>
    requires sections { All (IsProcessIn index.now) procs.now.processes }
    requires stands { length stands.now ≡ length procs.now.processes }
    requires states { AreWithin (length procs.now.processes) triage.now.states }
    requires groups { AreGroupsWithin (length procs.now.processes) triage.now.groups }
    ensures { Puts (K.state sink.old) (K.state sink.new)
        (group_lines (standing index.now procs.now.processes stands.now) triage.now) result }
{
    put_states(sink, index, procs, triage.states())?;
    put_groups(sink, index, procs, stands, triage.groups())
}

/// Writes the lines of message queues, and of processes by memory and by binaries.
pub(crate) fn put_process_lines<K: Sink>(
    sink: &mut K,
    index: &Index,
    procs: &Procs,
    stands: &Stands,
    triage: &Triage,
) -> Result<(), Failed>
    requires sections { All (IsProcessIn index.now) procs.now.processes }
    requires stands { length stands.now ≡ length procs.now.processes }
    requires queues { AreWithin (length procs.now.processes) triage.now.queues }
    requires memory { AreWithin (length procs.now.processes) triage.now.memory }
    requires binaries { AreWithin (length procs.now.processes) triage.now.binaries }
    ensures { Puts (K.state sink.old) (K.state sink.new)
        (process_lines (standing index.now procs.now.processes stands.now) triage.now) result }
{
    put_process_numbers(sink, b"queue", index, procs, stands, triage.queues())?;
    put_process_numbers(sink, b"process", index, procs, stands, triage.memory())?;
    put_process_numbers(sink, b"binary", index, procs, stands, triage.binaries())
}

/// Writes the lines of tables and of groups of ports.
pub(crate) fn put_table_lines<K: Sink>(
    sink: &mut K,
    procs: &Procs,
    tables: &Rows,
    ports: &Rows,
    triage: &Triage,
) -> Result<(), Failed>
    requires width { tables.now.width ≡ 5 }
    requires ports_width { ports.now.width ≡ 2 }
    requires tables { AreWithin (length tables.now.rows) triage.now.tables }
    requires ports { AreGroupsWithin (length ports.now.rows) triage.now.ports }
    ensures { Puts (K.state sink.old) (K.state sink.new)
        (table_lines procs.now.processes tables.now.rows ports.now.rows triage.now) result }
{
    put_tables(sink, procs, tables, triage.tables())?;
    put_ports(sink, ports, triage.ports())
}
