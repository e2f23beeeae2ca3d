// The reports of `binaries` and of `holders`.
ghost use Rattle.std.specs.Prelude.{◌≡◌, All, length};
ghost use Rattle.std.specs.List.{flat_map};
ghost use Rattle.dump_io.specs.Sinks.{Puts};
ghost use Rattle.process_table.specs.Processes.{IsProcessIn};
ghost use Rattle.binary_holders.specs.Usage.{NamesProcess, shown_use};
ghost use Rattle.glance_text.specs.Holders.{binaries_line, binaries_report, held_line, holder_line, holders_report, stated_bytes, stated_line, stored_line, totals, unstored_line};

use binary_holders::{BinaryRow, BinaryUse, Holding, WholeLines};
use dump_io::{Failed, Piece, Sink, dec_u64};
use dump_sections::Index;
use field_lines::reading::find;
use process_table::Procs;
use report_lines::{put_line, put_total_line};
use report_text::process_end;
use text_groups::capped;

// Writes the line of a process that has binaries.
fn put_held<K: Sink>(
    sink: &mut K,
    index: &Index,
    procs: &Procs,
    held: &Holding,
) -> Result<(), Failed>
    requires named { NamesProcess (length procs.now.processes) held.now }
    requires processes { All (IsProcessIn index.now) procs.now.processes }
    ensures { Puts (K.state sink.old) (K.state sink.new)
        (held_line index.now procs.now.processes held.now) result }
{
    let (pid, name, at) = process_end(index, procs, held.process);
    put_line(
        sink,
        b"\t",
        &[
            Piece::Bytes(b"held"),
            Piece::Dec(capped(held.counted)),
            Piece::Dec(held.bytes),
            Piece::Dec(held.count),
            Piece::Dec(held.lines),
            pid,
            name,
            at,
        ],
    )
}

fn put_all_held<K: Sink>(
    sink: &mut K,
    index: &Index,
    procs: &Procs,
    rows: &[Holding],
) -> Result<(), Failed>
    requires named { All (NamesProcess (length procs.now.processes)) rows.now }
    requires processes { All (IsProcessIn index.now) procs.now.processes }
    ensures { Puts (K.state sink.old) (K.state sink.new)
        (flat_map (held_line index.now procs.now.processes) rows.now) result }
{
    for held in rows {
        put_held(sink, index, procs, held)?;
    }
    Ok(())
}

// Writes the line of a stored binary.
fn put_stored<K: Sink>(sink: &mut K, row: &BinaryRow) -> Result<(), Failed>
    ensures { Puts (K.state sink.old) (K.state sink.new) (stored_line row.now) result }
{
    put_line(
        sink,
        b"\t",
        &[
            Piece::Bytes(b"binary"),
            Piece::Dec(row.size),
            Piece::Dec(row.holders),
            Piece::Hex(row.number),
            Piece::Dec(row.at),
        ],
    )
}

fn put_all_stored<K: Sink>(sink: &mut K, rows: &[BinaryRow]) -> Result<(), Failed>
    ensures { Puts (K.state sink.old) (K.state sink.new) (flat_map stored_line rows.now) result }
{
    for row in rows {
        put_stored(sink, row)?;
    }
    Ok(())
}

fn put_total<K: Sink>(sink: &mut K, found: &BinaryUse) -> Result<(), Failed>
    ensures { Puts (K.state sink.old) (K.state sink.new)
        (let held = found.now in binaries_line (length held.binaries.items) held.bytes held.with_holders) result }
{
    put_line(
        sink,
        b" ",
        &[
            Piece::Bytes(b"binaries"),
            Piece::Dec(found.binaries.len() as u64),
            Piece::Bytes(b"bytes"),
            Piece::Dec(found.bytes),
            Piece::Bytes(b"held"),
            Piece::Dec(found.with_holders),
        ],
    )
}

// Writes how many lines refer to whole binaries, and how many of them to none that is stored.
fn put_unstored<K: Sink>(sink: &mut K, lines: WholeLines) -> Result<(), Failed>
    ensures { Puts (K.state sink.old) (K.state sink.new) (unstored_line lines) result }
{
    put_line(
        sink,
        b" ",
        &[
            Piece::Bytes(b"unstored"),
            Piece::Dec(lines.unstored),
            Piece::Bytes(b"of"),
            Piece::Dec(lines.count),
        ],
    )
}

// How many bytes the binaries of the node took, as the body of a `memory` section says.
fn stated_bytes(memory_body: &[u8]) -> Option<u64>
    ensures { result ≡ stated_bytes memory_body.now }
{
    let field = find(memory_body, b"binary")?;
    dec_u64(&memory_body[field.from..field.upto])
}

// Writes how many bytes the binaries of the node took, if that is known.
fn put_stated<K: Sink>(sink: &mut K, stated: Option<u64>) -> Result<(), Failed>
    ensures { Puts (K.state sink.old) (K.state sink.new) (stated_line stated) result }
{
    match stated {
        Some(bytes) => put_total_line(sink, b"memory", bytes),
        None => Ok(()),
    }
}

// Writes the lines about all binaries together.
fn put_totals<K: Sink>(sink: &mut K, memory_body: &[u8], found: &BinaryUse) -> Result<(), Failed>
    ensures { Puts (K.state sink.old) (K.state sink.new)
        (totals memory_body.now (shown_use found.now)) result }
{
    put_total(sink, found)?;
    put_unstored(sink, found.lines)?;
    put_total_line(sink, b"counted", found.counted)?;
    put_stated(sink, stated_bytes(memory_body))
}

/// Writes a line for each process that has binaries, `held COUNTED BYTES COUNT LINES PID NAME AT`, and a line for
/// each stored binary, `binary SIZE HOLDERS ADDR AT`, both with tabs between their parts and in the order given.
/// COUNTED is what the node counted for the process, at most 2^64 - 1, BYTES and COUNT are those of the stored
/// binaries that it holds, and LINES is how many lines of its heap refer to binaries, stored or not. Then come
/// `binaries N bytes B held H`: how many binaries there are, the sum of their sizes, and how many of them a process
/// holds; `unstored R of T`: how many lines of heaps refer to whole binaries, T, and how many of them to none that
/// is stored; `counted BYTES`, what the node counted for all processes; and `memory BYTES`, if the first field
/// `binary` of the body of the first `memory` section, which is empty if there is none, is a decimal number below
/// 2^64. The address of a binary is written in upper-case hex, `-` stands for a missing name, and the last part of
/// a line is the offset of the header of the section of the process or binary.
///
/// The processes are those of the index, and what was found is on these
/// processes, as from [`binary_use`](binary_holders::binary_use).
pub fn put_binaries<K: Sink>(
    sink: &mut K,
    index: &Index,
    memory_body: &[u8],
    procs: &Procs,
    found: &BinaryUse,
) -> Result<(), Failed>
    requires named { All (NamesProcess (length procs.now.processes)) found.now.held.items }
    requires processes { All (IsProcessIn index.now) procs.now.processes }
    ensures { Puts (K.state sink.old) (K.state sink.new)
        (binaries_report index.now memory_body.now procs.now.processes (shown_use found.now)) result }
{
    put_all_held(sink, index, procs, &found.held)?;
    put_all_stored(sink, &found.binaries)?;
    put_totals(sink, memory_body, found)
}

// Writes the line of a process that holds the binary.
fn put_holder<K: Sink>(
    sink: &mut K,
    index: &Index,
    procs: &Procs,
    held: &Holding,
) -> Result<(), Failed>
    requires named { NamesProcess (length procs.now.processes) held.now }
    requires processes { All (IsProcessIn index.now) procs.now.processes }
    ensures { Puts (K.state sink.old) (K.state sink.new)
        (holder_line index.now procs.now.processes held.now) result }
{
    let (pid, name, at) = process_end(index, procs, held.process);
    put_line(
        sink,
        b"\t",
        &[
            Piece::Dec(held.cells),
            pid,
            name,
            at,
            Piece::Hex(held.first),
        ],
    )
}

fn put_each<K: Sink>(
    sink: &mut K,
    index: &Index,
    procs: &Procs,
    rows: &[Holding],
) -> Result<(), Failed>
    requires named { All (NamesProcess (length procs.now.processes)) rows.now }
    requires processes { All (IsProcessIn index.now) procs.now.processes }
    ensures { Puts (K.state sink.old) (K.state sink.new)
        (flat_map (holder_line index.now procs.now.processes) rows.now) result }
{
    for held in rows {
        put_holder(sink, index, procs, held)?;
    }
    Ok(())
}

/// Writes a line for each process that holds a binary, `CELLS PID NAME AT CELL` with tabs between them, in
/// the order given: how many lines of its heap refer to the binary, the pid, the name or `-`, the offset of the
/// header of the process's section, and the address of the first of these lines. Then comes `holders N`.
///
/// The processes are those of the index, and each holding is of
/// one of them, as from [`holders`](binary_holders::holders).
pub fn put_holders<K: Sink>(
    sink: &mut K,
    index: &Index,
    procs: &Procs,
    held: &[Holding],
) -> Result<(), Failed>
    requires named { All (NamesProcess (length procs.now.processes)) held.now }
    requires processes { All (IsProcessIn index.now) procs.now.processes }
    ensures { Puts (K.state sink.old) (K.state sink.new)
        (holders_report index.now procs.now.processes held.now) result }
{
    put_each(sink, index, procs, held)?;
    put_total_line(sink, b"holders", held.len() as u64)
}
