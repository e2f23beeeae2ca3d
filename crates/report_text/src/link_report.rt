// The report of `links`.
ghost use Rattle.std.specs.Prelude.{◌≡◌, ◌<◌, length};
ghost use Rattle.std.specs.List.{flat_map, sum_by};
ghost use Rattle.dump_io.specs.Sinks.{Puts};
ghost use Rattle.process_table.specs.Shown.{shown_process};
ghost use Rattle.link_graph.specs.Lists.{links_at};
ghost use Rattle.link_graph.specs.Seen.{shown_entry, shown_kind};
ghost use Rattle.link_graph.specs.Graph.{graph_of, links_of};
ghost use Rattle.report_text.specs.Links.{kind_word, entry_line, unread_line, process_links, entry_count, links_report};

use dump_io::{Failed, Piece, Sink};
use link_graph::{Entry, EntryKind, Graph};
use process_table::{Proc, Procs};
use report_lines::{put_line, put_total_line};

fn kind_word(kind: &EntryKind<'_>) -> &'static [u8]
    ensures { result.now ≡ kind_word (shown_kind kind.now) }
{
    match kind {
        EntryKind::Link(_) => b"link",
        EntryKind::LinkPort => b"link-port",
        EntryKind::To(_, _) => b"to",
        EntryKind::ToPort => b"to-port",
        EntryKind::ToName(_) => b"to-name",
        EntryKind::From(_, _) => b"from",
        EntryKind::FromPort => b"from-port",
        EntryKind::Other => b"other",
    }
}

// Writes the line of an entry of the process with this pid.
fn put_entry<'x, K: Sink>(sink: &mut K, pid: &'x [u8], entry: &Entry<'x>) -> Result<(), Failed>
    ensures { Puts (K.state sink.old) (K.state sink.new)
        (entry_line pid.now (shown_entry entry.now)) result }
{
    put_line(
        sink,
        b" ",
        &[
            Piece::Dec(entry.at),
            Piece::Bytes(pid),
            Piece::Bytes(kind_word(&entry.kind)),
            Piece::Bytes(entry.text),
        ],
    )
}

// Writes the lines of the entries of the process at a place.
fn put_entries<K: Sink>(sink: &mut K, pid: &[u8], graph: &Graph<'_>, p: usize) -> Result<(), Failed>
    requires { p < length graph.now }
    ensures { Puts (K.state sink.old) (K.state sink.new)
        (flat_map (entry_line pid.now) (links_at graph.now p).entries) result }
{
    for n in 0..graph.count(p) {
        put_entry(sink, pid, &graph.entry(p, n))?;
    }
    Ok(())
}

// Writes the line of an unread link list.
fn put_unread<K: Sink>(sink: &mut K, process: &Proc<'_>) -> Result<(), Failed>
    ensures { Puts (K.state sink.old) (K.state sink.new)
        (unread_line process.now.pid.now (shown_process process.now).links) result }
{
    let Some(list) = process.links else {
        return Ok(());
    };
    put_line(
        sink,
        b" ",
        &[
            Piece::Dec(list.at),
            Piece::Bytes(process.pid),
            Piece::Bytes(b"unread"),
        ],
    )
}

// Writes the lines of the process at a place.
fn put_process<K: Sink>(
    sink: &mut K,
    process: &Proc<'_>,
    graph: &Graph<'_>,
    p: usize,
) -> Result<(), Failed>
    requires place { p < length graph.now }
    requires links { links_at graph.now p ≡ links_of (shown_process process.now).links }
    ensures { Puts (K.state sink.old) (K.state sink.new)
        (process_links (shown_process process.now)) result }
{
    if graph.unread(p) {
        put_unread(sink, process)
    } else {
        put_entries(sink, process.pid, graph, p)
    }
}

fn put_processes<K: Sink>(sink: &mut K, procs: &Procs, graph: &Graph<'_>) -> Result<(), Failed>
    requires { graph.now ≡ graph_of procs.now.processes }
    ensures { Puts (K.state sink.old) (K.state sink.new)
        (flat_map process_links procs.now.processes) result }
{
    for p in 0..procs.len() {
        put_process(sink, &procs.at(p), graph, p)?;
    }
    Ok(())
}

// How many entries the processes have together.
fn entry_total(procs: &Procs, graph: &Graph<'_>) -> u64
    requires { graph.now ≡ graph_of procs.now.processes }
    ensures { result ≡ sum_by entry_count procs.now.processes }
{
    let mut total = 0;
    for p in 0..procs.len() {
        total += graph.count(p) as u64;
    }
    total
}

/// Writes a line for each entry of the link lists, `AT PID WORD ENTRY`: its offset, the pid of the
/// process, the word of its kind and its text. An unread link list has the line `AT PID unread`,
/// with the offset of its field. Then comes `entries N`. The graph is that of the processes.
pub fn put_links<K: Sink>(sink: &mut K, procs: &Procs, graph: &Graph<'_>) -> Result<(), Failed>
    requires { graph.now ≡ graph_of procs.now.processes }
    ensures { Puts (K.state sink.old) (K.state sink.new) (links_report procs.now.processes) result }
{
    put_processes(sink, procs, graph)?;
    put_total_line(sink, b"entries", entry_total(procs, graph))
}
