// The report of an audit.
ghost use Rattle.std.specs.Prelude.{◌≡◌, All};
ghost use Rattle.std.specs.List.{flat_map};
ghost use Rattle.dump_io.specs.Sinks.{Puts};
ghost use Rattle.link_graph.specs.Graph.{graph_of};
ghost use Rattle.dump_audit.specs.FindingViews.{shown_view};
ghost use Rattle.dump_audit.specs.Fitting.{Fits};
ghost use Rattle.report_lines.specs.Lines.{line_of, word_space};
ghost use Rattle.table_commands.specs.Findings.{finding_line, findings_report, flight_line, view_parts};

use dump_audit::{Finding, FindingView, Named, view_of};
use dump_io::{Failed, Piece, Sink};
use dump_sections::Index;
use link_graph::Graph;
use process_table::Procs;
use report_lines::{put_line, put_state, put_total_line};

// Writes the line of a finding.
fn put_view<K: Sink>(sink: &mut K, view: FindingView<'_>) -> Result<(), Failed>
    ensures { let line = line_of word_space (view_parts (shown_view view.entry)) in
        Puts (K.state sink.old) (K.state sink.new) line result }
{
    let word = Piece::Bytes(view.word.as_bytes());
    let pid = Piece::Bytes(view.pid);
    let (at, other) = (Piece::Dec(view.at), Piece::Dec(view.other));
    match view.named {
        Named::Nothing => put_line(sink, b" ", &[word, pid, at, other]),
        Named::Partner(partner) => {
            put_line(sink, b" ", &[word, pid, Piece::Bytes(partner), at, other])
        }
        Named::Monitor(partner, reference) => {
            let (partner, reference) = (Piece::Bytes(partner), Piece::Bytes(reference));
            put_line(sink, b" ", &[word, pid, partner, reference, at, other])
        }
        Named::Count(messages) => {
            put_line(sink, b" ", &[word, pid, Piece::Dec(messages), at, other])
        }
        Named::Counts(stated, found) => {
            let (stated, found) = (Piece::Dec(stated), Piece::Dec(found));
            put_line(sink, b" ", &[word, pid, stated, found, at, other])
        }
    }
}

// Writes the line of a finding among these processes.
fn put_finding<K: Sink>(
    sink: &mut K,
    procs: &Procs,
    graph: &Graph<'_>,
    finding: Finding,
) -> Result<(), Failed>
    requires graph { graph.now ≡ graph_of procs.now.processes }
    requires fits { Fits procs.now.processes finding }
    ensures { Puts (K.state sink.old) (K.state sink.new)
        (finding_line procs.now.processes finding) result }
{
    put_view(sink, view_of(procs, graph, finding))
}

fn put_all<K: Sink>(
    sink: &mut K,
    procs: &Procs,
    graph: &Graph<'_>,
    findings: &[Finding],
) -> Result<(), Failed>
    requires graph { graph.now ≡ graph_of procs.now.processes }
    requires fits { All (Fits procs.now.processes) findings.now }
    ensures { Puts (K.state sink.old) (K.state sink.new)
        (flat_map (finding_line procs.now.processes) findings.now) result }
{
    for finding in findings {
        put_finding(sink, &*procs, &*graph, *finding)?;
    }
    Ok(())
}

// Writes how many findings are in flight, if that is told.
fn put_flight<K: Sink>(sink: &mut K, others: Option<u64>) -> Result<(), Failed>
    ensures { Puts (K.state sink.old) (K.state sink.new) (flight_line others) result }
{
    match others {
        Some(count) => put_total_line(sink, b"in-flight", count),
        None => Ok(()),
    }
}

/// Writes a line for each finding: its word, the pid of the process, what else it names, and its two
/// offsets. Then come `findings N`, with `Some(K)` others that aren't told `in-flight K`, and the state line,
/// as by [`put_state`](report_lines::put_state). The graph is that of the processes, and the findings fit
/// them, as those of [`audit`](dump_audit::audit) do.
pub fn put_findings<K: Sink>(
    sink: &mut K,
    index: &Index,
    procs: &Procs,
    graph: &Graph<'_>,
    findings: &[Finding],
    others: Option<u64>,
) -> Result<(), Failed>
    requires graph { graph.now ≡ graph_of procs.now.processes }
    requires fits { All (Fits procs.now.processes) findings.now }
    ensures { Puts (K.state sink.old) (K.state sink.new)
        (findings_report index.now procs.now.processes findings.now others) result }
{
    put_all(sink, procs, graph, findings)?;
    put_total_line(sink, b"findings", findings.len() as u64)?;
    put_flight(sink, others)?;
    put_state(sink, index)
}
