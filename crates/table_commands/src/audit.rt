// `audit`, `audit-json` and `audit-settled`: what there is to find in links, monitors and message queues.
ghost use Rattle.std.specs.Prelude.{◌≡◌, length, All, IfOk, None, Some};
ghost use Rattle.dump_audit.specs.Bodies.{IsAuditable};
ghost use Rattle.dump_audit.specs.Findings.{findings};
ghost use Rattle.dump_audit.specs.Fitting.{Fits};
ghost use Rattle.dump_audit.specs.Flight.{in_flight, settled};
ghost use Rattle.json_report.specs.Trees.{findings_text};
ghost use Rattle.link_graph.specs.Graph.{graph_of};
ghost use Rattle.dump_questions.specs.Reading.{Tells};
ghost use Rattle.dump_questions.specs.Runs.{Runs};
ghost use Rattle.dump_questions.specs.Tasks.{question, status_of};
ghost use Rattle.table_commands.specs.Findings.{findings_report};
ghost use Rattle.table_commands.specs.Inner.Loads.{audit_row_as, loaded_audit, seen_audit};
ghost use Rattle.table_commands.specs.Rows.{audit_json_row, audit_row, audit_settled_row};

use crate::audit_report::put_findings;
use dump_audit::{AuditBodies, Finding, audit_with, part};
use dump_io::{Dumps, Sink};
use dump_questions::status::{DONE, FOUND};
use dump_questions::{Opened, Report, Stop, Unopened, or_stop, run_report};
use json_report::JsonFault;
use link_graph::Graph;
use process_table::Procs;
use std::alloc::AllocError;

/// How an audit is told.
#[derive(Clone, Copy)]
pub enum AuditForm {
    /// A line for each finding.
    Lines,
    /// One JSON text.
    Json,
    /// A line for each finding that no signal in flight explains.
    Settled,
}

#[derive(Clone, Copy)]
pub(crate) struct Audit {
    pub limit: u64,
    pub full: bool,
    pub form: AuditForm,
}

// What an audit of these bodies finds.
fn find(
    at: &Opened<'_>,
    loaded: &AuditBodies,
    graph: &Graph<'_>,
    limit: u64,
) -> Result<Vec<Finding>, AllocError>
    requires auditable { IsAuditable at.now.index.now loaded.now }
    requires graph { graph.now ≡ graph_of loaded.now.procs.processes }
    ensures found { let audited = loaded_audit limit at.now.index.now loaded.now in
        IfOk result (λ found. found.items ≡ findings audited) }
    ensures fits { IfOk result (λ found. All (Fits loaded.now.procs.processes) found.items) }
{
    let AuditBodies { procs, mails, .. } = loaded;
    audit_with(at.alloc, at.index, procs, graph, limit, mails.as_deref())
}

// The status of an audit with these findings.
fn status(findings: &[Finding]) -> u8
    ensures { result ≡ status_of findings.now }
{
    if findings.is_empty() { DONE } else { FOUND }
}

// Writes findings as lines, with the number of others that are in flight, if that is told.
fn put_lines<K: Sink>(
    at: &Opened<'_>,
    procs: &Procs,
    graph: &Graph<'_>,
    found: &[Finding],
    others: Option<u64>,
    out: &mut K,
) -> Result<u8, Stop>
    requires graph { graph.now ≡ graph_of procs.now.processes }
    requires fits { All (Fits procs.now.processes) found.now }
    ensures { Tells (K.state out.old) (K.state out.new)
        (findings_report at.now.index.now procs.now.processes found.now others) (status_of found.now) result }
{
    put_findings(out, at.index, procs, graph, found, others)?;
    Ok(status(found))
}

// Writes findings as one JSON text.
fn put_json<K: Sink>(
    at: &Opened<'_>,
    procs: &Procs,
    graph: &Graph<'_>,
    found: &[Finding],
    out: &mut K,
) -> Result<u8, Stop>
    requires graph { graph.now ≡ graph_of procs.now.processes }
    requires fits { All (Fits procs.now.processes) found.now }
    ensures { Tells (K.state out.old) (K.state out.new)
        (findings_text at.now.index.now procs.now.processes found.now) (status_of found.now) result }
{
    match json_report::put_findings(at.alloc, out, at.index, procs, graph, found) {
        Ok(()) => Ok(status(found)),
        Err(JsonFault::Write) => Err(Stop::NotWritten),
        Err(JsonFault::Memory) => Err(Stop::NoMemory),
    }
}

// Writes as lines those of the findings that aren't in flight, with the number of the others.
fn put_settled<K: Sink>(
    at: &Opened<'_>,
    loaded: &AuditBodies,
    graph: &Graph<'_>,
    found: &[Finding],
    out: &mut K,
) -> Result<u8, Stop>
    requires graph { graph.now ≡ graph_of loaded.now.procs.processes }
    requires fits { All (Fits loaded.now.procs.processes) found.now }
    ensures { let told = settled loaded.now.signalled.items found.now in
        let others = length (in_flight loaded.now.signalled.items found.now) in
        Tells (K.state out.old) (K.state out.new)
        (findings_report at.now.index.now loaded.now.procs.processes told (Some others)) (status_of told) result }
{
    let parted = part(at.alloc, loaded.signalled.as_slice(), found)?;
    let settled = parted.settled.as_slice();
    let others = parted.in_flight.as_slice().len() as u64;
    put_lines(at, &loaded.procs, graph, settled, Some(others), out)
}

impl Report for Audit {
    type Loaded = AuditBodies;

    ghost means = { λ c. audit_row_as c.form c.limit c.full };

    ghost seen = { λ c index loaded. seen_audit c.form c.limit c.full index loaded };

    ghost fits = { λ _ index loaded. IsAuditable index loaded };

    fn read<D: Dumps>(&self, at: &Opened<'_>, dumps: &mut D) -> Result<AuditBodies, Stop> {
        or_stop(AuditBodies::load(at.alloc, dumps, at.index, self.full, at.limits))
    }

    fn put<K: Sink>(&self, at: &Opened<'_>, loaded: &AuditBodies, out: &mut K) -> Result<u8, Stop> {
        let graph = Graph::build(at.alloc, &loaded.procs)?;
        let findings = find(at, loaded, &graph, self.limit)?;
        let found = findings.as_slice();
        match self.form {
            AuditForm::Lines => put_lines(at, &loaded.procs, &graph, found, None, out),
            AuditForm::Json => put_json(at, &loaded.procs, &graph, found, out),
            AuditForm::Settled => put_settled(at, loaded, &graph, found, out),
        }
    }
}

/// Runs `audit`, and returns its status.
pub fn run_audit<D: Dumps, K: Sink>(
    dump: &Unopened<'_>,
    limit: u64,
    full: bool,
    dumps: &mut D,
    out: &mut K,
) -> Result<u8, Stop>
    ensures { Runs (question dump.now.file.now (audit_row limit full)) dump.now.limits.now
        (D.state dumps.old) (D.state dumps.new) (K.state out.old) (K.state out.new) result }
{
    let form = AuditForm::Lines;
    run_report(dump, &Audit { limit, full, form }, dumps, out)
}

/// Runs `audit-json`, and returns its status.
pub fn run_audit_json<D: Dumps, K: Sink>(
    dump: &Unopened<'_>,
    limit: u64,
    full: bool,
    dumps: &mut D,
    out: &mut K,
) -> Result<u8, Stop>
    ensures { Runs (question dump.now.file.now (audit_json_row limit full)) dump.now.limits.now
        (D.state dumps.old) (D.state dumps.new) (K.state out.old) (K.state out.new) result }
{
    let form = AuditForm::Json;
    run_report(dump, &Audit { limit, full, form }, dumps, out)
}

/// Runs `audit-settled`, and returns its status.
pub fn run_audit_settled<D: Dumps, K: Sink>(
    dump: &Unopened<'_>,
    limit: u64,
    full: bool,
    dumps: &mut D,
    out: &mut K,
) -> Result<u8, Stop>
    ensures { Runs (question dump.now.file.now (audit_settled_row limit full)) dump.now.limits.now
        (D.state dumps.old) (D.state dumps.new) (K.state out.old) (K.state out.new) result }
{
    let form = AuditForm::Settled;
    run_report(dump, &Audit { limit, full, form }, dumps, out)
}
