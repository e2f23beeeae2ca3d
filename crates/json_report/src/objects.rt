// The object of a finding.
ghost use Rattle.json_report.specs.Inner.Members.{Sends};
ghost use Rattle.std.specs.Prelude.{◌≡◌};
ghost use Rattle.serde_json.specs.Data.{object};
ghost use Rattle.link_graph.specs.Graph.{graph_of};
ghost use Rattle.dump_audit.specs.FindingViews.{shown_view};
ghost use Rattle.dump_audit.specs.Fitting.{Fits};
ghost use Rattle.json_report.specs.Laws.{Has64Bits};
ghost use Rattle.json_report.specs.Trees.{finding_object, members as members_of, view_members};

use crate::members::{Told, send_object};
use dump_audit::{Finding, FindingView, Named, view_of};
use link_graph::Graph;
use process_table::Procs;
use serde::Serializer;
use std::alloc::Global;

// Sends the object of a finding.
fn send_view<S: Serializer>(
    out: &mut S,
    alloc: Global,
    view: FindingView<'_>,
) -> Result<(), S::Error>
    ensures { Sends (S.written out.old) (S.written out.new)
        (object (members_of (view_members (shown_view view.entry)))) result }
{
    let at = ("at", Told::Number(view.at));
    let kind = ("kind", Told::Word(view.word));
    let other = ("other", Told::Number(view.other));
    let p = ("p", Told::Text(view.pid));
    match view.named {
        Named::Nothing => send_object(out, alloc, &[at, kind, other, p]),
        Named::Partner(pid) => {
            let q = ("q", Told::Text(pid));
            send_object(out, alloc, &[at, kind, other, p, q])
        }
        Named::Monitor(pid, reference) => {
            let (q, reference) = (("q", Told::Text(pid)), ("ref", Told::Text(reference)));
            send_object(out, alloc, &[at, kind, other, p, q, reference])
        }
        Named::Count(messages) => {
            let count = ("count", Told::Number(messages));
            send_object(out, alloc, &[at, count, kind, other, p])
        }
        Named::Counts(stated, found) => {
            let (found, stated) = (
                ("found", Told::Number(found)),
                ("stated", Told::Number(stated)),
            );
            send_object(out, alloc, &[at, found, kind, other, p, stated])
        }
    }
}

/// Sends the object of a finding among these processes.
pub(crate) fn send_finding<S: Serializer>(
    out: &mut S,
    alloc: Global,
    procs: &Procs,
    graph: &Graph<'_>,
    finding: Finding,
) -> Result<(), S::Error>
    requires graph { graph.now ≡ graph_of procs.now.processes }
    requires fits { Fits procs.now.processes finding }
    ensures object { Sends (S.written out.old) (S.written out.new)
        (finding_object procs.now.processes finding) result }
    ensures bits { Has64Bits finding }
{
    send_view(out, alloc, view_of(procs, graph, finding))
}
