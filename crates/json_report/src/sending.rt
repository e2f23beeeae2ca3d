// Sending what an audit found to a serializer.
ghost use Rattle.json_report.specs.Inner.Members.{Sends};
ghost use Rattle.std.specs.Prelude.{◌≡◌, map, All, OnOk};
ghost use Rattle.serde_json.specs.Data.{array};
ghost use Rattle.serde_json.specs.Events.{SendsValue};
ghost use Rattle.serde_json.specs.View.{items_of};
ghost use Rattle.link_graph.specs.Graph.{graph_of};
ghost use Rattle.dump_audit.specs.Fitting.{Fits};
ghost use Rattle.json_report.specs.Inner.Parts.{parts, tree_of};
ghost use Rattle.json_report.specs.Laws.{Has64Bits};
ghost use Rattle.json_report.specs.Trees.{finding_object};

use crate::found::Found;
use crate::objects::send_finding;
use dump_audit::Finding;
use link_graph::Graph;
use process_table::Procs;
use serde::{Described, Serialize, Serializer};
use std::alloc::Global;

// Sends the objects of the findings, in their order.
fn send_findings<S: Serializer>(
    out: &mut S,
    alloc: Global,
    procs: &Procs,
    graph: &Graph<'_>,
    findings: &[Finding],
) -> Result<(), S::Error>
    requires graph { graph.now ≡ graph_of procs.now.processes }
    requires fits { All (Fits procs.now.processes) findings.now }
    ensures objects { let objects = map (finding_object procs.now.processes) findings.now in
        Sends (S.written out.old) (S.written out.new) (array (items_of objects)) result }
    ensures bits { OnOk result (All Has64Bits findings.now) }
{
    out.begin_seq(Some(findings.len()))?;
    for finding in findings {
        send_finding(out, alloc, procs, graph, *finding)?;
    }
    out.end_seq()
}

// Sends the tree of the findings.
fn send_tree<S: Serializer>(
    out: &mut S,
    alloc: Global,
    procs: &Procs,
    graph: &Graph<'_>,
    findings: &[Finding],
    state: &str,
) -> Result<(), S::Error>
    requires graph { graph.now ≡ graph_of procs.now.processes }
    requires fits { All (Fits procs.now.processes) findings.now }
    ensures tree { let found = parts procs.now.processes findings.now state.now in
        Sends (S.written out.old) (S.written out.new) (tree_of found) result }
    ensures bits { OnOk result (All Has64Bits findings.now) }
{
    out.begin_map(Some(3))?;
    out.key("count")?;
    out.u64(findings.len() as u64)?;
    out.key("findings")?;
    send_findings(out, alloc, procs, graph, findings)?;
    out.key("state")?;
    out.str(state)?;
    out.end_map()
}

impl Described for Found<'_> {
    ghost writes = { λ parts old new.
        SendsValue (tree_of parts) old new × All Has64Bits parts.found };
}

impl Serialize for Found<'_> {
    fn serialize<S: Serializer>(&self, out: &mut S) -> Result<(), S::Error> {
        send_tree(
            out,
            self.alloc,
            self.procs,
            self.graph,
            self.findings,
            self.state,
        )
    }
}
