// What an audit found, whose text serde_json writes.
use dump_audit::Finding;
use link_graph::Graph;
use process_table::Procs;
use std::alloc::Global;
use std::marker::Model;

// Findings that fit the processes, with the graph of these, and the text on the state of the dump.
#[derive(Drop)]
pub(crate) struct Found<'a> {
    pub(crate) alloc: Global,
    pub(crate) procs: &'a Procs,
    pub(crate) graph: &'a Graph<'a>,
    pub(crate) findings: &'a [Finding],
    pub(crate) state: &'a str,
}

impl<'a> Model for Found<'a> {
    ghost use Rattle.std.specs.Prelude.{◌≡◌, All};
    ghost use Rattle.link_graph.specs.Graph.{graph_of};
    ghost use Rattle.dump_audit.specs.Fitting.{Fits};
    ghost use Rattle.json_report.specs.Inner.Parts.{Parts, parts};

    ghost Value = { Parts };

    ghost view = { λ f. parts f.procs.now.processes f.findings.now f.state.now };

    ghost invariant = { λ f. (f.graph.now ≡ graph_of f.procs.now.processes)
        × All (Fits f.procs.now.processes) f.findings.now };
}
