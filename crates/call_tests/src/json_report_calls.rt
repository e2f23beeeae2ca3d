ghost use Rattle.std.specs.Prelude.{◌≡◌, All};
ghost use Rattle.dump_sections.specs.Index.{IsBuiltOver};
ghost use Rattle.process_table.specs.Processes.{IsProcessIn};
ghost use Rattle.link_graph.specs.Graph.{graph_of};
ghost use Rattle.dump_audit.specs.Fitting.{Fits};

use dump_audit::{Finding, audit_full};
use dump_io::{Dumps, Limits, MemDumps, MemSink, Sink};
use dump_sections::Index;
use json_report::{put_json, tree};
use link_graph::Graph;
use process_table::Procs;
use section_index::build;
use std::alloc::Global;
use std::test::Fail;

// No command calls `audit_full`, or builds the tree of what is found.
//
// Each of these functions keeps one large value, since a proof that
// follows several of them to each exit takes much longer.

// Writes the tree of some findings.
fn put_tree<K: Sink>(
    alloc: Global,
    sink: &mut K,
    index: &Index,
    procs: &Procs,
    graph: &Graph<'_>,
    found: &[Finding],
) -> Result<(), Fail>
    requires graph { graph.now ≡ graph_of procs.now.processes }
    requires fits { All (Fits procs.now.processes) found.now }
{
    let tree = tree(alloc, index, procs, graph, found)?;
    Ok(put_json(alloc, sink, &tree)?)
}

// Writes what a full audit finds where the mailboxes have these numbers of messages.
fn put_found<K: Sink>(
    alloc: Global,
    sink: &mut K,
    index: &Index,
    procs: &Procs,
    graph: &Graph<'_>,
    mails: &[Option<u64>],
) -> Result<(), Fail>
    requires graph { graph.now ≡ graph_of procs.now.processes }
    requires sections { All (IsProcessIn index.now) procs.now.processes }
{
    if mails.len() == procs.len() {
        let found = audit_full(alloc, index, procs, graph, 7, mails)?;
        put_tree(alloc, sink, index, procs, graph, &found)
    } else {
        Err("other processes".into())
    }
}

fn put_of_procs<K: Sink>(
    alloc: Global,
    sink: &mut K,
    index: &Index,
    procs: &Procs,
) -> Result<(), Fail>
    requires { All (IsProcessIn index.now) procs.now.processes }
{
    let graph = Graph::build(alloc, procs)?;
    put_found(alloc, sink, index, procs, &graph, &[Some(1)])
}

fn put_over<D: Dumps, K: Sink>(
    alloc: Global,
    dumps: &mut D,
    sink: &mut K,
    index: &Index,
) -> Result<(), Fail>
    requires { IsBuiltOver (D.state dumps.old).now index.now }
{
    let procs = Procs::load(alloc, dumps, index, &Limits::usual())?;
    put_of_procs(alloc, sink, index, &procs)
}

fn put_of<D: Dumps, K: Sink>(alloc: Global, dumps: &mut D, sink: &mut K) -> Result<(), Fail> {
    let index = build(alloc, dumps, "F", &Limits::usual())?;
    put_over(alloc, dumps, sink, &index)
}

// A pid may be any bytes, and so may the header of the section in which the dump is truncated.
const STRANGE: &str = "=erl_crash_dump:0.5
=proc:é\"
Message queue length: 7
=x:\t\\";

const LINE: &str =
    "{\"count\":1,\"findings\":[{\"at\":30,\"found\":1,\"kind\":\"queue-count\",\"other\":20,\"p\":\"Ã©\\\"\",\"stated\":7}],\"state\":\"truncated 54 =x:\\t\\\\\"}\n";

#[test]
fn the_tree_of_a_full_audit_is_written(rt: HostRuntime) -> Result<(), Fail> {
    let alloc = rt.alloc();
    let mut dumps = MemDumps::holding(alloc, "F", STRANGE.as_bytes(), &[], &[])?;
    let mut sink = MemSink::new(alloc, 0, Vec::new(alloc));
    put_of(alloc, &mut dumps, &mut sink)?;
    assert_eq!(rt; sink.written(), LINE.as_bytes());
    Ok(())
}
