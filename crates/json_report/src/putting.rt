// Writing a tree.
ghost use Rattle.std.specs.Prelude.{◌≡◌, ◌≤◌, ◌++◌, false, codes, All, IfOk, IfErr, OnOk};
ghost use Rattle.dump_io.specs.Sinks.{Gained};
ghost use Rattle.serde_json.specs.View.{view};
ghost use Rattle.serde_json.specs.Written.{has_float};
ghost use Rattle.link_graph.specs.Graph.{graph_of};
ghost use Rattle.dump_audit.specs.Fitting.{Fits};
ghost use Rattle.json_report.specs.Faults.{IsFaultOf};
ghost use Rattle.json_report.specs.Trees.{json_text, findings_text};

use crate::building::tree_text;
use dump_audit::Finding;
use dump_io::{Failed, Sink, write_all};
use dump_sections::Index;
use link_graph::Graph;
use process_table::Procs;
use serde_json::Value;
use std::alloc::{AllocError, Global};

/// Why a JSON text isn't written.
#[derive(Clone, Copy, Debug)]
pub enum JsonFault {
    /// A write failed. Returned only if the sink's count of
    /// faults rose; a proper prefix of the text was written.
    Write,
    /// There was no memory for the text. Nothing was written.
    Memory,
}

impl From<AllocError> for JsonFault {
    ghost use Rattle.json_report.specs.declared.putting.JsonFault.TheVariants.{Memory};

    ghost from_gives = { λ _ fault. fault ≡ Memory };

    fn from(_lack: AllocError) -> JsonFault {
        JsonFault::Memory
    }
}

impl From<Failed> for JsonFault {
    ghost use Rattle.json_report.specs.declared.putting.JsonFault.TheVariants.{Write};

    ghost from_gives = { λ _ fault. fault ≡ Write };

    fn from(_failed: Failed) -> JsonFault {
        JsonFault::Write
    }
}

// The text and an LF.
fn ended(text: Vec<u8>) -> Result<Vec<u8>, AllocError>
    ensures { IfOk result (λ line. line.items ≡ text.items ++ codes "\n") }
{
    let mut line = text;
    line.push(b'\n')?;
    Ok(line)
}

// The text of a tree and an LF.
fn tree_line(alloc: Global, tree: &Value) -> Result<Vec<u8>, AllocError>
    requires { has_float (view tree.now) ≡ false }
    ensures { IfOk result (λ line. line.items ≡ json_text (view tree.now)) }
{
    ended(tree.to_vec(alloc)?)
}

// The text of the tree of some findings and an LF.
fn findings_line(
    alloc: Global,
    index: &Index,
    procs: &Procs,
    graph: &Graph<'_>,
    findings: &[Finding],
) -> Result<Vec<u8>, AllocError>
    requires graph { graph.now ≡ graph_of procs.now.processes }
    requires fits { All (Fits procs.now.processes) findings.now }
    ensures { IfOk result (λ line.
        line.items ≡ findings_text index.now procs.now.processes findings.now) }
{
    ended(tree_text(alloc, index, procs, graph, findings)?)
}

/// Writes the compact text of a tree, in which the keys of an object
/// are in the order of their bytes, and an LF. The tree has no float.
pub fn put_json<K: Sink>(alloc: Global, sink: &mut K, tree: &Value) -> Result<(), JsonFault>
    requires { has_float (view tree.now) ≡ false }
    ensures later { (K.state sink.old).faults ≤ (K.state sink.new).faults }
    ensures puts { OnOk result
        (Gained (K.state sink.old) (K.state sink.new) (json_text (view tree.now))) }
    ensures fault { IfErr result
        (IsFaultOf (K.state sink.old) (K.state sink.new) (json_text (view tree.now))) }
{
    let line = tree_line(alloc, tree)?;
    Ok(write_all(sink, &line)?)
}

/// Writes what [`put_json`] writes for the [`tree`](crate::tree()) of these findings, without building a tree.
/// The graph is that of the processes, and the findings fit them, as those of [`audit`](dump_audit::audit) do.
pub fn put_findings<K: Sink>(
    alloc: Global,
    sink: &mut K,
    index: &Index,
    procs: &Procs,
    graph: &Graph<'_>,
    findings: &[Finding],
) -> Result<(), JsonFault>
    requires graph { graph.now ≡ graph_of procs.now.processes }
    requires fits { All (Fits procs.now.processes) findings.now }
    ensures later { (K.state sink.old).faults ≤ (K.state sink.new).faults }
    ensures puts { let text = findings_text index.now procs.now.processes findings.now in
        OnOk result (Gained (K.state sink.old) (K.state sink.new) text) }
    ensures fault { let text = findings_text index.now procs.now.processes findings.now in
        IfErr result (IsFaultOf (K.state sink.old) (K.state sink.new) text) }
{
    let line = findings_line(alloc, index, procs, graph, findings)?;
    Ok(write_all(sink, &line)?)
}
