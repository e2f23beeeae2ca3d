// The tree of the findings of an audit, and its text.
ghost use Rattle.std.specs.Prelude.{◌≡◌, Some, false, string_bytes, All, IfOk};
ghost use Rattle.serde_json.specs.Read.{read};
ghost use Rattle.serde_json.specs.View.{view};
ghost use Rattle.serde_json.specs.Written.{compact_text, has_float};
ghost use Rattle.dump_sections.specs.Index.{dump_state};
ghost use Rattle.link_graph.specs.Graph.{graph_of};
ghost use Rattle.dump_audit.specs.Fitting.{Fits};
ghost use Rattle.json_report.specs.Inner.Parts.{tree_of};
ghost use Rattle.json_report.specs.Laws.{Has64Bits};
ghost use Rattle.json_report.specs.Trees.{state_text, finding_tree};

use crate::found::Found;
use crate::members::characters;
use dump_audit::Finding;
use dump_sections::{Index, State};
use link_graph::Graph;
use process_table::Procs;
use serde_json::{Value, to_vec};
use std::alloc::{AllocError, Global};

// The text on the state of the dump.
fn state_text(alloc: Global, index: &Index) -> Result<String, AllocError>
    ensures { let state = dump_state index.now.headers in
        IfOk result (λ s. string_bytes s ≡ state_text index.now state) }
{
    match index.state() {
        State::Whole => String::from_str(alloc, "whole"),
        State::TruncatedIn(last) => {
            let section = index.section(last);
            let at = section.at;
            let text = characters(alloc, section.text)?;
            format!(in alloc; "truncated {at} {text}")
        }
    }
}

// The text that serde_json writes.
fn written(alloc: Global, found: &Found<'_>) -> Result<Vec<u8>, AllocError>
    ensures text { IfOk result (λ text. text.items ≡ compact_text (tree_of found.now)) }
    ensures bits { IfOk result (λ _. All Has64Bits found.now.found) }
{
    match to_vec(alloc, found) {
        Ok(text) => Ok(text),
        Err(_) => Err(AllocError),
    }
}

/// The compact text of the tree of some findings.
pub(crate) fn tree_text(
    alloc: Global,
    index: &Index,
    procs: &Procs,
    graph: &Graph<'_>,
    findings: &[Finding],
) -> Result<Vec<u8>, AllocError>
    requires graph { graph.now ≡ graph_of procs.now.processes }
    requires fits { All (Fits procs.now.processes) findings.now }
    ensures text { let tree = finding_tree index.now procs.now.processes findings.now in
        IfOk result (λ text. text.items ≡ compact_text tree) }
    ensures bits { IfOk result (λ _. All Has64Bits findings.now) }
{
    let state = state_text(alloc, index)?;
    let found = Found {
        alloc,
        procs,
        graph,
        findings,
        state: state.as_str(),
    };
    written(alloc, &found)
}

// The value of a text, which is that of a tree, so that it is missing only for a lack of memory.
fn read_back(alloc: Global, text: &[u8]) -> Result<Value, AllocError>
    ensures { IfOk result (λ value. read text.now ≡ Some (view value)) }
{
    match Value::from_slice(alloc, text) {
        Ok(value) => Ok(value),
        Err(_) => Err(AllocError),
    }
}

/// The tree of the findings of an audit: an object with their number, an object for each of
/// them in their order, and the state of the dump. The object of a finding has its kind,
/// which is the first word of its line in the report, the pid of its process, its two
/// offsets in the file, and whatever else its kind of finding has. The graph is that of the
/// processes, and the findings fit them, as those of [`audit`](dump_audit::audit) do.
pub fn tree(
    alloc: Global,
    index: &Index,
    procs: &Procs,
    graph: &Graph<'_>,
    findings: &[Finding],
) -> Result<Value, AllocError>
    requires graph { graph.now ≡ graph_of procs.now.processes }
    requires fits { All (Fits procs.now.processes) findings.now }
    ensures tree { IfOk result (λ tree.
        view tree ≡ finding_tree index.now procs.now.processes findings.now) }
    ensures no_float { IfOk result (λ tree. has_float (view tree) ≡ false) }
    ensures reads_back { IfOk result (λ tree. read (compact_text (view tree)) ≡ Some (view tree)) }
{
    let text = tree_text(alloc, index, procs, graph, findings)?;
    read_back(alloc, &text)
}
