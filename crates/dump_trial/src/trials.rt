// Holding a made dump in memory and reading it.
ghost use Rattle.std.specs.Prelude.{◌≡◌, ◌≤◌, length, All, None, IfOk};
ghost use Rattle.dump_sections.specs.Index.{IsIndexOf};
ghost use Rattle.process_table.specs.Processes.{IsProcessIn, process_table};
ghost use Rattle.dump_audit.specs.Findings.{findings, findings_in};
ghost use Rattle.dump_trial.specs.Trial.{queue_limit, summary_of, tally_of, trial_of};

use crate::bad_roots::count_processes;
use crate::finder::Finder;
use crate::good_dump::GoodDump;
use crate::summary::Summary;
use crate::tally::Tally;
use dump_audit::audit;
use dump_sections::Index;
use dump_write::{made_dump_is_accepted, make};
use link_graph::Graph;
use process_table::Procs;
use std::alloc::{AllocError, Global};

// A message queue is reported if its length is above this.
const QUEUE_LIMIT: u64 = 8;

// How much an audit finds.
fn count_findings(alloc: Global, index: &Index, procs: &Procs) -> Result<u64, AllocError>
    requires { All (IsProcessIn index.now) procs.now.processes }
    ensures { IfOk result (λ count. count ≡ length (findings_in index.now procs.now queue_limit None)) }
{
    let graph = Graph::build(alloc, procs)?;
    let found = audit(alloc, index, procs, &graph, QUEUE_LIMIT)?;
    Ok(found.len() as u64)
}

// How many roots the processes have.
fn count_all_roots(
    alloc: Global,
    held: &mut GoodDump,
    index: &Index,
    procs: &Procs,
) -> Result<Tally, AllocError>
    requires { IsIndexOf held.old index.now }
    ensures { IfOk result (λ tally. tally ≡ tally_of held.old procs.now.processes) }
{
    let finder = Finder::new(alloc, index)?;
    count_processes(alloc, held, &finder, procs)
}

// What there is in the dump with these processes.
fn summarize_processes(
    alloc: Global,
    held: &mut GoodDump,
    index: &Index,
    procs: &Procs,
) -> Result<Summary, AllocError>
    requires index { IsIndexOf held.old index.now }
    requires table { procs.now ≡ process_table held.old }
    requires sections { All (IsProcessIn index.now) procs.now.processes }
    ensures { IfOk result (λ summary. summary ≡ summary_of held.old) }
{
    let tally = count_all_roots(alloc, held, index, procs)?;
    let findings = count_findings(alloc, index, procs)?;
    Ok(Summary {
        sections: index.len() as u64,
        processes: procs.len() as u64,
        tally,
        findings,
    })
}

fn summarize(alloc: Global, held: &mut GoodDump, index: &Index) -> Result<Summary, AllocError>
    requires { IsIndexOf held.old index.now }
    ensures { IfOk result (λ summary. summary ≡ summary_of held.old) }
{
    let procs = held.procs(alloc, index)?;
    summarize_processes(alloc, held, index, &procs)
}

/// Makes the dump of a seed and a count of processes, from 1 to 200,000, holds it in memory
/// and reads it under the usual limits: how many sections, processes and roots it has, how
/// many roots have a bad address within 1,000 nodes, and how much is found by an audit that
/// reports message queues of more than 8 messages. Returns an error only if memory is lacking.
pub fn trial(alloc: Global, seed: u64, count: u32) -> Result<Summary, AllocError>
    requires some { 1 ≤ count }
    requires few { count ≤ 200000 }
    ensures { IfOk result (λ summary. summary ≡ trial_of seed count) }
{
    made_dump_is_accepted(seed, count);
    let bytes = make(alloc, seed, count)?;
    let (mut held, index) = GoodDump::open(alloc, bytes)?;
    summarize(alloc, &mut held, &index)
}
