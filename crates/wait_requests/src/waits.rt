// For whom the processes of a dump wait.
ghost use Rattle.std.specs.Prelude.{◌≡◌, ◌<◌, length, slice_index_or, None, IfErr, IfOk};
ghost use Rattle.std.specs.Option.{option_copied};
ghost use Rattle.dump_io.specs.Dumps.{IfTold, ReadsAtMost};
ghost use Rattle.dump_io.specs.Faults.{IsReadCauseOf};
ghost use Rattle.dump_sections.specs.Index.{Contents, IsBuiltOver, sections_in};
ghost use Rattle.link_graph.specs.Graph.{graph_of};
ghost use Rattle.process_table.specs.Processes.{AreProcessesOver, process_at};
ghost use Rattle.wait_requests.specs.Waits.{target_of, targets_of, wait_length, waiters_with, waits_length};
ghost use Rattle.wait_requests.specs.Inner.Memories.{AreMemories};

use crate::asked::Asked;
use crate::heap_sink::HeapSink;
use crate::held::find_target;
use crate::memories::Memories;
use crate::targets::Targets;
use body_lines::make_buffer;
use dump_io::{Dumps, ReadFault};
use dump_sections::Index;
use link_graph::Graph;
use process_table::Procs;
use std::alloc::Global;
use std::marker::Model;
use wait_circles::Waiting;

/// For whom the processes of a dump wait. Contracts see for each process, in dump order, the target, if it waits.
#[derive(Drop)]
pub struct Waits {
    targets: Targets,
}

impl Model for Waits {
    ghost use Rattle.std.specs.Prelude.{ℕ, List, Option};

    ghost Value = { List (Option (List ℕ)) };

    ghost view = { λ w. w.targets };
}

// Reads for whom the process at a place waits.
fn find_wait<'a, D: Dumps>(
    alloc: Global,
    dumps: &mut D,
    index: &Index,
    memories: &Memories,
    procs: &Procs,
    graph: &'a Graph<'_>,
    p: usize,
    roots: &mut Vec<u8>,
    lines: &mut [u8],
) -> Result<Option<&'a [u8]>, ReadFault>
    requires over { IsBuiltOver (D.state dumps.old).now index.now }
    requires memories { AreMemories (sections_in index.now) procs.now.processes memories.now }
    requires process { p < length procs.now.processes }
    requires graph { graph.now ≡ graph_of procs.now.processes }
    requires room { 4134 < length lines.old }
    ensures reads { ReadsAtMost (D.state dumps.old) (D.state dumps.new)
        (wait_length index.now (process_at procs.now.processes p)) }
    ensures fault { IfErr result (IsReadCauseOf (D.state dumps.old) (D.state dumps.new)) }
    ensures target { IfOk result (λ target. IfTold (D.state dumps.old).now
        (λ dump. option_copied target
        ≡ target_of dump index.now (process_at procs.now.processes p))) }
{
    let asked = Asked::of(alloc, graph, p)?;
    if asked.len() == 0 {
        return Ok(None);
    }
    let memory = memories.of(procs, p);
    find_target(alloc, dumps, index, memory, &asked, roots, lines)
}

// Reads for whom each process waits.
fn find_waits<D: Dumps>(
    alloc: Global,
    dumps: &mut D,
    index: &Index,
    memories: &Memories,
    procs: &Procs,
    graph: &Graph<'_>,
    lines: &mut [u8],
) -> Result<Targets, ReadFault>
    requires over { IsBuiltOver (D.state dumps.old).now index.now }
    requires memories { AreMemories (sections_in index.now) procs.now.processes memories.now }
    requires graph { graph.now ≡ graph_of procs.now.processes }
    requires room { 4134 < length lines.old }
    ensures reads { ReadsAtMost (D.state dumps.old) (D.state dumps.new)
        (waits_length index.now procs.now.processes) }
    ensures fault { IfErr result (IsReadCauseOf (D.state dumps.old) (D.state dumps.new)) }
    ensures count { IfOk result (λ targets. length targets ≡ length procs.now.processes) }
    ensures targets { IfOk result (λ targets. IfTold (D.state dumps.old).now
        (λ dump. targets ≡ targets_of dump index.now procs.now.processes)) }
{
    let mut roots = Vec::new(alloc);
    let mut targets = Targets::new(alloc);
    for p in 0..procs.len() {
        let target = find_wait(
            alloc, dumps, index, memories, procs, graph, p, &mut roots, lines,
        )?;
        targets.push(target)?;
    }
    Ok(targets)
}

impl Waits {
    /// Reads for whom each process waits: the target of the first of its monitors whose reference the slots of the
    /// frame in which it stands hold. Processes that monitor nothing are passed over, and the stack and the heap of
    /// each other one are read once, in pieces of at most 65,536 bytes.
    ///
    /// The index was built over the open file, which stays open, and the graph is that of the processes. Returns `Read`
    /// only if the device's count of faults rose; `Memory` may come from any allocation, and stands for targets of
    /// 4 GiB together. Whatever it returns, at most as many bytes are read as these stacks and heaps have together.
    pub fn find<D: Dumps>(
        alloc: Global,
        dumps: &mut D,
        index: &Index,
        procs: &Procs,
        graph: &Graph<'_>,
    ) -> Result<Waits, ReadFault>
        requires over { IsBuiltOver (D.state dumps.old).now index.now }
        requires graph { graph.now ≡ graph_of procs.now.processes }
        ensures reads { ReadsAtMost (D.state dumps.old) (D.state dumps.new)
            (waits_length index.now procs.now.processes) }
        ensures fault { IfErr result (IsReadCauseOf (D.state dumps.old) (D.state dumps.new)) }
        ensures waits { IfOk result (λ waits. IfTold (D.state dumps.old).now
            (λ dump. waits ≡ targets_of dump index.now procs.now.processes)) }
        ensures count { IfOk result (λ waits. length waits ≡ length procs.now.processes) }
    {
        let memories = Memories::find(alloc, index, procs)?;
        let mut lines = make_buffer::<HeapSink<'_, '_>>(alloc)?;
        let targets = find_waits(alloc, dumps, index, &memories, procs, graph, &mut lines)?;
        Ok(Waits { targets })
    }

    /// How many processes there are.
    pub fn len(&self) -> usize
        ensures { result ≡ length self.now }
    {
        self.targets.len()
    }

    /// For whom the process at a place, from 0, waits: a pid, or a registered name
    /// with its node in braces, as the link list has it.
    pub fn target(&self, process: usize) -> Option<&[u8]>
        requires { process < length self.now }
        ensures { option_copied result ≡ slice_index_or self.now process None }
    {
        self.targets.get(process)
    }
}

/// The processes of a dump and for whom they wait, of which [`WaitGraph`](wait_circles::WaitGraph)
/// finds who comes to whom. Contracts see the pid of each process, and for whom it waits.
#[derive(Drop)]
pub struct Waiters<'a> {
    procs: &'a Procs,
    waits: &'a Waits,
}

impl<'a> Model for Waiters<'a> {
    ghost use Rattle.std.specs.Prelude.{List};
    ghost use Rattle.wait_circles.specs.Waiters.{Waiter};
    ghost use Rattle.wait_requests.specs.Waits.{waiters_with};
    ghost use Rattle.wait_requests.specs.Inner.Memories.{AreTargets};

    ghost Value = { List Waiter };

    ghost view = { λ w. waiters_with w.procs.now.processes w.waits.now };

    ghost invariant = { λ w. AreTargets w.procs.now.processes w.waits.now };
}

impl<'a> Waiters<'a> {
    /// The processes of an index, and for whom they wait.
    pub fn of(procs: &'a Procs, waits: &'a Waits) -> Waiters<'a>
        requires procs { (index : Contents) × AreProcessesOver index procs.now }
        requires count { length waits.now ≡ length procs.now.processes }
        ensures { result ≡ waiters_with procs.now.processes waits.now }
    {
        Waiters { procs, waits }
    }
}

impl<'a> Waiting for Waiters<'a> {
    ghost waiters = { λ waiters. waiters };

    fn len(&self) -> usize {
        self.waits.len()
    }

    fn target(&self, process: usize) -> Option<&[u8]> {
        self.waits.target(process)
    }

    fn find(&self, pid: &[u8]) -> Option<usize> {
        self.procs.get(pid)
    }
}
