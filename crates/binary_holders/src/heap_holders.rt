// The processes that hold binaries, one heap after another.
ghost use Rattle.std.specs.Prelude.{◌≡◌, ℕ, List, [], ◌∷◌, ◌++◌, ◌+◌, ◌^◌, ◌<◌, ◌≤◌, length, map, filter, All, OnOk, IfOk, IfErr, if◌then◌else◌};
ghost use Rattle.std.specs.List.{flat_map, sum_by};
ghost use Rattle.dump_io.specs.Dumps.{DeviceFailed, IfTold, ReadsAtMost};
ghost use Rattle.dump_io.specs.Faults.{IsReadCauseOf};
ghost use Rattle.dump_sections.specs.Bodies.{IsPlaceIn};
ghost use Rattle.dump_sections.specs.Index.{IsBuiltOver, sections_in};
ghost use Rattle.process_table.specs.Numbers.{binary_bytes};
ghost use Rattle.process_table.specs.Processes.{process_at};
ghost use Rattle.binary_holders.specs.Held.{BinaryHeap, holdings, whole_lines};
ghost use Rattle.binary_holders.specs.Usage.{NamesProcess};
ghost use Rattle.binary_holders.specs.Inner.Places.{binaries_at, heap_place, numbers_at, references_at, size_at};
ghost use Rattle.binary_holders.specs.declared.texts.Reference.{Reference};
ghost use Rattle.binary_holders.specs.Inner.Counting.{HasCounted, HasRoom, Adds, counted, is_listed, no_lines};
ghost use Rattle.binary_holders.specs.declared.heap_sink.TheConstants.{KEPT};
ghost use Rattle.binary_holders.specs.Inner.HeapSinks.{IsReady, KeepsTargets};
ghost use Rattle.heap_cells.specs.Loading.{enc_of};
ghost use Rattle.dump_io.specs.Limits.{usual};

use crate::counts::Counts;
use crate::heap_sink::HeapSink;
use crate::pushing::push_row;
use crate::rows::Holding;
use crate::scanning::count_heap;
use dump_io::{Dumps, ReadFault};
use dump_sections::Index;
use process_table::{Procs, binary_bytes};
use std::alloc::Global;

/// Which processes are listed.
#[derive(Clone, Copy)]
pub(crate) enum Listed {
    /// Those that hold one of the targets.
    Holders,
    /// Those whose heaps refer to binaries, and those for which the node counted some.
    Users,
}

// A process, how many bytes of binaries the node counted for it, and the place of its heap.
#[derive(Clone, Copy)]
struct Owner {
    process: usize,
    counted: u128,
    heap: Option<usize>,
}

// The process at a place of the process table, whose heap is at this place.
fn owner_at(procs: &Procs, process: usize, heap: Option<usize>) -> Owner
    requires { process < length procs.now.processes }
    ensures process { result.process ≡ process }
    ensures counted { result.counted ≡ binary_bytes (process_at procs.now.processes process) }
    ensures heap { result.heap ≡ heap }
{
    Owner {
        process,
        counted: binary_bytes(&procs.at(process)),
        heap,
    }
}

// Whether a process that holds this is listed.
fn is_listed(listed: Listed, holding: &Holding) -> bool
    ensures { result ≡ is_listed listed holding.now }
{
    match listed {
        Listed::Holders => holding.count > 0,
        Listed::Users => holding.lines > 0 || holding.counted > 0,
    }
}

// Counts the references of the heap at a place. A process without a heap refers to nothing.
fn count_section<D: Dumps>(
    dumps: &mut D,
    index: &Index,
    place: Option<usize>,
    buffer: &mut [u8],
    sink: &mut HeapSink<'_>,
) -> Result<(), ReadFault>
    requires over { IsBuiltOver (D.state dumps.old).now index.now }
    requires within { IsPlaceIn index.now place }
    requires buffer { KEPT < length buffer.old }
    requires enc { sink.old.enc ≡ enc_of index.now.version }
    requires room { IsReady sink.old }
    ensures reads { ReadsAtMost (D.state dumps.old) (D.state dumps.new) (size_at index.now place) }
    ensures failed { IfErr result (λ fault.
        (fault ≡ ReadFault.Read) × DeviceFailed (D.state dumps.old) (D.state dumps.new)) }
    ensures keeps { OnOk result (KeepsTargets sink.old sink.new) }
    ensures adds { OnOk result (IfTold (D.state dumps.old).now
        (λ dump. Adds sink.old.targets.now sink.old.counts sink.new.counts
        (references_at dump index.now place))) }
{
    let (from, upto) = index.body_at(place);
    match count_heap(dumps, from, upto, buffer, sink) {
        Ok(()) => Ok(()),
        Err(_) => Err(ReadFault::Read),
    }
}

// Appends what a process holds, if it is listed.
fn push_holding(
    held: &mut Vec<Holding>,
    listed: Listed,
    owner: &Owner,
    counts: &Counts,
) -> Result<(), ReadFault>
    ensures pushed { let one = counted owner.now.process owner.now.counted counts.now in
        OnOk result (held.new.items
        ≡ held.old.items ++ (if is_listed listed one then one ∷ [] else [])) }
    ensures fault { IfErr result (λ fault. fault ≡ ReadFault.Memory) }
{
    let one = counts.holding(owner.process, owner.counted);
    if !is_listed(listed, &one) {
        return Ok(());
    }
    push_row(held, one)
}

// Counts the references of the heap of a process, and appends what it holds, if it is listed.
fn count_process<D: Dumps>(
    dumps: &mut D,
    index: &Index,
    owner: &Owner,
    listed: Listed,
    buffer: &mut [u8],
    sink: &mut HeapSink<'_>,
    held: &mut Vec<Holding>,
) -> Result<(), ReadFault>
    requires over { IsBuiltOver (D.state dumps.old).now index.now }
    requires within { IsPlaceIn index.now owner.now.heap }
    requires buffer { KEPT < length buffer.old }
    requires enc { sink.old.enc ≡ enc_of index.now.version }
    requires room { IsReady sink.old }
    requires turn { sink.old.counts.turn + 1 < 2 ^ 32 }
    requires heap { sink.old.counts.heap ≡ no_lines }
    ensures reads { ReadsAtMost (D.state dumps.old) (D.state dumps.new)
        (size_at index.now owner.now.heap) }
    ensures fault { IfErr result (IsReadCauseOf (D.state dumps.old) (D.state dumps.new)) }
    ensures turn { OnOk result (sink.new.counts.turn ≡ sink.old.counts.turn + 1) }
    ensures room { OnOk result (IsReady sink.new) }
    ensures enc { OnOk result (sink.new.enc ≡ sink.old.enc) }
    ensures targets { OnOk result (sink.new.targets.now ≡ sink.old.targets.now) }
    ensures heap { OnOk result (sink.new.counts.heap ≡ no_lines) }
    ensures held { OnOk result (IfTold (D.state dumps.old).now
        (λ dump. (before : List BinaryHeap) (heaps : List (List ℕ))
        → owner.now.process ≡ length before
        → HasCounted sink.old.targets.now heaps [] sink.old.counts
        → held.old.items ≡ filter (is_listed listed) (holdings sink.old.targets.now before)
        → held.new.items ≡ filter (is_listed listed) (holdings sink.old.targets.now
        (before ++ record {
          counted = owner.now.counted;
          references = references_at dump index.now owner.now.heap;
        } ∷ [])))) }
    ensures named { OnOk result ((count : ℕ) → owner.now.process < count
        → All (NamesProcess count) held.old.items → All (NamesProcess count) held.new.items) }
    ensures counted { OnOk result (IfTold (D.state dumps.old).now
        (λ dump. (before : List (List ℕ))
        → HasCounted sink.old.targets.now before [] sink.old.counts
        → HasCounted sink.old.targets.now
        (before ++ numbers_at dump index.now owner.now.heap ∷ []) [] sink.new.counts)) }
    ensures lines { OnOk result (IfTold (D.state dumps.old).now
        (λ dump. (before : List Reference)
        → sink.old.counts.lines ≡ whole_lines sink.old.targets.now before
        → sink.new.counts.lines ≡ whole_lines sink.old.targets.now
        (before ++ references_at dump index.now owner.now.heap))) }
{
    count_section(dumps, index, owner.heap, buffer, sink)?;
    push_holding(held, listed, owner, &sink.counts)?;
    sink.counts.turn();
    Ok(())
}

/// What each listed process holds of the targets, in the order of the processes, whose heaps are at these places.
pub(crate) fn count_all<D: Dumps>(
    alloc: Global,
    dumps: &mut D,
    index: &Index,
    procs: &Procs,
    heaps: &[Option<usize>],
    listed: Listed,
    buffer: &mut [u8],
    sink: &mut HeapSink<'_>,
) -> Result<Vec<Holding>, ReadFault>
    requires over { IsBuiltOver (D.state dumps.old).now index.now }
    requires places { heaps.now
        ≡ map (λ process. heap_place (sections_in index.now) process.pid) procs.now.processes }
    requires within { All (IsPlaceIn index.now) heaps.now }
    requires few { length heaps.now ≤ usual.sections }
    requires buffer { KEPT < length buffer.old }
    requires first { sink.old.counts.turn ≡ 1 }
    requires enc { sink.old.enc ≡ enc_of index.now.version }
    requires room { IsReady sink.old }
    requires counted { HasCounted sink.old.targets.now [] [] sink.old.counts }
    requires heap { sink.old.counts.heap ≡ no_lines }
    requires none { sink.old.counts.lines ≡ record { count = 0; unstored = 0 } }
    ensures reads { ReadsAtMost (D.state dumps.old) (D.state dumps.new)
        (sum_by (size_at index.now) heaps.now) }
    ensures fault { IfErr result (IsReadCauseOf (D.state dumps.old) (D.state dumps.new)) }
    ensures room { OnOk result (HasRoom (length sink.old.targets.now) sink.new.counts) }
    ensures held { IfOk result (λ held. IfTold (D.state dumps.old).now
        (λ dump. held.items ≡ filter (is_listed listed) (holdings sink.old.targets.now
        (map (binaries_at dump index.now) procs.now.processes)))) }
    ensures named { IfOk result (λ held. All (NamesProcess (length heaps.now)) held.items) }
    ensures counted { OnOk result (IfTold (D.state dumps.old).now
        (λ dump. HasCounted sink.old.targets.now
        (map (numbers_at dump index.now) heaps.now) [] sink.new.counts)) }
    ensures lines { OnOk result (IfTold (D.state dumps.old).now
        (λ dump. sink.new.counts.lines
        ≡ whole_lines sink.old.targets.now (flat_map (references_at dump index.now) heaps.now))) }
{
    let mut held = Vec::new(alloc);
    for process in 0..heaps.len() {
        let owner = owner_at(procs, process, heaps[process]);
        count_process(dumps, index, &owner, listed, buffer, sink, &mut held)?;
    }
    Ok(held)
}
