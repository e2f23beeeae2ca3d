// Finding the first request whose reference a process holds.
ghost use Rattle.std.specs.Prelude.{◌≡◌, ◌<◌, length, map, IfErr, IfOk, List, ℕ};
ghost use Rattle.std.specs.Option.{option_copied};
ghost use Rattle.dump_io.specs.Dumps.{IfTold, ReadsAtMost};
ghost use Rattle.dump_io.specs.Faults.{IsReadCauseOf};
ghost use Rattle.dump_sections.specs.Bodies.{body_in, body_size, section_in, IsPlaceIn};
ghost use Rattle.dump_sections.specs.Index.{IsBuiltOver};
ghost use Rattle.heap_cells.specs.Loading.{enc_of};
ghost use Rattle.wait_requests.specs.Held.{first_slots, held};
ghost use Rattle.wait_requests.specs.Waits.{asked_first};
ghost use Rattle.wait_requests.specs.Inner.Asking.{before_held};
ghost use Rattle.wait_requests.specs.Inner.Hearing.{keyed, AreSlots};
ghost use Rattle.wait_requests.specs.Inner.Memories.{held_at, size_at};

use crate::asked::Asked;
use crate::heap_sink::HeapSink;
use crate::memories::Memory;
use crate::slot_sink::SlotSink;
use binary_payloads::{payload_bytes_are_read, payload_is_of_one};
use body_lines::{LinesFault, hear_body};
use dump_io::{Dumps, ReadFault};
use dump_sections::{FirstPlaces, Index};
use heap_cells::enc_of;
use root_views::{RootKind, hear_roots};
use std::alloc::Global;
use term_forms::{form_is_read, number_is_read};

// Sorts the addresses to which slots refer.
fn sort_slots(slots: Vec<(u64, usize)>) -> Result<FirstPlaces<u64>, ReadFault>
    ensures slots { IfOk result (λ sorted. (addresses : List ℕ)
        → slots.items ≡ map keyed addresses → AreSlots addresses sorted) }
    ensures fault { IfErr result (λ fault. fault ≡ ReadFault.Memory) }
{
    match FirstPlaces::of(slots) {
        Ok(sorted) => Ok(sorted),
        Err(_) => Err(ReadFault::Memory),
    }
}

// Reads to which addresses the slots of the stack at a place refer. A process without a stack has none.
fn read_slots<D: Dumps>(
    alloc: Global,
    dumps: &mut D,
    index: &Index,
    place: Option<usize>,
    buffer: &mut Vec<u8>,
) -> Result<FirstPlaces<u64>, ReadFault>
    requires over { IsBuiltOver (D.state dumps.old).now index.now }
    requires place { IsPlaceIn index.now place }
    ensures reads { ReadsAtMost (D.state dumps.old) (D.state dumps.new)
        (body_size (section_in index.now place)) }
    ensures fault { IfErr result (IsReadCauseOf (D.state dumps.old) (D.state dumps.new)) }
    ensures slots { IfOk result (λ slots. IfTold (D.state dumps.old).now
        (λ dump. AreSlots (first_slots (body_in dump (section_in index.now place))) slots)) }
{
    let (from, upto) = index.body_at(place);
    let mut sink = SlotSink {
        awaited: 2,
        slots: Vec::new(alloc),
    };
    hear_roots(dumps, from, upto, RootKind::Stack, buffer, &mut sink)?;
    sort_slots(sink.slots)
}

// How many requests stand before the first whose reference the heap at a place has at one of the slots.
fn first_held<D: Dumps>(
    alloc: Global,
    dumps: &mut D,
    index: &Index,
    place: Option<usize>,
    slots: &FirstPlaces<u64>,
    asked: &Asked<'_>,
    buffer: &mut [u8],
) -> Result<usize, ReadFault>
    requires over { IsBuiltOver (D.state dumps.old).now index.now }
    requires place { IsPlaceIn index.now place }
    requires room { 4134 < length buffer.old }
    ensures reads { ReadsAtMost (D.state dumps.old) (D.state dumps.new)
        (body_size (section_in index.now place)) }
    ensures fault { IfErr result (IsReadCauseOf (D.state dumps.old) (D.state dumps.new)) }
    ensures first { IfOk result (λ first. IfTold (D.state dumps.old).now (λ dump. (stack : List ℕ)
        → AreSlots (first_slots stack) slots.now
        → first ≡ before_held asked.now
        (held (enc_of index.now.version) stack (body_in dump (section_in index.now place))))) }
{
    number_is_read();
    form_is_read(enc_of(index.version()));
    payload_is_of_one(enc_of(index.version()));
    payload_bytes_are_read(enc_of(index.version()));
    let (from, upto) = index.body_at(place);
    let mut sink = HeapSink {
        enc: enc_of(index.version()),
        slots,
        asked,
        first: asked.len(),
        text: Vec::new(alloc),
    };
    match hear_body(dumps, from, upto, buffer, &mut sink) {
        Ok(()) => Ok(sink.first),
        Err(LinesFault::Read) => Err(ReadFault::Read),
        Err(LinesFault::Stopped(_)) => Err(ReadFault::Memory),
    }
}

/// Reads the stack and the heap of a process, and returns whom the first of its
/// requests asks whose reference it holds. The two buffers may hold anything.
pub(crate) fn find_target<'a, D: Dumps>(
    alloc: Global,
    dumps: &mut D,
    index: &Index,
    memory: Memory,
    asked: &Asked<'a>,
    roots: &mut Vec<u8>,
    lines: &mut [u8],
) -> Result<Option<&'a [u8]>, ReadFault>
    requires over { IsBuiltOver (D.state dumps.old).now index.now }
    requires stack { IsPlaceIn index.now memory.stack }
    requires heap { IsPlaceIn index.now memory.heap }
    requires room { 4134 < length lines.old }
    ensures reads { ReadsAtMost (D.state dumps.old) (D.state dumps.new) (size_at index.now memory) }
    ensures fault { IfErr result (IsReadCauseOf (D.state dumps.old) (D.state dumps.new)) }
    ensures target { IfOk result (λ target. IfTold (D.state dumps.old).now
        (λ dump. option_copied target ≡ asked_first (held_at dump index.now memory) asked.now)) }
{
    let slots = read_slots(alloc, dumps, index, memory.stack, roots)?;
    let first = first_held(alloc, dumps, index, memory.heap, &slots, asked, lines)?;
    Ok(asked.target(first))
}
