// Reading the stacks of processes, one after another.
ghost use Rattle.std.specs.Prelude.{◌≡◌, ◌<◌, ◌++◌, [], ◌∷◌, codes, length, map, IfOk, IfErr, OnOk};
ghost use Rattle.dump_io.specs.Dumps.{IfTold, ReadsAtMost};
ghost use Rattle.dump_io.specs.Faults.{IsReadCauseOf};
ghost use Rattle.dump_sections.specs.Bodies.{body_in, body_size, section_in, IsPlaceIn};
ghost use Rattle.dump_sections.specs.Index.{IsBuiltOver};
ghost use Rattle.section_rows.specs.Rows.{row_at};
ghost use Rattle.process_stacks.specs.Groups.{stand_of};
ghost use Rattle.process_stacks.specs.Rows.{stack_section, stacks_length};
ghost use Rattle.process_stacks.specs.Inner.Reading.{AreStacksOf, HasFrames};

use crate::frame_sink::{FrameSink, Stop};
use crate::place_lines::first_lines;
use crate::procs::StackProcs;
use crate::stands::{Stand, Stands};
use body_lines::{WholeLinesFault, hear_whole_lines};
use dump_io::{Dumps, ReadFault};
use dump_sections::{FirstSections, Index};
use std::alloc::Global;

// How many infos of a stack are its frames.
const FRAMES: usize = 20;

// Appends the lines of the frames of the stack at a place. A process without a stack has none.
fn read_frames<D: Dumps>(
    dumps: &mut D,
    index: &Index,
    place: Option<usize>,
    lines: Vec<u8>,
    buffer: &mut Vec<u8>,
) -> Result<Vec<u8>, ReadFault>
    requires over { IsBuiltOver (D.state dumps.old).now index.now }
    requires place { IsPlaceIn index.now place }
    ensures reads { ReadsAtMost (D.state dumps.old) (D.state dumps.new)
        (body_size (section_in index.now place)) }
    ensures fault { IfErr result (IsReadCauseOf (D.state dumps.old) (D.state dumps.new)) }
    ensures frames { IfOk result (λ all. IfTold (D.state dumps.old).now
        (λ dump. HasFrames (body_in dump (section_in index.now place)) lines.items all.items)) }
{
    let (from, upto) = index.body_at(place);
    let mut sink = FrameSink {
        left: FRAMES,
        lines,
    };
    match hear_whole_lines(dumps, from, upto, buffer, &mut sink) {
        Ok(()) => Ok(sink.lines),
        Err(WholeLinesFault::Stopped(Stop::Full)) => Ok(sink.lines),
        Err(WholeLinesFault::Stopped(Stop::NoMemory)) => Err(ReadFault::Memory),
        Err(WholeLinesFault::Unread(fault)) => Err(fault),
    }
}

// Where the stack of the process at a place is.
fn stack_place(stacks: &FirstSections<'_>, procs: &StackProcs, p: usize) -> Option<usize>
    requires process { p < length procs.now }
    requires tag { stacks.now.tag ≡ codes "proc_stack" }
    ensures place { IsPlaceIn stacks.now.index result }
    ensures section { section_in stacks.now.index result
        ≡ stack_section stacks.now.index (row_at procs.now p) }
{
    stacks.get(procs.pid(p))
}

// Reads where the process at a place stands.
fn read_stand<D: Dumps>(
    alloc: Global,
    dumps: &mut D,
    index: &Index,
    stacks: &FirstSections<'_>,
    procs: &StackProcs,
    p: usize,
    buffer: &mut Vec<u8>,
) -> Result<Stand, ReadFault>
    requires over { IsBuiltOver (D.state dumps.old).now index.now }
    requires stacks { AreStacksOf index.now stacks.now }
    requires process { p < length procs.now }
    ensures reads { ReadsAtMost (D.state dumps.old) (D.state dumps.new)
        (body_size (stack_section index.now (row_at procs.now p))) }
    ensures fault { IfErr result (IsReadCauseOf (D.state dumps.old) (D.state dumps.new)) }
    ensures stand { IfOk result (λ stand. IfTold (D.state dumps.old).now
        (λ dump. stand ≡ stand_of dump index.now (row_at procs.now p))) }
{
    let place = stack_place(stacks, procs, p);
    let first = first_lines(alloc, procs, p)?;
    let lines = read_frames(dumps, index, place, first, buffer)?;
    Ok(Stand {
        lines,
        memory: procs.memory(p),
    })
}

// Appends a process.
fn push_stand(stands: &mut Vec<Stand>, stand: Stand) -> Result<(), ReadFault>
    ensures stands { OnOk result (stands.new.items ≡ stands.old.items ++ stand ∷ []) }
    ensures fault { IfErr result (λ fault. fault ≡ ReadFault.Memory) }
{
    match stands.push(stand) {
        Ok(()) => Ok(()),
        Err(_) => Err(ReadFault::Memory),
    }
}

/// Reads where each process stands.
pub(crate) fn read_stands<D: Dumps>(
    alloc: Global,
    dumps: &mut D,
    index: &Index,
    stacks: &FirstSections<'_>,
    procs: &StackProcs,
) -> Result<Stands, ReadFault>
    requires over { IsBuiltOver (D.state dumps.old).now index.now }
    requires stacks { AreStacksOf index.now stacks.now }
    ensures reads { ReadsAtMost (D.state dumps.old) (D.state dumps.new)
        (stacks_length index.now procs.now) }
    ensures fault { IfErr result (IsReadCauseOf (D.state dumps.old) (D.state dumps.new)) }
    ensures count { IfOk result (λ stands. length stands.all.items ≡ length procs.now) }
    ensures stands { IfOk result (λ stands. IfTold (D.state dumps.old).now
        (λ dump. stands.all.items ≡ map (stand_of dump index.now) procs.now)) }
{
    let mut buffer = Vec::new(alloc);
    let mut all = Vec::new(alloc);
    for p in 0..procs.len() {
        let stand = read_stand(alloc, dumps, index, stacks, procs, p, &mut buffer)?;
        push_stand(&mut all, stand)?;
    }
    Ok(Stands { all })
}
