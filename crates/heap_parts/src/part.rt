// Loading a part of a heap that is enough for some roots.
ghost use Rattle.std.specs.Prelude.{◌≡◌, [], List, ◌+◌, ◌*◌, ◌<◌, ◌≤◌, length, map, min, false, IfOk, IfErr, OnOk};
ghost use Rattle.dump_io.specs.Dumps.{ReadsAtMost};
ghost use Rattle.dump_io.specs.Faults.{IsReadCauseOf};
ghost use Rattle.heap_cells.specs.Cells.{Cell};
ghost use Rattle.term_forms.specs.Seen.{element};
ghost use Rattle.heap_cells.specs.Loading.{IsHeapAnswerFor};
ghost use Rattle.heap_parts.specs.Inner.Growing.{FindsNoGap, Grows, MayGather, ReadsLines};
ghost use Rattle.heap_parts.specs.Parts.{IsEnoughFor};
ghost use Rattle.heap_parts.specs.Wholes.{known_of, text_size, HasLines, ServesLines};

use crate::gathered::{Gathered, Source};
use crate::heap_lines::HeapLines;
use crate::search::{Search, gather_root};
use dump_io::{Dumps, Limits, ReadFault};
use heap_cells::Heap;
use std::alloc::{AllocError, Global};
use term_forms::shapes::Elem;
use term_forms::{Enc, form_is_read};
use term_unfold::{PartWalker, part_is_enough};

// The heap with these lines. One that is too dense counts as want of memory.
fn heap_of(alloc: Global, lines: Vec<u8>, enc: Enc, limits: &Limits) -> Result<Heap, ReadFault>
    requires { length lines.items ≤ limits.now.section }
    ensures heap { IfOk result (λ heap.
        IsHeapAnswerFor enc lines.items [] limits.now.dense (Ok heap)) }
    ensures enc { IfOk result (λ heap. heap.enc ≡ enc) }
    ensures fault { IfErr result (λ fault. fault ≡ ReadFault.Memory) }
{
    match Heap::of_lines(alloc, lines, enc, limits) {
        Ok(heap) => Ok(heap),
        Err(_) => Err(ReadFault::Memory),
    }
}

// Whether a root asks for a cell that the heap lacks and the whole heap has, or for one that may be a heap binary there.
fn has_gap(
    alloc: Global,
    heap: &Heap,
    roots: &[Elem<'_>],
    budget: u32,
    whole: &HeapLines,
) -> Result<bool, AllocError>
    requires { 0 < budget }
    ensures { IfOk result (λ gap. gap ≡ false
        → FindsNoGap (known_of whole.now) heap.now.cells roots.now budget) }
{
    let mut walker = PartWalker::new(alloc, heap)?;
    for root in roots {
        if walker.first_gap(*root, budget, whole).is_some() {
            return Ok(true);
        }
    }
    Ok(false)
}

// Gathers the lines that each root needs.
fn gather_roots<D: Dumps>(
    alloc: Global,
    from: &Source<'_>,
    dumps: &mut D,
    roots: &[Elem<'_>],
    g: &mut Gathered,
) -> Result<(), ReadFault>
    requires { MayGather from.now (D.state dumps.old).now g.old.lines.items }
    ensures reads { ReadsLines (D.state dumps.old) (D.state dumps.new) from.now.bytes g.old.lines.items }
    ensures fault { IfErr result (IsReadCauseOf (D.state dumps.old) (D.state dumps.new)) }
    ensures grows { OnOk result (Grows from.now (D.state dumps.old) (D.state dumps.new)
        g.old.lines.items g.new.lines.items) }
{
    let mut search = Search::new(alloc);
    for root in roots {
        gather_root(from, dumps, root, g, &mut search)?;
    }
    Ok(())
}

/// Loads a part of the whole heap that is enough for these roots, within so many nodes of each: the
/// answer to each of them over the part, with the previews of its cells, is the answer over the whole
/// heap with the previews of that. The part has no more references to binaries than the whole heap.
///
/// A search from each root gathers the lines that its nodes need, each of which is read and parsed once, and a walk over
/// the heap of these lines then makes sure that no node asks for what only the whole heap has: a cell, or, of a sub binary,
/// a heap binary; a cell of any other form to which a sub binary refers isn't read. Returns `Memory` if the
/// lines are more than the limits, if the walk finds such a node, as it may if the file is changed meanwhile, and from any
/// allocation, and `Read` only if the device's count of faults rose. Whatever it returns, it reads at most 16 times the
/// limit on a section's body or what all lines of the whole heap take, if that is less, and 64 bytes.
pub fn load_part<D: Dumps>(
    alloc: Global,
    whole: &HeapLines,
    dumps: &mut D,
    roots: &[Elem<'_>],
    budget: u32,
    limits: &Limits,
) -> Result<Heap, ReadFault>
    requires over { ServesLines whole.now (D.state dumps.old).now }
    requires budget { 0 < budget }
    ensures reads { ReadsAtMost (D.state dumps.old) (D.state dumps.new)
        (16 * (min limits.now.section (text_size whole.now) + 4)) }
    ensures fault { IfErr result (IsReadCauseOf (D.state dumps.old) (D.state dumps.new)) }
    ensures enough { IfOk result (λ heap. (all : List Cell)
        → HasLines whole.now (D.state dumps.old).now all
        → IsEnoughFor all heap.cells (map element roots.now) budget) }
    ensures enc { IfOk result (λ heap. heap.enc ≡ whole.now.enc) }
{
    part_is_enough();
    form_is_read(whole.enc);
    let from = Source {
        lines: whole,
        bytes: whole.size_within(limits.section()) as usize,
        nodes: budget,
        leads: limits.dense(),
    };
    let mut g = Gathered::new(alloc);
    gather_roots(alloc, &from, dumps, roots, &mut g)?;
    let heap = heap_of(alloc, g.lines, whole.enc, limits)?;
    let gap = has_gap(alloc, &heap, roots, budget, whole)?;
    if gap {
        return Err(ReadFault::Memory);
    }
    Ok(heap)
}
