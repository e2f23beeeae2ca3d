// Where the heaps of processes are: the first of the sections with heaps of each pid.
ghost use Rattle.std.specs.Prelude.{◌≡◌, ◌≤◌, length, map, All, IfOk};
ghost use Rattle.dump_io.specs.Limits.{usual};
ghost use Rattle.dump_sections.specs.Bodies.{IsPlaceIn};
ghost use Rattle.dump_sections.specs.Index.{sections_in};
ghost use Rattle.binary_holders.specs.Inner.Places.{heap_place};

use dump_sections::{FirstSections, Index};
use process_table::Procs;
use std::alloc::{AllocError, Global};

/// The place of the heap of each process, in the order of the process table.
pub(crate) fn heap_places(
    alloc: Global,
    index: &Index,
    procs: &Procs,
) -> Result<Vec<Option<usize>>, AllocError>
    ensures places { IfOk result (λ heaps. heaps.items
        ≡ map (λ process. heap_place (sections_in index.now) process.pid) procs.now.processes) }
    ensures within { IfOk result (λ heaps. All (IsPlaceIn index.now) heaps.items) }
    ensures few { IfOk result (λ heaps. length heaps.items ≤ usual.sections) }
{
    let firsts = FirstSections::find(alloc, index, b"proc_heap".as_slice())?;
    let mut heaps = Vec::new(alloc);
    for process in 0..procs.len() {
        heaps.push(firsts.get(procs.pid(process)))?;
    }
    Ok(heaps)
}
