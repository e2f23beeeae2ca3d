// Where the stacks and the heaps of processes stand.
ghost use Rattle.std.specs.Prelude.{◌≡◌, ℕ, ◌+◌, ◌<◌, length, take, None, IfOk};
ghost use Rattle.std.specs.Option.{option_copied};
ghost use Rattle.dump_sections.specs.Index.{Contents, sections_in};
ghost use Rattle.dump_sections.specs.Sections.{id_of, tag_of};
ghost use Rattle.process_table.specs.Processes.{process_at};
ghost use Rattle.wait_requests.specs.Inner.Memories.{id_with, noted, AreMemories, IsMemory, Notes};

use dump_sections::{Index, Section};
use process_table::Procs;
use std::alloc::{AllocError, Global};

/// Where the stack and the heap of a process stand among the sections of an index, if it has them.
#[derive(Clone, Copy)]
pub(crate) struct Memory {
    pub stack: Option<usize>,
    pub heap: Option<usize>,
}

/// The first stack and the first heap of each process. They are found in one pass over the sections, since the process
/// table knows the pids: so no list of ids is sorted and searched.
#[derive(Drop)]
pub(crate) struct Memories {
    pub stacks: Vec<Option<usize>>,
    pub heaps: Vec<Option<usize>>,
}

// The id of a section, if it has the tag.
fn id_with<'a>(section: &Section<'a>, tag: &[u8]) -> Option<&'a [u8]>
    requires tag { section.now.tag.now ≡ tag_of section.now.text.now }
    requires id { option_copied section.now.id ≡ id_of section.now.text.now }
    ensures { option_copied result ≡ id_with tag.now section.now.text.now }
{
    if section.tag == tag { section.id } else { None }
}

// Notes a place for the process with a pid, if no place was noted for it.
fn note_place(places: &mut Vec<Option<usize>>, procs: &Procs, pid: Option<&[u8]>, place: usize)
    requires count { length places.old.items ≡ length procs.now.processes }
    ensures count { length places.new.items ≡ length procs.now.processes }
    ensures notes { Notes procs.now.processes places.old.items places.new.items (option_copied pid.entry) place }
{
    let Some(pid) = pid else {
        return;
    };
    let Some(process) = procs.get(pid) else {
        return;
    };
    if places[process].is_some() {
        return;
    }
    places[process] = Some(place);
}

// No places, of so many processes.
fn no_places(alloc: Global, count: usize) -> Result<Vec<Option<usize>>, AllocError>
    ensures count { IfOk result (λ places. length places.items ≡ count) }
    ensures none { IfOk result (λ places. (p : ℕ) → noted places.items p ≡ None) }
{
    vec![in alloc; None; count]
}

// The place that was noted for a process.
fn noted(places: &[Option<usize>], process: usize) -> Option<usize>
    ensures { result ≡ noted places.now process }
{
    match places.get(process) {
        Some(place) => *place,
        None => None,
    }
}

impl Memories {
    // Notes the section at a place, if it is a stack or a heap.
    fn note(&mut self, index: &Index, procs: &Procs, i: usize)
        requires place { i < length index.now.headers }
        requires before { AreMemories (take i (sections_in index.now)) procs.now.processes self.old }
        ensures { AreMemories (take (i + 1) (sections_in index.now)) procs.now.processes self.new }
    {
        let section = index.section(i);
        note_place(&mut self.stacks, procs, id_with(&section, b"proc_stack"), i);
        note_place(&mut self.heaps, procs, id_with(&section, b"proc_heap"), i);
    }

    /// Finds the stacks and the heaps of processes in an index.
    pub(crate) fn find(alloc: Global, index: &Index, procs: &Procs) -> Result<Memories, AllocError>
        ensures { IfOk result (AreMemories (sections_in index.now) procs.now.processes) }
    {
        let mut memories = Memories {
            stacks: no_places(alloc, procs.len())?,
            heaps: no_places(alloc, procs.len())?,
        };
        for i in 0..index.len() {
            memories.note(index, procs, i);
        }
        Ok(memories)
    }

    /// Where the stack and the heap of the process at a place stand.
    pub(crate) fn of(&self, procs: &Procs, p: usize) -> Memory
        requires { p < length procs.now.processes }
        ensures { (index : Contents) → AreMemories (sections_in index) procs.now.processes self.now
            → IsMemory index (process_at procs.now.processes p).pid result }
    {
        let Some(process) = procs.get(procs.pid(p)) else {
            return Memory {
                stack: None,
                heap: None,
            };
        };
        Memory {
            stack: noted(&self.stacks, process),
            heap: noted(&self.heaps, process),
        }
    }
}
