// What questions find on the index of a dump and read from it:
// a process, the body of a section, the heap of a process.
ghost use Rattle.std.specs.Prelude.{◌≡◌, ◌<◌, List, length, Some, IfOk, IfSome};
ghost use Rattle.term_unfold.specs.Parts.{has_cell};
ghost use Rattle.dump_sections.specs.Bodies.{section_at, section_in};
ghost use Rattle.dump_sections.specs.Index.{IsBuiltOver, sections_in};
ghost use Rattle.dump_sections.specs.Sections.{Section};
ghost use Rattle.dump_sections.specs.Loading.{large_fault, LoadsBodies};
ghost use Rattle.dump_questions.specs.Meaning.{no_process, process_section};
ghost use Rattle.std.specs.Option.{option_to_list};
ghost use Rattle.dump_questions.specs.Heaps.{address_cause};
ghost use Rattle.dump_questions.specs.Reading.{GivesHeap};
ghost use Rattle.dump_questions.specs.Bodies.{IsBodyFound};
ghost use Rattle.dump_questions.specs.Stops.{Judges};

use crate::open::Opened;
use crate::stop::Stop;
use dump_io::{Dumps, Text};
use dump_sections::{BodyFault, LargeSection, large_body, read_body};
use heap_cells::{Heap, Seat};
use report_text::Refusal;

/// Finds the section of a process, and returns its place. Refuses a pid without such a section.
pub fn find_process(at: &Opened<'_>, pid: &[u8]) -> Result<usize, Stop>
    ensures judges { Judges (no_process pid.now (sections_in at.now.index.now)) result }
    ensures within { IfOk result (λ i. i < length at.now.index.now.headers) }
    ensures there { let index = at.now.index.now in
        IfOk result (λ i. process_section pid.now (sections_in index) ≡ Some (section_at index i)) }
{
    let Some(place) = at.index.first(b"proc", Some(pid)) else {
        let pid = Vec::from_slice(at.alloc, pid)?;
        return Err(Stop::Refused(Refusal::NoProcess(Text::new(pid))));
    };
    Ok(place)
}

/// The body of a section, and its offset in the file.
#[derive(Drop)]
pub struct Body {
    pub bytes: Vec<u8>,
    pub base: u64,
}

/// Reads the body of a section. A missing section counts as empty.
pub fn read_found<D: Dumps>(
    at: &Opened<'_>,
    dumps: &mut D,
    place: Option<usize>,
) -> Result<Body, BodyFault>
    requires over { IsBuiltOver (D.state dumps.old).now at.now.index.now }
    requires place { IfSome place (λ i. i < length at.now.index.now.headers) }
    ensures loads { let bodies = option_to_list (section_in at.now.index.now place) in
        LoadsBodies D.state bodies at.now.limits.now.section dumps.old dumps.new result }
    ensures body { let found = section_in at.now.index.now place in
        IfOk result (IsBodyFound (D.state dumps.old).now found) }
{
    let Some(i) = place else {
        return Ok(Body {
            bytes: Vec::new(at.alloc),
            base: 0,
        });
    };
    let bytes = read_body(at.alloc, dumps, at.index, i, at.limits)?;
    let base = at.index.section(i).body;
    Ok(Body { bytes, base })
}

/// Reads the heap of a process for a question that loads the body of the section at `place` before
/// it, if there is one: the process is found, and all bodies are judged before one is read.
pub fn load_heap<D: Dumps>(
    at: &Opened<'_>,
    dumps: &mut D,
    pid: &[u8],
    place: Option<usize>,
) -> Result<Heap, Stop>
    requires over { IsBuiltOver (D.state dumps.old).now at.now.index.now }
    requires place { IfSome place (λ i. i < length at.now.index.now.headers) }
    ensures { let before = option_to_list (section_in at.now.index.now place) in
        GivesHeap D.state pid.now before at.now.limits.now at.now.index.now dumps.old dumps.new result }
{
    load_behind(at, dumps, pid, large_body(at.index, place, at.limits))
}

/// Reads the heap of a process for a question that loads several bodies
/// before it, given the first of them that is too large.
pub fn load_behind<D: Dumps>(
    at: &Opened<'_>,
    dumps: &mut D,
    pid: &[u8],
    large: Option<LargeSection>,
) -> Result<Heap, Stop>
    requires { IsBuiltOver (D.state dumps.old).now at.now.index.now }
    ensures { (before : List Section) → large ≡ large_fault at.now.limits.now.section before
        → GivesHeap D.state pid.now before at.now.limits.now at.now.index.now dumps.old dumps.new result }
{
    find_process(at, pid)?;
    if let Some(large) = large {
        return Err(Stop::from(large));
    }
    Ok(Heap::load(at.alloc, dumps, at.index, pid, at.limits)?)
}

/// Refuses an address at which the heap has no cell.
pub fn find_cell(heap: &Heap, addr: u64) -> Result<(), Stop>
    ensures { Judges (address_cause addr (has_cell heap.now.cells addr)) result }
{
    match heap.at(addr) {
        Seat::Missing => Err(Stop::Refused(Refusal::NoAddress { addr })),
        Seat::Malformed(_) | Seat::Cell(_) => Ok(()),
    }
}
