// `reach`: which cells of a process's heap its roots reach.
ghost use Rattle.std.specs.Prelude.{◌≡◌, [], IfOk, IfErr};
ghost use Rattle.dump_io.specs.Dumps.{ReadsAtMost};
ghost use Rattle.dump_sections.specs.Index.{IsBuiltOver};
ghost use Rattle.dump_sections.specs.Loading.{bodies_length, large_fault};
ghost use Rattle.heap_reach.specs.Rounds.{IsReachOf};
ghost use Rattle.heap_commands.specs.Inner.Loads.{roots_at, seen_reach, terms_loaded, ArePlaces, AreUnread, AreWithin, HoldsRoots};
ghost use Rattle.heap_commands.specs.Rows.{reach_row};
ghost use Rattle.dump_questions.specs.Runs.{Runs};
ghost use Rattle.dump_questions.specs.Tasks.{question};

use crate::roots::place_of;
use dump_io::{Dumps, Sink};
use dump_questions::status::DONE;
use dump_questions::{Body, Opened, Report, Stop, Unopened, load_behind, read_found, run_report};
use dump_sections::{BodyFault, LargeSection, large_body};
use heap_cells::Heap;
use root_views::RootKind;
use term_text::{add_roots, put_reach};

#[derive(Clone, Copy)]
pub(crate) struct Reach<'a> {
    pub pid: &'a [u8],
}

/// The places of the sections with the roots of a process, as far as there are such sections.
#[derive(Clone, Copy)]
pub struct RootPlaces {
    stack: Option<usize>,
    dict: Option<usize>,
    mail: Option<usize>,
}

/// The bodies of the sections with the roots of a process.
#[derive(Drop)]
pub struct RootBodies {
    stack: Body,
    dict: Body,
    mail: Body,
}

/// The heap of the process, and the bodies with its roots.
#[derive(Drop)]
pub struct ReachedHeap {
    heap: Heap,
    roots: RootBodies,
}

// Finds the sections with the roots of a process.
fn root_places(at: &Opened<'_>, pid: &[u8]) -> RootPlaces
    ensures sections { ArePlaces pid.now at.now.index.now result }
    ensures within { AreWithin at.now.index.now result }
{
    RootPlaces {
        stack: place_of(at, RootKind::Stack, pid),
        dict: place_of(at, RootKind::Dict, pid),
        mail: place_of(at, RootKind::Mail, pid),
    }
}

// Returns the first of the sections with roots whose body has more bytes than the limit.
fn large_roots(at: &Opened<'_>, places: RootPlaces) -> Option<LargeSection>
    requires { AreWithin at.now.index.now places }
    ensures { result ≡ large_fault at.now.limits.now.section (roots_at at.now.index.now places) }
{
    let first = large_body(at.index, places.stack, at.limits);
    let second = large_body(at.index, places.dict, at.limits);
    let third = large_body(at.index, places.mail, at.limits);
    first.or(second).or(third)
}

// Reads the bodies of the sections with roots. A missing section counts as empty.
fn read_roots<D: Dumps>(
    at: &Opened<'_>,
    dumps: &mut D,
    places: RootPlaces,
) -> Result<RootBodies, BodyFault>
    requires over { IsBuiltOver (D.state dumps.old).now at.now.index.now }
    requires within { AreWithin at.now.index.now places }
    ensures reads { ReadsAtMost (D.state dumps.old) (D.state dumps.new)
        (bodies_length (roots_at at.now.index.now places)) }
    ensures bodies { IfOk result (HoldsRoots at.now.index.now (D.state dumps.old).now places) }
    ensures fault { let roots = roots_at at.now.index.now places in
        IfErr result (AreUnread (large_fault at.now.limits.now.section roots) (D.state dumps.old) (D.state dumps.new)) }
{
    let stack = read_found(at, dumps, places.stack)?;
    let dict = read_found(at, dumps, places.dict)?;
    let mail = read_found(at, dumps, places.mail)?;
    Ok(RootBodies { stack, dict, mail })
}

// Adds what the roots of all three bodies reach.
fn add_all(reach: &mut heap_reach::Reach<'_>, roots: &RootBodies)
    requires { IsReachOf reach.old [] }
    ensures heap { reach.new.heap ≡ reach.old.heap }
    ensures roots { IsReachOf reach.new (terms_loaded roots.now) }
{
    add_roots(reach, RootKind::Stack, roots.stack.bytes.as_slice());
    add_roots(reach, RootKind::Dict, roots.dict.bytes.as_slice());
    add_roots(reach, RootKind::Mail, roots.mail.bytes.as_slice());
}

impl Report for Reach<'_> {
    type Loaded = ReachedHeap;

    ghost means = { λ c. reach_row c.pid.now };

    ghost seen = { λ _ _ loaded. seen_reach loaded };

    fn read<D: Dumps>(&self, at: &Opened<'_>, dumps: &mut D) -> Result<ReachedHeap, Stop> {
        let places = root_places(at, self.pid);
        let heap = load_behind(at, dumps, self.pid, large_roots(at, places))?;
        let roots = read_roots(at, dumps, places)?;
        Ok(ReachedHeap { heap, roots })
    }

    fn put<K: Sink>(&self, at: &Opened<'_>, loaded: &ReachedHeap, out: &mut K) -> Result<u8, Stop> {
        let ReachedHeap { heap, roots } = loaded;
        let mut reach = heap_reach::Reach::new(at.alloc, heap)?;
        add_all(&mut reach, roots);
        let unreached = reach.unreached(at.alloc)?;
        put_reach(out, heap, &reach, unreached.as_slice())?;
        Ok(DONE)
    }
}

/// Runs `reach`, and returns its status.
pub fn run_reach<D: Dumps, K: Sink>(
    dump: &Unopened<'_>,
    pid: &[u8],
    dumps: &mut D,
    out: &mut K,
) -> Result<u8, Stop>
    ensures { Runs (question dump.now.file.now (reach_row pid.now)) dump.now.limits.now
        (D.state dumps.old) (D.state dumps.new) (K.state out.old) (K.state out.new) result }
{
    run_report(dump, &Reach { pid }, dumps, out)
}
