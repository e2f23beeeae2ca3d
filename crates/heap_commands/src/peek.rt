// `peek`: terms of a heap of any size.
ghost use Rattle.std.specs.Prelude.{◌≡◌, ◌-◌, ◌<◌, ◌≤◌, [], ◌++◌, map, None, IfErr, IfOk, OnOk};
ghost use Rattle.binary_refs.specs.Previews.{AreFor};
ghost use Rattle.dump_io.specs.Dumps.{ReadsAtMost};
ghost use Rattle.dump_io.specs.Faults.{IsReadCauseOf};
ghost use Rattle.dump_sections.specs.Bodies.{body_size, section_in, IsPlaceIn};
ghost use Rattle.dump_sections.specs.Index.{sections_in, IsBuiltOver};
ghost use Rattle.heap_parts.specs.Wholes.{is_known, text_size, HasLines, ServesLines};
ghost use Rattle.root_views.specs.Seen.{content};
ghost use Rattle.term_forms.specs.Seen.{element};
ghost use Rattle.root_views.specs.Roots.{term_in};
ghost use Rattle.term_text.specs.Cuts.{cut_report};
ghost use Rattle.term_text.specs.Reach.{root_elements};
ghost use Rattle.term_text.specs.Roots.{answer_over, term_report};
ghost use Rattle.heap_commands.specs.Inner.Loads.{seen_shown, shown_row, unknown_cause, walk_in, AreAnswered, AreRootsFound};
ghost use Rattle.heap_commands.specs.Inner.Loads.{FitsRoots, GivesPart, ReadsPart};
ghost use Rattle.dump_questions.specs.Meaning.{no_process};
ghost use Rattle.dump_questions.specs.Reading.{ReadsFor, StopsFor};
ghost use Rattle.dump_questions.specs.Stops.{Judges};
ghost use Rattle.heap_commands.specs.Rows.{peek_roots_row, peek_term_row};
ghost use Rattle.dump_questions.specs.Runs.{Runs};
ghost use Rattle.dump_questions.specs.Tasks.{question};

use crate::roots::place_of;
use binary_refs::Previews;
use dump_io::{Dumps, ReadFault, Sink};
use dump_questions::status::DONE;
use dump_questions::{Opened, Report, Stop, Unopened, find_process, run_report};
use heap_cells::Heap;
use heap_parts::{HeapLines, load_part};
use report_text::Refusal;
use root_views::{Root, RootKind, ShownRoots, What};
use std::alloc::{AllocError, Global};
use term_forms::shapes::Elem;
use term_text::{put_cuts, put_shown_roots, put_term};
use term_unfold::{Addresses, Walker};

/// `peek` with an address.
#[derive(Clone, Copy)]
pub(crate) struct PeekTerm<'a> {
    pub pid: &'a [u8],
    pub addr: u64,
    pub nodes: u32,
    pub marked: bool,
}

/// `peek` with a kind of roots.
#[derive(Clone, Copy)]
pub(crate) struct PeekRoots<'a> {
    pub pid: &'a [u8],
    pub kind: RootKind,
    pub first: u64,
    pub count: u32,
    pub nodes: u32,
    pub marked: bool,
}

/// As much of a heap as its terms need that are shown, and the previews of its binaries.
#[derive(Drop)]
pub struct HeapPart {
    heap: Heap,
    previews: Previews,
}

/// The roots that are shown, the offset of their body, and a part of the heap to which they refer.
#[derive(Drop)]
pub struct RootsPart {
    roots: ShownRoots,
    base: u64,
    part: HeapPart,
}

// Refuses an address that no line of the heap has, if one is asked for.
fn find_line(lines: &HeapLines, addr: Option<u64>) -> Result<(), Stop>
    ensures { Judges (unknown_cause addr (is_known lines.now)) result }
{
    let Some(addr) = addr else {
        return Ok(());
    };
    if lines.has(addr) {
        Ok(())
    } else {
        Err(Stop::Refused(Refusal::NoAddress { addr }))
    }
}

// Loads as much of the heap with these lines as some terms need within so
// many nodes of each, and the previews of its binaries.
fn load_over<D: Dumps>(
    at: &Opened<'_>,
    dumps: &mut D,
    lines: &HeapLines,
    terms: &[Elem<'_>],
    nodes: u32,
) -> Result<HeapPart, Stop>
    requires over { IsBuiltOver (D.state dumps.old).now at.now.index.now }
    requires serves { ServesLines lines.now (D.state dumps.old).now }
    requires nodes { 0 < nodes }
    ensures reads { ReadsPart at.now.limits.now.section (text_size lines.now) (HasLines lines.now (D.state dumps.old).now)
        (D.state dumps.old) (D.state dumps.new) }
    ensures stops { IfErr result (StopsFor (D.state dumps.old) (D.state dumps.new) (λ why. ⊥)) }
    ensures answered { IfOk result (λ part. AreAnswered (D.state dumps.old).now at.now.index.now
        lines.now nodes (walk_in part) (map element terms.now)) }
    ensures fits { IfOk result (λ part. AreFor part.heap.cells part.previews) }
{
    let heap = load_part(at.alloc, lines, dumps, terms, nodes, at.limits)?;
    let previews = Previews::load(at.alloc, dumps, at.index, &heap)?;
    Ok(HeapPart { heap, previews })
}

// Loads as much of the heap of a process as its shown terms need; only its lines are known meanwhile.
// An address that it lacks is refused, if one is asked for.
fn load_terms<D: Dumps>(
    at: &Opened<'_>,
    dumps: &mut D,
    pid: &[u8],
    addr: Option<u64>,
    terms: &[Elem<'_>],
    nodes: u32,
) -> Result<HeapPart, Stop>
    requires over { IsBuiltOver (D.state dumps.old).now at.now.index.now }
    requires nodes { 0 < nodes }
    ensures gives { GivesPart pid.now addr (map element terms.now) nodes at.now.limits.now at.now.index.now
        (D.state dumps.old) (D.state dumps.new) result }
    ensures fits { IfOk result (λ part. AreFor part.heap.cells part.previews) }
{
    let lines = HeapLines::load(at.alloc, dumps, at.index, pid)?;
    find_line(&lines, addr)?;
    load_over(at, dumps, &lines, terms, nodes)
}

impl Report for PeekTerm<'_> {
    type Loaded = HeapPart;

    ghost means = { λ c. peek_term_row c.pid.now c.addr c.nodes c.marked };

    ghost seen = { λ c index part. term_report (answer_over (walk_in part) c.nodes c.marked) c.addr
        ++ cut_report index c.pid.now [] };

    ghost asked = { λ c. 0 < c.nodes };

    ghost fits = { λ _ _ part. AreFor part.heap.cells part.previews };

    fn read<D: Dumps>(&self, at: &Opened<'_>, dumps: &mut D) -> Result<HeapPart, Stop> {
        find_process(at, self.pid)?;
        let term = [Elem::Ref(self.addr)];
        load_terms(at, dumps, self.pid, Some(self.addr), &term, self.nodes)
    }

    fn put<K: Sink>(&self, at: &Opened<'_>, part: &HeapPart, out: &mut K) -> Result<u8, Stop> {
        let mut walker = Walker::new(at.alloc, &part.heap, &part.previews)?;
        put_term(out, &mut walker, self.addr, self.nodes, self.marked)?;
        put_cuts(out, at.index, self.pid, &[])?;
        Ok(DONE)
    }
}

// Reads of the roots in the section at `place` those that are shown, and returns where
// its body begins in the file. A missing section counts as empty.
fn read_roots<D: Dumps>(
    at: &Opened<'_>,
    dumps: &mut D,
    place: Option<usize>,
    roots: &PeekRoots<'_>,
) -> Result<(ShownRoots, u64), ReadFault>
    requires over { IsBuiltOver (D.state dumps.old).now at.now.index.now }
    requires place { IsPlaceIn at.now.index.now place }
    ensures reads { ReadsAtMost (D.state dumps.old) (D.state dumps.new)
        (body_size (section_in at.now.index.now place)) }
    ensures fault { IfErr result (IsReadCauseOf (D.state dumps.old) (D.state dumps.new)) }
    ensures roots { let found = section_in at.now.index.now place in IfOk result
        (AreRootsFound (D.state dumps.old).now found roots.now.kind roots.now.first roots.now.count) }
{
    let PeekRoots {
        kind,
        first,
        count,
        ..
    } = *roots;
    let (from, upto) = at.index.body_at(place);
    let shown = ShownRoots::load(at.alloc, dumps, from, upto, kind, first, u64::from(count))?;
    Ok((shown, from))
}

// Appends the element of a root, if it is a term.
fn push_term<'a>(terms: &mut Vec<Elem<'a>>, found: &Root<'a>) -> Result<(), AllocError>
    ensures { OnOk result (map element terms.new.items
        ≡ map element terms.old.items ++ term_in (content found.now.what)) }
{
    if let What::Term(e) = found.what {
        terms.push(e)?;
    }
    Ok(())
}

// The elements of the roots that are terms.
fn terms_of(alloc: Global, roots: &ShownRoots) -> Result<Vec<Elem<'_>>, AllocError>
    ensures { IfOk result (λ terms.
        map element terms.items ≡ root_elements roots.now.shown) }
{
    let mut terms = Vec::new(alloc);
    for i in 0..roots.len() {
        push_term(&mut terms, &roots.root(i))?;
    }
    Ok(terms)
}

// Loads as much of the heap of a process as the roots that are shown need within so many nodes of each.
fn load_for_roots<D: Dumps>(
    at: &Opened<'_>,
    dumps: &mut D,
    pid: &[u8],
    roots: &ShownRoots,
    nodes: u32,
) -> Result<HeapPart, Stop>
    requires over { IsBuiltOver (D.state dumps.old).now at.now.index.now }
    requires nodes { 0 < nodes }
    ensures gives { GivesPart pid.now None (root_elements roots.now.shown) nodes at.now.limits.now at.now.index.now
        (D.state dumps.old) (D.state dumps.new) result }
    ensures fits { IfOk result (λ part. AreFor part.heap.cells part.previews) }
{
    let terms = terms_of(at.alloc, roots)?;
    load_terms(at, dumps, pid, None, &terms, nodes)
}

// Loads the roots that are shown of a process that is there, and as much of its heap as they need.
fn load_roots<D: Dumps>(
    at: &Opened<'_>,
    dumps: &mut D,
    roots: &PeekRoots<'_>,
) -> Result<RootsPart, Stop>
    requires over { IsBuiltOver (D.state dumps.old).now at.now.index.now }
    requires nodes { 0 < roots.now.nodes }
    requires there { no_process roots.now.pid.now (sections_in at.now.index.now) ≡ None }
    ensures reads { let index = at.now.index.now in ReadsFor (shown_row roots.now) at.now.limits.now index
        (D.state dumps.old) (D.state dumps.new) (seen_shown roots.now index) result }
    ensures fits { IfOk result FitsRoots }
{
    let place = place_of(at, roots.kind, roots.pid);
    let (shown, base) = read_roots(at, dumps, place, roots)?;
    let part = load_for_roots(at, dumps, roots.pid, &shown, roots.nodes)?;
    Ok(RootsPart {
        roots: shown,
        base,
        part,
    })
}

impl Report for PeekRoots<'_> {
    type Loaded = RootsPart;

    ghost means = { λ c. shown_row c };

    ghost seen = { λ c index loaded. seen_shown c index loaded };

    ghost asked = { λ c. (0 < c.nodes) × (1 ≤ c.count) × (c.count ≤ 1000) };

    ghost fits = { λ _ _ loaded. FitsRoots loaded };

    fn read<D: Dumps>(&self, at: &Opened<'_>, dumps: &mut D) -> Result<RootsPart, Stop> {
        find_process(at, self.pid)?;
        load_roots(at, dumps, self)
    }

    fn put<K: Sink>(&self, at: &Opened<'_>, loaded: &RootsPart, out: &mut K) -> Result<u8, Stop> {
        let HeapPart { heap, previews } = &loaded.part;
        let mut walker = Walker::new(at.alloc, heap, previews)?;
        let RootsPart { roots, base, .. } = loaded;
        put_shown_roots(out, &mut walker, roots, *base, self.nodes, self.marked)?;
        put_cuts(out, at.index, self.pid, &[self.kind])?;
        Ok(DONE)
    }
}

/// Runs `peek` with an address, and returns its status.
pub fn run_peek_term<D: Dumps, K: Sink>(
    dump: &Unopened<'_>,
    pid: &[u8],
    addr: u64,
    nodes: u32,
    marked: bool,
    dumps: &mut D,
    out: &mut K,
) -> Result<u8, Stop>
    requires { 0 < nodes }
    ensures { Runs (question dump.now.file.now (peek_term_row pid.now addr nodes marked)) dump.now.limits.now
        (D.state dumps.old) (D.state dumps.new) (K.state out.old) (K.state out.new) result }
{
    let term = PeekTerm {
        pid,
        addr,
        nodes,
        marked,
    };
    run_report(dump, &term, dumps, out)
}

/// Runs `peek` with a kind of roots, and returns its status.
pub fn run_peek_roots<D: Dumps, K: Sink>(
    dump: &Unopened<'_>,
    kind: RootKind,
    pid: &[u8],
    first: u64,
    count: u32,
    nodes: u32,
    marked: bool,
    dumps: &mut D,
    out: &mut K,
) -> Result<u8, Stop>
    requires { (0 < nodes) × (1 ≤ count) × (count ≤ 1000) }
    ensures { Runs (question dump.now.file.now (peek_roots_row kind pid.now first count nodes marked)) dump.now.limits.now
        (D.state dumps.old) (D.state dumps.new) (K.state out.old) (K.state out.new) result }
{
    let roots = PeekRoots {
        kind,
        pid,
        first,
        count,
        nodes,
        marked,
    };
    run_report(dump, &roots, dumps, out)
}
