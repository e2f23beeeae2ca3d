// `stack`, `dict` and `mail`: the roots of a process.
ghost use Rattle.std.specs.Prelude.{◌≡◌, ◌<◌};
ghost use Rattle.binary_refs.specs.Previews.{AreFor};
ghost use Rattle.dump_sections.specs.Bodies.{section_in, IsPlaceIn};
ghost use Rattle.dump_sections.specs.Index.{sections_in};
ghost use Rattle.root_views.specs.Sections.{root_section};
ghost use Rattle.dump_questions.specs.Bodies.{HasPlaces};
ghost use Rattle.heap_commands.specs.Inner.Loads.{seen_roots};
ghost use Rattle.heap_commands.specs.Rows.{roots_row};
ghost use Rattle.dump_questions.specs.Runs.{Runs};
ghost use Rattle.dump_questions.specs.Tasks.{question};

use binary_refs::Previews;
use dump_io::{Dumps, Sink};
use dump_questions::status::DONE;
use dump_questions::{Body, Opened, Report, Stop, Unopened, load_heap, read_found, run_report};
use heap_cells::Heap;
use root_views::RootKind;
use term_text::put_roots;
use term_unfold::Walker;

#[derive(Clone, Copy)]
pub(crate) struct Roots<'a> {
    pub pid: &'a [u8],
    pub kind: RootKind,
    pub nodes: u32,
    pub marked: bool,
}

/// The body with the roots, and the heap to which they refer.
#[derive(Drop)]
pub struct HeapAndRoots {
    body: Body,
    heap: Heap,
    previews: Previews,
}

// Finds the section with the roots of one kind of a process.
pub(crate) fn place_of(at: &Opened<'_>, kind: RootKind, pid: &[u8]) -> Option<usize>
    ensures section { let index = at.now.index.now in
        section_in index result ≡ root_section kind pid.now (sections_in index) }
    ensures within { IsPlaceIn at.now.index.now result }
{
    at.index.first(kind.tag(), Some(pid))
}

impl Report for Roots<'_> {
    type Loaded = HeapAndRoots;

    ghost means = { λ c. roots_row c.kind c.pid.now c.nodes c.marked };

    ghost seen = { λ _ _ loaded. seen_roots loaded };

    ghost asked = { λ c. 0 < c.nodes };

    ghost fits = { λ _ _ loaded.
        HasPlaces loaded.body × AreFor loaded.heap.cells loaded.previews };

    fn read<D: Dumps>(&self, at: &Opened<'_>, dumps: &mut D) -> Result<HeapAndRoots, Stop> {
        let place = place_of(at, self.kind, self.pid);
        let heap = load_heap(at, dumps, self.pid, place)?;
        let previews = Previews::load(at.alloc, dumps, at.index, &heap)?;
        let body = read_found(at, dumps, place)?;
        Ok(HeapAndRoots {
            body,
            heap,
            previews,
        })
    }

    fn put<K: Sink>(
        &self,
        at: &Opened<'_>,
        loaded: &HeapAndRoots,
        out: &mut K,
    ) -> Result<u8, Stop> {
        let mut walker = Walker::new(at.alloc, &loaded.heap, &loaded.previews)?;
        let Body { bytes, base } = &loaded.body;
        put_roots(
            out,
            &mut walker,
            self.kind,
            bytes.as_slice(),
            *base,
            self.nodes,
            self.marked,
        )?;
        Ok(DONE)
    }
}

/// Runs `stack`, `dict` or `mail`, and returns its status.
pub fn run_roots<D: Dumps, K: Sink>(
    dump: &Unopened<'_>,
    kind: RootKind,
    pid: &[u8],
    nodes: u32,
    marked: bool,
    dumps: &mut D,
    out: &mut K,
) -> Result<u8, Stop>
    requires { 0 < nodes }
    ensures { Runs (question dump.now.file.now (roots_row kind pid.now nodes marked)) dump.now.limits.now
        (D.state dumps.old) (D.state dumps.new) (K.state out.old) (K.state out.new) result }
{
    let roots = Roots {
        kind,
        pid,
        nodes,
        marked,
    };
    run_report(dump, &roots, dumps, out)
}
