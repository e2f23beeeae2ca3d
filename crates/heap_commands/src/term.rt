// `term`: one term of a process.
ghost use Rattle.std.specs.Prelude.{◌<◌};
ghost use Rattle.binary_refs.specs.Previews.{AreFor};
ghost use Rattle.term_unfold.specs.Walks.{new_walk};
ghost use Rattle.heap_commands.specs.Rows.{term_row};
ghost use Rattle.dump_questions.specs.Runs.{Runs};
ghost use Rattle.dump_questions.specs.Tasks.{question};

use binary_refs::Previews;
use dump_io::{Dumps, Sink};
use dump_questions::status::DONE;
use dump_questions::{Opened, Report, Stop, Unopened, find_cell, load_heap, run_report};
use heap_cells::Heap;
use term_text::put_term;
use term_unfold::Walker;

#[derive(Clone, Copy)]
pub(crate) struct Term<'a> {
    pub pid: &'a [u8],
    pub addr: u64,
    pub nodes: u32,
    pub marked: bool,
}

/// The heap in which the term is.
#[derive(Drop)]
pub struct HeapAndPreviews {
    heap: Heap,
    previews: Previews,
}

impl Report for Term<'_> {
    type Loaded = HeapAndPreviews;

    ghost means = { λ c. term_row c.pid.now c.addr c.nodes c.marked };

    ghost seen = { λ _ _ loaded. new_walk loaded.heap loaded.previews };

    ghost asked = { λ c. 0 < c.nodes };

    ghost fits = { λ _ _ loaded. AreFor loaded.heap.cells loaded.previews };

    fn read<D: Dumps>(&self, at: &Opened<'_>, dumps: &mut D) -> Result<HeapAndPreviews, Stop> {
        let heap = load_heap(at, dumps, self.pid, None)?;
        find_cell(&heap, self.addr)?;
        let previews = Previews::load(at.alloc, dumps, at.index, &heap)?;
        Ok(HeapAndPreviews { heap, previews })
    }

    fn put<K: Sink>(
        &self,
        at: &Opened<'_>,
        loaded: &HeapAndPreviews,
        out: &mut K,
    ) -> Result<u8, Stop> {
        let mut walker = Walker::new(at.alloc, &loaded.heap, &loaded.previews)?;
        put_term(out, &mut walker, self.addr, self.nodes, self.marked)?;
        Ok(DONE)
    }
}

/// Runs `term`, and returns its status.
pub fn run_term<D: Dumps, K: Sink>(
    dump: &Unopened<'_>,
    pid: &[u8],
    addr: u64,
    nodes: u32,
    marked: bool,
    dumps: &mut D,
    out: &mut K,
) -> Result<u8, Stop>
    requires { 0 < nodes }
    ensures { Runs (question dump.now.file.now (term_row pid.now addr nodes marked)) dump.now.limits.now
        (D.state dumps.old) (D.state dumps.new) (K.state out.old) (K.state out.new) result }
{
    let term = Term {
        pid,
        addr,
        nodes,
        marked,
    };
    run_report(dump, &term, dumps, out)
}
