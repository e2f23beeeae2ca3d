// `cells`: what is on the heap of a process.
ghost use Rattle.heap_commands.specs.Rows.{cells_row};
ghost use Rattle.dump_questions.specs.Runs.{Runs};
ghost use Rattle.dump_questions.specs.Tasks.{question};

use dump_io::{Dumps, Sink};
use dump_questions::status::DONE;
use dump_questions::{Opened, Report, Stop, Unopened, load_heap, run_report};
use heap_cells::Heap;
use term_text::put_cells;

#[derive(Clone, Copy)]
pub(crate) struct Cells<'a> {
    pub pid: &'a [u8],
}

impl Report for Cells<'_> {
    type Loaded = Heap;

    ghost means = { λ c. cells_row c.pid.now };

    ghost seen = { λ _ _ heap. heap };

    fn read<D: Dumps>(&self, at: &Opened<'_>, dumps: &mut D) -> Result<Heap, Stop> {
        load_heap(at, dumps, self.pid, None)
    }

    fn put<K: Sink>(&self, _at: &Opened<'_>, heap: &Heap, out: &mut K) -> Result<u8, Stop> {
        put_cells(out, heap)?;
        Ok(DONE)
    }
}

/// Runs `cells`, and returns its status.
pub fn run_cells<D: Dumps, K: Sink>(
    dump: &Unopened<'_>,
    pid: &[u8],
    dumps: &mut D,
    out: &mut K,
) -> Result<u8, Stop>
    ensures { Runs (question dump.now.file.now (cells_row pid.now)) dump.now.limits.now
        (D.state dumps.old) (D.state dumps.new) (K.state out.old) (K.state out.new) result }
{
    run_report(dump, &Cells { pid }, dumps, out)
}
