// `links`: the links and monitors of all processes.
ghost use Rattle.table_commands.specs.Rows.{links_row};
ghost use Rattle.dump_questions.specs.Runs.{Runs};
ghost use Rattle.dump_questions.specs.Tasks.{question};

use dump_io::{Dumps, Sink};
use dump_questions::status::DONE;
use dump_questions::{Opened, Report, Stop, Unopened, or_stop, run_report};
use link_graph::Graph;
use process_table::Procs;
use report_text::put_links;

#[derive(Clone, Copy)]
pub(crate) struct Links;

impl Report for Links {
    type Loaded = Procs;

    ghost means = { λ _. links_row };

    ghost seen = { λ _ _ procs. procs };

    fn read<D: Dumps>(&self, at: &Opened<'_>, dumps: &mut D) -> Result<Procs, Stop> {
        or_stop(Procs::load(at.alloc, dumps, at.index, at.limits))
    }

    fn put<K: Sink>(&self, at: &Opened<'_>, procs: &Procs, out: &mut K) -> Result<u8, Stop> {
        let graph = Graph::build(at.alloc, procs)?;
        put_links(out, procs, &graph)?;
        Ok(DONE)
    }
}

/// Runs `links`, and returns its status.
pub fn run_links<D: Dumps, K: Sink>(
    dump: &Unopened<'_>,
    dumps: &mut D,
    out: &mut K,
) -> Result<u8, Stop>
    ensures { Runs (question dump.now.file.now links_row) dump.now.limits.now
        (D.state dumps.old) (D.state dumps.new) (K.state out.old) (K.state out.new) result }
{
    run_report(dump, &Links, dumps, out)
}
