// `index`: the sections of a dump and its state.
ghost use Rattle.table_commands.specs.Rows.{index_row};
ghost use Rattle.dump_questions.specs.Runs.{Runs};
ghost use Rattle.dump_questions.specs.Tasks.{question};

use dump_io::{Dumps, Sink};
use dump_questions::status::DONE;
use dump_questions::{Opened, Report, Stop, Unopened, run_report};
use report_text::put_index;

#[derive(Clone, Copy)]
pub(crate) struct Index;

impl Report for Index {
    type Loaded = ();

    ghost means = { λ _. index_row };

    ghost seen = { λ _ index _. index };

    fn read<D: Dumps>(&self, _at: &Opened<'_>, _dumps: &mut D) -> Result<(), Stop> {
        Ok(())
    }

    fn put<K: Sink>(&self, at: &Opened<'_>, _loaded: &(), out: &mut K) -> Result<u8, Stop> {
        put_index(out, at.index)?;
        Ok(DONE)
    }
}

/// Runs `index`, and returns its status.
pub fn run_index<D: Dumps, K: Sink>(
    dump: &Unopened<'_>,
    dumps: &mut D,
    out: &mut K,
) -> Result<u8, Stop>
    ensures { Runs (question dump.now.file.now index_row) dump.now.limits.now
        (D.state dumps.old) (D.state dumps.new) (K.state out.old) (K.state out.new) result }
{
    run_report(dump, &Index, dumps, out)
}
