// `procs`: the process table.
ghost use Rattle.table_commands.specs.Rows.{procs_row};
ghost use Rattle.dump_questions.specs.Runs.{Runs};
ghost use Rattle.dump_questions.specs.Tasks.{question};

use dump_io::{Dumps, Sink};
use dump_questions::status::DONE;
use dump_questions::{Opened, Report, Stop, Unopened, or_stop, run_report};
use process_table::Procs;
use report_text::put_procs;

#[derive(Clone, Copy)]
pub(crate) struct ProcessTable;

impl Report for ProcessTable {
    type Loaded = Procs;

    ghost means = { λ _. procs_row };

    ghost seen = { λ _ _ table. table };

    fn read<D: Dumps>(&self, at: &Opened<'_>, dumps: &mut D) -> Result<Procs, Stop> {
        or_stop(Procs::load(at.alloc, dumps, at.index, at.limits))
    }

    fn put<K: Sink>(&self, _at: &Opened<'_>, table: &Procs, out: &mut K) -> Result<u8, Stop> {
        put_procs(out, table)?;
        Ok(DONE)
    }
}

/// Runs `procs`, and returns its status.
pub fn run_procs<D: Dumps, K: Sink>(
    dump: &Unopened<'_>,
    dumps: &mut D,
    out: &mut K,
) -> Result<u8, Stop>
    ensures { Runs (question dump.now.file.now procs_row) dump.now.limits.now
        (D.state dumps.old) (D.state dumps.new) (K.state out.old) (K.state out.new) result }
{
    run_report(dump, &ProcessTable, dumps, out)
}
