// `ets`, `ports`, `nodes` and `mods`: the tables other than the process table.
ghost use Rattle.table_commands.specs.Rows.{table_row};
ghost use Rattle.dump_questions.specs.Runs.{Runs};
ghost use Rattle.dump_questions.specs.Tasks.{question};

use dump_io::{Dumps, Sink};
use dump_questions::status::DONE;
use dump_questions::{Opened, Report, Stop, Unopened, or_stop, run_report};
use report_text::put_rows;
use table_sections::{Rows, TableKind};

#[derive(Clone, Copy)]
pub(crate) struct Table {
    pub kind: TableKind,
}

impl Report for Table {
    type Loaded = Rows;

    ghost means = { λ c. table_row c.kind };

    ghost seen = { λ _ _ rows. rows };

    fn read<D: Dumps>(&self, at: &Opened<'_>, dumps: &mut D) -> Result<Rows, Stop> {
        or_stop(Rows::load(at.alloc, dumps, at.index, self.kind, at.limits))
    }

    fn put<K: Sink>(&self, _at: &Opened<'_>, rows: &Rows, out: &mut K) -> Result<u8, Stop> {
        put_rows(out, rows)?;
        Ok(DONE)
    }
}

/// Runs `ets`, `ports`, `nodes` or `mods`, and returns the status.
pub fn run_table<D: Dumps, K: Sink>(
    dump: &Unopened<'_>,
    kind: TableKind,
    dumps: &mut D,
    out: &mut K,
) -> Result<u8, Stop>
    ensures { Runs (question dump.now.file.now (table_row kind)) dump.now.limits.now
        (D.state dumps.old) (D.state dumps.new) (K.state out.old) (K.state out.new) result }
{
    run_report(dump, &Table { kind }, dumps, out)
}
