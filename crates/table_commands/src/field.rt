// `field`: one field of every process.
ghost use Rattle.table_commands.specs.Rows.{field_row};
ghost use Rattle.dump_questions.specs.Runs.{Runs};
ghost use Rattle.dump_questions.specs.Tasks.{question};

use dump_io::{Dumps, Sink};
use dump_questions::status::DONE;
use dump_questions::{Opened, Report, Stop, Unopened, or_stop, run_report};
use process_table::FieldTable;
use report_text::put_values;

#[derive(Clone, Copy)]
pub(crate) struct Field<'a> {
    pub key: &'a [u8],
}

impl Report for Field<'_> {
    type Loaded = FieldTable;

    ghost means = { λ c. field_row c.key.now };

    ghost seen = { λ _ _ table. table };

    fn read<D: Dumps>(&self, at: &Opened<'_>, dumps: &mut D) -> Result<FieldTable, Stop> {
        or_stop(FieldTable::load(at.alloc, dumps, at.index, self.key, at.limits))
    }

    fn put<K: Sink>(&self, _at: &Opened<'_>, table: &FieldTable, out: &mut K) -> Result<u8, Stop> {
        put_values(out, table)?;
        Ok(DONE)
    }
}

/// Runs `field`, and returns its status.
pub fn run_field<D: Dumps, K: Sink>(
    dump: &Unopened<'_>,
    key: &[u8],
    dumps: &mut D,
    out: &mut K,
) -> Result<u8, Stop>
    ensures { Runs (question dump.now.file.now (field_row key.now)) dump.now.limits.now
        (D.state dumps.old) (D.state dumps.new) (K.state out.old) (K.state out.new) result }
{
    run_report(dump, &Field { key }, dumps, out)
}
