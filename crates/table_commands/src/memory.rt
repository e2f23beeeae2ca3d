// `memory`: the fields of the first section on memory.
ghost use Rattle.dump_questions.specs.Bodies.{shown_body, HasPlaces};
ghost use Rattle.table_commands.specs.Rows.{memory_row};
ghost use Rattle.dump_questions.specs.Runs.{Runs};
ghost use Rattle.dump_questions.specs.Tasks.{question};

use dump_io::{Dumps, Sink};
use dump_questions::status::DONE;
use dump_questions::{Body, Opened, Report, Stop, Unopened, or_stop, read_found, run_report};
use report_text::put_fields;

#[derive(Clone, Copy)]
pub(crate) struct Memory;

impl Report for Memory {
    type Loaded = Body;

    ghost means = { λ _. memory_row };

    ghost seen = { λ _ _ body. shown_body body };

    ghost fits = { λ _ _ body. HasPlaces body };

    fn read<D: Dumps>(&self, at: &Opened<'_>, dumps: &mut D) -> Result<Body, Stop> {
        let place = at.index.first_tag(b"memory");
        or_stop(read_found(at, dumps, place))
    }

    fn put<K: Sink>(&self, _at: &Opened<'_>, body: &Body, out: &mut K) -> Result<u8, Stop> {
        put_fields(out, body.bytes.as_slice(), body.base)?;
        Ok(DONE)
    }
}

/// Runs `memory`, and returns its status.
pub fn run_memory<D: Dumps, K: Sink>(
    dump: &Unopened<'_>,
    dumps: &mut D,
    out: &mut K,
) -> Result<u8, Stop>
    ensures { Runs (question dump.now.file.now memory_row) dump.now.limits.now
        (D.state dumps.old) (D.state dumps.new) (K.state out.old) (K.state out.new) result }
{
    run_report(dump, &Memory, dumps, out)
}
