// `proc`: the fields of a process.
ghost use Rattle.dump_questions.specs.Bodies.{shown_body, HasPlaces};
ghost use Rattle.table_commands.specs.Rows.{proc_row};
ghost use Rattle.dump_questions.specs.Runs.{Runs};
ghost use Rattle.dump_questions.specs.Tasks.{question};

use dump_io::{Dumps, Sink};
use dump_questions::status::DONE;
use dump_questions::{
    Body, Opened, Report, Stop, Unopened, find_process, or_stop, read_found, run_report,
};
use report_text::put_fields;

#[derive(Clone, Copy)]
pub(crate) struct Proc<'a> {
    pub pid: &'a [u8],
}

impl Report for Proc<'_> {
    type Loaded = Body;

    ghost means = { λ c. proc_row c.pid.now };

    ghost seen = { λ _ _ body. shown_body body };

    ghost fits = { λ _ _ body. HasPlaces body };

    fn read<D: Dumps>(&self, at: &Opened<'_>, dumps: &mut D) -> Result<Body, Stop> {
        let place = find_process(at, self.pid)?;
        or_stop(read_found(at, dumps, Some(place)))
    }

    fn put<K: Sink>(&self, _at: &Opened<'_>, body: &Body, out: &mut K) -> Result<u8, Stop> {
        put_fields(out, body.bytes.as_slice(), body.base)?;
        Ok(DONE)
    }
}

/// Runs `proc`, and returns its status.
pub fn run_proc<D: Dumps, K: Sink>(
    dump: &Unopened<'_>,
    pid: &[u8],
    dumps: &mut D,
    out: &mut K,
) -> Result<u8, Stop>
    ensures { Runs (question dump.now.file.now (proc_row pid.now)) dump.now.limits.now
        (D.state dumps.old) (D.state dumps.new) (K.state out.old) (K.state out.new) result }
{
    run_report(dump, &Proc { pid }, dumps, out)
}
