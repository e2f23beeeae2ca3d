// `info`: version, size, counts, slogan, tags and state of a dump.
ghost use Rattle.table_commands.specs.Inner.Loads.{seen_overview};
ghost use Rattle.table_commands.specs.Rows.{info_row};
ghost use Rattle.dump_questions.specs.Runs.{Runs};
ghost use Rattle.dump_questions.specs.Tasks.{question};

use dump_io::{Dumps, Sink};
use dump_questions::status::DONE;
use dump_questions::{Body, Opened, Report, Stop, Unopened, or_stop, read_found, run_report};
use dump_sections::Tags;
use report_text::put_info;

#[derive(Clone, Copy)]
pub(crate) struct Info;

impl Report for Info {
    type Loaded = Body;

    ghost means = { λ _. info_row };

    ghost seen = { λ _ index body. seen_overview index body };

    fn read<D: Dumps>(&self, at: &Opened<'_>, dumps: &mut D) -> Result<Body, Stop> {
        or_stop(read_found(at, dumps, Some(0)))
    }

    fn put<K: Sink>(&self, at: &Opened<'_>, body: &Body, out: &mut K) -> Result<u8, Stop> {
        let tags = Tags::count(at.alloc, at.index)?;
        put_info(out, at.index, &tags, body.bytes.as_slice())?;
        Ok(DONE)
    }
}

/// Runs `info`, and returns its status.
pub fn run_info<D: Dumps, K: Sink>(
    dump: &Unopened<'_>,
    dumps: &mut D,
    out: &mut K,
) -> Result<u8, Stop>
    ensures { Runs (question dump.now.file.now info_row) dump.now.limits.now
        (D.state dumps.old) (D.state dumps.new) (K.state out.old) (K.state out.new) result }
{
    run_report(dump, &Info, dumps, out)
}
