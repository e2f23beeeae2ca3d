// `redact`: the dump with its binary payloads made zero. It is written while the dump is read.
ghost use Rattle.std.specs.Prelude.{◌≡◌};
ghost use Rattle.dump_questions.specs.Runs.{Runs};
ghost use Rattle.dump_questions.specs.Tasks.{question};
ghost use Rattle.stream_commands.specs.Rows.{redact_row};
ghost use Rattle.stream_commands.specs.Inner.Stops.{redact_end};

use dump_io::{Dumps, Sink};
use dump_questions::status::DONE;
use dump_questions::{Stop, Unopened, open_dump};
use dump_redact::{RedactFault, redact};
use report_text::Refusal;

// Returns how the run ends.
fn ended(written: Result<(), RedactFault>) -> Result<u8, Stop>
    ensures { result ≡ redact_end written }
{
    match written {
        Ok(()) => Ok(DONE),
        Err(RedactFault::SectionTooLarge { at, len }) => {
            Err(Stop::Refused(Refusal::SectionTooLarge { at, len }))
        }
        Err(RedactFault::Read) => Err(Stop::NotRead),
        Err(RedactFault::Write) => Err(Stop::NotWritten),
        Err(RedactFault::Memory) => Err(Stop::NoMemory),
    }
}

/// Runs `redact`, and returns its status.
pub fn run_redact<D: Dumps, K: Sink>(
    dump: &Unopened<'_>,
    dumps: &mut D,
    out: &mut K,
) -> Result<u8, Stop>
    ensures { Runs (question dump.now.file.now redact_row) dump.now.limits.now
        (D.state dumps.old) (D.state dumps.new) (K.state out.old) (K.state out.new) result }
{
    let index = open_dump(dump, dumps)?;
    ended(redact(dump.alloc, dumps, &index, dump.limits, out))
}
