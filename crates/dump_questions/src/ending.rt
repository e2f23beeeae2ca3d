// How the run of a command ends.
ghost use Rattle.std.specs.Prelude.{◌≡◌, MatchResult, IfErr};
ghost use Rattle.dump_questions.specs.Run.{EndsTold, usage_line};
ghost use Rattle.dump_questions.specs.Stops.{EndsAs, IsProper};

use crate::status::{NO_MEMORY, REFUSED, UNREAD, UNWRITTEN, USAGE};
use crate::stop::Stop;
use dump_io::{Failed, Sink, write_all};
use report_text::put_refusal;

// Returns the status of a run after its line was written: the given one, or that of a failed write.
fn status_of(written: Result<(), Failed>, status: u8) -> u8
    ensures { MatchResult written (λ _. result ≡ status) (λ _. result ≡ 5) }
{
    match written {
        Ok(()) => status,
        Err(_) => UNWRITTEN,
    }
}

/// Writes the usage line, and returns the status of a run whose words are no command.
pub fn put_usage<E: Sink>(err: &mut E) -> u8
    ensures { EndsTold 1 usage_line result (E.state err.old) (E.state err.new) }
{
    status_of(write_all(err, b"usage: edump COMMAND [WORDS]\n"), USAGE)
}

/// Ends the run of a command: writes the line of its refusal, if it is refused, and returns its status.
pub fn end<E: Sink>(ended: Result<u8, Stop>, err: &mut E) -> u8
    requires { IfErr ended IsProper }
    ensures { EndsAs ended result (E.state err.old) (E.state err.new) }
{
    match ended {
        Ok(status) => status,
        Err(Stop::Refused(why)) => status_of(put_refusal(err, &why), REFUSED),
        Err(Stop::NotRead) => UNREAD,
        Err(Stop::NotWritten) => UNWRITTEN,
        Err(Stop::NoMemory) => NO_MEMORY,
    }
}
