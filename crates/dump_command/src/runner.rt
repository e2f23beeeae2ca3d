// Running the words of a command line.
ghost use Rattle.std.specs.Prelude.{◌≡◌, ◌⊎◌, ℕ, List, map, None, Some};
ghost use Rattle.std.specs.Option.{option_and_then};
ghost use Rattle.std.specs.String.{string_bytes};
ghost use Rattle.dump_io.specs.Dumps.{DeviceFailed};
ghost use Rattle.dump_io.specs.Sinks.{SinkFailed};
ghost use Rattle.command_words.specs.Command.{Command, command, file_name};
ghost use Rattle.dump_questions.specs.Run.{IsDumpOf, IsRunOf, IsUsage};
ghost use Rattle.dump_command.specs.Report.{refusal, report_status, task};

use crate::commands::run_command;
use command_words::read_words;
use dump_io::{Dumps, Limits, Sink};
use dump_questions::{end, put_usage};
use std::alloc::Global;

/// Runs the command that the words after the program's name are, and returns its status.
///
/// | Status | Returned |
/// |---|---|
/// | 0 | the whole report is in `out`, and isn't that of an audit with a finding |
/// | 1 | exactly when the words are no command, unless `err` failed; the usage line is in `err` |
/// | 2 | exactly when the command is refused, unless 4, 5 or 6; the line that says why is in `err` |
/// | 3 | exactly when an audit has a finding, and its whole report is in `out` |
/// | 4 | only if the count of faults of `dumps` rose, or if `dumps` tells its files and none has that name |
/// | 5 | only if the count of faults of `out` or of `err` rose |
/// | 6 | a lack of memory, which any allocation may cause |
///
/// On 1, 2, 4 and 6 `out` is untouched, except that `redact`, which writes while it reads, may leave
/// a proper prefix of its report there on 4 and 6. On 5 the sink that failed holds a proper prefix
/// of its text, the report or the line, and the other is untouched. The bytes of the dump are those
/// of the file with the command's name, if `dumps` tells its files, or those that are open at the
/// end, if it tells only these. If they are told, nothing of the command on them is refused and
/// nothing failed, the status is 3 for an audit with a finding and otherwise 0, or it is 6.
///
/// The files of `dumps` stay the same, and its count of faults doesn't fall. If it tells its
/// files and none has that name, nothing is taken from it, and no file is open at the end.
///
/// A command that opens no file, such as `make`, reports on no
/// bytes and leaves `dumps` as it is; it ends with 0, 5 or 6.
pub fn run<D: Dumps, K: Sink, E: Sink>(
    alloc: Global,
    words: &[String],
    limits: &Limits,
    dumps: &mut D,
    out: &mut K,
    err: &mut E,
) -> u8
    // What is left if the words are no command.
    ensures usage { command (map string_bytes words.now) ≡ None
        → IsUsage result (K.state out.old) (K.state out.new) (E.state err.old) (E.state err.new) }

    // If they are none, or one that opens no file, the device plays no part.
    ensures idle { option_and_then file_name (command (map string_bytes words.now)) ≡ None → dumps.new ≡ dumps.old }

    // What is left if they are one.
    ensures ends { (cmd : Command) → command (map string_bytes words.now) ≡ Some cmd → IsRunOf (task cmd) limits.now result
        (D.state dumps.old) (D.state dumps.new) (K.state out.old) (K.state out.new) (E.state err.old) (E.state err.new) }

    // If nothing is refused and nothing failed, the whole report was written, or memory was lacking.
    ensures complete { (cmd : Command) (bytes : List ℕ) → command (map string_bytes words.now) ≡ Some cmd
        → IsDumpOf (D.state dumps.old) (D.state dumps.new) (task cmd) bytes → refusal cmd bytes limits.now ≡ None
        → ¬ DeviceFailed (D.state dumps.old) (D.state dumps.new)
        → ¬ SinkFailed (K.state out.old) (K.state out.new) → ¬ SinkFailed (E.state err.old) (E.state err.new)
        → (result ≡ report_status cmd bytes) ⊎ (result ≡ 6) }
{
    match read_words(words) {
        None => put_usage(err),
        Some(cmd) => {
            let ended = run_command(alloc, cmd, limits, dumps, out);
            end(ended, err)
        }
    }
}
