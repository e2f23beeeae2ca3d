// The line on the state of a dump.
ghost use Rattle.std.specs.Prelude.{◌<◌};
ghost use Rattle.dump_io.specs.Sinks.{Puts};
ghost use Rattle.dump_sections.specs.Index.{sections_in, dump_state};
ghost use Rattle.report_lines.specs.States.{state_line};

use crate::count_lines::put_line;
use dump_io::{Failed, Piece, Sink, write_all};
use dump_sections::{Index, State};

/// Writes the state line: that the dump is whole, or in which section it is truncated.
///
/// Returns `Failed` only if the sink failed; a proper prefix of the line was written then.
pub fn put_state<K: Sink>(sink: &mut K, index: &Index) -> Result<(), Failed>
    ensures { Puts (K.state sink.old) (K.state sink.new)
        (state_line (sections_in index.now) (dump_state index.now.headers)) result }
{
    match index.state() {
        State::Whole => write_all(sink, b"whole\n"),
        State::TruncatedIn(last) => {
            let s = index.extent(last);
            put_line(
                sink,
                b" ",
                &[
                    Piece::Bytes(b"truncated"),
                    Piece::Dec(s.at),
                    Piece::Bytes(s.text),
                ],
            )
        }
    }
}
