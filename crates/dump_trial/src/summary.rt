// What a trial reports on a dump, and its text.
ghost use Rattle.dump_io.specs.Sinks.{Puts};
ghost use Rattle.dump_trial.specs.Tallies.{trial_report};

use crate::tally::Tally;
use dump_io::{Failed, Piece, Sink, put_pieces};

/// What a trial reports on a dump.
#[derive(Clone, Copy)]
pub struct Summary {
    /// The number of sections.
    pub sections: u64,
    /// The number of processes.
    pub processes: u64,
    /// The roots of all processes.
    pub tally: Tally,
    /// The number of findings.
    pub findings: u64,
}

/// Writes `sections N`, `processes N`, `roots N`, `bad N` and `findings N`, a line each.
pub fn put_trial<K: Sink>(sink: &mut K, summary: &Summary) -> Result<(), Failed>
    ensures { Puts (K.state sink.old) (K.state sink.new) (trial_report summary.now) result }
{
    put_pieces(
        sink,
        &[
            Piece::Bytes(b"sections "),
            Piece::Dec(summary.sections),
            Piece::Bytes(b"\nprocesses "),
            Piece::Dec(summary.processes),
            Piece::Bytes(b"\nroots "),
            Piece::Dec(summary.tally.roots),
            Piece::Bytes(b"\nbad "),
            Piece::Dec(summary.tally.bad),
            Piece::Bytes(b"\nfindings "),
            Piece::Dec(summary.findings),
            Piece::Bytes(b"\n"),
        ],
    )
}
