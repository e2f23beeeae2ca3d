// What takes the bytes of a report.
ghost use Rattle.std.specs.Prelude.{◌≡◌, ◌<◌, length};
ghost use Rattle.dump_io.specs.Sinks.{SinkState, Puts, TakesSome};

use crate::dumps::Failed;

/// Takes bytes, one piece after another.
pub trait Sink {
    /// The state of the sink: what was written, where it tells that, and how often it has failed. The count stays at
    /// 2^64 - 1 once it has reached it.
    ghost state: { Self → SinkState };

    /// Takes the first bytes of a piece, at least one, and returns how many.
    ///
    /// `Failed` comes only where the count of faults rose, and nothing was taken then.
    fn write(&mut self, piece: &[u8]) -> Result<usize, Failed>
        requires { 0 < length piece.now }
        ensures { TakesSome (state self.old) (state self.new) piece.now result };
}

/// Writes all the bytes, in as many writes as the sink needs.
///
/// Returns `Failed` only if the sink's count of faults rose; a proper prefix of
/// the bytes was written then. If there are no bytes, the sink isn't called.
pub fn write_all<K: Sink>(sink: &mut K, bytes: &[u8]) -> Result<(), Failed>
    ensures puts { Puts (K.state sink.old) (K.state sink.new) bytes.now result }
    ensures no_call { length bytes.now ≡ 0 → sink.new ≡ sink.old }
{
    let mut done = 0;
    while done < bytes.len() {
        done += sink.write(&bytes[done..])?;
    }
    Ok(())
}
