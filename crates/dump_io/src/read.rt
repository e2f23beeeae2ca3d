// Reads that fill a buffer.
ghost use Rattle.std.specs.Prelude.{◌+◌, ◌≤◌, length, OnOk, OnErr};
ghost use Rattle.dump_io.specs.Dumps.{size_of, IsOpen, Gives, DeviceFailed, Took, ReadsAtMost};

use crate::dumps::{Dumps, Failed};

/// Fills `into` with the open file's bytes from the offset `at` on, in as many reads as the device needs.
///
/// Returns `Failed` only if the device's count of faults rose; some bytes may have been taken then.
pub fn read_full<D: Dumps>(dumps: &mut D, at: u64, into: &mut [u8]) -> Result<(), Failed>
    requires open { IsOpen (D.state dumps.old).now }
    requires inside { at + length into.old ≤ size_of (D.state dumps.old).now }
    ensures reads { ReadsAtMost (D.state dumps.old) (D.state dumps.new) (length into.old) }
    ensures failed { OnErr result (DeviceFailed (D.state dumps.old) (D.state dumps.new)) }
    ensures filled { OnOk result (Gives (D.state dumps.old).now at into.new) }
    ensures taken { OnOk result (Took (D.state dumps.old) (D.state dumps.new) (length into.old)) }
{
    let mut done = 0;
    while done < into.len() {
        done += dumps.read_at(at + done as u64, &mut into[done..])?;
    }
    Ok(())
}
