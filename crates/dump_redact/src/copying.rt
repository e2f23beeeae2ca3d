// Copying bytes from the device to the sink, piece by piece.
ghost use Rattle.std.specs.Prelude.{◌≡◌, ◌-◌, ◌<◌, ◌≤◌, length, take, IfOk, IfErr, OnOk};
ghost use Rattle.std.specs.List.{between};
ghost use Rattle.dump_io.specs.Dumps.{Gives, ReadsAtMost, IfTold};
ghost use Rattle.dump_io.specs.Sinks.{Puts};
ghost use Rattle.dump_redact.specs.Inner.Copying.{copied, stretch_behind, HasUpto, Copies, piece_size, first_piece, IsReadFault};

use crate::blanks::{Stretch, rewrite};
use crate::faults::RedactFault;
use dump_io::{Dumps, Sink, read_full, write_all};
use std::alloc::{AllocError, Global};

// The most bytes in a piece.
const PIECE: usize = 65_536;

// A buffer for a piece of at most 65,536 bytes.
pub(crate) fn make_buffer(alloc: Global) -> Result<Vec<u8>, AllocError>
    ensures { IfOk result (λ buffer. length buffer.items ≡ 65536) }
{
    vec![in alloc; 0u8; PIECE]
}

// Makes sure that a buffer has room for this many bytes. One that is too
// small is freed first, so that two of them are never held at once.
pub(crate) fn make_room(alloc: Global, buffer: &mut Vec<u8>, len: usize) -> Result<(), RedactFault>
    ensures room { OnOk result (len ≤ length buffer.new.items) }
    ensures fault { IfErr result (λ fault. fault ≡ RedactFault.Memory) }
{
    if buffer.len() < len {
        *buffer = Vec::new(alloc);
        let Ok(larger) = vec![in alloc; 0u8; len] else {
            return Err(RedactFault::Memory);
        };
        *buffer = larger;
    }
    Ok(())
}

// Reads the bytes of the open file between two offsets, or as
// many of them as fit into the buffer, and returns how many.
pub(crate) fn read_piece<D: Dumps>(
    dumps: &mut D,
    from: u64,
    upto: u64,
    buffer: &mut [u8],
) -> Result<usize, RedactFault>
    requires held { HasUpto (D.state dumps.old).now upto }
    requires ordered { from ≤ upto }
    ensures reads { ReadsAtMost (D.state dumps.old) (D.state dumps.new)
        (piece_size buffer.old from upto) }
    ensures count { IfOk result (λ count. count ≡ piece_size buffer.old from upto) }
    ensures piece { IfOk result (λ count.
        Gives (D.state dumps.old).now from (take count buffer.new)) }
    ensures fault { IfErr result (IsReadFault (D.state dumps.old) (D.state dumps.new)) }
{
    let count = buffer.len().min((upto - from) as usize);
    if read_full(dumps, from, &mut buffer[..count]).is_err() {
        return Err(RedactFault::Read);
    }
    Ok(count)
}

// Writes all the bytes.
pub(crate) fn put_bytes<K: Sink>(sink: &mut K, bytes: &[u8]) -> Result<(), RedactFault>
    ensures puts { Puts (K.state sink.old) (K.state sink.new) bytes.now result }
    ensures fault { IfErr result (λ fault. fault ≡ RedactFault.Write) }
{
    if write_all(sink, bytes).is_err() {
        return Err(RedactFault::Write);
    }
    Ok(())
}

// Copies the first piece of the bytes between two offsets, and returns how many bytes it has.
fn copy_piece<D: Dumps, K: Sink>(
    dumps: &mut D,
    from: u64,
    upto: u64,
    stretch: &mut Stretch,
    buffer: &mut [u8],
    sink: &mut K,
) -> Result<u64, RedactFault>
    requires held { HasUpto (D.state dumps.old).now upto }
    requires some { from < upto }
    requires room { 0 < length buffer.old }
    ensures copies { Copies (D.state dumps.old) (D.state dumps.new)
        (K.state sink.old) (K.state sink.new) (piece_size buffer.old from upto)
        (λ dump. copied stretch.old (first_piece buffer.old from upto dump)) result }
    ensures count { IfOk result (λ count. count ≡ piece_size buffer.old from upto) }
    ensures behind { OnOk result (IfTold (D.state dumps.old).now (λ dump.
        stretch.new ≡ stretch_behind stretch.old (first_piece buffer.old from upto dump))) }
{
    let count = read_piece(dumps, from, upto, buffer)?;
    let piece = &mut buffer[..count];
    let next = rewrite(piece, *stretch);
    put_bytes(sink, piece)?;
    *stretch = next;
    Ok(count as u64)
}

// Copies the bytes between two offsets.
pub(crate) fn copy<D: Dumps, K: Sink>(
    dumps: &mut D,
    from: u64,
    upto: u64,
    stretch: Stretch,
    buffer: &mut [u8],
    sink: &mut K,
) -> Result<(), RedactFault>
    requires held { HasUpto (D.state dumps.old).now upto }
    requires ordered { from ≤ upto }
    requires room { 0 < length buffer.old }
    ensures { Copies (D.state dumps.old) (D.state dumps.new)
        (K.state sink.old) (K.state sink.new) (upto - from)
        (λ dump. copied stretch (between from upto dump)) result }
{
    let mut at = from;
    let mut stretch = stretch;
    while at < upto {
        at += copy_piece(dumps, at, upto, &mut stretch, buffer, sink)?;
    }
    Ok(())
}
