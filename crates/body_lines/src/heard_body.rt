// Reading a body in pieces.
ghost use Rattle.std.specs.Prelude.{◌≡◌, ◌+◌, ◌-◌, ◌<◌, ◌≤◌, length, take, drop, OnOk, IfOk, IfErr, OnErr};
ghost use Rattle.std.specs.List.{between};
ghost use Rattle.dump_io.specs.Dumps.{size_of, IsOpen, DeviceFailed, ReadsAtMost, IfTold};
ghost use Rattle.body_lines.specs.Hearing.{HearsBody, Ends};
ghost use Rattle.body_lines.specs.Lines.{cut_lines};

use crate::faults::LinesFault;
use crate::line_sink::LineSink;
use crate::pieces::{hear_last, hear_piece, kept_of};
use dump_io::{Dumps, Failed, read_full};
use std::alloc::{AllocError, Global};

// The most bytes in a piece.
pub(crate) const PIECE: usize = 65_536;

/// A buffer for pieces of at most 65,536 bytes, and for what a sink keeps of the line in which a piece ends.
pub fn make_buffer<R: LineSink>(alloc: Global) -> Result<Vec<u8>, AllocError>
    ensures { IfOk result (λ buffer. length buffer.items ≡ 65536 + R.kept) }
{
    vec![in alloc; 0u8; PIECE + R::kept() as usize]
}

// Reads a piece of the open file that ends at an offset, behind the bytes that
// are kept in the buffer, and returns how many bytes the piece has.
pub(crate) fn read_piece<D: Dumps>(
    dumps: &mut D,
    at: u64,
    upto: u64,
    kept: usize,
    buffer: &mut [u8],
) -> Result<usize, Failed>
    requires open { IsOpen (D.state dumps.old).now }
    requires within { upto ≤ size_of (D.state dumps.old).now }
    requires some { at < upto }
    requires room { kept < length buffer.old }
    ensures reads { ReadsAtMost (D.state dumps.old) (D.state dumps.new) (upto - at) }
    ensures taken { IfOk result (ReadsAtMost (D.state dumps.old) (D.state dumps.new)) }
    ensures failed { OnErr result (DeviceFailed (D.state dumps.old) (D.state dumps.new)) }
    ensures count { IfOk result (λ count.
        (0 < count) × (count ≤ upto - at) × (kept + count ≤ length buffer.old)) }
    ensures piece_len { IfOk result (λ count. count ≤ 65536) }
    ensures keeps { take kept buffer.new ≡ take kept buffer.old }
    ensures piece { IfOk result (λ count. IfTold (D.state dumps.old).now
        (λ dump. take count (drop kept buffer.new) ≡ between at (at + count) dump)) }
{
    let count = PIECE.min(buffer.len() - kept).min((upto - at) as usize);
    read_full(dumps, at, &mut buffer[kept..kept + count])?;
    Ok(count)
}

/// Reads the bytes of the open file between two offsets, in pieces of at most 65,536 bytes, and lets a sink hear their lines.
///
/// On `Ok` the sink has heard exactly the lines of these bytes, each cut to the bytes that it keeps. `Stopped` has the
/// answer with which the sink stopped, after it heard the first of the lines; nothing more is read then. `Read` comes
/// only if the device's count of faults rose, and the sink has heard the first of the lines then, if any. Whatever it
/// returns, no more bytes are read than lie between the offsets.
pub fn hear_body<D: Dumps, R: LineSink>(
    dumps: &mut D,
    from: u64,
    upto: u64,
    buffer: &mut [u8],
    sink: &mut R,
) -> Result<(), LinesFault<R::Stop>>
    requires open { IsOpen (D.state dumps.old).now }
    requires within { upto ≤ size_of (D.state dumps.old).now }
    requires ordered { from ≤ upto }
    requires room { R.kept < length buffer.old }
    requires ready { R.ready sink.old }
    ensures reads { ReadsAtMost (D.state dumps.old) (D.state dumps.new) (upto - from) }
    ensures ready { OnOk result (R.ready sink.new) }
    ensures hears { OnOk result (let now = (D.state dumps.old).now in
        HearsBody R.hears (cut_lines R.kept) sink.old sink.new from upto now) }
    ensures ends { IfErr result (let before = D.state dumps.old in let after = D.state dumps.new in
        Ends R.hears R.stops (cut_lines R.kept) sink.old sink.new from upto before after) }
{
    let mut at = from;
    let mut line = from;
    while at < upto {
        let kept = kept_of::<R>(at - line);
        let Ok(count) = read_piece(dumps, at, upto, kept, buffer) else {
            return Err(LinesFault::Read);
        };
        match hear_piece(&mut buffer[..kept + count], line, at, sink) {
            Ok(next) => line = next,
            Err(stop) => return Err(LinesFault::Stopped(stop)),
        }
        at += count as u64;
    }
    match hear_last(buffer, line, upto, sink) {
        Ok(()) => Ok(()),
        Err(stop) => Err(LinesFault::Stopped(stop)),
    }
}
