// Reading a body in pieces whose lines are heard whole.
ghost use Rattle.std.specs.Prelude.{◌≡◌, ◌+◌, ◌-◌, ◌<◌, ◌≤◌, ◌^◌, length, take, drop, OnOk, IfOk, IfErr};
ghost use Rattle.std.specs.List.{between};
ghost use Rattle.dump_io.specs.Dumps.{size_of, IsOpen, ReadsAtMost, IfTold};
ghost use Rattle.dump_io.specs.Faults.{IsReadCauseOf};
ghost use Rattle.body_lines.specs.Lines.{HasNoLf, AreWhole, lines_at};
ghost use Rattle.body_lines.specs.Hearing.{Hears, HearsBody, StopsAmong};
ghost use Rattle.body_lines.specs.WholeLines.{EndsWhole};
ghost use Rattle.body_lines.specs.Inner.Pieces.{Takes, StopsWithin};

use crate::faults::WholeLinesFault;
use crate::heard_body::{PIECE, read_piece};
use crate::starts::line_start;
use crate::whole_sink::WholeLineSink;
use dump_io::{Dumps, ReadFault};
use std::alloc::AllocError;

// Makes room for one more byte at least behind those that are held in the buffer. A
// buffer that is full becomes twice as long, so that a line is copied few times.
fn make_room(buffer: &mut Vec<u8>, held: usize) -> Result<(), AllocError>
    requires { held ≤ length buffer.old.items }
    ensures room { OnOk result (held < length buffer.new.items) }
    ensures keeps { OnOk result (take held buffer.new.items ≡ take held buffer.old.items) }
{
    if held < buffer.len() {
        return Ok(());
    }
    buffer.resize(held.saturating_add(held.max(PIECE)), 0)?;
    Ok(())
}

// Reads a piece of the open file that ends at an offset, behind the bytes that are held in
// the buffer, and returns how many bytes the piece has. The buffer grows if it is full.
fn read_more<D: Dumps>(
    dumps: &mut D,
    at: u64,
    upto: u64,
    held: usize,
    buffer: &mut Vec<u8>,
) -> Result<usize, ReadFault>
    requires open { IsOpen (D.state dumps.old).now }
    requires within { upto ≤ size_of (D.state dumps.old).now }
    requires some { at < upto }
    requires held { held ≤ length buffer.old.items }
    ensures reads { ReadsAtMost (D.state dumps.old) (D.state dumps.new) (upto - at) }
    ensures taken { IfOk result (ReadsAtMost (D.state dumps.old) (D.state dumps.new)) }
    ensures fault { IfErr result (IsReadCauseOf (D.state dumps.old) (D.state dumps.new)) }
    ensures count { IfOk result (λ count.
        (0 < count) × (count ≤ upto - at) × (held + count ≤ length buffer.new.items)) }
    ensures piece_len { IfOk result (λ count. count ≤ 65536) }
    ensures keeps { OnOk result (take held buffer.new.items ≡ take held buffer.old.items) }
    ensures piece { IfOk result (λ count. IfTold (D.state dumps.old).now
        (λ dump. take count (drop held buffer.new.items) ≡ between at (at + count) dump)) }
{
    make_room(buffer, held)?;
    match read_piece(dumps, at, upto, held, buffer) {
        Ok(count) => Ok(count),
        Err(_) => Err(ReadFault::Read),
    }
}

// Where the last line begins, of bytes of which the first `held` have no LF and aren't searched again.
fn line_start_behind(bytes: &[u8], held: usize) -> usize
    requires within { held ≤ length bytes.now }
    requires free { HasNoLf (take held bytes.now) }
    ensures within { result ≤ length bytes.now }
    ensures whole { AreWhole (take result bytes.now) }
    ensures behind { HasNoLf (drop result bytes.now) }
{
    let start = line_start(&bytes[held..]);
    if start > 0 { held + start } else { 0 }
}

// Moves the bytes from a place on to the beginning.
fn move_front(bytes: &mut [u8], start: usize)
    requires { start ≤ length bytes.old }
    ensures { take (length bytes.old - start) bytes.new ≡ drop start bytes.old }
{
    bytes.copy_within(start.., 0);
}

// Hears the whole lines with which these bytes begin, the first of which begins at the offset `line`; the first `held`
// bytes have no LF. Moves the bytes behind these lines to the beginning, and returns the offset of their line.
fn hear_ended<R: WholeLineSink>(
    bytes: &mut [u8],
    held: usize,
    line: u64,
    sink: &mut R,
) -> Result<u64, R::Stop>
    requires ready { R.ready sink.old }
    requires within { held ≤ length bytes.old }
    requires free { HasNoLf (take held bytes.old) }
    requires fits { line + length bytes.old < 2 ^ 64 }
    ensures ready { OnOk result (R.ready sink.new) }
    ensures takes { IfOk result (λ next. let most = length bytes.old in
        Takes R.hears lines_at sink.old sink.new most line bytes.old next bytes.new) }
    ensures stops { IfErr result
        (StopsWithin R.hears R.stops lines_at sink.old sink.new line bytes.old) }
{
    let whole = line_start_behind(bytes, held);
    if whole == 0 {
        return Ok(line);
    }
    sink.lines(line, &bytes[..whole])?;
    move_front(bytes, whole);
    Ok(line + whole as u64)
}

// Hears the whole lines at the beginning of the buffer, among the bytes that are held and a piece behind them,
// and moves the bytes behind these lines to the beginning.
fn hear_held<R: WholeLineSink>(
    buffer: &mut [u8],
    held: usize,
    count: usize,
    line: u64,
    sink: &mut R,
) -> Result<u64, R::Stop>
    requires ready { R.ready sink.old }
    requires within { held + count ≤ length buffer.old }
    requires free { HasNoLf (take held buffer.old) }
    requires fits { line + (held + count) < 2 ^ 64 }
    ensures ready { OnOk result (R.ready sink.new) }
    ensures takes { IfOk result (λ next. let bytes = take (held + count) buffer.old in
        Takes R.hears lines_at sink.old sink.new (held + count) line bytes next buffer.new) }
    ensures stops { IfErr result (let bytes = take (held + count) buffer.old in
        StopsWithin R.hears R.stops lines_at sink.old sink.new line bytes) }
{
    hear_ended(&mut buffer[..held + count], held, line, sink)
}

// Hears the last line of a body, which has no LF; or it is empty.
fn hear_rest<R: WholeLineSink>(bytes: &[u8], line: u64, sink: &mut R) -> Result<(), R::Stop>
    requires ready { R.ready sink.old }
    requires fits { line + length bytes.now < 2 ^ 64 }
    ensures ready { OnOk result (R.ready sink.new) }
    ensures hears { OnOk result (Hears R.hears sink.old sink.new (lines_at line bytes.now)) }
    ensures stops { IfErr result
        (StopsAmong R.hears R.stops sink.old sink.new (lines_at line bytes.now)) }
{
    if bytes.is_empty() {
        return Ok(());
    }
    sink.lines(line, bytes)
}

/// Reads the bytes of the open file between two offsets, in pieces of at most 65,536 bytes, and lets a sink hear their
/// lines whole. The buffer may be empty at first; it grows to hold a piece, and then only for a longer line: to at most
/// twice that line and a piece. It serves the next body too.
///
/// On `Ok` the sink has heard exactly the lines of these bytes. `Stopped` has the answer with which the sink stopped, after
/// it heard the first of the lines; nothing more is read then. `Unread` comes with `Read` only if the device's count of
/// faults rose, and with `Memory` whenever the buffer has to grow; the sink has heard the first of the lines then, if any.
/// Whatever it returns, no more bytes are read than lie between the offsets.
pub fn hear_whole_lines<D: Dumps, R: WholeLineSink>(
    dumps: &mut D,
    from: u64,
    upto: u64,
    buffer: &mut Vec<u8>,
    sink: &mut R,
) -> Result<(), WholeLinesFault<R::Stop>>
    requires open { IsOpen (D.state dumps.old).now }
    requires within { upto ≤ size_of (D.state dumps.old).now }
    requires ordered { from ≤ upto }
    requires ready { R.ready sink.old }
    ensures reads { ReadsAtMost (D.state dumps.old) (D.state dumps.new) (upto - from) }
    ensures ready { OnOk result (R.ready sink.new) }
    ensures hears { OnOk result (let now = (D.state dumps.old).now in
        HearsBody R.hears lines_at sink.old sink.new from upto now) }
    ensures ends { IfErr result (let before = D.state dumps.old in let after = D.state dumps.new in
        EndsWhole R.hears R.stops sink.old sink.new from upto before after) }
{
    let mut at = from;
    let mut line = from;
    while at < upto {
        let held = (at - line) as usize;
        let count = match read_more(dumps, at, upto, held, buffer) {
            Ok(count) => count,
            Err(fault) => return Err(WholeLinesFault::Unread(fault)),
        };
        match hear_held(buffer, held, count, line, sink) {
            Ok(next) => line = next,
            Err(stop) => return Err(WholeLinesFault::Stopped(stop)),
        }
        at += count as u64;
    }
    match hear_rest(&buffer[..(upto - line) as usize], line, sink) {
        Ok(()) => Ok(()),
        Err(stop) => Err(WholeLinesFault::Stopped(stop)),
    }
}
