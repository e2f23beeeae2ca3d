// Reading the line that begins at a place of a body.
ghost use Rattle.std.specs.Prelude.{◌≡◌, ◌+◌, ◌-◌, ◌*◌, ◌<◌, ◌≤◌, ◌++◌, length, take, drop, OnOk, OnErr, IfErr};
ghost use Rattle.std.specs.List.{between};
ghost use Rattle.dump_io.specs.Dumps.{size_of, IsOpen, DeviceFailed, ReadsAtMost, IfTold};
ghost use Rattle.dump_io.specs.Faults.{IsReadCauseOf};
ghost use Rattle.dump_io.specs.Lines.{text_of};
ghost use Rattle.body_lines.specs.Lines.{AreWhole};
ghost use Rattle.heap_parts.specs.Inner.Pieces.{IsCutAt};
ghost use Rattle.heap_parts.specs.Places.{first_raw, ended_text};

use dump_io::{Dumps, Failed, ReadFault, line_text, read_full};
use memchr::memchr;

// The first piece of a line. At least CR and LF are appended for a line, whatever the device
// tells, so that 28 bytes that were read in vain stay within 16 times what is appended.
const FIRST_PIECE: usize = 28;

// The longest piece, so that never more than this is read in vain.
const LONGEST_PIECE: usize = 65_536;

// How many bytes of a piece are of its first line, if that ends in it.
fn cut(piece: &[u8]) -> Option<usize>
    ensures { IsCutAt piece.now result }
{
    match memchr(b'\n', piece) {
        Some(lf) => Some(lf + 1),
        None => None,
    }
}

// How many of the bytes from a place on are of their first line, if that ends in them.
fn cut_from(lines: &[u8], from: usize) -> Option<usize>
    requires { from ≤ length lines.now }
    ensures { IsCutAt (drop from lines.now) result }
{
    cut(&lines[from..])
}

// How many bytes the next piece of a line has of which `done` bytes were read: as many again, within the lengths
// above, but no more than are left of the body, nor than there is room for.
fn piece_len(done: usize, left: u64, room: usize) -> usize
    requires left { 0 < left }
    requires room { 0 < room }
    ensures some { 0 < result }
    ensures left { result ≤ left }
    ensures room { result ≤ room }
    ensures grown { result ≤ done + 28 }
{
    let most = if done < FIRST_PIECE {
        FIRST_PIECE
    } else {
        done.min(LONGEST_PIECE)
    };
    most.min(room).min(left as usize)
}

// Fills what stands from a place on with the bytes of the open file from an offset on.
fn fill_from<D: Dumps>(dumps: &mut D, at: u64, bytes: &mut [u8], from: usize) -> Result<(), Failed>
    requires open { IsOpen (D.state dumps.old).now }
    requires place { from ≤ length bytes.old }
    requires within { at + (length bytes.old - from) ≤ size_of (D.state dumps.old).now }
    ensures reads { ReadsAtMost (D.state dumps.old) (D.state dumps.new) (length bytes.old - from) }
    ensures failed { OnErr result (DeviceFailed (D.state dumps.old) (D.state dumps.new)) }
    ensures filled { OnOk result (IfTold (D.state dumps.old).now (λ dump.
        bytes.new ≡ take from bytes.old ++ between at (at + (length bytes.old - from)) dump)) }
{
    read_full(dumps, at, &mut bytes[from..])
}

// Appends this many bytes of the open file from an offset on.
fn push_piece<D: Dumps>(
    dumps: &mut D,
    at: u64,
    count: usize,
    limit: usize,
    lines: &mut Vec<u8>,
) -> Result<(), ReadFault>
    requires open { IsOpen (D.state dumps.old).now }
    requires within { at + count ≤ size_of (D.state dumps.old).now }
    requires few { length lines.old.items + count ≤ limit }
    ensures reads { ReadsAtMost (D.state dumps.old) (D.state dumps.new) count }
    ensures fault { IfErr result (IsReadCauseOf (D.state dumps.old) (D.state dumps.new)) }
    ensures longer { OnOk result (length lines.new.items ≡ length lines.old.items + count) }
    ensures pushed { OnOk result (IfTold (D.state dumps.old).now (λ dump.
        lines.new.items ≡ lines.old.items ++ between at (at + count) dump)) }
{
    let from = lines.len();
    lines.resize(from + count, 0)?;
    let Ok(()) = fill_from(dumps, at, lines, from) else {
        return Err(ReadFault::Read);
    };
    Ok(())
}

// Appends bytes. Returns `Memory` also if there would be more than the limit.
fn push_bytes(lines: &mut Vec<u8>, bytes: &[u8], limit: usize) -> Result<(), ReadFault>
    requires { length lines.old.items ≤ limit }
    ensures fault { IfErr result (λ fault. fault ≡ ReadFault.Memory) }
    ensures few { OnOk result (length lines.new.items ≤ limit) }
    ensures pushed { OnOk result (lines.new.items ≡ lines.old.items ++ bytes.now) }
{
    if bytes.len() > limit - lines.len() {
        return Err(ReadFault::Memory);
    }
    lines.extend_from_slice(bytes)?;
    Ok(())
}

// Appends the first line of the bytes of the open file between two offsets as it stands there. Returns
// `Memory` also if the limit is reached and neither the line nor the body has ended.
fn push_raw<D: Dumps>(
    dumps: &mut D,
    from: u64,
    upto: u64,
    limit: usize,
    lines: &mut Vec<u8>,
) -> Result<(), ReadFault>
    requires open { IsOpen (D.state dumps.old).now }
    requires within { upto ≤ size_of (D.state dumps.old).now }
    requires ordered { from ≤ upto }
    requires few { length lines.old.items ≤ limit }
    ensures reads { ReadsAtMost (D.state dumps.old) (D.state dumps.new)
        (limit - length lines.old.items) }
    ensures fault { IfErr result (IsReadCauseOf (D.state dumps.old) (D.state dumps.new)) }
    ensures spent { OnOk result (ReadsAtMost (D.state dumps.old) (D.state dumps.new)
        (2 * (length lines.new.items - length lines.old.items) + 28)) }
    ensures few { OnOk result (length lines.new.items ≤ limit) }
    ensures longer { OnOk result (length lines.old.items ≤ length lines.new.items) }
    ensures pushed { OnOk result (IfTold (D.state dumps.old).now (λ dump.
        lines.new.items ≡ lines.old.items ++ first_raw (between from upto dump))) }
{
    let start = lines.len();
    let mut at = from;
    while at < upto {
        let kept = lines.len();
        if kept == limit {
            return Err(ReadFault::Memory);
        }
        let count = piece_len(kept - start, upto - at, limit - kept);
        push_piece(dumps, at, count, limit, lines)?;
        if let Some(end) = cut_from(lines, kept) {
            lines.truncate(kept + end);
            return Ok(());
        }
        at += count as u64;
    }
    Ok(())
}

// How many bytes the text of the raw line has that begins at a place.
fn text_len(lines: &[u8], start: usize) -> usize
    requires { start ≤ length lines.now }
    ensures value { result ≡ length (text_of (drop start lines.now)) }
    ensures within { start + result ≤ length lines.now }
{
    line_text(&lines[start..]).len()
}

/// Appends the text of the first line of the bytes of the open file between two offsets, with CR and LF
/// behind it. Reads in pieces up to the one in which the line ends: 28 bytes first, then as much again
/// as was read of the line, but at most 65,536 bytes, and never more than the limit leaves.
///
/// Returns `Memory` if there would be more bytes than the limit, and from any allocation, and `Read` only
/// if the device's count of faults rose.
pub fn push_text<D: Dumps>(
    dumps: &mut D,
    from: u64,
    upto: u64,
    limit: usize,
    lines: &mut Vec<u8>,
) -> Result<(), ReadFault>
    requires open { IsOpen (D.state dumps.old).now }
    requires within { upto ≤ size_of (D.state dumps.old).now }
    requires ordered { from ≤ upto }
    requires few { length lines.old.items ≤ limit }
    ensures reads { ReadsAtMost (D.state dumps.old) (D.state dumps.new)
        (limit - length lines.old.items) }
    ensures fault { IfErr result (IsReadCauseOf (D.state dumps.old) (D.state dumps.new)) }
    ensures spent { OnOk result (ReadsAtMost (D.state dumps.old) (D.state dumps.new)
        (2 * (length lines.new.items - length lines.old.items) + 28)) }
    ensures few { OnOk result (length lines.new.items ≤ limit) }
    ensures longer { OnOk result (length lines.old.items + 2 ≤ length lines.new.items) }
    ensures whole { OnOk result (AreWhole lines.new.items) }
    ensures pushed { OnOk result (IfTold (D.state dumps.old).now (λ dump.
        lines.new.items ≡ lines.old.items ++ ended_text (text_of (first_raw (between from upto dump))))) }
{
    let start = lines.len();
    push_raw(dumps, from, upto, limit, lines)?;
    let len = text_len(lines, start);
    lines.truncate(start + len);
    push_bytes(lines, b"\r\n", limit)?;
    Ok(())
}
