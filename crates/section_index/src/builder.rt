// Building the index of a dump in one pass over its bytes.
ghost use Rattle.std.specs.Prelude.{◌≡◌, ◌⊎◌, ◌-◌, ◌<◌, ◌≤◌, ℕ, List, length, take, min, false, None, OnOk, OnErr, IfOk, IfErr, IsErrOf};
ghost use Rattle.dump_io.specs.Dumps.{IfTold, IsOpen, size_of, IsAbsent, Gives, DeviceFailed, ReadsAtMost, Took};
ghost use Rattle.dump_sections.specs.Index.{IsBuiltOver};
ghost use Rattle.section_index.specs.Answers.{IsAnswerFor, IsFileOf, IsTooLargeFor, ReadsFile};
ghost use Rattle.section_index.specs.Inner.Reading.{IsNotTooLarge};
ghost use Rattle.section_index.specs.Inner.Reading.{HasBegun, IsHeaderRefusal};

use crate::beginning::judge_beginning;
use crate::opening::OpenFault;
use crate::receiver::{Bounds, Receiver};
use crate::scanning::{feed_piece, finish_scan};
use dump_io::{Dumps, Failed, Limits, read_full};
use dump_sections::Index;
use line_source::LineScan;
use std::alloc::{AllocError, Global};
use std::marker::Brand;

// The most bytes in a piece.
const PIECE: usize = 16_384;

// A buffer for a piece.
fn make_buffer(alloc: Global) -> Result<Vec<u8>, AllocError>
    ensures { IfOk result (λ buffer. length buffer.items ≡ PIECE) }
{
    vec![in alloc; 0u8; PIECE]
}

// Reads the bytes of the open file from an offset on into a buffer, up to the file's end, and returns how many.
fn read_piece<D: Dumps>(
    dumps: &mut D,
    at: u64,
    size: u64,
    buffer: &mut [u8],
) -> Result<usize, Failed>
    requires open { IsOpen (D.state dumps.old).now }
    requires size { size_of (D.state dumps.old).now ≡ size }
    requires inside { at ≤ size }
    ensures reads { ReadsAtMost (D.state dumps.old) (D.state dumps.new)
        (min (length buffer.old) (size - at)) }
    ensures failed { OnErr result (DeviceFailed (D.state dumps.old) (D.state dumps.new)) }
    ensures count { IfOk result (λ count. count ≡ min (length buffer.old) (size - at)) }
    ensures piece { IfOk result (λ count. Gives (D.state dumps.old).now at
        (take count buffer.new)) }
    ensures taken { IfOk result (Took (D.state dumps.old) (D.state dumps.new)) }
{
    let count = buffer.len().min((size - at) as usize);
    read_full(dumps, at, &mut buffer[..count])?;
    Ok(count)
}

// Feeds a scan with the bytes of the open file from an offset on, piece by piece.
fn feed_rest<B: Bounds, D: Dumps>(
    dumps: &mut D,
    from: u64,
    size: u64,
    buffer: &mut [u8],
    scan: &mut LineScan,
    receiver: &mut Receiver<B>,
) -> Result<(), OpenFault>
    requires open { IsOpen (D.state dumps.old).now }
    requires size { size_of (D.state dumps.old).now ≡ size }
    requires inside { from ≤ size }
    requires room { 0 < length buffer.old }
    requires fresh { scan.old.spent ≡ false }
    requires limit { scan.old.limit ≡ B.limits.header }
    requires offset { scan.old.offset ≡ from }
    requires silent { receiver.old.stop ≡ None }
    requires begun { HasBegun (D.state dumps.old).now scan.old receiver.old }
    ensures reads { ReadsAtMost (D.state dumps.old) (D.state dumps.new) (size - from) }
    ensures fresh { OnOk result (scan.new.spent ≡ false) }
    ensures limit { scan.new.limit ≡ scan.old.limit }
    ensures offset { OnOk result (scan.new.offset ≡ size) }
    ensures silent { OnOk result (receiver.new.stop ≡ None) }
    ensures begun { OnOk result (HasBegun (D.state dumps.old).now scan.new receiver.new) }
    ensures fault { IfErr result (λ fault. (fault ≡ OpenFault.Read)
        ⊎ IsHeaderRefusal B.limits (D.state dumps.old).now fault) }
    ensures read { IsErrOf result OpenFault.Read
        → DeviceFailed (D.state dumps.old) (D.state dumps.new) }
{
    let mut at = from;
    while at < size {
        let Ok(count) = read_piece(dumps, at, size, buffer) else {
            return Err(OpenFault::Read);
        };
        feed_piece(scan, receiver, &buffer[..count])?;
        at += count as u64;
    }
    Ok(())
}

// The index of the open file, or why it is refused.
fn index_of<B: Bounds, D: Dumps>(
    alloc: Global,
    dumps: &mut D,
    size: u64,
    limits: &Limits,
    buffer: &mut [u8],
) -> Result<Index, OpenFault>
    requires open { IsOpen (D.state dumps.old).now }
    requires size { size_of (D.state dumps.old).now ≡ size }
    requires small { size ≤ limits.now.dump }
    requires limits { limits.now ≡ B.limits }
    requires room { length buffer.old ≡ PIECE }
    ensures reads { ReadsAtMost (D.state dumps.old) (D.state dumps.new) size }
    ensures answer { IfTold (D.state dumps.old).now (λ bytes. IsAnswerFor bytes limits.now result) }
    ensures over { IfOk result (IsBuiltOver (D.state dumps.old).now) }
    ensures sized { IfOk result (λ index. index.size ≤ limits.now.dump) }
    ensures sections { IfOk result (λ index. length index.headers ≤ limits.now.sections) }
    ensures fault { IfErr result IsNotTooLarge }
    ensures read { IsErrOf result OpenFault.Read
        → DeviceFailed (D.state dumps.old) (D.state dumps.new) }
{
    let Ok(count) = read_piece(dumps, 0, size, buffer) else {
        return Err(OpenFault::Read);
    };
    let version = judge_beginning(alloc, &buffer[..count], limits)?;
    let mut scan = LineScan::new(limits.header());
    let mut receiver = Receiver::<B>::new(alloc, limits);
    feed_piece(&mut scan, &mut receiver, &buffer[..count])?;
    feed_rest(dumps, count as u64, size, buffer, &mut scan, &mut receiver)?;
    let headers = finish_scan(&mut scan, receiver)?;
    Ok(Index::new(headers, size, version))
}

/// Opens a dump by its name and finds its sections, reading it once, in pieces of at most 16,384
/// bytes. On `Ok` the file stays open, and the index has at most as many sections as `limits` allows.
///
/// The refusals are judged in this order, and each is returned exactly when its condition holds and none before
/// it does, unless `Read` or `Memory` is: `TooLarge` if the file has more bytes than the limit; `Compressed` if
/// it begins with `1F 8B`; `NotADump` if it doesn't begin with `=erl_crash_dump:`; `Version` if the first line
/// isn't too long for a header and its id is none of `0.3`, `0.4` and `0.5`; then the refusal of the first
/// header that is too long, that is one too many, or with whose text the header texts together are too large.
/// Returns `Read` only if the device's count of faults rose, or if the device tells its files and none has that
/// name; `Memory` may come from any allocation. Whatever it returns, the device gave at most as many bytes as
/// the file has.
pub fn build<D: Dumps>(
    alloc: Global,
    dumps: &mut D,
    name: &str,
    limits: &Limits,
) -> Result<Index, OpenFault>
    ensures device { ReadsFile (D.state dumps.old) (D.state dumps.new) name.now }
    ensures answer { (bytes : List ℕ)
        → IsFileOf (D.state dumps.old) (D.state dumps.new) name.now bytes
        → IsAnswerFor bytes limits.now result }
    ensures absent { IsAbsent (D.state dumps.old).files name.now → IsErrOf result OpenFault.Read }
    ensures over { IfOk result (IsBuiltOver (D.state dumps.new).now) }
    ensures sized { IfOk result (λ index. index.size ≤ limits.now.dump) }
    ensures sections { IfOk result (λ index. length index.headers ≤ limits.now.sections) }
    ensures too_large { IfErr result (IsTooLargeFor (D.state dumps.new).now limits.now) }
    ensures read { IsErrOf result OpenFault.Read
        → DeviceFailed (D.state dumps.old) (D.state dumps.new)
        ⊎ IsAbsent (D.state dumps.old).files name.now }
{
    let Ok(size) = dumps.open_dump(name) else {
        return Err(OpenFault::Read);
    };
    if size > limits.dump() {
        return Err(OpenFault::TooLarge { size });
    }
    let Ok(mut buffer) = make_buffer(alloc) else {
        return Err(OpenFault::Memory);
    };
    index_of::<Brand, D>(alloc, dumps, size, limits, &mut buffer)
}
