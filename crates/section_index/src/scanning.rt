// The headers of a dump that comes in pieces, and their refusals.
ghost use Rattle.std.specs.Prelude.{◌≡◌, ◌+◌, ◌<◌, ◌≤◌, ◌^◌, ◌++◌, ℕ, List, false, None, length, OnOk, IfOk, IfErr};
ghost use Rattle.dump_io.specs.Lines.{headers};
ghost use Rattle.section_index.specs.Opening.{header_fault};
ghost use Rattle.section_index.specs.Inner.Scanning.{HasHeard, IsHeaderFault, IsOfAHeader};

use crate::opening::OpenFault;
use crate::receiver::{Bounds, Receiver};
use dump_sections::Headers;
use line_source::{LineScan, streams_grow};

// Takes the next piece of a dump. A refusal is that of the whole dump, whatever follows.
pub(crate) fn feed_piece<B: Bounds>(
    scan: &mut LineScan,
    receiver: &mut Receiver<B>,
    piece: &[u8],
) -> Result<(), OpenFault>
    requires fresh { scan.old.spent ≡ false }
    requires limit { scan.old.limit ≡ B.limits.header }
    requires fits { scan.old.offset + length piece.now < 2 ^ 64 }
    requires open { receiver.old.stop ≡ None }
    ensures limit { scan.new.limit ≡ scan.old.limit }
    ensures fresh { OnOk result (scan.new.spent ≡ false) }
    ensures offset { OnOk result (scan.new.offset ≡ scan.old.offset + length piece.now) }
    ensures open { OnOk result (receiver.new.stop ≡ None) }
    ensures heard { OnOk result ((bytes : List ℕ) → HasHeard scan.old receiver.old bytes
        → HasHeard scan.new receiver.new (bytes ++ piece.now)) }
    ensures fault { IfErr result IsOfAHeader }
    ensures refused { IfErr result (λ fault. (bytes more : List ℕ)
        → HasHeard scan.old receiver.old bytes
        → IsHeaderFault B.limits ((bytes ++ piece.now) ++ more) fault) }
{
    streams_grow();
    let result = scan.feed(piece, receiver);
    receiver.keeps_to_its_limits();
    result?;
    Ok(())
}

// The headers of a dump that has ended.
pub(crate) fn finish_scan<B: Bounds>(
    scan: &mut LineScan,
    mut receiver: Receiver<B>,
) -> Result<Headers, OpenFault>
    requires fresh { scan.old.spent ≡ false }
    requires limit { scan.old.limit ≡ B.limits.header }
    requires open { receiver.stop ≡ None }
    ensures heard { IfOk result (λ heard. (bytes : List ℕ) → HasHeard scan.old receiver bytes
        → (heard ≡ headers bytes) × (header_fault bytes B.limits ≡ None)) }
    ensures sections { IfOk result (λ heard. length heard ≤ B.limits.sections) }
    ensures fault { IfErr result IsOfAHeader }
    ensures refused { IfErr result (λ fault. (bytes : List ℕ) → HasHeard scan.old receiver bytes
        → IsHeaderFault B.limits bytes fault) }
{
    streams_grow();
    let result = scan.finish(&mut receiver);
    receiver.keeps_to_its_limits();
    result?;
    Ok(receiver.into_headers())
}
