// Redacting and writing the bodies with payloads.
ghost use Rattle.std.specs.Prelude.{◌≡◌, ℕ, ◌+◌, ◌-◌, ◌<◌, ◌≤◌, ◌++◌, List, length, take, drop, IfSome};
ghost use Rattle.dump_redact.specs.Bodies.{redacted_body};
ghost use Rattle.dump_redact.specs.Inner.Copying.{copied, HasUpto, Copies};
ghost use Rattle.dump_redact.specs.Inner.Places.{IsLeadOf, Begins, HasLead, binary_text};

use crate::blanks::{Stretch, rewrite};
use crate::copying::{copy, put_bytes, read_piece};
use crate::faults::RedactFault;
use crate::heaps::redact_heap;
use crate::parts::Part;
use dump_io::{Dumps, Sink};
use term_forms::{Enc, heap_line, number_is_in_front, number_is_read};

// Where the payload of a binary begins: after a hex number of 1 to 16 digits and its colon.
// The first 17 bytes of the body tell this, or all of them if it has fewer.
fn lead_len(front: &[u8]) -> Option<usize>
    ensures within { IfSome result (λ place. place ≤ length front.now) }
    ensures lead { (body : List ℕ) → front.now ≡ take 17 body → IsLeadOf body result }
{
    number_is_read();
    number_is_in_front();
    let (_, chars) = heap_line(front)?;
    Some(front.len() - chars.len())
}

// Redacts the first piece of a binary's body, and returns how to copy what
// follows it. A piece of 17 bytes or more holds the whole number and its colon.
fn redact_lead(piece: &mut [u8], enc: Enc) -> Stretch
    ensures { (body : List ℕ) → Begins piece.old body → HasLead piece.old body
        → piece.new ++ copied result (drop (length piece.old) body)
        ≡ redacted_body enc Part.Binary body }
{
    number_is_read();
    let front = piece.len().min(17);
    match lead_len(&piece[..front]) {
        Some(place) => rewrite(&mut piece[place..], Stretch::Payload(enc)),
        None => Stretch::Plain,
    }
}

// Makes the payloads in a body zero; its header says which part of a dump it is.
pub(crate) fn redact_body(body: &mut [u8], part: Part, enc: Enc)
    ensures { body.new ≡ redacted_body enc part body.old }
{
    match part {
        Part::Heap => redact_heap(body, enc),
        Part::Binary => {
            redact_lead(body, enc);
        }
        Part::Other => {}
    }
}

// Copies the bytes from an offset up to the body of a binary as they are, and then the body with its payload
// made zero. The first piece reaches far enough into the body to hold its number and colon.
pub(crate) fn put_binary<D: Dumps, K: Sink>(
    dumps: &mut D,
    from: u64,
    body: u64,
    upto: u64,
    enc: Enc,
    buffer: &mut [u8],
    sink: &mut K,
) -> Result<(), RedactFault>
    requires held { HasUpto (D.state dumps.old).now upto }
    requires ordered { from ≤ body }
    requires some { body < upto }
    requires near { body - from + 17 ≤ length buffer.old }
    ensures { Copies (D.state dumps.old) (D.state dumps.new)
        (K.state sink.old) (K.state sink.new) (upto - from)
        (λ dump. binary_text enc from body upto dump) result }
{
    let count = read_piece(dumps, from, upto, buffer)?;
    let lead = (body - from) as usize;
    let stretch = redact_lead(&mut buffer[lead..count], enc);
    put_bytes(sink, &buffer[..count])?;
    copy(dumps, from + count as u64, upto, stretch, buffer, sink)
}
