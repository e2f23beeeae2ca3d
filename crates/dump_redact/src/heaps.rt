// Redacting the body of a heap in place.
ghost use Rattle.std.specs.Prelude.{◌≡◌, ◌+◌, ◌<◌, ◌≤◌, ◌++◌, false, length, take, drop, IfSome};
ghost use Rattle.std.specs.Option.{option_copied};
ghost use Rattle.dump_io.specs.Lines.{IsEnded};
ghost use Rattle.term_forms.specs.ReadingForms.{form_of};
ghost use Rattle.dump_redact.specs.Bodies.{redacted_body};
ghost use Rattle.dump_redact.specs.Redacted.{bin_chars, blanked_line};
ghost use Rattle.dump_redact.specs.Inner.Places.{payload_place, AreMarksFrom};

use crate::blanks::blank_all;
use crate::parts::Part;
use binary_payloads::is_payload;
use dump_io::{line_len, line_text};
use memchr::{memchr, memrchr};
use term_forms::{Enc, form_is_read, heap_line, number_is_read};

// How many bytes behind a letter count as near.
const NEAR: usize = 16;

// The characters of its payload, if the text spells a heap binary. The first
// two letters tell whether it may, so that no other form is read.
fn binary_chars(spelled: &[u8], enc: Enc) -> Option<&[u8]>
    ensures { option_copied result ≡ bin_chars (form_of enc spelled.now) }
{
    form_is_read(enc);
    number_is_read();
    let led = spelled.strip_prefix(b"Yh")?;
    let (size, chars) = heap_line(led)?;
    if is_payload(chars, enc, size) {
        Some(chars)
    } else {
        None
    }
}

// Where the payload begins in a line, if it is a heap line with one.
fn payload_at(raw: &[u8], enc: Enc) -> Option<usize>
    ensures place { result ≡ payload_place enc raw.now }
    ensures within { IfSome result (λ at. at ≤ length raw.now) }
{
    let text = line_text(raw);
    let (_, spelled) = heap_line(text)?;
    let chars = binary_chars(spelled, enc)?;
    Some(text.len().saturating_sub(chars.len()))
}

fn redact_line(raw: &mut [u8], enc: Enc)
    ensures { raw.new ≡ blanked_line enc Part.Heap raw.old }
{
    if let Some(at) = payload_at(raw, enc) {
        blank_all(&mut raw[at..], enc);
    }
}

// Where the last line begins, which may be empty.
fn last_line_at(bytes: &[u8]) -> usize
    ensures within { result ≤ length bytes.now }
    ensures ended { 0 < result → IsEnded (take result bytes.now) }
{
    match memrchr(b'\n', bytes) {
        Some(lf) => lf + 1,
        None => 0,
    }
}

// Where the first `Y` from a place on stands; if there is none, the length.
fn letter_from(bytes: &[u8], at: usize) -> usize
    requires { at ≤ length bytes.now }
    ensures within { result ≤ length bytes.now }
    ensures low { at ≤ result }
    ensures marks { AreMarksFrom at bytes.now → AreMarksFrom result bytes.now }
{
    match memchr(b'Y', &bytes[at..]) {
        Some(skipped) => at + skipped,
        None => bytes.len(),
    }
}

// Where the first `Y` from a place on stands; if there is none, the length. Where the letter may well
// be near, this takes less time than to begin a search: the first few bytes are looked at one by one.
fn near_letter_from(bytes: &[u8], at: usize) -> usize
    requires { at ≤ length bytes.now }
    ensures within { result ≤ length bytes.now }
    ensures low { at ≤ result }
    ensures marks { AreMarksFrom at bytes.now → AreMarksFrom result bytes.now }
{
    let far = at + (bytes.len() - at).min(NEAR);
    for place in at..far {
        if bytes[place] == b'Y' {
            return place;
        }
    }
    letter_from(bytes, far)
}

// Whether the `Y` at a place is that of a `:Yh`.
fn is_mark(bytes: &[u8], place: usize) -> bool
    requires { place < length bytes.now }
    ensures { result ≡ false → AreMarksFrom place bytes.now → AreMarksFrom (place + 1) bytes.now }
{
    place > 0 && bytes[place - 1..].starts_with(b":Yh")
}

// Where the `Y` of the first `:Yh` stands; if there is none, the length. Each other
// `Y` before it costs no more than the search for the next one.
fn mark_at(bytes: &[u8]) -> usize
    ensures within { result ≤ length bytes.now }
    ensures marks { AreMarksFrom result bytes.now }
{
    let mut place = near_letter_from(bytes, 0);
    while place < bytes.len() && !is_mark(bytes, place) {
        place = near_letter_from(bytes, place + 1);
    }
    place
}

// How many bytes the lines before the first one with a `:Yh` have. There is no payload
// in these: the form of a line with a payload begins with `Yh`, behind a colon.
fn plain_len(bytes: &[u8], enc: Enc) -> usize
    ensures within { result ≤ length bytes.now }
    ensures plain { redacted_body enc Part.Heap bytes.now
        ≡ take result bytes.now ++ redacted_body enc Part.Heap (drop result bytes.now) }
{
    number_is_read();
    form_is_read(enc);
    let place = mark_at(bytes);
    if place == bytes.len() {
        return place;
    }
    last_line_at(&bytes[..place])
}

// Makes the payloads of the heap binaries in the body of a heap zero.
pub(crate) fn redact_heap(body: &mut [u8], enc: Enc)
    ensures { body.new ≡ redacted_body enc Part.Heap body.old }
{
    let mut at = plain_len(body, enc);
    while at < body.len() {
        let len = line_len(&body[at..]);
        redact_line(&mut body[at..at + len], enc);
        at += len;
        at += plain_len(&body[at..], enc);
    }
}
