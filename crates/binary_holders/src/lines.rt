// The lines of a heap's body that refer to binaries.
ghost use Rattle.std.specs.Prelude.{◌≡◌, ◌↔◌, [], ◌++◌, ◌<◌, length, IfSome, IfNone, IsTrue, codes};
ghost use Rattle.std.specs.Option.{option_to_list};
ghost use Rattle.memchr.specs.Find.{FindsNeedle, IsFirst, OccursAt};
ghost use Rattle.binary_holders.specs.Inner.Lines.{line_references, IsMarked, IsReferenceMark};

use crate::texts::{Reference, text_reference};
use body_lines::line_start;
use dump_io::{line_len, line_text};
use memchr::{memchr, memmem};
use term_forms::{Enc, form_is_read, number_is_read};

// What follows the address in the line of a binary, whether this is in the heap or outside, or a part of one.
const MARK: &[u8] = b":Y";

// Whether the rest of the mark stands before the `Y` at a place.
fn is_marked(bytes: &[u8], place: usize) -> bool
    requires { place < length bytes.now }
    ensures { IsTrue result → IsMarked bytes.now place }
{
    place > 0 && bytes[place - 1] == b':'
}

// Where the first mark stands. Few lines without it have its `Y`, so that letter is sought
// first; only if another line has it before is the mark sought by all its bytes.
fn find_mark(bytes: &[u8]) -> Option<usize>
    ensures { FindsNeedle bytes.now (codes ":Y") 0 result }
{
    let place = memchr(b'Y', bytes)?;
    if is_marked(bytes, place) {
        Some(place - 1)
    } else {
        memmem::find(bytes, MARK)
    }
}

// Whether the letter behind a mark is that of a reference. A binary in the heap has another.
fn is_reference(bytes: &[u8], at: usize) -> bool
    requires { OccursAt bytes.now (codes ":Y") at }
    ensures { IsTrue result ↔ IsReferenceMark bytes.now at }
{
    matches!(bytes.get(at + 2), Some(b'c' | b's'))
}

// Where the first mark of a reference stands. The marks of
// binaries in the heap are passed over, however many there are.
fn find_reference(bytes: &[u8]) -> Option<usize>
    ensures { IsFirst (IsReferenceMark bytes.now) 0 (length bytes.now) result }
{
    let mut from = 0;
    while from < bytes.len() {
        let at = from + find_mark(&bytes[from..])?;
        if is_reference(bytes, at) {
            return Some(at);
        }
        from = at + 2;
    }
    None
}

/// Looks for the first line with the mark of a reference, and returns its reference, if it
/// has one, and the bytes after it. No line before that one refers to a binary, and if there is
/// no such line, none does.
pub(crate) fn next_reference(bytes: &[u8], enc: Enc) -> Option<(Option<Reference>, &[u8])>
    ensures found { IfSome result (λ found.
        line_references enc bytes.now ≡ option_to_list found.0 ++ line_references enc found.1.now) }
    ensures shorter { IfSome result (λ found. length found.1.now < length bytes.now) }
    ensures none { IfNone result (line_references enc bytes.now ≡ []) }
{
    number_is_read();
    form_is_read(enc);
    let at = find_reference(bytes)?;
    let start = line_start(&bytes[..at]);
    let end = at + line_len(&bytes[at..]);
    let reference = text_reference(line_text(&bytes[start..end]), enc);
    Some((reference, &bytes[end..]))
}
