// Redacting spans of sections in place.
ghost use Rattle.std.specs.Prelude.{◌≡◌, ◌+◌, ◌<◌, ◌≤◌, ◌⊎◌, length};
ghost use Rattle.dump_sections.specs.Bodies.{section_at};
ghost use Rattle.dump_sections.specs.Index.{AreBounded};
ghost use Rattle.dump_redact.specs.Inner.Places.{offset_of, length_between, redacted_at, RedactsPiece};

use crate::bodies::redact_body;
use crate::parts::part_of;
use dump_sections::Index;
use heap_cells::enc_of;

// The offset at which the section at a place begins; past the last one, the size of the dump.
pub(crate) fn offset(index: &Index, i: usize) -> u64
    requires { i ≤ length index.now.headers }
    ensures value { result ≡ offset_of index.now i }
    ensures bounded { AreBounded index.now }
{
    if i < index.len() {
        index.extent(i).at
    } else {
        index.size()
    }
}

// The place behind as many sections, from a place on, as have at most `most` bytes together, but behind one at least.
pub(crate) fn next_place(index: &Index, i: usize, most: usize) -> usize
    requires { i < length index.now.headers }
    ensures some { i < result }
    ensures within { result ≤ length index.now.headers }
    ensures fits { (result ≡ i + 1) ⊎ (length_between index.now i result ≤ most) }
{
    let upto = offset(index, i).saturating_add(most as u64);
    let mut next = i + 1;
    while next < index.len() && offset(index, next + 1) <= upto {
        next += 1;
    }
    next
}

// Redacts the body of the section at a place within a piece
// that begins at an offset and contains the whole section.
fn redact_section(piece: &mut [u8], index: &Index, i: usize, from: u64)
    requires place { i < length index.now.headers }
    requires begins { from ≤ (section_at index.now i).at }
    requires ends { (section_at index.now i).end ≤ from + length piece.old }
    ensures { piece.new ≡ redacted_at index.now (section_at index.now i) from piece.old }
{
    let section = index.section(i);
    let body = (section.body - from) as usize;
    let end = (section.end - from) as usize;
    redact_body(
        &mut piece[body..end],
        part_of(section.tag),
        enc_of(index.version()),
    );
}

// Redacts the sections from one place up to another; the piece has exactly their bytes.
pub(crate) fn redact_sections(piece: &mut [u8], index: &Index, i: usize, next: usize)
    requires some { i < next }
    requires within { next ≤ length index.now.headers }
    requires size { length piece.old ≡ length_between index.now i next }
    ensures { RedactsPiece index.now i next piece.old piece.new }
{
    let from = offset(index, i);
    for k in i..next {
        redact_section(piece, index, k, from);
    }
}
