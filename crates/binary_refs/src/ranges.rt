// The first bytes of ranges.
ghost use Rattle.std.specs.Prelude.{◌≡◌, ◌+◌, ◌≤◌, ◌<◌, length, nat_le, OnErr, IfOk};
ghost use Rattle.dump_io.specs.Dumps.{DeviceFailed, ReadsAtMost, IfTold};
ghost use Rattle.dump_sections.specs.Bodies.{section_at, body_length};
ghost use Rattle.dump_sections.specs.Index.{IsBuiltOver};
ghost use Rattle.binary_refs.specs.Ranges.{range_of, in_section};
ghost use Rattle.binary_refs.specs.StoredBinaries.{body_at};
ghost use Rattle.binary_refs.specs.Inner.Covers.{range_by, range_at, bytes_behind};

use crate::few_bytes::FewBytes;
use crate::leads::{Lead, body_of, read_lead, read_part};
use crate::places::BinaryPlaces;
use dump_io::{Dumps, Failed};
use dump_sections::Index;
use term_forms::reading::cover;
use term_forms::shapes::Cover;
use term_forms::{Enc, payload, payload_bytes_are_read};

/// A range of the bytes of the binary with an address: `size` of them, from `offset` on.
#[derive(Clone, Copy)]
pub struct Range {
    /// The address, which is the binary's number.
    pub address: u64,
    /// How many bytes of the binary come before the range.
    pub offset: u64,
    /// How many bytes the range has.
    pub size: u64,
}

impl Range {
    /// The range of `size` bytes from `offset` on.
    pub fn new(address: u64, offset: u64, size: u64) -> Range
        ensures address { result.address ≡ address }
        ensures offset { result.offset ≡ offset }
        ensures size { result.size ≡ size }
    {
        Range {
            address,
            offset,
            size,
        }
    }

    /// Whether the range lies within a binary of `len` bytes.
    pub fn is_within(&self, len: u64) -> bool
        ensures { result ≡ nat_le (self.now.offset + self.now.size) len }
    {
        self.offset <= len && self.size <= len - self.offset
    }
}

// The bytes of a range, from the characters of its cover.
fn decoded(chars: &[u8], enc: Enc, cover: &Cover, count: u32) -> Option<FewBytes>
    requires few { count ≤ 32 }
    requires bytes { cover.now.bytes ≤ 36 }
    requires within { cover.now.skip + count ≤ cover.now.bytes }
    ensures { result ≡ range_by enc cover.now count chars.now }
{
    payload_bytes_are_read(enc);
    let mut buffer = [0; 36];
    let bytes = &mut buffer[..cover.bytes as usize];
    if !payload(chars, enc, bytes) {
        return None;
    }
    Some(FewBytes::new(&bytes[cover.skip as usize..][..count as usize]))
}

// Reads the characters of a cover, from a place in the body on, and returns the bytes of the range.
fn read_cover<D: Dumps>(
    dumps: &mut D,
    index: &Index,
    place: usize,
    enc: Enc,
    from: u64,
    cover: &Cover,
    count: u32,
) -> Result<Option<FewBytes>, Failed>
    requires over { IsBuiltOver (D.state dumps.old).now index.now }
    requires place { place < length index.now.headers }
    requires few { count ≤ 32 }
    requires chars { cover.now.chars ≤ 64 }
    requires bytes { cover.now.bytes ≤ 36 }
    requires holds { cover.now.skip + count ≤ cover.now.bytes }
    requires within { from + cover.now.chars ≤ body_length (section_at index.now place) }
    ensures reads { ReadsAtMost (D.state dumps.old) (D.state dumps.new) 64 }
    ensures failed { OnErr result (DeviceFailed (D.state dumps.old) (D.state dumps.new)) }
    ensures bytes { IfOk result (λ bytes. IfTold (D.state dumps.old).now
        (λ dump. bytes ≡ range_at enc cover.now count from (body_at dump index.now place))) }
{
    let mut buffer = [0; 64];
    let chars = &mut buffer[..cover.chars as usize];
    read_part(dumps, index, place, from, chars)?;
    Ok(decoded(chars, enc, cover, count))
}

// Reads bytes of a binary from an offset on, given the
// binary's length and the place of its characters in the body.
fn read_bytes<D: Dumps>(
    dumps: &mut D,
    index: &Index,
    place: usize,
    enc: Enc,
    lead: &Lead,
    offset: u64,
    count: u32,
) -> Result<Option<FewBytes>, Failed>
    requires over { IsBuiltOver (D.state dumps.old).now index.now }
    requires place { place < length index.now.headers }
    requires few { count ≤ 32 }
    requires range { offset + count ≤ lead.now.length }
    requires chars { lead.now.chars ≤ body_length (section_at index.now place) }
    ensures reads { ReadsAtMost (D.state dumps.old) (D.state dumps.new) 64 }
    ensures failed { OnErr result (DeviceFailed (D.state dumps.old) (D.state dumps.new)) }
    ensures bytes { IfOk result (λ bytes. IfTold (D.state dumps.old).now
        (λ dump. bytes ≡ bytes_behind enc lead.now offset count (body_at dump index.now place))) }
{
    if count == 0 {
        return Ok(Some(FewBytes::new(&[])));
    }
    let (_, len) = body_of(index, place);
    let chars = len - lead.chars;
    // Each byte is written by at least one character.
    if offset > chars {
        return Ok(None);
    }
    let cover = cover(enc, lead.length, offset, count);
    if cover.first > chars || cover.chars > chars - cover.first {
        return Ok(None);
    }
    read_cover(
        dumps,
        index,
        place,
        enc,
        lead.chars + cover.first,
        &cover,
        count,
    )
}

// Reads what is shown of a range of the binary whose section is at a place.
fn read_shown<D: Dumps>(
    dumps: &mut D,
    index: &Index,
    place: usize,
    enc: Enc,
    range: &Range,
) -> Result<Option<FewBytes>, Failed>
    requires over { IsBuiltOver (D.state dumps.old).now index.now }
    requires place { place < length index.now.headers }
    ensures reads { ReadsAtMost (D.state dumps.old) (D.state dumps.new) 128 }
    ensures failed { OnErr result (DeviceFailed (D.state dumps.old) (D.state dumps.new)) }
    ensures bytes { IfOk result (λ bytes. IfTold (D.state dumps.old).now
        (λ dump. bytes ≡ in_section dump index.now place enc range.now)) }
{
    let Some(lead) = read_lead(dumps, index, place)? else {
        return Ok(None);
    };
    if !range.is_within(lead.length) {
        return Ok(None);
    }
    read_bytes(
        dumps,
        index,
        place,
        enc,
        &lead,
        range.offset,
        range.size.min(32) as u32,
    )
}

/// Reads the first bytes of a range, at most 32, of the binary in the first `binary` section with the range's
/// address. The index of the sections was built over the open file, which stays open.
///
/// They are unknown, `None`, exactly when there is no such section, when its body doesn't begin with a number of bytes
/// and `:`, when the range extends past that number, or when the characters that write the bytes are cut off or are
/// none of the encoding. Returns `Failed` only if the device's count of faults rose. At most 128 bytes are read.
pub fn read_range<D: Dumps>(
    dumps: &mut D,
    places: &BinaryPlaces<'_>,
    enc: Enc,
    range: &Range,
) -> Result<Option<FewBytes>, Failed>
    requires { IsBuiltOver (D.state dumps.old).now places.now }
    ensures reads { ReadsAtMost (D.state dumps.old) (D.state dumps.new) 128 }
    ensures failed { OnErr result (DeviceFailed (D.state dumps.old) (D.state dumps.new)) }
    ensures bytes { IfOk result (λ bytes. IfTold (D.state dumps.old).now
        (λ dump. bytes ≡ range_of dump places.now enc range.now)) }
{
    let Some(place) = places.first(range.address) else {
        return Ok(None);
    };
    read_shown(dumps, places.index(), place, enc, range)
}
