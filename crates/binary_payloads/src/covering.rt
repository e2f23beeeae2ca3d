// Which characters of a payload write a range of its bytes.
ghost use Rattle.std.specs.Prelude.{◌≡◌, ◌↔◌, ℕ, ◌+◌, ◌-◌, ◌*◌, ◌/◌, ◌^◌, ◌<◌, ◌≤◌, List, length, take, drop, option_map, IsTrue, Some};
ghost use Rattle.std.specs.Int.{div_ceil};
ghost use Rattle.binary_payloads.specs.Cover.{cover_of, IsCovered, chars_in};
ghost use Rattle.binary_payloads.specs.Payload.{IsPayload, IsPayloadOf, chars_of, group_of};
ghost use Rattle.binary_payloads.specs.ReadingPayloads.{payload_bytes};

use crate::covers::Cover;
use crate::enc::Enc;
use crate::payloads::payload;

// Where the group of bytes begins that the byte at a place belongs to.
fn group_start(enc: Enc, place: u64) -> u64
    ensures value { result ≡ place / group_of enc * group_of enc }
    ensures before { result ≤ place }
    ensures near { place ≤ result + 2 }
{
    match enc {
        Enc::Hex => place,
        Enc::Base64 => place / 3 * 3,
    }
}

// Where the group of bytes ends that the byte before a place belongs to.
fn group_end(enc: Enc, place: u64) -> u64
    requires { place < 2 ^ 64 - 2 }
    ensures value { result ≡ div_ceil place (group_of enc) * group_of enc }
    ensures behind { place ≤ result }
    ensures near { result ≤ place + 2 }
{
    match enc {
        Enc::Hex => place,
        Enc::Base64 => place.div_ceil(3) * 3,
    }
}

// How many characters write this many bytes.
fn chars_of(enc: Enc, size: u64) -> u64
    requires { size < 2 ^ 63 }
    ensures { result ≡ chars_of enc size }
{
    match enc {
        Enc::Hex => 2 * size,
        Enc::Base64 => size.div_ceil(3) * 4,
    }
}

/// The characters that write the `count` bytes from place `from` on of a payload
/// of `size` bytes. They are whole groups, so some of the bytes that they write
/// may come before the range or after it. If `count` is 0, all four numbers are 0.
///
/// A preview shows at most 32 bytes, so `count` is at most 32: then there are at most
/// 64 characters, which write at most 36 bytes, so that a buffer of fixed size holds
/// them. `from` is below 2^63, far beyond the end of the largest dump, so that no place
/// of a character overflows: there are at most two characters for each byte.
pub fn cover(enc: Enc, size: u64, from: u64, count: u32) -> Cover
    requires few { count ≤ 32 }
    requires within { from + count ≤ size }
    requires small { from < 2 ^ 63 }
    ensures value { result ≡ cover_of enc size from count }
    ensures holds { result.skip + count ≤ result.bytes }
    ensures bytes { result.bytes ≤ count + 4 }
    ensures chars { result.chars ≤ 64 }
{
    if count == 0 {
        return Cover {
            first: 0,
            chars: 0,
            skip: 0,
            bytes: 0,
        };
    }
    let start = group_start(enc, from);
    let past = size.min(group_end(enc, from + u64::from(count)));
    Cover {
        first: chars_of(enc, start),
        chars: chars_of(enc, past - start),
        skip: (from - start) as u32,
        bytes: (past - start) as u32,
    }
}

/// The law that says what a cover is for: in any payload, the characters of the cover
/// are themselves the payload of some bytes, and these contain the bytes of the range.
pub fn cover_holds_range(enc: Enc)
    ensures { (chars bytes : List ℕ) (from count : ℕ)
        → IsPayload enc chars bytes → from + count ≤ length bytes
        → IsCovered enc (cover_of enc (length bytes) from count) chars bytes from count }
{}

fn part(text: &[u8], from: usize, count: usize) -> &[u8]
    requires { from + count ≤ length text.now }
    ensures { result.now ≡ take count (drop from text.now) }
{
    &text[from..][..count]
}

// Whether the characters of the cover can be decoded; if so, `into` holds the bytes of the cover.
fn read_cover(chars: &[u8], enc: Enc, cover: &Cover, into: &mut [u8]) -> bool
    requires within { cover.now.first + cover.now.chars ≤ length chars.now }
    ensures found { IsTrue result ↔ IsPayloadOf enc (chars_in cover.now chars.now) (length into.old) }
    ensures bytes { IsTrue result → IsPayload enc (chars_in cover.now chars.now) into.new }
{
    payload(
        part(chars, cover.first as usize, cover.chars as usize),
        enc,
        into,
    )
}

/// Reads the bytes of a payload from place `from` on, as many as `into` holds,
/// from only the characters that cover them. The characters are the whole
/// payload of `size` bytes, as those of a heap binary or an external term are.
pub fn payload_part(chars: &[u8], enc: Enc, size: u64, from: u64, into: &mut [u8])
    requires whole { IsPayloadOf enc chars.now size }
    requires few { length into.old ≤ 32 }
    requires within { from + length into.old ≤ size }
    // Whatever bytes the characters are the payload of, the bytes read are those of the range.
    ensures part { (bytes : List ℕ) → IsPayload enc chars.now bytes
        → into.new ≡ take (length into.old) (drop from bytes) }
    // The bytes read are the range of what the definitions compute as the payload.
    ensures exact { option_map (λ bytes. take (length into.old) (drop from bytes))
        (payload_bytes enc chars.now) ≡ Some into.new }
{
    let cover = cover(enc, size, from, into.len() as u32);
    let mut buffer = [0; 36];
    let read = &mut buffer[..cover.bytes as usize];
    if read_cover(chars, enc, &cover, read) {
        into.copy_from_slice(part(read, cover.skip as usize, into.len()));
    }
}
