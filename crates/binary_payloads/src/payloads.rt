// The payloads of binaries: the characters that write their bytes.
ghost use Rattle.std.specs.Prelude.{◌≡◌, ◌↔◌, ◌==◌, ℕ, ◌-◌, ◌%◌, ◌^◌, ◌<◌, List, ◌++◌, length, IsTrue};
ghost use Rattle.std.specs.List.{list_all};
ghost use Rattle.binary_payloads.specs.Payload.{IsPayload, IsPayloadOf, encoding, chars_of, group_of, is_digit_of};
ghost use Rattle.binary_payloads.specs.ReadingPayloads.{payload_bytes};

use crate::enc::Enc;
use base64::engine::general_purpose::STANDARD;

fn hex_payload(chars: &[u8], into: &mut [u8]) -> bool
    ensures found { IsTrue result ↔ IsPayloadOf Enc.Hex chars.now (length into.old) }
    ensures bytes { IsTrue result → IsPayload Enc.Hex chars.now into.new }
{
    hex::decode_to_slice(chars, into).is_ok()
}

fn base64_payload(chars: &[u8], into: &mut [u8]) -> bool
    ensures found { IsTrue result ↔ IsPayloadOf Enc.Base64 chars.now (length into.old) }
    ensures bytes { IsTrue result → IsPayload Enc.Base64 chars.now into.new }
{
    match STANDARD.decode_slice(chars, into) {
        Ok(count) => count == into.len(),
        Err(_) => false,
    }
}

/// Decodes `chars` into `into`, if they are the payload of exactly `into.len()`
/// bytes. Returns `false` if they aren't; `into` may hold anything then.
pub fn payload(chars: &[u8], enc: Enc, into: &mut [u8]) -> bool
    ensures found { IsTrue result ↔ IsPayloadOf enc chars.now (length into.old) }
    ensures bytes { IsTrue result → IsPayload enc chars.now into.new }
{
    match enc {
        Enc::Hex => hex_payload(chars, into),
        Enc::Base64 => base64_payload(chars, into),
    }
}

// How far the character is from the letters, from `/` to `9` and from `+`, whichever is nearest: 0
// exactly if it is a digit of base64. A processor finds this out for 16 characters at once, and
// in fewer steps than whether they are between these.
fn distance(c: u8) -> u8
    ensures { (result == 0) ≡ is_digit_of Enc.Base64 c }
{
    let letters = (c | 32).wrapping_sub(b'a').saturating_sub(25);
    let others = c.wrapping_sub(b'/').saturating_sub(10);
    letters.min(others).min(c ^ b'+')
}

/// Whether the character may write a part of a byte: a hex digit of
/// either case; in base64 a letter, a digit, `+` or `/`, but no padding.
pub fn is_digit(c: u8, enc: Enc) -> bool
    ensures { result ≡ is_digit_of enc c }
{
    match enc {
        Enc::Hex => c.is_ascii_hexdigit(),
        Enc::Base64 => distance(c) == 0,
    }
}

/// Whether each of the characters is one, as [`is_digit`] tells. It looks
/// at all of them, since a processor then looks at several at a time.
pub fn are_digits(chars: &[u8], enc: Enc) -> bool
    ensures { result ≡ list_all (is_digit_of enc) chars.now }
{
    let mut all = true;
    for c in chars {
        all &= is_digit(*c, enc);
    }
    all
}

// How many of so many bytes are behind their last whole group.
fn left_of(size: usize, enc: Enc) -> usize
    ensures value { result ≡ size % group_of enc }
    ensures few { result < 3 }
{
    match enc {
        Enc::Hex => 0,
        Enc::Base64 => size % 3,
    }
}

// How many characters write the whole groups of so many bytes.
fn front_len(size: usize, enc: Enc) -> usize
    requires { size < 2 ^ 63 }
    ensures { result ≡ chars_of enc (size - size % group_of enc) }
{
    match enc {
        Enc::Hex => 2 * size,
        Enc::Base64 => size / 3 * 4,
    }
}

// Whether the characters are the payload of one or two bytes, or of none.
fn is_last(chars: &[u8], enc: Enc, size: usize) -> bool
    requires { size < 3 }
    ensures { IsTrue result ↔ IsPayloadOf enc chars.now size }
{
    if size == 0 {
        return chars.is_empty();
    }
    let mut buffer = [0; 2];
    payload(chars, enc, &mut buffer[..size])
}

/// Whether the characters are the payload of exactly `size` bytes.
pub fn is_payload(chars: &[u8], enc: Enc, size: u64) -> bool
    ensures { IsTrue result ↔ IsPayloadOf enc chars.now size }
{
    // Each byte takes more than one character.
    if size > chars.len() as u64 {
        return false;
    }
    let size = size as usize;
    let Some((front, last)) = chars.split_at_checked(front_len(size, enc)) else {
        return false;
    };
    are_digits(front, enc) && is_last(last, enc, left_of(size, enc))
}

/// The law by which a payload is read in pieces: the encoding of bytes is the encoding of a prefix of
/// whole groups, followed by the encoding of the rest. A group is one byte in hex, and three in base64.
pub fn encoding_in_pieces(enc: Enc)
    ensures pieces { (front rest : List ℕ) → length front % group_of enc ≡ 0
        → encoding enc (front ++ rest) ≡ encoding enc front ++ encoding enc rest }
    ensures length { (bytes : List ℕ) → length (encoding enc bytes) ≡ chars_of enc (length bytes) }
{}

/// The law that characters are the payload of at most one list of
/// bytes, whose length determines how many characters there are.
pub fn payload_is_of_one(enc: Enc)
    ensures bytes { (chars one other : List ℕ)
        → IsPayload enc chars one → IsPayload enc chars other → one ≡ other }
    ensures length { (chars bytes : List ℕ)
        → IsPayload enc chars bytes → length chars ≡ chars_of enc (length bytes) }
{}

/// What `payload_bytes` computes is the bytes of a payload, and nothing if the characters are none.
pub fn payload_bytes_are_read(enc: Enc)
    ensures { (chars bytes : List ℕ)
        → (payload_bytes enc chars ≡ Some bytes) ↔ IsPayload enc chars bytes }
{}
