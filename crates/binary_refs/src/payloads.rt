// The bytes that characters write.
ghost use Rattle.std.specs.Prelude.{◌≡◌, ◌≤◌, length, IfOk, OnErr};
ghost use Rattle.binary_refs.specs.Payloads.{bytes_in, counted_bytes};

use std::alloc::{AllocError, Global};
use term_forms::{Enc, payload, payload_bytes_are_read, payload_is_of_one};

/// Decodes `chars`, if they are the payload of exactly `count` bytes. Returns `AllocError` if there is no
/// memory for these bytes; where they are more than the characters, `None` is returned and no memory is asked for.
pub fn decode_payload(
    alloc: Global,
    enc: Enc,
    count: u64,
    chars: &[u8],
) -> Result<Option<Vec<u8>>, AllocError>
    ensures bytes { IfOk result (λ bytes. bytes_in bytes ≡ counted_bytes enc count chars.now) }
    ensures few { OnErr result (count ≤ length chars.now) }
{
    payload_bytes_are_read(enc);
    payload_is_of_one(enc);
    // Each byte is written by at least one character.
    if count > chars.len() as u64 {
        return Ok(None);
    }
    let mut bytes = vec![in alloc; 0u8; count as usize]?;
    if payload(chars, enc, &mut bytes) {
        Ok(Some(bytes))
    } else {
        Ok(None)
    }
}
