// Reading the references among the lines of a heap.
ghost use Rattle.std.specs.Prelude.{◌≡◌, ◌≤◌, IfOk};
ghost use Rattle.std.specs.Option.{option_map};
ghost use Rattle.wait_requests.specs.Inner.Asking.{before_words};
ghost use Rattle.wait_requests.specs.Inner.Reading.{external_form, external_line, payload_words};
ghost use Rattle.wait_requests.specs.Inner.Seen.{shown_external, shown_sized};

use crate::asked::Asked;
use binary_payloads::{payload, payload_bytes_are_read};
use etf_terms::reference_words;
use std::alloc::AllocError;
use term_forms::{Enc, heap_line};

/// The most bytes of a reference that is read.
pub(crate) const MOST: usize = 2_048;

/// The line of an external term: its address, how many bytes it has, and the characters that write them.
#[derive(Clone, Copy, Drop)]
pub(crate) struct External<'a> {
    pub address: u64,
    pub size: u64,
    pub chars: &'a [u8],
}

// The length of an external term, and its characters.
fn external_form(text: &[u8]) -> Option<(u64, &[u8])>
    ensures { option_map shown_sized result ≡ external_form text.now }
{
    match text {
        [b'E', rest @ ..] => heap_line(rest),
        _ => None,
    }
}

/// The parts of a line, if it is that of an external term.
pub(crate) fn external_line(text: &[u8]) -> Option<External<'_>>
    ensures { option_map shown_external result ≡ external_line text.now }
{
    let (address, form) = heap_line(text)?;
    let (size, chars) = external_form(form)?;
    Some(External {
        address,
        size,
        chars,
    })
}

/// How many requests stand before the first whose reference has the words of an external term of at
/// most 2,048 bytes. Returns `None` exactly if the term isn't a reference. The text is overwritten.
pub(crate) fn before_external(
    asked: &Asked<'_>,
    enc: Enc,
    size: u64,
    chars: &[u8],
    text: &mut Vec<u8>,
) -> Result<Option<usize>, AllocError>
    requires { size ≤ 2048 }
    ensures { IfOk result (λ place. place
        ≡ option_map (before_words asked.now) (payload_words enc size chars.now)) }
{
    payload_bytes_are_read(enc);
    let mut buffer = [0u8; MOST];
    let bytes = &mut buffer[..size as usize];
    if !payload(chars, enc, bytes) {
        return Ok(None);
    }
    match reference_words(bytes) {
        Some(words) => Ok(Some(asked.before(words, text)?)),
        None => Ok(None),
    }
}
