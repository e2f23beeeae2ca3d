// Reading forms without elements.
ghost use Rattle.std.specs.Prelude.{◌≡◌, ◌∷◌, true, IsSome};
ghost use Rattle.std.specs.Option.{option_map, option_copied};
ghost use Rattle.term_forms.specs.ReadingForms.{form_of, float_of, bracketed_of, port_of, payload_of, range_of, binary_of, payload_test};
ghost use Rattle.term_forms.specs.Seen.{number_rest};
ghost use Rattle.term_forms.specs.SeenForms.{heap_form};
ghost use Rattle.term_forms.specs.Inner.Tags.{IsPlainTag};

use crate::shapes::Form;
use crate::words::{bracketed_prefix, is_long, split_number};
use binary_payloads::{Enc, is_payload, payload_bytes_are_read};
use dump_io::hex_u64;

#[tactic(auto, unfolding(crate::specs::ReadingForms::float_of))]
fn float(text: &[u8]) -> Option<Form<'_>>
    ensures { option_map heap_form result ≡ float_of text.now }
{
    let (len, bytes) = split_number(text)?;
    if bytes.len() as u64 == len {
        Some(Form::Float(bytes))
    } else {
        None
    }
}

// The whole text, if it is a bracketed number.
#[tactic(auto, unfolding(crate::specs::ReadingForms::bracketed_of))]
fn bracketed(text: &[u8]) -> Option<&[u8]>
    ensures { option_copied result ≡ bracketed_of text.now }
{
    let n = bracketed_prefix(text)?;
    if n == text.len() { Some(text) } else { None }
}

#[tactic(auto, unfolding(crate::specs::ReadingForms::port_of))]
fn port(text: &[u8]) -> Option<Form<'_>>
    ensures { option_map heap_form result ≡ port_of text.now }
{
    let skip = if text.starts_with(b"#Port") { 5 } else { 0 };
    let number = bracketed(&text[skip..])?;
    Some(Form::Port(number))
}

// Whether the characters are the payload of `size` bytes.
fn judge_payload(chars: &[u8], enc: Enc, size: u64) -> bool
    ensures { result ≡ payload_test enc size chars.now }
{
    payload_bytes_are_read(enc);
    is_payload(chars, enc, size)
}

// Whether the characters are the payload of `size` bytes,
// which isn't checked if `spelled` says that it is known.
fn has_payload(chars: &[u8], enc: Enc, size: u64, spelled: bool) -> bool
    requires { spelled ≡ true → payload_test enc size chars.now ≡ true }
    ensures { result ≡ payload_test enc size chars.now }
{
    spelled || judge_payload(chars, enc, size)
}

// A length, and the characters of that many bytes.
#[tactic(auto, unfolding(crate::specs::ReadingForms::payload_of))]
fn sized(text: &[u8], enc: Enc, spelled: bool) -> Option<(u64, &[u8])>
    requires { spelled ≡ true → IsSome (payload_of enc text.now) }
    ensures { option_map number_rest result ≡ payload_of enc text.now }
{
    let (size, chars) = split_number(text)?;
    if has_payload(chars, enc, size, spelled) {
        Some((size, chars))
    } else {
        None
    }
}

// An address, an offset and a size.
#[tactic(auto, unfolding(crate::specs::ReadingForms::range_of))]
fn range(text: &[u8]) -> Option<(u64, u64, u64)>
    ensures { result ≡ range_of text.now }
{
    let (address, rest) = split_number(text)?;
    let (offset, rest) = split_number(rest)?;
    let size = hex_u64(rest)?;
    Some((address, offset, size))
}

#[tactic(auto, unfolding(crate::specs::ReadingForms::binary_of))]
fn binary(text: &[u8], enc: Enc, spelled: bool) -> Option<Form<'_>>
    requires { spelled ≡ true → IsSome (binary_of enc text.now) }
    ensures { option_map heap_form result ≡ binary_of enc text.now }
{
    let (kind, rest) = text.split_first()?;
    match *kind {
        b'h' => {
            let (size, chars) = sized(rest, enc, spelled)?;
            Some(Form::HeapBin(size, chars))
        }
        b'c' => {
            let (address, offset, size) = range(rest)?;
            Some(Form::RefBin(address, offset, size))
        }
        b's' => {
            let (address, offset, size) = range(rest)?;
            Some(Form::SubBin(address, offset, size))
        }
        _ => None,
    }
}

// The form of a text that begins with a tag other than those of forms with elements.
// If the text is known to spell a form, the characters of its payload aren't checked.
#[tactic(auto, unfolding(crate::specs::ReadingForms::form_of))]
pub(crate) fn read_plain(tag: u8, text: &[u8], enc: Enc, spelled: bool) -> Option<Form<'_>>
    requires other { IsPlainTag tag }
    requires known { spelled ≡ true → IsSome (form_of enc (tag ∷ text.now)) }
    ensures { option_map heap_form result ≡ form_of enc (tag ∷ text.now) }
{
    match tag {
        b'F' => float(text),
        b'B' if is_long(text) => Some(Form::Long(text)),
        b'P' => {
            let pid = bracketed(text)?;
            Some(Form::Pid(pid))
        }
        b'p' => port(text),
        b'E' => {
            let (size, chars) = sized(text, enc, spelled)?;
            Some(Form::Ext(size, chars))
        }
        b'Y' => binary(text, enc, spelled),
        _ => None,
    }
}
