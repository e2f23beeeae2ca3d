// The words of which elements and forms are made.
ghost use Rattle.std.specs.Prelude.{◌≡◌, ℕ, ◌<◌, ◌≤◌, List, length, IfSome, IfNone};
ghost use Rattle.std.specs.List.{prefix_len, list_all};
ghost use Rattle.std.specs.Option.{option_map};
ghost use Rattle.std.specs.Char.{is_ascii_digit};
ghost use Rattle.term_forms.specs.Words.{is_hex_digit, is_number_byte, is_hex_digits, is_based, is_long, IsLed, led_of};
ghost use Rattle.term_forms.specs.Reading.{digits_len, integer_len, bracketed_len};
ghost use Rattle.term_forms.specs.Seen.{number_rest};

use dump_io::{hex_front, is_digits};

// A hex number of 1 to 16 digits before the first colon, such as an
// arity, a length or an address, and what stands after that colon.
#[tactic(auto, unfolding(crate::specs::Words::led_of))]
pub(crate) fn split_number(text: &[u8]) -> Option<(u64, &[u8])>
    ensures exact { option_map number_rest result ≡ led_of text.now }
    ensures shorter { IfSome result (λ found. length found.1.now < length text.now) }
{
    let (count, number) = hex_front(text);
    if count == 0 || count == text.len() || text[count] != b':' {
        return None;
    }
    Some((number, &text[count + 1..]))
}

/// The address of a heap line and the text of its form: a hex number of 1 to 16
/// digits before the first `:`, and what stands after that. Returns `None` if the
/// text has no `:`, or if anything but such a number stands before the first.
pub fn heap_line(text: &[u8]) -> Option<(u64, &[u8])>
    // What is found is a number, a colon and the rest.
    ensures found { IfSome result (λ found. IsLed text.now found.0 found.1.now) }
    // Nothing is found only if the text isn't that.
    ensures none { IfNone result ((address : ℕ) (rest : List ℕ) → IsLed text.now address rest → ⊥) }
    // What is found is the number and the rest that the definitions compute.
    ensures exact { option_map number_rest result ≡ led_of text.now }
    ensures shorter { IfSome result (λ found. length found.1.now < length text.now) }
{
    split_number(text)
}

fn digit_run(text: &[u8]) -> usize
    ensures exact { result ≡ prefix_len is_ascii_digit text.now }
    ensures within { result ≤ length text.now }
{
    text.iter().take_while(|c| c.is_ascii_digit()).count()
}

fn dotted_run(text: &[u8]) -> usize
    ensures exact { result ≡ prefix_len is_number_byte text.now }
    ensures within { result ≤ length text.now }
{
    text.iter()
        .take_while(|c| c.is_ascii_digit() || **c == b'.')
        .count()
}

#[tactic(auto, unfolding(crate::specs::Reading::digits_len))]
fn digits_prefix(text: &[u8]) -> Option<usize>
    ensures exact { result ≡ digits_len text.now }
    ensures within { IfSome result (λ n. n ≤ length text.now) }
{
    let n = digit_run(text);
    if n == 0 { None } else { Some(n) }
}

// How many bytes the integer has that begins the text.
#[tactic(auto, unfolding(crate::specs::Reading::integer_len))]
pub(crate) fn integer_prefix(text: &[u8]) -> Option<usize>
    ensures exact { result ≡ integer_len text.now }
    ensures within { IfSome result (λ n. n ≤ length text.now) }
{
    let (first, rest) = text.split_first()?;
    if *first == b'-' {
        Some(digits_prefix(rest)? + 1)
    } else {
        digits_prefix(text)
    }
}

// How many bytes the bracketed number has that begins the text.
#[tactic(auto, unfolding(crate::specs::Reading::bracketed_len))]
pub(crate) fn bracketed_prefix(text: &[u8]) -> Option<usize>
    ensures exact { result ≡ bracketed_len text.now }
    ensures within { IfSome result (λ n. n ≤ length text.now) }
{
    let (first, rest) = text.split_first()?;
    let n = dotted_run(rest);
    if *first == b'<' && n > 0 && rest[n..].starts_with(b">") {
        Some(n + 2)
    } else {
        None
    }
}

fn all_hex_digits(text: &[u8]) -> bool
    ensures { result ≡ list_all is_hex_digit text.now }
{
    text.iter().all(|c| c.is_ascii_hexdigit())
}

fn is_hex_digits(text: &[u8]) -> bool
    ensures { result ≡ is_hex_digits text.now }
{
    !text.is_empty() && all_hex_digits(text)
}

fn is_based(text: &[u8]) -> bool
    ensures { result ≡ is_based text.now }
{
    text.starts_with(b"16#") && is_hex_digits(&text[3..])
}

// Whether the text is a big integer, in decimal, or in hex after `16#`.
pub(crate) fn is_long(text: &[u8]) -> bool
    ensures { result ≡ is_long text.now }
{
    match text.split_first() {
        None => false,
        Some((first, rest)) => {
            let digits = if *first == b'-' { rest } else { text };
            is_digits(digits) || is_based(digits)
        }
    }
}
