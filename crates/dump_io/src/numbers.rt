// The numbers in a dump's text, and decimal numbers in a report.
ghost use Rattle.std.specs.Prelude.{◌≡◌, ◌+◌, ◌*◌, ◌<◌, ◌≤◌, ◌^◌, decimal, length, take, Some, if◌then◌else◌};
ghost use Rattle.std.specs.Option.{SomeIff};
ghost use Rattle.std.specs.Char.{digit_value, is_ascii_digit};
ghost use Rattle.std.specs.List.{list_all, prefix_len};
ghost use Rattle.dump_io.specs.Numbers.{is_digits, is_hex_digit, hex_number, dec_number};
ghost use Rattle.dump_io.specs.Sinks.{Puts};

use crate::dumps::Failed;
use crate::sink::{Sink, write_all};
use itoa::Buffer;

// The number with one more decimal digit, if it is one and the number is below 2^64.
fn with_digit(number: u64, digit: u8) -> Option<u64>
    ensures { SomeIff result ((digit_value digit < 10) × (number * 10 + digit_value digit < 2 ^ 64))
        (number * 10 + digit_value digit) }
{
    let value = char::from(digit).to_digit(10)?;
    number.checked_mul(10)?.checked_add(u64::from(value))
}

fn all_digits(text: &[u8]) -> bool
    ensures { result ≡ list_all is_ascii_digit text.now }
{
    text.iter().all(|c| c.is_ascii_digit())
}

/// Whether a text is one or more decimal digits.
pub fn is_digits(text: &[u8]) -> bool
    ensures { result ≡ is_digits text.now }
{
    !text.is_empty() && all_digits(text)
}

/// The number that a text of 1 to 20 decimal digits writes, if it is
/// below 2^64. Leading zeros are accepted; a sign or a space is not.
pub fn dec_u64(text: &[u8]) -> Option<u64>
    ensures { result ≡ dec_number text.now }
{
    if text.is_empty() || text.len() > 20 {
        return None;
    }
    let mut number = 0;
    for digit in text {
        number = with_digit(number, *digit)?;
    }
    Some(number)
}

// The value of each byte that is a hex digit, of either case; 16 for any other.
#[rattlefmt::skip]
static HEX_VALUES: [u8; 256] = [
    16, 16, 16, 16, 16, 16, 16, 16, 16, 16, 16, 16, 16, 16, 16, 16,
    16, 16, 16, 16, 16, 16, 16, 16, 16, 16, 16, 16, 16, 16, 16, 16,
    16, 16, 16, 16, 16, 16, 16, 16, 16, 16, 16, 16, 16, 16, 16, 16,
     0,  1,  2,  3,  4,  5,  6,  7,  8,  9, 16, 16, 16, 16, 16, 16,
    16, 10, 11, 12, 13, 14, 15, 16, 16, 16, 16, 16, 16, 16, 16, 16,
    16, 16, 16, 16, 16, 16, 16, 16, 16, 16, 16, 16, 16, 16, 16, 16,
    16, 10, 11, 12, 13, 14, 15, 16, 16, 16, 16, 16, 16, 16, 16, 16,
    16, 16, 16, 16, 16, 16, 16, 16, 16, 16, 16, 16, 16, 16, 16, 16,
    16, 16, 16, 16, 16, 16, 16, 16, 16, 16, 16, 16, 16, 16, 16, 16,
    16, 16, 16, 16, 16, 16, 16, 16, 16, 16, 16, 16, 16, 16, 16, 16,
    16, 16, 16, 16, 16, 16, 16, 16, 16, 16, 16, 16, 16, 16, 16, 16,
    16, 16, 16, 16, 16, 16, 16, 16, 16, 16, 16, 16, 16, 16, 16, 16,
    16, 16, 16, 16, 16, 16, 16, 16, 16, 16, 16, 16, 16, 16, 16, 16,
    16, 16, 16, 16, 16, 16, 16, 16, 16, 16, 16, 16, 16, 16, 16, 16,
    16, 16, 16, 16, 16, 16, 16, 16, 16, 16, 16, 16, 16, 16, 16, 16,
    16, 16, 16, 16, 16, 16, 16, 16, 16, 16, 16, 16, 16, 16, 16, 16,
];

// The value of a hex digit, or 16. A table needs no branch, which a processor couldn't foresee.
fn hex_value(c: u8) -> u64
    ensures { result ≡ (if is_hex_digit c then digit_value c else 16) }
{
    u64::from(HEX_VALUES[c as usize])
}

// The first bytes of a text, as many as a hex number may have.
fn longest_front(text: &[u8]) -> &[u8]
    ensures { result.now ≡ take 16 text.now }
{
    &text[..text.len().min(16)]
}

/// How many hex digits of either case begin the text, up to
/// 16, and the number that they write, if there are any.
pub fn hex_front(text: &[u8]) -> (usize, u64)
    ensures count { result.0 ≡ prefix_len is_hex_digit (take 16 text.now) }
    ensures within { result.0 ≤ length text.now }
    ensures number { 0 < result.0 → hex_number (take result.0 text.now) ≡ Some result.1 }
{
    let front = longest_front(text);
    let mut number = 0;
    let mut count = 0;
    while count < front.len() {
        let value = hex_value(front[count]);
        if value > 15 {
            return (count, number);
        }
        number = number * 16 + value;
        count += 1;
    }
    (count, number)
}

/// The number that a text of 1 to 16 hex digits of either case writes. Leading zeros are accepted.
pub fn hex_u64(text: &[u8]) -> Option<u64>
    ensures { result ≡ hex_number text.now }
{
    let (count, number) = hex_front(text);
    if count == 0 || count < text.len() {
        return None;
    }
    Some(number)
}

/// Writes a number in decimal, without leading zeros. Returns `Failed`
/// when [`write_all`] does, with the same effect on the sink.
pub fn put_dec<K: Sink>(sink: &mut K, n: u64) -> Result<(), Failed>
    ensures { Puts (K.state sink.old) (K.state sink.new) (decimal n) result }
{
    let mut buffer = Buffer::new();
    write_all(sink, buffer.format(n).as_bytes())
}
