// Making characters blank.
ghost use Rattle.std.specs.Prelude.{◌≡◌, ◌+◌, ◌≤◌, true, length, take, drop, map};
ghost use Rattle.std.specs.List.{list_all};
ghost use Rattle.binary_payloads.specs.Payload.{is_digit_of};
ghost use Rattle.dump_redact.specs.Redacted.{blank, zero_of};
ghost use Rattle.dump_redact.specs.Inner.Copying.{copied, stretch_behind};

use binary_payloads::{are_digits, is_digit};
use memchr::memchr;
use term_forms::Enc;

// How many characters are tested at a time.
const BLOCK: usize = 64;

// How bytes are copied.
#[derive(Clone, Copy)]
pub(crate) enum Stretch {
    // Bytes are copied as they are.
    Plain,
    // Bytes are made blank up to the end of the line.
    Payload(Enc),
}

// The character that writes zero.
fn zero_of(enc: Enc) -> u8
    ensures { result ≡ zero_of enc }
{
    match enc {
        Enc::Hex => b'0',
        Enc::Base64 => b'A',
    }
}

fn blanked(c: u8, enc: Enc) -> u8
    ensures { result ≡ blank enc c }
{
    if is_digit(c, enc) { zero_of(enc) } else { c }
}

// Makes all of these characters blank.
pub(crate) fn blank_all(chars: &mut [u8], enc: Enc)
    ensures { chars.new ≡ map (blank enc) chars.old }
{
    for c in chars.iter_mut() {
        *c = blanked(*c, enc);
    }
}

fn block(chars: &[u8], at: usize) -> &[u8]
    requires { at + BLOCK ≤ length chars.now }
    ensures { result.now ≡ take BLOCK (drop at chars.now) }
{
    &chars[at..at + BLOCK]
}

// How many characters the whole blocks of digits at the beginning have together.
fn blocks_len(chars: &[u8], enc: Enc) -> usize
    ensures within { result ≤ length chars.now }
    ensures digits { list_all (is_digit_of enc) (take result chars.now) ≡ true }
{
    let mut len = 0;
    while chars.len() - len >= BLOCK && are_digits(block(chars, len), enc) {
        len += BLOCK;
    }
    len
}

// Where the last of the characters that is a digit ends.
fn last_digit_end(chars: &[u8], enc: Enc) -> usize
    ensures { result ≤ length chars.now }
{
    let mut end = chars.len();
    while end > 0 && !is_digit(chars[end - 1], enc) {
        end -= 1;
    }
    end
}

// How many characters from the beginning on are known to be digits. If they are a payload that fills a block,
// with its LF, these are all but the padding and the LF. The digits behind the last whole block are tested as a
// block too, which ends where they end: its first characters are tested twice, but that takes less time than to
// test the last ones one by one.
fn digits_len(chars: &[u8], enc: Enc) -> usize
    ensures within { result ≤ length chars.now }
    ensures digits { list_all (is_digit_of enc) (take result chars.now) ≡ true }
{
    let len = blocks_len(chars, enc);
    // What has no block, or a line behind it, isn't searched for its end.
    if len < BLOCK || chars.len() - len >= 2 * BLOCK {
        return len;
    }
    let end = last_digit_end(chars, enc);
    if len < end && end - len < BLOCK && are_digits(block(chars, end - BLOCK), enc) {
        return end;
    }
    len
}

// Makes digits blank: all of them become the same character.
fn blank_digits(chars: &mut [u8], enc: Enc)
    requires { list_all (is_digit_of enc) chars.old ≡ true }
    ensures { chars.new ≡ map (blank enc) chars.old }
{
    chars.fill(zero_of(enc));
}

// Makes characters blank up to the first LF, and returns how to copy the bytes after them.
fn blank_upto_lf(chars: &mut [u8], enc: Enc) -> Stretch
    ensures text { chars.new ≡ copied (Stretch.Payload enc) chars.old }
    ensures behind { result ≡ stretch_behind (Stretch.Payload enc) chars.old }
{
    match memchr(b'\n', chars) {
        Some(lf) => {
            blank_all(&mut chars[..lf], enc);
            Stretch::Plain
        }
        None => {
            blank_all(chars, enc);
            Stretch::Payload(enc)
        }
    }
}

// Makes characters blank up to the first LF, in less time than `blank_upto_lf`: nearly all characters
// of a payload are digits, and none of these is an LF, so that it is only searched for behind them.
fn blank_line(chars: &mut [u8], enc: Enc) -> Stretch
    ensures text { chars.new ≡ copied (Stretch.Payload enc) chars.old }
    ensures behind { result ≡ stretch_behind (Stretch.Payload enc) chars.old }
{
    let len = digits_len(chars, enc);
    let (digits, rest) = chars.split_at_mut(len);
    blank_digits(digits, enc);
    blank_upto_lf(rest, enc)
}

// Turns a piece into its copy, and returns how to copy the bytes after it.
pub(crate) fn rewrite(piece: &mut [u8], stretch: Stretch) -> Stretch
    ensures text { piece.new ≡ copied stretch piece.old }
    ensures behind { result ≡ stretch_behind stretch piece.old }
{
    match stretch {
        Stretch::Plain => Stretch::Plain,
        Stretch::Payload(enc) => blank_line(piece, enc),
    }
}
