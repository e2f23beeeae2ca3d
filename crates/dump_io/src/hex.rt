// Numbers and bytes in upper-case hex.
ghost use Rattle.std.specs.Prelude.{◌≡◌, ◌<◌, ◌≤◌, true, length, drop};
ghost use Rattle.std.specs.Fmt.{digit_glyph, digits};
ghost use Rattle.std.specs.List.{flat_map};
ghost use Rattle.dump_io.specs.Numbers.{hexadecimal, hex_byte};
ghost use Rattle.dump_io.specs.Sinks.{Puts};

use crate::dumps::Failed;
use crate::sink::{Sink, write_all};
use std::marker::Model;

/// The upper-case hex digit of a number below 16.
pub fn hex_digit(d: u8) -> u8
    requires { d < 16 }
    ensures { result ≡ digit_glyph true d }
{
    if d < 10 { b'0' + d } else { b'A' - 10 + d }
}

// Puts the digits at the end of the buffer, and returns the place where they begin.
fn put_digits(n: u64, buffer: &mut [u8]) -> usize
    requires { length buffer.old ≡ 16 }
    ensures within { result ≤ 16 }
    ensures text { drop result buffer.new ≡ digits 16 true n }
{
    let mut rest = n;
    let mut at = 16;
    while at > 0 {
        at -= 1;
        buffer[at] = hex_digit((rest % 16) as u8);
        rest /= 16;
        if rest == 0 {
            return at;
        }
    }
    unreachable!()
}

/// The text of a number in upper-case hex, without leading zeros. It takes no memory.
#[derive(Drop)]
pub struct HexText {
    digits: [u8; 16],
    from: usize,
}

impl Model for HexText {
    ghost use Rattle.std.specs.Prelude.{ℕ, ◌≤◌, List, drop};

    ghost Value = { List ℕ };

    ghost view = { λ text. drop text.from text.digits };

    ghost invariant = { λ text. text.from ≤ 16 };
}

impl HexText {
    /// The text of this number.
    pub fn new(n: u64) -> HexText
        ensures { result ≡ hexadecimal n }
    {
        let mut digits = [0; 16];
        let from = put_digits(n, &mut digits);
        HexText { digits, from }
    }

    /// The bytes of the text.
    pub fn bytes(&self) -> &[u8]
        ensures { result.now ≡ self.now }
    {
        &self.digits[self.from..]
    }
}

/// Writes a number in upper-case hex, without leading zeros. Returns
/// `Failed` when [`write_all`] does, with the same effect on the sink.
pub fn put_hex<K: Sink>(sink: &mut K, n: u64) -> Result<(), Failed>
    ensures { Puts (K.state sink.old) (K.state sink.new) (hexadecimal n) result }
{
    write_all(sink, HexText::new(n).bytes())
}

/// A byte as two upper-case hex digits.
pub fn hex_pair(c: u8) -> [u8; 2]
    ensures { result ≡ hex_byte c }
{
    [hex_digit(c / 16), hex_digit(c % 16)]
}

/// Writes each byte as two upper-case hex digits. Returns `Failed`
/// when [`write_all`] does, with the same effect on the sink.
pub fn put_hex_bytes<K: Sink>(sink: &mut K, bytes: &[u8]) -> Result<(), Failed>
    ensures { Puts (K.state sink.old) (K.state sink.new) (flat_map hex_byte bytes.now) result }
{
    for c in bytes {
        write_all(sink, &hex_pair(*c))?;
    }
    Ok(())
}
