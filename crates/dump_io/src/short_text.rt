// A short text that is built on the stack, its end first.
ghost use Rattle.std.specs.Prelude.{◌≡◌, ◌+◌, ◌≤◌, [], ◌++◌, length, drop, decimal, true, if◌then◌else◌};
ghost use Rattle.dump_io.specs.declared.short_text.TheConstants.{ROOM};

use itoa::write_digits;
use std::marker::Model;

const ROOM: usize = 128;

// The most digits of a number.
const DIGITS: usize = 20;

// A text of at most 128 bytes, which ends where its buffer does. What is written next
// comes before it, so that a number's digits, of which the last is known first, are
// written where they stay.
#[derive(Drop)]
pub(crate) struct ShortText {
    bytes: [u8; ROOM],
    from: usize,
}

impl Model for ShortText {
    ghost use Rattle.std.specs.Prelude.{ℕ, ◌≤◌, List, drop};
    ghost use Rattle.dump_io.specs.declared.short_text.TheConstants.{ROOM};

    ghost Value = { List ℕ };

    ghost view = { λ text. drop text.from text.bytes };

    ghost invariant = { λ text. text.from ≤ ROOM };
}

impl ShortText {
    // No bytes.
    pub fn new() -> ShortText
        ensures { result ≡ [] }
    {
        ShortText {
            bytes: [0; ROOM],
            from: ROOM,
        }
    }

    // The bytes.
    pub fn bytes(&self) -> &[u8]
        ensures { result.now ≡ self.now }
    {
        &self.bytes[self.from..]
    }

    // Puts more bytes before the text, and returns whether there was room.
    pub fn put(&mut self, more: &[u8]) -> bool
        ensures text { self.new ≡ (if result then more.now ++ self.old else self.old) }
        ensures room { length self.old + length more.now ≤ ROOM → result ≡ true }
    {
        if more.len() > self.from {
            return false;
        }
        self.from = write_bytes(more, &mut self.bytes, self.from);
        true
    }

    // Puts a number in decimal before the text, and returns whether there was room for any number.
    pub fn put_dec(&mut self, n: u64) -> bool
        ensures { self.new ≡ (if result then decimal n ++ self.old else self.old) }
    {
        if self.from < DIGITS {
            return false;
        }
        self.from = write_digits(n, &mut self.bytes, self.from);
        true
    }
}

// Writes bytes so that they end at `end`, and returns where they start.
fn write_bytes(bytes: &[u8], buffer: &mut [u8], end: usize) -> usize
    requires { (length bytes.now ≤ end) × (end ≤ length buffer.old) }
    ensures start { result + length bytes.now ≡ end }
    ensures written { drop result buffer.new ≡ bytes.now ++ drop end buffer.old }
{
    let from = end - bytes.len();
    // Most pieces of a line are a single byte, for which a copy costs more than the byte itself.
    if let [byte] = bytes {
        buffer[from] = *byte;
        return from;
    }
    buffer[from..end].copy_from_slice(bytes);
    from
}
