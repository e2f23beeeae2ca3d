// Splitting a text at its first colon.
ghost use Rattle.dump_io.specs.Colons.{SplitsAtColon};

use memchr::memchr;

/// Splits a text at its first `:` into what stands before it and
/// what follows it. Returns `None` exactly when there is no `:`.
pub fn split_at_colon(text: &[u8]) -> Option<(&[u8], &[u8])>
    ensures { SplitsAtColon text.now result }
{
    let colon = memchr(b':', text)?;
    Some((&text[..colon], &text[colon + 1..]))
}
