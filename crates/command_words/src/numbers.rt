// Numbers in words, within a range.
ghost use Rattle.std.specs.Prelude.{◌≡◌};
ghost use Rattle.command_words.specs.Ranges.{number_upto};

use dump_io::dec_u64;

/// The number from 1 to `most` that a word writes.
pub(crate) fn number_upto(word: &str, most: u32) -> Option<u32>
    ensures { result ≡ number_upto most word.now }
{
    let n = dec_u64(word.as_bytes())?;
    if n < 1 || n > u64::from(most) {
        return None;
    }
    Some(n as u32)
}
