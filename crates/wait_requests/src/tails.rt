// What stands behind the first number in the text of a reference.
ghost use Rattle.std.specs.Prelude.{◌≡◌, ◌++◌, ◌*◌, ◌≤◌, length, OnOk};
ghost use Rattle.std.specs.Char.{is_ascii_digit};
ghost use Rattle.std.specs.List.{prefix_len};
ghost use Rattle.std.specs.Option.{option_copied};
ghost use Rattle.wait_requests.specs.References.{behind_digits, behind_first, tail_of, words_backwards};

use dump_io::bytes_from;
use itoa::Buffer;
use std::alloc::AllocError;

// How many digits begin a text.
fn digit_run(text: &[u8]) -> usize
    ensures exact { result ≡ prefix_len is_ascii_digit text.now }
    ensures within { result ≤ length text.now }
{
    text.iter().take_while(|c| c.is_ascii_digit()).count()
}

// What stands behind the digits with which a text begins.
fn behind_digits(text: &[u8]) -> Option<&[u8]>
    ensures { option_copied result ≡ behind_digits text.now }
{
    let count = digit_run(text);
    if count == 0 {
        return None;
    }
    Some(bytes_from(text, count))
}

/// What stands behind the first number in the text of a reference.
pub(crate) fn behind_first(reference: &[u8]) -> Option<&[u8]>
    ensures { option_copied result ≡ behind_first reference.now }
{
    if reference.starts_with(b"#Ref<") {
        behind_digits(bytes_from(reference, 5))
    } else {
        None
    }
}

// Appends a dot and the number that four bytes are.
fn push_word(tail: &mut Vec<u8>, word: [u8; 4]) -> Result<(), AllocError>
    ensures { OnOk result (tail.new.items ≡ tail.old.items ++ words_backwards word) }
{
    tail.push(b'.')?;
    tail.extend_from_slice(Buffer::new().format(u32::from_be_bytes(word)).as_bytes())
}

// Appends the words from the last to the first.
fn push_words(tail: &mut Vec<u8>, words: &[u8]) -> Result<(), AllocError>
    ensures { OnOk result (tail.new.items ≡ tail.old.items ++ words_backwards words.now) }
{
    let mut left = words.len() / 4;
    while left > 0 {
        left -= 1;
        let at = 4 * left;
        let word = [words[at], words[at + 1], words[at + 2], words[at + 3]];
        push_word(tail, word)?;
    }
    Ok(())
}

/// Writes what the text of a reference with these words has behind its first number.
pub(crate) fn write_tail(tail: &mut Vec<u8>, words: &[u8]) -> Result<(), AllocError>
    ensures { OnOk result (tail.new.items ≡ tail_of words.now) }
{
    tail.clear();
    push_words(tail, words)?;
    tail.push(b'>')?;
    Ok(())
}
