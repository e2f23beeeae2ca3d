// References among external terms.
ghost use Rattle.std.specs.Prelude.{◌≡◌, option_and_then};
ghost use Rattle.std.specs.Option.{option_copied};
ghost use Rattle.etf_terms.specs.References.{head_in, reference_in, words_in, ReadsReferences};
ghost use Rattle.etf_terms.specs.Table.{head_layout};
ghost use Rattle.etf_terms.specs.Inner.Parts.{head, only_head};

use crate::heads::{HeadRead, read_head};

// The bytes of the words of a head that is a reference, if nothing is left behind it.
fn words_of<'a>(read: &HeadRead<'a>, behind: &[u8]) -> Option<&'a [u8]>
    ensures { option_copied result
        ≡ option_and_then words_in (only_head (head read.now) behind.now) }
{
    if !behind.is_empty() {
        return None;
    }
    match *read {
        HeadRead::Ref(_, _, words) => Some(words),
        _ => None,
    }
}

// The bytes of the words, if these bytes are a reference.
fn words_in(bytes: &[u8]) -> Option<&[u8]>
    ensures { option_copied result ≡ option_and_then words_in (head_in head_layout bytes.now) }
{
    match read_head(bytes) {
        Ok((read, behind)) => words_of(&read, behind),
        Err(_) => None,
    }
}

/// The bytes of the words of a reference, four for each word, if these bytes are 131 and one term that is a reference, of
/// whatever node and creation (tags 90 and 114). Takes no memory. [`words_are_read`](crate::words_are_read) says so in full.
pub fn reference_words(bytes: &[u8]) -> Option<&[u8]>
    ensures { option_copied result ≡ reference_in bytes.now }
{
    match bytes {
        [131, rest @ ..] => words_in(rest),
        _ => None,
    }
}

/// The words of a reference are those that are computed: some exactly if the bytes are 131 and a reference with them.
pub fn words_are_read()
    ensures { ReadsReferences }
{}
