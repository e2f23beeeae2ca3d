// To which binary the text of a line refers.
ghost use Rattle.std.specs.Prelude.{◌≡◌};
ghost use Rattle.binary_holders.specs.Inner.Lines.{range_reference, text_reference};

use dump_io::hex_u64;
use term_forms::{Enc, form_is_read, heap_line};

/// The reference of a line: its address, the number of the binary, and whether it
/// is to the binary as a whole; else it is to a part, or to a binary in a heap.
#[derive(Clone, Copy, Drop)]
pub(crate) struct Reference {
    pub address: u64,
    pub number: u64,
    pub whole: bool,
}

// The reference of the line with an address to a range, which is an address, an offset and a size.
fn range_reference(address: u64, range: &[u8], whole: bool) -> Option<Reference>
    ensures { result ≡ range_reference address whole range.now }
{
    let (number, rest) = heap_line(range)?;
    let (_, size) = heap_line(rest)?;
    hex_u64(size)?;
    Some(Reference {
        address,
        number,
        whole,
    })
}

/// The reference of a text, if it is a heap line whose form is one.
pub(crate) fn text_reference(text: &[u8], enc: Enc) -> Option<Reference>
    ensures { result ≡ text_reference enc text.now }
{
    form_is_read(enc);
    let (address, spelled) = heap_line(text)?;
    if let Some(range) = spelled.strip_prefix(b"Yc") {
        return range_reference(address, range, true);
    }
    let range = spelled.strip_prefix(b"Ys")?;
    range_reference(address, range, false)
}
