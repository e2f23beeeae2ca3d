// The numbers of binaries.
ghost use Rattle.std.specs.Prelude.{◌≡◌, ◌<◌, length, slice_get, Some, IfSome};
ghost use Rattle.std.specs.Option.{option_copied};
ghost use Rattle.dump_sections.specs.Bodies.{section_at, section_in};
ghost use Rattle.dump_sections.specs.Index.{sections_in};
ghost use Rattle.binary_refs.specs.StoredBinaries.{binary_section, binary_number};
ghost use Rattle.binary_refs.specs.Inner.Numbers.{number_with};

use dump_io::hex_u64;
use dump_sections::Index;

// The number that an id writes, if the tag is that of binaries.
fn number_with(tag: &[u8], id: Option<&[u8]>) -> Option<u64>
    ensures { result ≡ number_with tag.now (option_copied id.entry) }
{
    if tag == b"binary".as_slice() {
        hex_u64(id?)
    } else {
        None
    }
}

/// The number of the binary in the section at a place of the index: its id
/// in hex. `None` if its tag isn't `binary`, or if its id isn't hex.
pub fn binary_number(index: &Index, i: usize) -> Option<u64>
    requires { i < length index.now.headers }
    ensures number { result ≡ binary_number (section_at index.now i) }
    ensures section { slice_get (sections_in index.now) i ≡ Some (section_at index.now i) }
{
    let section = index.section(i);
    number_with(section.tag, section.id)
}

/// The place in the index of the first `binary` section whose id is an address in hex.
pub fn first_binary(index: &Index, addr: u64) -> Option<usize>
    ensures section { section_in index.now result ≡ binary_section addr (sections_in index.now) }
    ensures within { IfSome result (λ i. i < length index.now.headers) }
{
    index.first_hex(b"binary", addr)
}
