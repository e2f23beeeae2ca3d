// The tag and the id of a header.
ghost use Rattle.std.specs.Prelude.{◌≡◌};
ghost use Rattle.std.specs.Option.{option_copied};
ghost use Rattle.dump_sections.specs.Sections.{header_name, tag_of, id_of};

use dump_io::split_at_colon;

// A header's text after its equals sign.
fn header_name(text: &[u8]) -> &[u8]
    ensures { result.now ≡ header_name text.now }
{
    match text.split_first() {
        Some((_, name)) => name,
        None => text,
    }
}

/// The tag and the id of a header's text: what stands between its
/// first byte and the first colon, and what follows that colon.
pub fn tag_and_id(text: &[u8]) -> (&[u8], Option<&[u8]>)
    ensures tag { result.0.now ≡ tag_of text.now }
    ensures id { option_copied result.1 ≡ id_of text.now }
{
    let name = header_name(text);
    match split_at_colon(name) {
        Some((tag, id)) => (tag, Some(id)),
        None => (name, None),
    }
}
