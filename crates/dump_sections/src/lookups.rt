// Finding sections by their tag and id.
ghost use Rattle.std.specs.Prelude.{◌≡◌, ◌<◌, length, IfSome};
ghost use Rattle.std.specs.Option.{option_copied, option_and_then};
ghost use Rattle.dump_sections.specs.Bodies.{section_in};
ghost use Rattle.dump_sections.specs.Index.{sections_in};
ghost use Rattle.dump_io.specs.Numbers.{hex_number};
ghost use Rattle.dump_sections.specs.Lookups.{has_tag, is_named, has_hex, place_where, first_where, first_tagged, first_hex};
ghost use Rattle.dump_sections.specs.Inner.Wanted.{is_wanted};

use crate::header_text::tag_and_id;
use crate::index::Index;
use dump_io::hex_u64;

// What a section is looked up by.
#[derive(Clone, Copy)]
enum Wanted<'a> {
    // Exactly this tag and id.
    Named(&'a [u8], Option<&'a [u8]>),
    // This tag, with or without an id.
    Tagged(&'a [u8]),
    // This tag, and an id that is this number in hex.
    Hex(&'a [u8], u64),
}

// The number that an id is in hex.
fn hex_id(id: Option<&[u8]>) -> Option<u64>
    ensures { result ≡ option_and_then hex_number (option_copied id.entry) }
{
    hex_u64(id?)
}

fn is_named(text: &[u8], tag: &[u8], id: Option<&[u8]>) -> bool
    ensures { result ≡ is_named tag.now (option_copied id.entry) text.now }
{
    let (found, found_id) = tag_and_id(text);
    found == tag && found_id == id
}

fn has_tag(text: &[u8], tag: &[u8]) -> bool
    ensures { result ≡ has_tag tag.now text.now }
{
    let (found, _) = tag_and_id(text);
    found == tag
}

fn has_hex(text: &[u8], tag: &[u8], n: u64) -> bool
    ensures { result ≡ has_hex tag.now n text.now }
{
    let (found, id) = tag_and_id(text);
    found == tag && hex_id(id) == Some(n)
}

fn is_wanted(text: &[u8], wanted: &Wanted<'_>) -> bool
    ensures { result ≡ is_wanted wanted.now text.now }
{
    match wanted {
        Wanted::Named(tag, id) => is_named(text, tag, *id),
        Wanted::Tagged(tag) => has_tag(text, tag),
        Wanted::Hex(tag, n) => has_hex(text, tag, *n),
    }
}

// The place of the first section that is wanted.
fn position(index: &Index, wanted: &Wanted<'_>) -> Option<usize>
    ensures place { result ≡ place_where (is_wanted wanted.now) (sections_in index.now) }
    ensures section { section_in index.now result
        ≡ first_where (is_wanted wanted.now) (sections_in index.now) }
    ensures within { IfSome result (λ i. i < length index.now.headers) }
{
    for i in 0..index.len() {
        if is_wanted(index.text(i), wanted) {
            return Some(i);
        }
    }
    None
}

impl Index {
    /// The place of the first section with exactly this tag and id, compared byte for byte. An `id` of
    /// `None` asks for a header without a colon. Returns `None` exactly when there is no such section.
    pub fn first(&self, tag: &[u8], id: Option<&[u8]>) -> Option<usize>
        ensures place { result ≡ place_where (is_named tag.now (option_copied id.entry))
            (sections_in self.now) }
        ensures section { section_in self.now result
            ≡ first_where (is_named tag.now (option_copied id.entry)) (sections_in self.now) }
        ensures within { IfSome result (λ i. i < length self.now.headers) }
    {
        position(self, &Wanted::Named(tag, id))
    }

    /// The place of the first section with this tag, with or without
    /// an id. Returns `None` exactly when there is no such section.
    pub fn first_tag(&self, tag: &[u8]) -> Option<usize>
        ensures place { result ≡ place_where (has_tag tag.now) (sections_in self.now) }
        ensures section { section_in self.now result ≡ first_tagged tag.now (sections_in self.now) }
        ensures within { IfSome result (λ i. i < length self.now.headers) }
    {
        position(self, &Wanted::Tagged(tag))
    }

    /// The place of the first section with this tag and an id that is `n` in hex, as
    /// [`hex_u64`] reads it. Returns `None` exactly when there is no such section.
    pub fn first_hex(&self, tag: &[u8], n: u64) -> Option<usize>
        ensures place { result ≡ place_where (has_hex tag.now n) (sections_in self.now) }
        ensures section { section_in self.now result ≡ first_hex tag.now n (sections_in self.now) }
        ensures within { IfSome result (λ i. i < length self.now.headers) }
    {
        position(self, &Wanted::Hex(tag, n))
    }
}
