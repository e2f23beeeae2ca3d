// The index of a dump.
ghost use Rattle.std.specs.Prelude.{◌≡◌, ℕ, ◌+◌, ◌-◌, ◌<◌, ◌≤◌, List, length, slice_get, Some, All};
ghost use Rattle.std.specs.List.{between};
ghost use Rattle.std.specs.Option.{option_copied};
ghost use Rattle.dump_io.specs.Dumps.{Now, size_of};
ghost use Rattle.dump_io.specs.Limits.{usual};
ghost use Rattle.dump_sections.specs.Bodies.{body_in, body_size, body_start, section_at, section_in, IsPlaceIn};
ghost use Rattle.dump_sections.specs.Index.{Contents, AreBounded, HasShortLine, IsBuiltOver, sections_in, dump_state, IsLastPlace};
ghost use Rattle.dump_sections.specs.Sections.{sections_of, end_at, tag_of, id_of};
ghost use Rattle.dump_sections.specs.Shown.{shown_extent, shown_section};
ghost use Rattle.dump_sections.specs.Tiling.{Tile};

use crate::header_text::tag_and_id;
use crate::headers::Headers;
use crate::version::Version;
use std::marker::Model;

/// Where a section is, and the text of its header: a [`Section`] whose tag and id weren't looked for.
#[derive(Clone, Copy)]
pub struct Extent<'a> {
    /// The offset in the file at which the header's line begins.
    pub at: u64,
    /// The offset in the file at which the body begins, after the header's line.
    pub body: u64,
    /// The offset in the file at which the body ends.
    pub end: u64,
    /// The header's line without its LF, and without a CR directly before that.
    pub text: &'a [u8],
}

/// A section of a dump: a header and the bytes up to the next header or the end of the dump.
#[derive(Clone, Copy)]
pub struct Section<'a> {
    /// The offset in the file at which the header's line begins.
    pub at: u64,
    /// The offset in the file at which the body begins, after the header's line.
    pub body: u64,
    /// The offset in the file at which the body ends.
    pub end: u64,
    /// The header's line without its LF, and without a CR directly before that.
    pub text: &'a [u8],
    /// What stands between the equals sign and the first colon, or the end of the text.
    pub tag: &'a [u8],
    /// What follows that colon; if there is no colon, there is no id.
    pub id: Option<&'a [u8]>,
}

/// Whether a dump was written to its end.
#[derive(Clone, Copy)]
pub enum State {
    /// The last section's tag is `end`.
    Whole,
    /// The dump is truncated in its last section, which is at this place, from 0.
    TruncatedIn(usize),
}

// Where the section at a place ends.
fn end_of(headers: &Headers, i: usize, size: u64) -> u64
    requires { i < length headers.now }
    ensures { result ≡ end_at headers.now size i }
{
    let count = headers.len();
    if i + 1 < count {
        headers.header(i + 1).at
    } else {
        size
    }
}

/// The sections of a dump in order, with the dump's size and version. There is at least one section, and
/// together they are the whole dump.
#[derive(Drop)]
pub struct Index {
    headers: Headers,
    size: u64,
    version: Version,
}

impl Model for Index {
    ghost Value = { Contents };

    ghost view = { λ i. record { headers = i.headers; size = i.size; version = i.version } };

    ghost invariant = { λ i. AreBounded (record {
      headers = i.headers;
      size = i.size;
      version = i.version;
    }) };
}

impl Index {
    /// An index of a dump of this size and version that has these headers.
    pub fn new(headers: Headers, size: u64, version: Version) -> Index
        requires some { 1 ≤ length headers }
        requires sections { length headers ≤ usual.sections }
        requires size { size ≤ usual.dump }
        requires lines { All HasShortLine headers }
        requires tiled { Tile 0 size (sections_of headers size) }
        ensures { result ≡ record { headers = headers; size = size; version = version } }
    {
        Index {
            headers,
            size,
            version,
        }
    }

    /// The number of sections.
    pub fn len(&self) -> usize
        ensures value { result ≡ length self.now.headers }
        ensures sections { result ≡ length (sections_in self.now) }
        ensures bounded { AreBounded self.now }
    {
        self.headers.len()
    }

    /// The number of bytes of the file.
    pub fn size(&self) -> u64
        ensures value { result ≡ self.now.size }
        ensures bounded { AreBounded self.now }
    {
        self.size
    }

    /// The version of the dump's format.
    pub fn version(&self) -> Version
        ensures { result ≡ self.now.version }
    {
        self.version
    }

    /// Whether the dump is whole, or the place of the section in which it is truncated.
    pub fn state(&self) -> State
        ensures value { result ≡ dump_state self.now.headers }
        ensures last { IsLastPlace result (length self.now.headers) }
    {
        let last = self.headers.len() - 1;
        let header = self.headers.header(last);
        let (tag, _) = tag_and_id(header.text);
        if tag == b"end".as_slice() {
            State::Whole
        } else {
            State::TruncatedIn(last)
        }
    }

    // The text of the header at a place, without looking for its tag or id.
    pub(crate) fn text(&self, i: usize) -> &[u8]
        requires { i < length self.now.headers }
        ensures place { slice_get (sections_in self.now) i ≡ Some (section_at self.now i) }
        ensures text { result.now ≡ (section_at self.now i).text }
    {
        self.headers.header(i).text
    }

    /// Where the section at a place, from 0, is, and the text of its header.
    pub fn extent(&self, i: usize) -> Extent<'_>
        requires { i < length self.now.headers }
        ensures place { slice_get (sections_in self.now) i ≡ Some (shown_extent result) }
        ensures at_place { section_at self.now i ≡ shown_extent result }
        ensures begins { result.at < result.body }
        ensures line { result.at + length result.text.now ≤ result.body }
        ensures short { result.body ≤ result.at + usual.header + 1 }
        ensures ends { result.body ≤ result.end }
        ensures within { result.end ≤ self.now.size }
        ensures small { result.end ≤ usual.dump }
    {
        let header = self.headers.header(i);
        let end = end_of(&self.headers, i, self.size);
        Extent {
            at: header.at,
            body: header.body,
            end,
            text: header.text,
        }
    }

    /// The section at a place, from 0.
    pub fn section(&self, i: usize) -> Section<'_>
        requires { i < length self.now.headers }
        ensures place { slice_get (sections_in self.now) i ≡ Some (shown_section result) }
        ensures at_place { section_at self.now i ≡ shown_section result }
        ensures tag { result.tag.now ≡ tag_of result.text.now }
        ensures id { option_copied result.id ≡ id_of result.text.now }
        ensures begins { result.at < result.body }
        ensures line { result.at + length result.text.now ≤ result.body }
        ensures short { result.body ≤ result.at + usual.header + 1 }
        ensures ends { result.body ≤ result.end }
        ensures within { result.end ≤ self.now.size }
        ensures small { result.end ≤ usual.dump }
    {
        let extent = self.extent(i);
        let (tag, id) = tag_and_id(extent.text);
        Section {
            at: extent.at,
            body: extent.body,
            end: extent.end,
            text: extent.text,
            tag,
            id,
        }
    }

    /// The offsets in the file at which the body of the section at a place, from 0, begins and
    /// ends. A section that is missing counts as an empty one at the beginning of the file.
    pub fn body_at(&self, place: Option<usize>) -> (u64, u64)
        requires { IsPlaceIn self.now place }
        ensures start { result.0 ≡ body_start (section_in self.now place) }
        ensures ordered { result.0 ≤ result.1 }
        ensures size { result.1 - result.0 ≡ body_size (section_in self.now place) }
        ensures body { (dump : List ℕ) → between result.0 result.1 dump
            ≡ body_in dump (section_in self.now place) }
        ensures within { (now : Now) → IsBuiltOver now self.now → result.1 ≤ size_of now }
    {
        let Some(i) = place else {
            return (0, 0);
        };
        let section = self.extent(i);
        (section.body, section.end)
    }
}
