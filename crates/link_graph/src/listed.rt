// An entry as it is stored among those of all lists: its text,
// and the layout of what it says, so that it is read once.
ghost use Rattle.std.specs.Prelude.{◌≡◌, ◌+◌, ◌≤◌, length};
ghost use Rattle.link_graph.specs.Kinds.{is_same_kind};
ghost use Rattle.link_graph.specs.Entries.{entry_of};
ghost use Rattle.link_graph.specs.Seen.{shown_kind, shown_entry};
ghost use Rattle.link_graph.specs.Inner.Cutting.{shown_piece};
ghost use Rattle.link_graph.specs.Inner.Layouts.{layout_of, partner_in, reference_in};

use crate::kinds::kind;
use crate::list_parts::Piece;
use crate::shapes::{Entry, EntryKind};
use std::marker::Model;

// What an entry says, without its texts, which are parts of the
// entry's own text. A number is the length of the reference.
#[derive(Clone, Copy)]
enum Layout {
    Link,
    LinkPort,
    To(usize),
    ToPort,
    ToName(usize),
    From(usize),
    FromPort,
    Other,
}

fn layout_of(kind: &EntryKind<'_>) -> Layout
    ensures { result ≡ layout_of (shown_kind kind.now) }
{
    match *kind {
        EntryKind::Link(_) => Layout::Link,
        EntryKind::LinkPort => Layout::LinkPort,
        EntryKind::To(_, reference) => Layout::To(reference.len()),
        EntryKind::ToPort => Layout::ToPort,
        EntryKind::ToName(reference) => Layout::ToName(reference.len()),
        EntryKind::From(_, reference) => Layout::From(reference.len()),
        EntryKind::FromPort => Layout::FromPort,
        EntryKind::Other => Layout::Other,
    }
}

// The reference of this length, before the closing `}`.
fn reference(text: &[u8], size: usize) -> &[u8]
    requires { size + 1 ≤ length text.now }
    ensures { result.now ≡ reference_in size text.now }
{
    let end = text.len() - 1;
    &text[end - size..end]
}

// The partner, which stands after an opening of this length and before the comma of a reference of that length.
fn partner(text: &[u8], opening: usize, size: usize) -> &[u8]
    requires { opening + size + 2 ≤ length text.now }
    ensures { result.now ≡ partner_in opening size text.now }
{
    let comma = text.len() - 2 - size;
    &text[opening..comma]
}

#[derive(Drop)]
pub(crate) struct Listed<'a> {
    at: u64,
    text: &'a [u8],
    layout: Layout,
}

impl<'a> Model for Listed<'a> {
    ghost use Rattle.link_graph.specs.Entries.{LinkEntry, entry_of};
    ghost use Rattle.link_graph.specs.Inner.Layouts.{IsLaidOut};

    ghost Value = { LinkEntry };

    ghost view = { λ listed. entry_of (record { at = listed.at; text = listed.text.now }) };

    ghost invariant = { λ listed. IsLaidOut listed.layout listed.text.now };
}

impl<'a> Listed<'a> {
    // The entry that a part of a list is.
    pub fn new(piece: &Piece<'a>) -> Listed<'a>
        ensures { result ≡ entry_of (shown_piece piece.now) }
    {
        Listed {
            at: piece.at,
            text: piece.text,
            layout: layout_of(&kind(piece.text)),
        }
    }

    pub fn kind(&self) -> EntryKind<'a>
        ensures { shown_kind result ≡ self.now.kind }
    {
        let text = self.text;
        match self.layout {
            Layout::Link => EntryKind::Link(text),
            Layout::LinkPort => EntryKind::LinkPort,
            Layout::To(size) => EntryKind::To(partner(text, 4, size), reference(text, size)),
            Layout::ToPort => EntryKind::ToPort,
            Layout::ToName(size) => EntryKind::ToName(reference(text, size)),
            Layout::From(size) => EntryKind::From(partner(text, 6, size), reference(text, size)),
            Layout::FromPort => EntryKind::FromPort,
            Layout::Other => EntryKind::Other,
        }
    }

    pub fn entry(&self) -> Entry<'a>
        ensures { shown_entry result ≡ self.now }
    {
        Entry {
            at: self.at,
            text: self.text,
            kind: self.kind(),
        }
    }

    // Whether this is what the entry says.
    pub fn says(&self, wanted: &EntryKind<'_>) -> bool
        ensures { result ≡ is_same_kind (shown_kind wanted.now) self.now.kind }
    {
        *wanted == self.kind()
    }
}
