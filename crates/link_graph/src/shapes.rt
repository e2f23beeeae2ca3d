//! The entries of a link list, and the iterator that shares
//! its name with the function of [`reading`](crate::reading).
ghost use Rattle.std.specs.Prelude.{◌≡◌, ◌+◌, ◌<◌, ◌^◌, ◌≤◌, length, IfSome};
ghost use Rattle.std.specs.Iterator.{YieldsFirstBy, item_count};
ghost use Rattle.link_graph.specs.Entries.{entries_at};
ghost use Rattle.link_graph.specs.Seen.{shown_entry};

use crate::kinds::kind;
use crate::list_parts::Parts;
use std::marker::Model;

/// What an entry of a link list says. The slices are parts of the list's text.
#[derive(Clone, Copy, PartialEq, Eq, PartialOrd, Ord)]
pub enum EntryKind<'a> {
    /// A link to the process with this pid.
    Link(&'a [u8]),
    /// A link to a port.
    LinkPort,
    /// The process monitors the process with this pid, under this reference.
    To(&'a [u8], &'a [u8]),
    /// The process monitors a port.
    ToPort,
    /// The process monitors a registered name, under this reference.
    ToName(&'a [u8]),
    /// The process with this pid monitors the process, under this reference.
    From(&'a [u8], &'a [u8]),
    /// A port monitors the process.
    FromPort,
    /// Anything else.
    Other,
}

/// An entry of a link list.
#[derive(Clone, Copy)]
pub struct Entry<'a> {
    /// The offset of the entry's first byte.
    pub at: u64,
    /// The entry's text, as it stands in the list.
    pub text: &'a [u8],
    /// What the entry says.
    pub kind: EntryKind<'a>,
}

/// The entries of a link list that are still to come, in order. Contracts see them as a list.
#[derive(Drop)]
pub struct Entries<'a> {
    parts: Parts<'a>,
}

impl<'a> Model for Entries<'a> {
    ghost use Rattle.std.specs.Prelude.{List, map};
    ghost use Rattle.link_graph.specs.Entries.{LinkEntry, entry_of};

    ghost Value = { List LinkEntry };

    ghost view = { λ entries. map entry_of entries.parts };
}

impl<'a> Entries<'a> {
    // The entries of a list that begins at the offset.
    pub(crate) fn new(at: u64, text: &'a [u8]) -> Option<Entries<'a>>
        requires { at + length text.now < 2 ^ 64 }
        ensures value { result ≡ entries_at at text.now }
        ensures count { IfSome result (λ left. length left ≤ length text.now) }
    {
        Some(Entries {
            parts: Parts::new(at, text)?,
        })
    }
}

impl<'a> Iterator for Entries<'a> {
    type Item = Entry<'a>;

    ghost next_gives = { YieldsFirstBy shown_entry (λ entries. entries) };

    ghost remaining = { item_count (λ entries. entries) };

    fn next(&mut self) -> Option<Entry<'a>> {
        let piece = self.parts.next()?;
        Some(Entry {
            at: piece.at,
            text: piece.text,
            kind: kind(piece.text),
        })
    }
}
