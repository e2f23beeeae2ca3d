// The link lists of several processes, as callers see them.
ghost use Rattle.std.specs.Prelude.{◌≡◌, ◌+◌, ◌^◌, ◌<◌, ◌++◌, [], ◌∷◌, length, slice_get, Some, IfOk};
ghost use Rattle.link_graph.specs.Entries.{entries_at};
ghost use Rattle.link_graph.specs.Lists.{no_links, links_in, links_at, has_kind};
ghost use Rattle.link_graph.specs.Seen.{shown_kind, shown_entry};

use crate::lists::Lists;
use crate::shapes::{Entry, EntryKind};
use std::alloc::{AllocError, Global};
use std::marker::Model;

/// The entries of link lists, one list after another. A list is identified by its place, from 0.
/// Whether a list has an entry of a kind is found without a pass over the list, if it is long.
#[derive(Drop)]
pub struct EntryLists<'a> {
    lists: Lists<'a>,
}

impl<'a> Model for EntryLists<'a> {
    ghost use Rattle.std.specs.Prelude.{List};
    ghost use Rattle.link_graph.specs.Lists.{Links};
    ghost use Rattle.link_graph.specs.Inner.Spans.{lists_in, AreSpans};

    ghost Value = { List Links };

    ghost view = { λ own. lists_in own.lists };

    ghost invariant = { λ own. AreSpans own.lists };
}

impl<'a> EntryLists<'a> {
    /// No lists, with room for this many.
    pub fn new(alloc: Global, count: usize) -> Result<EntryLists<'a>, AllocError>
        ensures { IfOk result (λ lists. lists ≡ []) }
    {
        Ok(EntryLists {
            lists: Lists::new(alloc, count)?,
        })
    }

    /// The lists and one more without entries, for a process that has no link list.
    pub fn with_none(self) -> Result<EntryLists<'a>, AllocError>
        ensures { IfOk result (λ lists. lists ≡ self.entry ++ no_links ∷ []) }
    {
        let mut lists = self.lists;
        lists.push_none(false)?;
        Ok(EntryLists { lists })
    }

    /// The lists and one more, which has this text and begins at the offset.
    /// If the text isn't a list, the one more is unread and has no entries.
    pub fn with_list(
        self,
        alloc: Global,
        at: u64,
        text: &'a [u8],
    ) -> Result<EntryLists<'a>, AllocError>
        requires place { at + length text.now < 2 ^ 64 }
        requires short { length text.now < 2 ^ 32 }
        ensures { IfOk result (λ lists. lists
            ≡ self.entry ++ links_in (entries_at at text.now) ∷ []) }
    {
        let mut lists = self.lists;
        lists.push_text(alloc, at, text)?;
        Ok(EntryLists { lists })
    }

    /// How many entries a list has.
    pub fn count(&self, p: usize) -> u32
        requires { p < length self.now }
        ensures { result ≡ length (links_at self.now p).entries }
    {
        self.lists.count(p)
    }

    /// An entry of a list, by its number from 0.
    pub fn entry(&self, p: usize, n: u32) -> Entry<'_>
        requires place { p < length self.now }
        requires number { n < length (links_at self.now p).entries }
        ensures { slice_get (links_at self.now p).entries n ≡ Some (shown_entry result) }
    {
        self.lists.entry(p, n)
    }

    /// Whether the text of a list isn't one.
    pub fn unread(&self, p: usize) -> bool
        requires { p < length self.now }
        ensures { result ≡ (links_at self.now p).unread }
    {
        self.lists.is_unread(p)
    }

    /// Whether an entry of a list says this, with the same texts byte for byte.
    pub fn has(&self, p: usize, wanted: &EntryKind<'_>) -> bool
        requires { p < length self.now }
        ensures { result ≡ has_kind (shown_kind wanted.now) (links_at self.now p).entries }
    {
        self.lists.has(p, wanted)
    }
}
