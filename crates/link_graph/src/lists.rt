// The link lists of all processes, with their entries in one pool.
ghost use Rattle.std.specs.Prelude.{◌≡◌, ◌+◌, ◌^◌, ◌<◌, ◌≤◌, ◌++◌, [], length, map, drop, slice_get, Some, IfOk, OnOk};
ghost use Rattle.link_graph.specs.Entries.{entry_of, entries_at};
ghost use Rattle.link_graph.specs.Lists.{links_in, links_at, has_kind};
ghost use Rattle.link_graph.specs.Seen.{shown_kind, shown_entry};
ghost use Rattle.link_graph.specs.Inner.Sets.{AreKindsOf};
ghost use Rattle.link_graph.specs.Inner.Spans.{KeepsKinds, lists_in, AreSpans, HasGained};

use crate::kind_set::KindSet;
use crate::list_parts::Parts;
use crate::listed::Listed;
use crate::shapes::{Entry, EntryKind};
use std::alloc::{AllocError, Global};

// A list of at most this many entries is searched one by one; the kinds of a longer one are kept in a set.
const SHORT: usize = 16;

// Where the entries of a process stand among those of all,
// and the place of the set of their kinds, if they are many.
#[derive(Clone, Copy)]
pub(crate) struct Span {
    from: usize,
    upto: usize,
    kinds: usize,
    unread: bool,
}

// The link lists of processes. Most lists are short, so a vector for each would cost more than what it holds.
#[derive(Drop)]
pub(crate) struct Lists<'a> {
    entries: Vec<Listed<'a>>,
    spans: Vec<Span>,
    // The kinds of the entries of each long list.
    sets: Vec<KindSet<'a>>,
}

// Appends the parts of a list to the entries.
fn push_parts<'a>(entries: &mut Vec<Listed<'a>>, parts: Parts<'a>) -> Result<(), AllocError>
    ensures { OnOk result (entries.new.items ≡ entries.old.items ++ map entry_of parts.entry) }
{
    for piece in parts {
        entries.push(Listed::new(&piece))?;
    }
    Ok(())
}

fn all_kinds<'a>(alloc: Global, entries: &[Listed<'a>]) -> Result<KindSet<'a>, AllocError>
    ensures { IfOk result (AreKindsOf entries.now) }
{
    let mut kinds = Vec::with_capacity(alloc, entries.len())?;
    for entry in entries {
        kinds.push(entry.kind())?;
    }
    Ok(KindSet::of(kinds))
}

// Appends the kinds of the entries of a long list to the sets, and nothing for a short one.
fn push_kinds<'a>(
    alloc: Global,
    sets: &mut Vec<KindSet<'a>>,
    entries: &[Listed<'a>],
) -> Result<(), AllocError>
    ensures { OnOk result (KeepsKinds entries.now sets.old.items sets.new.items) }
{
    if entries.len() > SHORT {
        sets.push(all_kinds(alloc, entries)?)?;
    }
    Ok(())
}

// Appends the kinds of the entries from a place on, if they are a long list.
fn push_kinds_from<'a>(
    alloc: Global,
    sets: &mut Vec<KindSet<'a>>,
    entries: &[Listed<'a>],
    from: usize,
) -> Result<(), AllocError>
    requires { from ≤ length entries.now }
    ensures { OnOk result (KeepsKinds (drop from entries.now) sets.old.items sets.new.items) }
{
    push_kinds(alloc, sets, &entries[from..])
}

fn is_among(entries: &[Listed<'_>], wanted: &EntryKind<'_>) -> bool
    ensures { result ≡ has_kind (shown_kind wanted.now) entries.now }
{
    entries.iter().any(|entry| entry.says(wanted))
}

impl<'a> Lists<'a> {
    // No lists, with room for those of `processes` processes.
    pub fn new(alloc: Global, processes: usize) -> Result<Lists<'a>, AllocError>
        ensures lists { IfOk result (λ lists. lists_in lists ≡ []) }
        ensures within { IfOk result AreSpans }
    {
        Ok(Lists {
            entries: Vec::new(alloc),
            spans: Vec::with_capacity(alloc, processes)?,
            sets: Vec::new(alloc),
        })
    }

    // Appends a list without entries.
    pub fn push_none(&mut self, unread: bool) -> Result<(), AllocError>
        requires { AreSpans self.old }
        ensures { OnOk result (HasGained self.old self.new
            (record { unread = unread; entries = [] })) }
    {
        self.spans.push(Span {
            from: 0,
            upto: 0,
            kinds: 0,
            unread,
        })?;
        Ok(())
    }

    // Appends the list of this text, which stands at the offset in the file.
    pub fn push_text(&mut self, alloc: Global, at: u64, text: &'a [u8]) -> Result<(), AllocError>
        requires within { AreSpans self.old }
        requires place { at + length text.now < 2 ^ 64 }
        requires short { length text.now < 2 ^ 32 }
        ensures { OnOk result (HasGained self.old self.new (links_in (entries_at at text.now))) }
    {
        let Some(parts) = Parts::new(at, text) else {
            return self.push_none(true);
        };
        let from = self.entries.len();
        let kinds = self.sets.len();
        push_parts(&mut self.entries, parts)?;
        push_kinds_from(alloc, &mut self.sets, &self.entries, from)?;
        self.spans.push(Span {
            from,
            upto: self.entries.len(),
            kinds,
            unread: false,
        })?;
        Ok(())
    }

    pub fn is_unread(&self, p: usize) -> bool
        requires { p < length (lists_in self.now) }
        ensures { result ≡ (links_at (lists_in self.now) p).unread }
    {
        self.spans[p].unread
    }

    // How many entries the list at a place has.
    pub fn count(&self, p: usize) -> u32
        requires within { AreSpans self.now }
        requires place { p < length (lists_in self.now) }
        ensures { result ≡ length (links_at (lists_in self.now) p).entries }
    {
        let span = self.spans[p];
        (span.upto - span.from) as u32
    }

    // The entry with a number of the list at a place.
    pub fn entry(&self, p: usize, n: u32) -> Entry<'a>
        requires within { AreSpans self.now }
        requires place { p < length (lists_in self.now) }
        requires number { n < length (links_at (lists_in self.now) p).entries }
        ensures { slice_get (links_at (lists_in self.now) p).entries n ≡ Some (shown_entry result) }
    {
        let from = self.spans[p].from;
        self.entries[from + n as usize].entry()
    }

    // Whether an entry of the list at a place says this.
    pub fn has(&self, p: usize, wanted: &EntryKind<'_>) -> bool
        requires within { AreSpans self.now }
        requires place { p < length (lists_in self.now) }
        ensures { result ≡ has_kind (shown_kind wanted.now)
            (links_at (lists_in self.now) p).entries }
    {
        let span = self.spans[p];
        if span.upto - span.from > SHORT {
            self.sets[span.kinds].has(wanted)
        } else {
            is_among(&self.entries[span.from..span.upto], wanted)
        }
    }
}
