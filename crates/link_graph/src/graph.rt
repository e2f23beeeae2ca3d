// The link lists of all processes of a dump.
ghost use Rattle.std.specs.Prelude.{◌≡◌, ◌<◌, ◌++◌, [], ◌∷◌, length, slice_get, Some, IfOk};
ghost use Rattle.section_rows.specs.Rows.{IsBoundedCell};
ghost use Rattle.section_rows.specs.Shown.{shown_cell};
ghost use Rattle.link_graph.specs.Kinds.{Link, To, ToName, From};
ghost use Rattle.link_graph.specs.Lists.{links_at, has_kind};
ghost use Rattle.link_graph.specs.Seen.{shown_kind, shown_entry};
ghost use Rattle.link_graph.specs.Graph.{links_of, graph_of};

use crate::{Entry, EntryKind, EntryLists};
use process_table::{Kept, Procs};
use std::alloc::{AllocError, Global};
use std::marker::Model;

/// The links and monitors of the processes of a dump, as their link lists state
/// them. A process is identified by its place in the process table, from 0.
#[derive(Drop)]
pub struct Graph<'a> {
    lists: EntryLists<'a>,
}

impl<'a> Model for Graph<'a> {
    ghost use Rattle.std.specs.Prelude.{List};
    ghost use Rattle.link_graph.specs.Lists.{Links};

    ghost Value = { List Links };

    ghost view = { λ graph. graph.lists };
}

// The lists and one more, that of a process that has this link list, or none.
fn with_links<'a>(
    lists: EntryLists<'a>,
    alloc: Global,
    list: Option<Kept<'a>>,
) -> Result<EntryLists<'a>, AllocError>
    requires { IsBoundedCell (shown_cell list) }
    ensures { IfOk result (λ more. more ≡ lists.entry ++ links_of (shown_cell list.entry) ∷ []) }
{
    match list {
        None => lists.with_none(),
        Some(list) => lists.with_list(alloc, list.value_at, list.text),
    }
}

impl<'a> Graph<'a> {
    /// The links and monitors of the processes of a table. The offsets of the entries are offsets in the file.
    pub fn build(alloc: Global, procs: &'a Procs) -> Result<Graph<'a>, AllocError>
        ensures { IfOk result (λ graph. graph ≡ graph_of procs.now.processes) }
    {
        let mut lists = EntryLists::new(alloc, procs.len())?;
        for p in 0..procs.len() {
            lists = with_links(lists, alloc, procs.links(p))?;
        }
        Ok(Graph { lists })
    }
}

impl<'a> Graph<'a> {
    /// How many entries a process has. A process without a link list, or with an unread one, has none.
    pub fn count(&self, p: usize) -> u32
        requires { p < length self.now }
        ensures { result ≡ length (links_at self.now p).entries }
    {
        self.lists.count(p)
    }

    /// An entry of a process, by its number from 0.
    pub fn entry(&self, p: usize, n: u32) -> Entry<'_>
        requires place { p < length self.now }
        requires number { n < length (links_at self.now p).entries }
        ensures { slice_get (links_at self.now p).entries n ≡ Some (shown_entry result) }
    {
        self.lists.entry(p, n)
    }

    /// Whether a process has a link list that is unread: one of
    /// which [`entries`](crate::reading::entries) returns `None`.
    pub fn unread(&self, p: usize) -> bool
        requires { p < length self.now }
        ensures { result ≡ (links_at self.now p).unread }
    {
        self.lists.unread(p)
    }

    fn has(&self, p: usize, kind: &EntryKind<'_>) -> bool
        requires { p < length self.now }
        ensures { result ≡ has_kind (shown_kind kind.now) (links_at self.now p).entries }
    {
        self.lists.has(p, kind)
    }

    /// Whether a process has a link to this pid. Pids are compared byte for byte.
    pub fn has_link(&self, p: usize, pid: &[u8]) -> bool
        requires { p < length self.now }
        ensures { result ≡ has_kind (Link pid.now) (links_at self.now p).entries }
    {
        self.has(p, &EntryKind::Link(pid))
    }

    /// Whether a process monitors this pid, under this reference. Pids and references are compared byte for byte.
    pub fn has_to(&self, p: usize, pid: &[u8], reference: &[u8]) -> bool
        requires { p < length self.now }
        ensures { result ≡ has_kind (To pid.now reference.now) (links_at self.now p).entries }
    {
        self.has(p, &EntryKind::To(pid, reference))
    }

    /// Whether a process is monitored by this pid, under this reference. Pids and references are compared byte for byte.
    pub fn has_from(&self, p: usize, pid: &[u8], reference: &[u8]) -> bool
        requires { p < length self.now }
        ensures { result ≡ has_kind (From pid.now reference.now) (links_at self.now p).entries }
    {
        self.has(p, &EntryKind::From(pid, reference))
    }

    /// Whether a process monitors some registered name, under this reference. References are compared byte for byte.
    pub fn has_to_name(&self, p: usize, reference: &[u8]) -> bool
        requires { p < length self.now }
        ensures { result ≡ has_kind (ToName reference.now) (links_at self.now p).entries }
    {
        self.has(p, &EntryKind::ToName(reference))
    }
}
