// What is told of a finding, by the places of processes and the numbers of entries in it.
ghost use Rattle.std.specs.Prelude.{◌≡◌, ◌<◌, length};
ghost use Rattle.std.specs.Option.{option_copied};
ghost use Rattle.link_graph.specs.Lists.{links_at};
ghost use Rattle.link_graph.specs.Seen.{shown_kind};
ghost use Rattle.link_graph.specs.Graph.{graph_of};
ghost use Rattle.dump_audit.specs.Findings.{partner_pid};
ghost use Rattle.dump_audit.specs.FindingViews.{kind_at, partner_at, pid_at, reference_at, shown_view, view_of};
ghost use Rattle.dump_audit.specs.Fitting.{Fits};

use crate::finding::Finding;
use link_graph::{EntryKind, Graph};
use process_table::Procs;

/// What a finding names besides its process.
#[derive(Clone, Copy)]
pub enum Named<'a> {
    /// Nothing else.
    Nothing,
    /// The pid of the other process of a link.
    Partner(&'a [u8]),
    /// The pid of the other process of a monitor, and the monitor's reference.
    Monitor(&'a [u8], &'a [u8]),
    /// How many messages a queue has, as its length is stated.
    Count(u64),
    /// How many messages a queue has as its length is stated, and how many as they are found.
    Counts(u64, u64),
}

/// What is told of a finding, as a line or as an object.
#[derive(Clone, Copy)]
pub struct FindingView<'a> {
    /// The word of the finding's kind.
    pub word: &'a str,
    /// The pid of the process.
    pub pid: &'a [u8],
    /// What else the finding names.
    pub named: Named<'a>,
    /// The offset in the file of the entry or the field's line.
    pub at: u64,
    /// The offset in the file of the section of the other process, or of the process itself.
    pub other: u64,
}

// What the entry with a number says, for the process at a place.
fn kind<'a>(procs: &Procs, graph: &'a Graph<'a>, p: u32, entry: u32) -> EntryKind<'a>
    requires graph { graph.now ≡ graph_of procs.now.processes }
    requires process { p < length graph.now }
    requires entry { entry < length (links_at graph.now p).entries }
    ensures { shown_kind result ≡ kind_at procs.now.processes p entry }
{
    let entry = graph.entry(p as usize, entry);
    entry.kind
}

/// The pid of the process that an entry speaks of: that of a link or of a monitor. Any other entry has none.
pub(crate) fn partner_pid<'a>(kind: EntryKind<'a>) -> Option<&'a [u8]>
    ensures { option_copied result ≡ partner_pid (shown_kind kind.entry) }
{
    match kind {
        EntryKind::Link(pid) | EntryKind::To(pid, _) | EntryKind::From(pid, _) => Some(pid),
        _ => None,
    }
}

// The pid that an entry speaks of; if it speaks of none, the text is empty.
fn partner<'a>(procs: &Procs, graph: &'a Graph<'a>, p: u32, entry: u32) -> &'a [u8]
    requires graph { graph.now ≡ graph_of procs.now.processes }
    requires process { p < length graph.now }
    requires entry { entry < length (links_at graph.now p).entries }
    ensures { result.now ≡ partner_at procs.now.processes p entry }
{
    partner_pid(kind(procs, graph, p, entry)).unwrap_or(b"")
}

// The reference of a monitor of or by a pid. Any other entry has an empty text here.
fn reference<'a>(procs: &Procs, graph: &'a Graph<'a>, p: u32, entry: u32) -> &'a [u8]
    requires graph { graph.now ≡ graph_of procs.now.processes }
    requires process { p < length graph.now }
    requires entry { entry < length (links_at graph.now p).entries }
    ensures { result.now ≡ reference_at procs.now.processes p entry }
{
    match kind(procs, graph, p, entry) {
        EntryKind::To(_, reference) | EntryKind::From(_, reference) => reference,
        _ => b"",
    }
}

// The pid of the process at a place.
fn pid(procs: &Procs, p: u32) -> &[u8]
    requires { p < length procs.now.processes }
    ensures { result.now ≡ pid_at procs.now.processes p }
{
    procs.pid(p as usize)
}

/// What is told of a finding. The graph is that of the processes, and the
/// finding fits them, as each of [`audit`](crate::audit) does.
pub fn view_of<'a>(procs: &'a Procs, graph: &'a Graph<'a>, finding: Finding) -> FindingView<'a>
    requires graph { graph.now ≡ graph_of procs.now.processes }
    requires fits { Fits procs.now.processes finding }
    ensures { shown_view result ≡ view_of procs.now.processes finding }
{
    let (word, p, named, at, other) = match finding {
        Finding::LinkOneSided {
            p,
            q,
            at,
            other,
            ..
        } => ("link", p, Named::Partner(pid(procs, q)), at, other),
        Finding::MonitorTo {
            p,
            q,
            entry,
            at,
            other,
        } => {
            let named = Named::Monitor(pid(procs, q), reference(procs, graph, p, entry));
            ("monitor-to", p, named, at, other)
        }
        Finding::MonitorFrom {
            p,
            q,
            entry,
            at,
            other,
        } => {
            let named = Named::Monitor(pid(procs, q), reference(procs, graph, p, entry));
            ("monitor-from", p, named, at, other)
        }
        Finding::Mailbox {
            p,
            count,
            at,
            other,
        } => ("mailbox", p, Named::Count(count), at, other),
        Finding::UnreadLinks { p, at, other } => ("unread-links", p, Named::Nothing, at, other),
        Finding::UnreadQueue { p, at, other } => ("unread-queue", p, Named::Nothing, at, other),
        Finding::LinkGone {
            p,
            entry,
            at,
            other,
        } => {
            let named = Named::Partner(partner(procs, graph, p, entry));
            ("link-gone", p, named, at, other)
        }
        Finding::ToGone {
            p,
            entry,
            at,
            other,
        } => {
            let (gone, reference) = (
                partner(procs, graph, p, entry),
                reference(procs, graph, p, entry),
            );
            ("to-gone", p, Named::Monitor(gone, reference), at, other)
        }
        Finding::FromGone {
            p,
            entry,
            at,
            other,
        } => {
            let (gone, reference) = (
                partner(procs, graph, p, entry),
                reference(procs, graph, p, entry),
            );
            ("from-gone", p, Named::Monitor(gone, reference), at, other)
        }
        Finding::QueueCount {
            p,
            stated,
            found,
            at,
            other,
        } => ("queue-count", p, Named::Counts(stated, found), at, other),
    };
    FindingView {
        word,
        pid: pid(procs, p),
        named,
        at,
        other,
    }
}
