// The audit of a dump.
ghost use Rattle.std.specs.Prelude.{◌≡◌, ◌<◌, ◌^◌, ◌&&◌, ◌++◌, true, not, length, map, All, is_some, None, Some, IfOk, OnOk};
ghost use Rattle.std.specs.Option.{option_copied, option_map};
ghost use Rattle.process_table.specs.Processes.{IsProcessIn, process_at};
ghost use Rattle.link_graph.specs.Texts.{is_local};
ghost use Rattle.link_graph.specs.Graph.{links_of, graph_of};
ghost use Rattle.dump_audit.specs.Findings.{is_cut, is_whole, is_dumped, is_judged, link_findings, process_findings, findings, findings_in};
ghost use Rattle.dump_audit.specs.Fitting.{Fits};
ghost use Rattle.dump_audit.specs.declared.finding.Finding.TheVariants.{UnreadLinks};
ghost use Rattle.dump_audit.specs.Inner.Audited.{IsHolder, held, held_offset};

use crate::audited::{Audited, Holder};
use crate::finding::Finding;
use crate::linking::push_found;
use dump_sections::{Index, State};
use link_graph::{Graph, is_local};
use process_table::Procs;
use std::alloc::{AllocError, Global};

/// Whether a dump in this state is truncated in the section at a place.
pub fn is_cut(state: State, section: usize) -> bool
    ensures { result ≡ is_cut state section }
{
    match state {
        State::Whole => false,
        State::TruncatedIn(last) => section == last,
    }
}

fn is_whole(state: State) -> bool
    ensures { result ≡ is_whole state }
{
    match state {
        State::Whole => true,
        State::TruncatedIn(_) => false,
    }
}

fn is_judged(state: State, section: usize, pid: &[u8], unread: bool) -> bool
    ensures { result ≡ (not (is_cut state section) && is_local pid.now && not unread) }
{
    !is_cut(state, section) && is_local(pid) && !unread
}

// Which processes are judged.
fn all_judged(
    alloc: Global,
    index: &Index,
    procs: &Procs,
    graph: &Graph<'_>,
) -> Result<Vec<bool>, AllocError>
    requires { graph.now ≡ graph_of procs.now.processes }
    ensures judged { IfOk result (λ tests. tests.items
        ≡ map (is_judged index.now) procs.now.processes) }
    ensures few { length procs.now.processes < 2 ^ 32 }
{
    let state = index.state();
    let mut judged = Vec::new(alloc);
    for p in 0..procs.len() {
        judged.push(is_judged(state, procs.section(p), procs.pid(p), graph.unread(p)))?;
    }
    Ok(judged)
}

impl<'a> Audited<'a> {
    fn is_unread(&self, holder: &Holder<'_>) -> bool
        requires { IsHolder self.now holder.now }
        ensures { result ≡ (links_of (held self.now holder.now).links).unread }
    {
        self.graph.unread(holder.p)
    }

    // The finding on the link list of a process, if it is unread.
    fn unread_links(&self, holder: &Holder<'_>) -> Option<Finding>
        requires { IsHolder self.now holder.now }
        ensures { let offset = held_offset self.now holder.now in
            result ≡ option_map (λ line. UnreadLinks holder.now.p line.at offset)
            (held self.now holder.now).links }
    {
        let line = self.procs.links(holder.p)?;
        Some(Finding::UnreadLinks {
            p: holder.p as u32,
            at: line.at,
            other: self.offset(holder.p),
        })
    }

    // Adds the findings on the link list of a dumped process.
    fn add_links(&self, holder: &Holder<'_>, findings: &mut Vec<Finding>) -> Result<(), AllocError>
        requires holder { IsHolder self.now holder.now }
        requires dumped { is_dumped self.now.index (held self.now holder.now) ≡ true }
        ensures { OnOk result (findings.new.items ≡ findings.old.items
            ++ link_findings self.now holder.now.p (held self.now holder.now)) }
    {
        if self.is_unread(holder) {
            push_found(findings, self.unread_links(holder))
        } else if self.judged[holder.p] {
            self.add_entries(holder, findings)
        } else {
            Ok(())
        }
    }

    // Adds the findings on the process at a place.
    fn add_process(&self, p: usize, findings: &mut Vec<Finding>) -> Result<(), AllocError>
        requires { p < length self.now.processes }
        ensures { OnOk result (findings.new.items ≡ findings.old.items
            ++ process_findings self.now (p, process_at self.now.processes p)) }
    {
        if is_cut(self.state, self.procs.section(p)) {
            return Ok(());
        }
        let holder = self.holder(p);
        self.add_links(&holder, findings)?;
        self.add_queue(&holder, findings)
    }

    fn len(&self) -> usize
        ensures { result ≡ length self.now.processes }
    {
        self.procs.len()
    }

    fn findings(&self, alloc: Global) -> Result<Vec<Finding>, AllocError>
        ensures { IfOk result (λ found. found.items ≡ findings self.now) }
    {
        let mut found = Vec::new(alloc);
        for p in 0..self.len() {
            self.add_process(p, &mut found)?;
        }
        Ok(found)
    }
}

// Whether processes that aren't in the dump are reported.
fn names_gone(mails: &Option<&[Option<u64>]>, state: State) -> bool
    ensures { result ≡ (is_some (option_copied mails.now) && is_whole state) }
{
    mails.is_some() && is_whole(state)
}

/// What [`audit`] finds if `mails` is `None`, and otherwise
/// what [`audit_full`] finds with these numbers of messages.
pub fn audit_with(
    alloc: Global,
    index: &Index,
    procs: &Procs,
    graph: &Graph<'_>,
    limit: u64,
    mails: Option<&[Option<u64>]>,
) -> Result<Vec<Finding>, AllocError>
    requires graph { graph.now ≡ graph_of procs.now.processes }
    requires sections { All (IsProcessIn index.now) procs.now.processes }
    ensures found { IfOk result (λ found. found.items
        ≡ findings_in index.now procs.now limit (option_copied mails.entry)) }
    ensures fits { IfOk result (λ found. All (Fits procs.now.processes) found.items) }
{
    let judged = all_judged(alloc, index, procs, graph)?;
    let state = index.state();
    let audited = Audited {
        index,
        procs,
        graph,
        limit,
        mails,
        state,
        judged: &judged,
        names_gone: names_gone(&mails, state),
    };
    audited.findings(alloc)
}

/// All findings in a dump, process by process in dump order; for each
/// process first those on its link list, then those on its message queue.
///
/// A process counts unless the dump is truncated in its section. A link or a monitor between two
/// such processes of the dumped node is reported if the partner's list lacks its counterpart and
/// isn't unread; a partner without a `Link list` line has no entries. A link of a process to
/// itself isn't reported. A message queue is reported if its stated length is above `limit`.
pub fn audit(
    alloc: Global,
    index: &Index,
    procs: &Procs,
    graph: &Graph<'_>,
    limit: u64,
) -> Result<Vec<Finding>, AllocError>
    requires graph { graph.now ≡ graph_of procs.now.processes }
    requires sections { All (IsProcessIn index.now) procs.now.processes }
    ensures found { IfOk result (λ found. found.items
        ≡ findings_in index.now procs.now limit None) }
    ensures fits { IfOk result (λ found. All (Fits procs.now.processes) found.items) }
{
    audit_with(alloc, index, procs, graph, limit, None)
}

/// All findings of [`audit`], and two more kinds of findings: in a whole dump, the links and monitors with
/// processes of the dumped node that aren't in it; and the stated lengths of message queues that aren't the
/// numbers of their messages. `mails` has that number for each process of the table, in its order, if it is known.
pub fn audit_full(
    alloc: Global,
    index: &Index,
    procs: &Procs,
    graph: &Graph<'_>,
    limit: u64,
    mails: &[Option<u64>],
) -> Result<Vec<Finding>, AllocError>
    requires graph { graph.now ≡ graph_of procs.now.processes }
    requires sections { All (IsProcessIn index.now) procs.now.processes }
    requires mails { length mails.now ≡ length procs.now.processes }
    ensures found { IfOk result (λ found. found.items
        ≡ findings_in index.now procs.now limit (Some mails.now)) }
    ensures fits { IfOk result (λ found. All (Fits procs.now.processes) found.items) }
{
    audit_with(alloc, index, procs, graph, limit, Some(mails))
}
