// The findings on links and monitors.
ghost use Rattle.std.specs.Prelude.{◌≡◌, ◌<◌, ◌||◌, ◌++◌, length, slice_get, Some, OnOk};
ghost use Rattle.std.specs.Option.{option_to_list};
ghost use Rattle.process_table.specs.Processes.{process_at};
ghost use Rattle.link_graph.specs.Graph.{links_of};
ghost use Rattle.link_graph.specs.Seen.{shown_kind, shown_entry};
ghost use Rattle.dump_audit.specs.Findings.{is_own_link, is_answered, one_sided, gone, entry_finding, entry_findings};
ghost use Rattle.dump_audit.specs.Inner.Audited.{IsHolder, entries_in, held};

use crate::audited::{Audited, Holder, Partner};
use crate::finding::Finding;
use crate::views::partner_pid;
use link_graph::{Entry, EntryKind};
use std::alloc::AllocError;

// Adds a finding, if there is one.
pub(crate) fn push_found(
    findings: &mut Vec<Finding>,
    found: Option<Finding>,
) -> Result<(), AllocError>
    ensures { OnOk result (findings.new.items ≡ findings.old.items ++ option_to_list found) }
{
    if let Some(finding) = found {
        findings.push(finding)?;
    }
    Ok(())
}

// The finding that an entry has no counterpart in the link list of its partner `q`.
fn one_sided(
    kind: EntryKind<'_>,
    p: u32,
    q: u32,
    entry: u32,
    at: u64,
    other: u64,
) -> Option<Finding>
    ensures { result ≡ one_sided (shown_kind kind.entry) p q entry at other }
{
    match kind {
        EntryKind::Link(_) => Some(Finding::LinkOneSided {
            p,
            q,
            entry,
            at,
            other,
        }),
        EntryKind::To(_, _) => Some(Finding::MonitorTo {
            p,
            q,
            entry,
            at,
            other,
        }),
        EntryKind::From(_, _) => Some(Finding::MonitorFrom {
            p,
            q,
            entry,
            at,
            other,
        }),
        _ => None,
    }
}

// The finding that the partner of an entry isn't in the dump.
fn gone(kind: EntryKind<'_>, p: u32, entry: u32, at: u64, other: u64) -> Option<Finding>
    ensures { result ≡ gone (shown_kind kind.entry) p entry at other }
{
    match kind {
        EntryKind::Link(_) => Some(Finding::LinkGone {
            p,
            entry,
            at,
            other,
        }),
        EntryKind::To(_, _) => Some(Finding::ToGone {
            p,
            entry,
            at,
            other,
        }),
        EntryKind::From(_, _) => Some(Finding::FromGone {
            p,
            entry,
            at,
            other,
        }),
        _ => None,
    }
}

impl<'a> Audited<'a> {
    // Whether an entry has a counterpart in the link list of its partner `q`, or needs none, as a link to itself.
    fn is_settled(&self, holder: &Holder<'_>, kind: EntryKind<'_>, q: usize) -> bool
        requires { q < length self.now.processes }
        ensures { let shown = shown_kind kind.entry in
            let partner = process_at self.now.processes q in
            result ≡ (is_own_link shown holder.now.p q
            || is_answered holder.now.pid.now shown (links_of partner.links)) }
    {
        match kind {
            EntryKind::Link(_) => q == holder.p || self.graph.has_link(q, holder.pid),
            EntryKind::To(_, reference) => self.graph.has_from(q, holder.pid, reference),
            EntryKind::From(_, reference) => {
                self.graph.has_to(q, holder.pid, reference) || self.graph.has_to_name(q, reference)
            }
            _ => false,
        }
    }

    // The finding on the entry with this number.
    fn finding(&self, holder: &Holder<'_>, number: u32, entry: &Entry<'_>) -> Option<Finding>
        requires { IsHolder self.now holder.now }
        ensures { result ≡ entry_finding self.now holder.now.p (held self.now holder.now)
            number entry.now.at (shown_kind entry.now.kind) }
    {
        let p = holder.p as u32;
        let pid = partner_pid(entry.kind)?;
        match self.partner(pid) {
            Partner::Passed => None,
            Partner::Gone => gone(entry.kind, p, number, entry.at, self.offset(holder.p)),
            Partner::At(q) => {
                if self.is_settled(holder, entry.kind, q) {
                    return None;
                }
                one_sided(entry.kind, p, q as u32, number, entry.at, self.offset(q))
            }
        }
    }

    fn entry_count(&self, holder: &Holder<'_>) -> u32
        requires { IsHolder self.now holder.now }
        ensures { result ≡ length (entries_in (held self.now holder.now)) }
    {
        self.graph.count(holder.p)
    }

    fn entry_at(&self, holder: &Holder<'_>, number: u32) -> Entry<'_>
        requires holder { IsHolder self.now holder.now }
        requires number { number < length (entries_in (held self.now holder.now)) }
        ensures { let entries = entries_in (held self.now holder.now) in
            slice_get entries number ≡ Some (shown_entry result) }
    {
        self.graph.entry(holder.p, number)
    }

    // Adds the findings on the entries of a process.
    pub fn add_entries(
        &self,
        holder: &Holder<'_>,
        findings: &mut Vec<Finding>,
    ) -> Result<(), AllocError>
        requires { IsHolder self.now holder.now }
        ensures { OnOk result (findings.new.items ≡ findings.old.items
            ++ (let process = held self.now holder.now in
            entry_findings self.now holder.now.p process (entries_in process))) }
    {
        for number in 0..self.entry_count(holder) {
            let entry = self.entry_at(holder, number);
            push_found(findings, self.finding(holder, number, &entry))?;
        }
        Ok(())
    }
}
