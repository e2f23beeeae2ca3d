// How many findings of each kind an audit has.
ghost use Rattle.std.specs.Prelude.{◌≡◌, count_by};
ghost use Rattle.dump_triage.specs.FindingCounts.{counts_of, is_link_finding, is_monitor_from, is_monitor_to, is_unread_links, is_unread_queue};

use dump_audit::Finding;

/// How many findings of each kind there are in an audit that isn't full.
#[derive(Clone, Copy)]
pub struct FindingCounts {
    /// Links to a process that has none back.
    pub links: u64,
    /// Monitors of a process that doesn't know of them.
    pub monitors_to: u64,
    /// Monitors by a process that doesn't know of them.
    pub monitors_from: u64,
    /// Unread link lists.
    pub unread_links: u64,
    /// Lengths of message queues that are no numbers.
    pub unread_queues: u64,
}

fn count_links(findings: &[Finding]) -> u64
    ensures { result ≡ count_by is_link_finding findings.now }
{
    findings
        .iter()
        .filter(|finding| matches!(finding, Finding::LinkOneSided { .. }))
        .count() as u64
}

fn count_monitors_to(findings: &[Finding]) -> u64
    ensures { result ≡ count_by is_monitor_to findings.now }
{
    findings
        .iter()
        .filter(|finding| matches!(finding, Finding::MonitorTo { .. }))
        .count() as u64
}

fn count_monitors_from(findings: &[Finding]) -> u64
    ensures { result ≡ count_by is_monitor_from findings.now }
{
    findings
        .iter()
        .filter(|finding| matches!(finding, Finding::MonitorFrom { .. }))
        .count() as u64
}

fn count_unread_links(findings: &[Finding]) -> u64
    ensures { result ≡ count_by is_unread_links findings.now }
{
    findings
        .iter()
        .filter(|finding| matches!(finding, Finding::UnreadLinks { .. }))
        .count() as u64
}

fn count_unread_queues(findings: &[Finding]) -> u64
    ensures { result ≡ count_by is_unread_queue findings.now }
{
    findings
        .iter()
        .filter(|finding| matches!(finding, Finding::UnreadQueue { .. }))
        .count() as u64
}

// How many findings of each kind there are.
pub(crate) fn counts_of(findings: &[Finding]) -> FindingCounts
    ensures { result ≡ counts_of findings.now }
{
    FindingCounts {
        links: count_links(findings),
        monitors_to: count_monitors_to(findings),
        monitors_from: count_monitors_from(findings),
        unread_links: count_unread_links(findings),
        unread_queues: count_unread_queues(findings),
    }
}
