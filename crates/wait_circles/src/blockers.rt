// That for which processes wait.
ghost use Rattle.std.specs.Prelude.{◌≡◌, ◌+◌, ◌<◌, ◌≤◌, ◌++◌, length, option_to_list, slice_index, slice_set, IfOk, OnOk};
ghost use Rattle.wait_circles.specs.Inner.Leading.{CountsTokens, LeadWithin};
ghost use Rattle.wait_circles.specs.Inner.Blocking.{AreLeft, CountsAll, node_blocker, node_blockers};

use crate::blocker::Blocker;
use std::alloc::{AllocError, Global};
use text_groups::sort_most_first;

// Takes the count of a number, of which none is left then.
fn take_count(direct: &mut Vec<u32>, v: usize) -> u32
    requires { v < length direct.old.items }
    ensures count { result ≡ slice_index direct.old.items v }
    ensures rest { direct.new.items ≡ slice_set direct.old.items v 0 }
{
    let count = direct[v];
    direct[v] = 0;
    count
}

// That for which a process waits, if it is the first that waits for it.
fn take_blocker(
    leads: &[Option<u32>],
    counts: &[u32],
    direct: &mut Vec<u32>,
    process: u32,
) -> Option<Blocker>
    requires place { process < length leads.now }
    requires within { LeadWithin leads.now (length leads.now) }
    requires counts { CountsAll leads.now counts.now }
    requires left { AreLeft leads.now direct.old.items process }
    ensures blocker { result ≡ node_blocker leads.now process }
    ensures left { AreLeft leads.now direct.new.items (process + 1) }
{
    let lead = leads[process as usize]?;
    let count = take_count(direct, lead as usize);
    if count == 0 {
        return None;
    }
    Some(Blocker {
        first: process,
        all: counts[lead as usize],
        direct: count,
    })
}

// Appends that for which a process waits, if there is one.
fn push_blocker(blockers: &mut Vec<Blocker>, blocker: Option<Blocker>) -> Result<(), AllocError>
    ensures { OnOk result (blockers.new.items ≡ blockers.old.items ++ option_to_list blocker) }
{
    if let Some(blocker) = blocker {
        blockers.push(blocker)?;
    }
    Ok(())
}

/// That for which the first `count` processes wait, given how many come to each number and how
/// many lead there: that to which most come first, of equal ones that for which a process waits first.
pub(crate) fn blockers(
    alloc: Global,
    leads: &[Option<u32>],
    counts: &[u32],
    direct: &mut Vec<u32>,
    count: u32,
) -> Result<Vec<Blocker>, AllocError>
    requires few { count ≤ length leads.now }
    requires within { LeadWithin leads.now (length leads.now) }
    requires counts { CountsAll leads.now counts.now }
    requires direct { CountsTokens leads.now direct.old.items (length leads.now) }
    ensures { IfOk result (λ found. found.items ≡ node_blockers leads.now count) }
{
    let mut blockers = Vec::new(alloc);
    for process in 0..count {
        let blocker = take_blocker(leads, counts, direct, process);
        push_blocker(&mut blockers, blocker)?;
    }
    sort_most_first(&mut blockers)?;
    Ok(blockers)
}
