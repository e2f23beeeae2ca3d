// Which findings are in flight.
ghost use Rattle.std.specs.Prelude.{◌≡◌, List, All, IfOk};
ghost use Rattle.process_table.specs.Processes.{Process};
ghost use Rattle.dump_audit.specs.Fitting.{Fits};
ghost use Rattle.dump_audit.specs.Flight.{in_flight, is_in_flight, is_signalled_at, settled};

use crate::finding::Finding;
use std::alloc::{AllocError, Global};

/// The findings of an audit, of which those in flight stand apart.
#[derive(Drop)]
pub struct Parted {
    /// The findings that aren't in flight, in their order.
    pub settled: Vec<Finding>,
    /// The findings in flight, in their order.
    pub in_flight: Vec<Finding>,
}

// Whether signals wait for the process at a place.
fn is_signalled_at(signalled: &[bool], p: u32) -> bool
    ensures { result ≡ is_signalled_at signalled.now p }
{
    match signalled.get(p as usize) {
        Some(waits) => *waits,
        None => false,
    }
}

// Whether a finding is in flight.
fn is_in_flight(signalled: &[bool], finding: &Finding) -> bool
    ensures { result ≡ is_in_flight signalled.now finding.now }
{
    match finding {
        Finding::LinkOneSided { p, q, .. } => {
            is_signalled_at(signalled, *p) || is_signalled_at(signalled, *q)
        }
        Finding::MonitorTo { q, .. } => is_signalled_at(signalled, *q),
        Finding::MonitorFrom { p, .. }
        | Finding::LinkGone { p, .. }
        | Finding::ToGone { p, .. }
        | Finding::FromGone { p, .. } => is_signalled_at(signalled, *p),
        _ => false,
    }
}

/// Parts the findings of an audit, given for each process whether signals wait for it, as
/// [`signalled`](process_table::signalled) says.
///
/// A monitor of a process is in flight if signals wait for that process; a monitor by a process, and a finding on a process
/// that isn't in the dump, if they wait for the process that the finding is on; a link if they wait for either of the two.
/// No other finding is. Returns `AllocError` only for a lack of memory.
pub fn part(alloc: Global, signalled: &[bool], findings: &[Finding]) -> Result<Parted, AllocError>
    ensures settled { IfOk result (λ parted. parted.settled.items ≡ settled signalled.now findings.now) }
    ensures in_flight { IfOk result (λ parted.
        parted.in_flight.items ≡ in_flight signalled.now findings.now) }
    ensures fits { (processes : List Process) → All (Fits processes) findings.now
        → IfOk result (λ parted. All (Fits processes) parted.settled.items) }
{
    let mut parted = Parted {
        settled: Vec::new(alloc),
        in_flight: Vec::new(alloc),
    };
    for finding in findings {
        if is_in_flight(signalled, finding) {
            parted.in_flight.push(*finding)?;
        } else {
            parted.settled.push(*finding)?;
        }
    }
    Ok(parted)
}
