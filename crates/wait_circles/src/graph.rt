// Who waits for whom.
ghost use Rattle.std.specs.Prelude.{◌≡◌, ◌<◌, ◌≤◌, ◌^◌, length, IfOk};
ghost use Rattle.wait_circles.specs.Circles.{numbered};
ghost use Rattle.wait_circles.specs.Report.{wait_report};
ghost use Rattle.wait_circles.specs.Inner.Leading.{LeadWithin};
ghost use Rattle.wait_circles.specs.Inner.Blocking.{CountsAll};
ghost use Rattle.wait_circles.specs.Inner.Telling.{LeadBelow, circles_below};

use crate::blocker::Blocker;
use crate::blockers::blockers;
use crate::numbering::number_targets;
use crate::on_circle::OnCircle;
use crate::tokens::{Tokens, count_leads};
use crate::waiting::Waiting;
use std::alloc::{AllocError, Global};
use std::marker::Model;

/// What is found of processes that wait for one another: that for which they wait, with
/// how many come to it, and the circles of processes, each of which waits for the next one.
#[derive(Drop)]
pub struct WaitGraph {
    blockers: Vec<Blocker>,
    on_circles: Vec<OnCircle>,
    circles: u32,
}

impl Model for WaitGraph {
    ghost use Rattle.wait_circles.specs.Report.{WaitReport};

    ghost Value = { WaitReport };

    ghost view = { λ g. record {
      blockers = g.blockers.items;
      on_circles = g.on_circles.items;
      circles = g.circles;
    } };
}

// Peels off what is on no circle, and takes the circles, of numbers of which
// the first `count` may lead to others. Of each number it is known then how many come to it.
fn peel_all(
    alloc: Global,
    leads: Vec<Option<u32>>,
    count: u32,
) -> Result<(Tokens, Vec<OnCircle>, u32), AllocError>
    requires within { LeadWithin leads.items (length leads.items) }
    requires few { length leads.items < 2 ^ 32 }
    requires count { count ≤ length leads.items }
    requires below { LeadBelow leads.items count }
    ensures leads { IfOk result (λ found. found.0.leads.items ≡ leads.items) }
    ensures told { IfOk result (λ found. CountsAll leads.items found.0.counts.items) }
    ensures on { IfOk result (λ found. found.1.items ≡ numbered 1 (circles_below leads.items count count)) }
    ensures circles { IfOk result (λ found. found.2 ≡ length (circles_below leads.items count count)) }
{
    let mut tokens = Tokens::of(alloc, leads)?;
    tokens.peel();
    let (on_circles, circles) = tokens.take_circles(alloc, count)?;
    Ok((tokens, on_circles, circles))
}

impl WaitGraph {
    /// Finds who comes to what, and the circles. The time is that of looking up each target among the pids of the
    /// processes, and among the other targets if it is no pid, and linear in how many processes there are beside that:
    /// neither a chain nor a circle of any length takes longer. `AllocError` comes for a lack of memory, or where there
    /// are 2^32 processes and other targets.
    pub fn of<W: Waiting>(alloc: Global, waiting: &W) -> Result<WaitGraph, AllocError>
        ensures { IfOk result (λ graph. graph ≡ wait_report (W.waiters waiting.now)) }
    {
        let leads = number_targets(alloc, waiting)?;
        let count = waiting.len() as u32;
        let (tokens, on_circles, circles) = peel_all(alloc, leads, count)?;
        let mut direct = count_leads(alloc, tokens.leads.as_slice())?;
        let blockers = blockers(
            alloc,
            tokens.leads.as_slice(),
            tokens.counts.as_slice(),
            &mut direct,
            count,
        )?;
        Ok(WaitGraph {
            blockers,
            on_circles,
            circles,
        })
    }

    /// That for which processes wait: that to which most come first, of equal ones that for which a process waits first.
    pub fn blockers(&self) -> &[Blocker]
        ensures { result.now ≡ self.now.blockers }
    {
        self.blockers.as_slice()
    }

    /// The processes on circles, of each circle from its first one on, in the order of
    /// waiting; the circles are in the order of their first processes.
    pub fn on_circles(&self) -> &[OnCircle]
        ensures { result.now ≡ self.now.on_circles }
    {
        self.on_circles.as_slice()
    }

    /// How many circles there are.
    pub fn circles(&self) -> u32
        ensures { result ≡ self.now.circles }
    {
        self.circles
    }
}
