// Numbers that lead to others, and how many come to each.
ghost use Rattle.std.specs.Prelude.{◌≡◌, ◌+◌, ◌<◌, ◌^◌, length, slice_index, Some, None, IfOk, IfSome};
ghost use Rattle.wait_circles.specs.Inner.Leading.{tokens, CountsLead, CountsTokens, LeadWithin};
ghost use Rattle.wait_circles.specs.Inner.Peeling.{ArePeeling, IsPeeledUpto, PeelsOne};

use std::alloc::{AllocError, Global};

/// Numbers that lead to others, each to one at most. Each that does has a token, which lies where it leads at first. A
/// number to which none leads any more is peeled off: it leads nowhere from then on, and the tokens at it go on to where
/// it led. How many lay there then is how many come to it, since it is on no circle. What is left at last are circles.
#[derive(Drop)]
pub(crate) struct Tokens {
    /// To which number each leads, if to any.
    pub leads: Vec<Option<u32>>,
    /// What is left of that.
    pub left: Vec<Option<u32>>,
    /// How many tokens lie at each number, or how many lay there when it was peeled off.
    pub counts: Vec<u32>,
    /// How many numbers lead to each still.
    pub incoming: Vec<u32>,
}

// Counts where a number leads.
fn count_lead(counts: &mut Vec<u32>, lead: Option<u32>)
    requires { IfSome lead (λ v. (v < length counts.old.items)
        × (slice_index counts.old.items v + 1 < 2 ^ 32)) }
    ensures { CountsLead counts.old.items counts.new.items lead }
{
    if let Some(v) = lead {
        counts[v as usize] += 1;
    }
}

/// How many numbers lead to each.
pub(crate) fn count_leads(alloc: Global, leads: &[Option<u32>]) -> Result<Vec<u32>, AllocError>
    requires within { LeadWithin leads.now (length leads.now) }
    requires few { length leads.now < 2 ^ 32 }
    ensures { IfOk result (λ counts. CountsTokens leads.now counts.items (length leads.now)) }
{
    let mut counts = vec![in alloc; 0u32; leads.len()]?;
    for v in 0..leads.len() {
        count_lead(&mut counts, leads[v]);
    }
    Ok(counts)
}

// The same numbers once more.
fn copy_leads(alloc: Global, leads: &[Option<u32>]) -> Result<Vec<Option<u32>>, AllocError>
    ensures { IfOk result (λ copy. copy.items ≡ leads.now) }
{
    leads.iter().copied().collect(alloc)
}

// The same counts once more.
fn copy_counts(alloc: Global, counts: &[u32]) -> Result<Vec<u32>, AllocError>
    ensures { IfOk result (λ copy. copy.items ≡ counts.now) }
{
    counts.iter().copied().collect(alloc)
}

impl Tokens {
    /// The tokens of numbers that lead to others.
    pub fn of(alloc: Global, leads: Vec<Option<u32>>) -> Result<Tokens, AllocError>
        requires within { LeadWithin leads.items (length leads.items) }
        requires few { length leads.items < 2 ^ 32 }
        ensures leads { IfOk result (λ made. made.leads.items ≡ leads.items) }
        ensures peeling { IfOk result ArePeeling }
    {
        let left = copy_leads(alloc, leads.as_slice())?;
        let counts = count_leads(alloc, leads.as_slice())?;
        let incoming = copy_counts(alloc, counts.as_slice())?;
        Ok(Tokens {
            leads,
            left,
            counts,
            incoming,
        })
    }

    // Peels a number off, and returns where it led.
    fn peel_one(&mut self, v: u32) -> Option<u32>
        requires peeling { ArePeeling self.old }
        requires few { length self.old.leads.items < 2 ^ 32 }
        requires within { v < length self.old.leads.items }
        requires none { slice_index self.old.incoming.items v ≡ 0 }
        ensures peels { PeelsOne self.old self.new v result }
    {
        let next = self.left[v as usize]?;
        self.left[v as usize] = None;
        self.counts[next as usize] += self.counts[v as usize];
        self.incoming[next as usize] -= 1;
        Some(next)
    }

    // Peels a number off, if none leads to it, and those that can be peeled off then, one after another.
    fn peel_from(&mut self, from: u32)
        requires peeling { ArePeeling self.old }
        requires few { length self.old.leads.items < 2 ^ 32 }
        requires within { from < length self.old.leads.items }
        requires before { IsPeeledUpto self.old.left.items from from }
        ensures leads { self.new.leads.items ≡ self.old.leads.items }
        ensures peeling { ArePeeling self.new }
        ensures upto { IsPeeledUpto self.new.left.items (from + 1) (from + 1) }
    {
        let mut v = from;
        while self.incoming[v as usize] == 0 {
            match self.peel_one(v) {
                Some(next) => v = next,
                None => return,
            }
        }
    }

    /// Peels off all numbers that can be peeled off.
    pub fn peel(&mut self)
        requires peeling { ArePeeling self.old }
        requires few { length self.old.leads.items < 2 ^ 32 }
        ensures leads { self.new.leads.items ≡ self.old.leads.items }
        ensures peeling { ArePeeling self.new }
        ensures all { IsPeeledUpto self.new.left.items (length self.old.leads.items) (length self.old.leads.items) }
    {
        for v in 0..self.leads.len() {
            self.peel_from(v as u32);
        }
    }
}
