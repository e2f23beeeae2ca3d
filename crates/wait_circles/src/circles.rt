// The circles that are left when all other numbers were peeled off.
ghost use Rattle.std.specs.Prelude.{◌≡◌, ℕ, ◌+◌, ◌-◌, ◌<◌, ◌≤◌, ◌^◌, All, cond, drop, length, map, Some, None, IfOk, OnOk};
ghost use Rattle.wait_circles.specs.Circles.{numbered};
ghost use Rattle.wait_circles.specs.Inner.Leading.{onto};
ghost use Rattle.wait_circles.specs.Inner.Peeling.{ArePeeling, IsPeeledUpto};
ghost use Rattle.wait_circles.specs.Inner.Telling.{AreTold, AreTelling, LeadBelow, TakesCircle, WalksCircle, circles_below};

use crate::on_circle::OnCircle;
use crate::tokens::Tokens;
use std::alloc::{AllocError, Global};

// What stands behind the first so many.
fn behind(on: &[OnCircle], start: usize) -> &[OnCircle]
    requires { start ≤ length on.now }
    ensures { result.now ≡ drop start on.now }
{
    &on[start..]
}

// How many circles there are with one more, if it is one.
fn counted(circles: u32, is_one: bool) -> u32
    requires { circles + 1 < 2 ^ 32 }
    ensures { result ≡ circles + cond is_one 1 0 }
{
    if is_one { circles + 1 } else { circles }
}

impl Tokens {
    // Takes the circle on which `home` is: appends its numbers, from this one on, and returns how many tokens lie on it.
    fn walk_circle(
        &mut self,
        home: u32,
        circle: u32,
        on: &mut Vec<OnCircle>,
    ) -> Result<u32, AllocError>
        requires telling { AreTelling self.old home }
        requires few { length self.old.leads.items < 2 ^ 32 }
        requires left { (w : ℕ) × (onto self.old.left.items home ≡ Some w) }
        ensures { IfOk result (WalksCircle self.old self.new home circle on.old.items on.new.items) }
    {
        let mut total = 0;
        let mut v = home;
        while let Some(next) = self.left[v as usize] {
            self.left[v as usize] = None;
            on.push(OnCircle { circle, process: v })?;
            total += self.counts[v as usize];
            v = next;
        }
        Ok(total)
    }

    // Sets how many come to each number of a circle.
    fn tell_circle(&mut self, on: &[OnCircle], all: u32)
        requires { All (λ one. one.process < length self.old.counts.items) on.now }
        ensures { AreTold self.old self.new (map (λ one. one.process) on.now) all }
    {
        for one in on {
            self.counts[one.process as usize] = all;
        }
    }

    // Takes the circle on which `home` is, if it is on one that is left, and returns whether it is.
    fn take_circle(
        &mut self,
        home: u32,
        circle: u32,
        on: &mut Vec<OnCircle>,
    ) -> Result<bool, AllocError>
        requires telling { AreTelling self.old home }
        requires few { length self.old.leads.items < 2 ^ 32 }
        requires within { home < length self.old.leads.items }
        ensures { IfOk result (TakesCircle self.old self.new home circle on.old.items on.new.items) }
    {
        if self.left[home as usize].is_none() {
            return Ok(false);
        }
        let start = on.len();
        let total = self.walk_circle(home, circle, on)?;
        self.tell_circle(behind(on, start), total - 1);
        Ok(true)
    }

    /// Takes the circles that are left, one after another, given how many numbers lead to one at most: appends their
    /// numbers, and returns how many circles there are. Of each number it is known then how many come to it.
    pub fn take_circles(
        &mut self,
        alloc: Global,
        count: u32,
    ) -> Result<(Vec<OnCircle>, u32), AllocError>
        requires peeling { ArePeeling self.old }
        requires all { IsPeeledUpto self.old.left.items (length self.old.leads.items) (length self.old.leads.items) }
        requires few { length self.old.leads.items < 2 ^ 32 }
        requires count { count ≤ length self.old.leads.items }
        requires below { LeadBelow self.old.leads.items count }
        ensures leads { OnOk result (self.new.leads.items ≡ self.old.leads.items) }
        ensures told { OnOk result (AreTelling self.new count) }
        ensures on { IfOk result (λ found. found.0.items
            ≡ numbered 1 (circles_below self.old.leads.items count count)) }
        ensures circles { IfOk result (λ found. found.1
            ≡ length (circles_below self.old.leads.items count count)) }
    {
        let mut on = Vec::new(alloc);
        let mut circles = 0;
        for home in 0..count {
            let is_one = self.take_circle(home, circles + 1, &mut on)?;
            circles = counted(circles, is_one);
        }
        Ok((on, circles))
    }
}
