// The numbers of that for which processes wait.
ghost use Rattle.std.specs.Prelude.{◌≡◌, ℕ, List, ◌<◌, ◌^◌, length, Some, None, IfOk};
ghost use Rattle.text_groups.specs.Numbers.{IsGrown};
ghost use Rattle.wait_circles.specs.Inner.Leading.{LeadWithin};
ghost use Rattle.wait_circles.specs.Inner.Numbering.{node_of, AreNumbered, IsLead, IsNumbered};

use crate::waiting::Waiting;
use std::alloc::{AllocError, Global};
use text_groups::TextNumbers;

// The number of a target: that of the process whose pid it is, or one behind those of the `count` processes.
fn number_of<'a, W: Waiting>(
    waiting: &'a W,
    count: u32,
    others: &mut TextNumbers<'a>,
    target: &'a [u8],
) -> Result<u32, AllocError>
    requires { count ≡ length (W.waiters waiting.now) }
    ensures grown { IsGrown others.old others.new }
    ensures number { IfOk result (λ number.
        node_of (W.waiters waiting.now) others.new target.now ≡ Some number) }
{
    if let Some(process) = waiting.find(target) {
        return Ok(process as u32);
    }
    let number = others.number(target)?;
    match count.checked_add(number) {
        Some(number) => Ok(number),
        None => Err(AllocError),
    }
}

// The number of the target of a process, if it has one.
fn number_at<'a, W: Waiting>(
    waiting: &'a W,
    count: u32,
    others: &mut TextNumbers<'a>,
    process: usize,
) -> Result<Option<u32>, AllocError>
    requires count { count ≡ length (W.waiters waiting.now) }
    requires place { process < length (W.waiters waiting.now) }
    ensures grown { IsGrown others.old others.new }
    ensures lead { IfOk result (IsLead (W.waiters waiting.now) others.new process) }
{
    match waiting.target(process) {
        Some(target) => Ok(Some(number_of(waiting, count, others, target)?)),
        None => Ok(None),
    }
}

// The numbers of the targets of all processes, and how many targets are no pids of processes.
fn number_all<W: Waiting>(
    alloc: Global,
    waiting: &W,
    count: u32,
) -> Result<(Vec<Option<u32>>, usize), AllocError>
    requires { count ≡ length (W.waiters waiting.now) }
    ensures { IfOk result (λ found. (others : List (List ℕ)) × (found.1 ≡ length others)
        × AreNumbered (W.waiters waiting.now) others found.0.items (length (W.waiters waiting.now))) }
{
    let mut others = TextNumbers::new(alloc);
    let mut leads = Vec::new(alloc);
    for process in 0..waiting.len() {
        let number = number_at(waiting, count, &mut others, process)?;
        leads.push(number)?;
    }
    Ok((leads, others.len()))
}

/// For each process the number of its target, if it has one. The first numbers are those of the processes; behind them
/// come the targets that are no pids of processes, which lead nowhere. Returns `AllocError` only for a lack of memory,
/// or where there are 2^32 numbers.
pub(crate) fn number_targets<W: Waiting>(
    alloc: Global,
    waiting: &W,
) -> Result<Vec<Option<u32>>, AllocError>
    ensures numbered { IfOk result (λ leads. (others : List (List ℕ))
        × IsNumbered (W.waiters waiting.now) others leads.items) }
    ensures within { IfOk result (λ leads. LeadWithin leads.items (length leads.items)) }
    ensures few { IfOk result (λ leads. length leads.items < 2 ^ 32) }
{
    let Ok(count) = u32::try_from(waiting.len()) else {
        return Err(AllocError);
    };
    let (mut leads, others) = number_all(alloc, waiting, count)?;
    let Some(numbers) = leads.len().checked_add(others) else {
        return Err(AllocError);
    };
    if u32::try_from(numbers).is_err() {
        return Err(AllocError);
    }
    leads.resize(numbers, None)?;
    Ok(leads)
}
