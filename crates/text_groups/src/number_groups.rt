// Which items have the same number.
ghost use Rattle.std.specs.Prelude.{◌≡◌, ℕ, List, ◌<◌, All, map, length, slice_index, slice_set, IfOk};
ghost use Rattle.text_groups.specs.Groups.{groups};
ghost use Rattle.text_groups.specs.Numbers.{weightless, HaveNumbers};
ghost use Rattle.text_groups.specs.Inner.Numbers.{counted_group, AreCounts};

use crate::grouping::push_group;
use crate::text_group::TextGroup;
use std::alloc::{AllocError, Global};

// For each number below `different` how many of these are it.
fn count_numbers(alloc: Global, numbers: &[u32], different: usize) -> Result<Vec<u64>, AllocError>
    requires { All (λ n. n < different) numbers.now }
    ensures counts { IfOk result (λ counts. AreCounts counts.items numbers.now) }
    ensures len { IfOk result (λ counts. length counts.items ≡ different) }
{
    let mut counts = vec![in alloc; 0u64; different]?;
    for n in numbers {
        counts[*n as usize] += 1;
    }
    Ok(counts)
}

// Takes the count of a number, of which none is left then.
fn take_count(counts: &mut Vec<u64>, n: usize) -> u64
    requires { n < length counts.old.items }
    ensures count { result ≡ slice_index counts.old.items n }
    ensures rest { counts.new.items ≡ slice_set counts.old.items n 0 }
{
    let count = counts[n];
    counts[n] = 0;
    count
}

// The group of so many items, if there is one.
fn counted_group(first: usize, count: u64) -> Option<TextGroup>
    ensures { result ≡ counted_group first count }
{
    if count == 0 {
        return None;
    }
    Some(TextGroup {
        first,
        count,
        weight: 0,
    })
}

/// The groups of texts that are the same, given their numbers, in the order of their first ones; `different` is above all
/// numbers. No text is looked at: the time is linear in how many there are. Returns `AllocError` only for a lack of memory.
pub fn group_numbers(
    alloc: Global,
    numbers: &[u32],
    different: usize,
) -> Result<Vec<TextGroup>, AllocError>
    requires { All (λ n. n < different) numbers.now }
    ensures groups { IfOk result (λ found. (known texts : List (List ℕ)) → HaveNumbers known texts numbers.now
        → found.items ≡ groups (map weightless texts)) }
    ensures firsts { IfOk result (λ found. All (λ group. group.first < length numbers.now) found.items) }
{
    let mut counts = count_numbers(alloc, numbers, different)?;
    let mut groups = Vec::new(alloc);
    for i in 0..numbers.len() {
        let count = take_count(&mut counts, numbers[i] as usize);
        push_group(&mut groups, counted_group(i, count))?;
    }
    Ok(groups)
}
