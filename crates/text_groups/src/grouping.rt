// Which items have the same text.
ghost use Rattle.std.specs.Prelude.{◌≡◌, ◌+◌, ◌<◌, ◌^◌, ◌++◌, length, take, All, IfOk, OnOk};
ghost use Rattle.std.specs.Option.{option_to_list};
ghost use Rattle.text_groups.specs.Groups.{group_at, groups, item_at};
ghost use Rattle.text_groups.specs.Inner.Counting.{AreLeft, AreTallied, tallied, tally_or_none};

use crate::grouped::Grouped;
use crate::text_group::TextGroup;
use std::alloc::{AllocError, Global};
use std::collections::BTreeMap;

// How many items have a text, and their weight together, at most 2^64 - 1.
#[derive(Clone, Copy, Drop)]
pub(crate) struct Tally {
    pub count: u64,
    pub weight: u64,
}

// The tally of a text so far.
fn tally_in(tallies: &BTreeMap<&[u8], Tally>, text: &[u8]) -> Tally
    ensures { result ≡ tally_or_none (tallied tallies.now text.now) }
{
    match tallies.get(text) {
        Some(tally) => *tally,
        None => Tally {
            count: 0,
            weight: 0,
        },
    }
}

// Counts the item at a place, after those before it.
fn count_item<'a, G: Grouped>(
    tallies: &mut BTreeMap<&'a [u8], Tally>,
    grouped: &'a G,
    i: usize,
) -> Result<(), AllocError>
    requires place { i < length (G.items grouped.now) }
    requires fits { i + 1 < 2 ^ 64 }
    requires before { AreTallied tallies.old (take i (G.items grouped.now)) }
    ensures { OnOk result (AreTallied tallies.new (take (i + 1) (G.items grouped.now))) }
{
    let text = grouped.text(i);
    let weight = grouped.weight(i);
    let before = tally_in(tallies, text);
    let tally = Tally {
        count: before.count + 1,
        weight: before.weight.saturating_add(weight),
    };
    tallies.insert(text, tally)?;
    Ok(())
}

// How many items have each text.
fn count_items<'a, G: Grouped>(
    alloc: Global,
    grouped: &'a G,
) -> Result<BTreeMap<&'a [u8], Tally>, AllocError>
    ensures { IfOk result (λ tallies. AreTallied tallies (G.items grouped.now)) }
{
    let mut tallies = BTreeMap::new(alloc);
    for i in 0..grouped.len() {
        count_item(&mut tallies, grouped, i)?;
    }
    Ok(tallies)
}

// The group of the item at a place, if that is the first of it. The tally is
// taken from the tree, so that the next of the group doesn't find it.
fn take_group<'a, G: Grouped>(
    tallies: &mut BTreeMap<&'a [u8], Tally>,
    grouped: &'a G,
    i: usize,
) -> Option<TextGroup>
    requires place { i < length (G.items grouped.now) }
    requires left { AreLeft tallies.old (G.items grouped.now) i }
    ensures group { result ≡ group_at (G.items grouped.now) (i, item_at (G.items grouped.now) i) }
    ensures left { AreLeft tallies.new (G.items grouped.now) (i + 1) }
{
    let tally = tallies.remove(grouped.text(i))?;
    Some(TextGroup {
        first: i,
        count: tally.count,
        weight: tally.weight,
    })
}

// Appends a group, if there is one.
pub(crate) fn push_group(
    groups: &mut Vec<TextGroup>,
    group: Option<TextGroup>,
) -> Result<(), AllocError>
    ensures { OnOk result (groups.new.items ≡ groups.old.items ++ option_to_list group) }
{
    if let Some(group) = group {
        groups.push(group)?;
    }
    Ok(())
}

/// The groups of items that have the same text, in the order of their first ones. Returns `AllocError`
/// only for a lack of memory. The time is that of looking up each text among the others twice.
pub fn group_texts<G: Grouped>(alloc: Global, grouped: &G) -> Result<Vec<TextGroup>, AllocError>
    ensures groups { IfOk result (λ found. found.items ≡ groups (G.items grouped.now)) }
    ensures firsts { IfOk result (λ found.
        All (λ group. group.first < length (G.items grouped.now)) found.items) }
{
    let mut tallies = count_items(alloc, grouped)?;
    let mut groups = Vec::new(alloc);
    for i in 0..grouped.len() {
        push_group(&mut groups, take_group(&mut tallies, grouped, i))?;
    }
    Ok(groups)
}
