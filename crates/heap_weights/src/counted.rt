// What parts hold, while cells are counted.
ghost use Rattle.std.specs.Prelude.{◌≡◌, ℕ, ◌+◌, ◌<◌, true, length, IfOk};
ghost use Rattle.cell_graphs.specs.Counts.{one_if};
ghost use Rattle.heap_weights.specs.Holders.{label_of};
ghost use Rattle.heap_weights.specs.Inner.Tallies.{added_if, all_of, alone_at, no_weight, sum_of, Gains, GainsAlone, AddUp};

use crate::holders::Holder;
use crate::shares::{Shares, Weight};
use std::alloc::{AllocError, Global};

// The cells that were counted. Each of them counts once, so that a cell costs little; sums are made at the end.
#[derive(Drop)]
pub(crate) struct Counted {
    // Of each part what it alone holds.
    alone: Vec<Weight>,
    // What two or more parts reach.
    shared: Weight,
    // What no part reaches.
    unheld: Weight,
}

// No cells.
fn no_weight() -> Weight
    ensures { result ≡ no_weight }
{
    Weight {
        cells: 0,
        words: 0,
        binaries: 0,
    }
}

fn one_if(is: bool) -> u32
    ensures { result ≡ one_if is }
{
    if is { 1 } else { 0 }
}

// One cell more, with its words, which refers to a binary or not.
fn added(words: u64, binary: bool, weight: Weight) -> Weight
    ensures { result ≡ added_if true words binary weight }
{
    Weight {
        cells: weight.cells.saturating_add(1),
        words: weight.words.saturating_add(u128::from(words)),
        binaries: weight.binaries.saturating_add(one_if(binary)),
    }
}

// One cell more is held by a part alone.
fn add_alone(alone: &mut [Weight], part: u32, words: u64, binary: bool)
    requires { part < length alone.old }
    ensures { GainsAlone (Holder.Part part) words binary alone.old alone.new }
{
    let place = part as usize;
    alone[place] = added(words, binary, alone[place]);
}

// What two sets of cells weigh together.
fn sum_of(a: Weight, b: Weight) -> Weight
    ensures { result ≡ sum_of a b }
{
    Weight {
        cells: a.cells.saturating_add(b.cells),
        words: a.words.saturating_add(b.words),
        binaries: a.binaries.saturating_add(b.binaries),
    }
}

// What several sets of cells weigh together, and a first one.
fn all_of(first: Weight, weights: &[Weight]) -> Weight
    ensures { result ≡ all_of first weights.now }
{
    let mut all = first;
    for place in 0..weights.len() {
        all = sum_of(all, weights[place]);
    }
    all
}

impl Counted {
    // No cell was counted, and there are `parts` parts.
    pub(crate) fn new(alloc: Global, parts: usize) -> Result<Counted, AllocError>
        ensures size { IfOk result (λ counted. length counted.alone.items ≡ parts) }
        ensures alone { IfOk result (λ counted. (part : ℕ) → alone_at counted.alone.items part ≡ no_weight) }
        ensures shared { IfOk result (λ counted. counted.shared ≡ no_weight) }
        ensures unheld { IfOk result (λ counted. counted.unheld ≡ no_weight) }
    {
        let alone = vec![in alloc; no_weight(); parts]?;
        Ok(Counted {
            alone,
            shared: no_weight(),
            unheld: no_weight(),
        })
    }

    // Counts one cell more, which `holder` holds. It has so many words, and refers to a binary or not.
    pub(crate) fn add(&mut self, holder: Holder, words: u64, binary: bool)
        requires { label_of holder < length self.old.alone.items + 2 }
        ensures { Gains holder words binary self.old self.new }
    {
        match holder {
            Holder::Nobody => self.unheld = added(words, binary, self.unheld),
            Holder::Several => self.shared = added(words, binary, self.shared),
            Holder::Part(part) => add_alone(self.alone.as_mut_slice(), part, words, binary),
        }
    }

    // What the parts hold of the cells that were counted.
    pub(crate) fn shares(self) -> Shares
        ensures { AddUp self result }
    {
        let reached = all_of(self.shared, self.alone.as_slice());
        Shares {
            alone: self.alone,
            shared: self.shared,
            reached,
            own: sum_of(reached, self.unheld),
        }
    }
}
