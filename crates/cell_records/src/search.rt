// Where an address stands, or would stand, among pairs whose addresses ascend.
ghost use Rattle.std.specs.Prelude.{◌≡◌, ◌<◌, ◌≤◌, ℕ, length};
ghost use Rattle.std.specs.List.Sorted.{IsNonDecreasingBy};
ghost use Rattle.cell_records.specs.Order.{IsNumberIn, IsRanking};
ghost use Rattle.cell_records.specs.Inner.Places.{AreBelow, IsFirstFrom, IsRange};

use crate::ranks::Ranks;
use std::marker::Model;

// So many of `last` places as `above` is of `whole`, or half of them if that isn't easily told.
fn share(above: u64, whole: u64, last: u64) -> u64
    ensures { result ≤ last }
{
    if above >= whole {
        return last;
    }
    match above.checked_mul(last) {
        Some(product) => (product / whole).min(last),
        None => last / 2,
    }
}

// The place, of those from one up to another, at which the address would stand if those between lay evenly.
fn likely(ranks: &Ranks, from: usize, upto: usize, address: u64) -> usize
    requires some { from < upto }
    requires within { upto ≤ length ranks.now }
    ensures from { from ≤ result }
    ensures upto { result < upto }
{
    let low = ranks.get(from).0;
    let high = ranks.get(upto - 1).0;
    let last = upto - 1 - from;
    let above = address.saturating_sub(low);
    from + share(above, high.saturating_sub(low), last as u64) as usize
}

// How often in a row a search looks at a likely place before it looks at the middle.
const GUESSES: u32 = 2;

// Among so few places the middle is looked at, which takes no longer than to guess.
const FEW: usize = 16;

// A place from one up to another at which a search looks next. Any would do, and of three that it looks at one is the
// middle, so that it takes at most three times as many looks as by halving.
fn next_look(ranks: &Ranks, from: usize, upto: usize, address: u64, guessed: &mut u32) -> usize
    requires some { from < upto }
    requires within { upto ≤ length ranks.now }
    ensures from { from ≤ result }
    ensures upto { result < upto }
{
    if *guessed < GUESSES && upto - from > FEW {
        *guessed += 1;
        return likely(ranks, from, upto, address);
    }
    *guessed = 0;
    from + (upto - from) / 2
}

// How many of the pairs, whose addresses ascend, have a lower address: these come first. Those before `from`
// are known to have one, and the one at `upto`, if there is one, is known to have none.
fn first_between(ranks: &Ranks, from: usize, upto: usize, address: u64) -> usize
    requires ascend { IsNonDecreasingBy (λ pair. pair.0) ranks.now }
    requires range { IsRange ranks.now address (from, upto) }
    ensures { IsFirstFrom ranks.now address result }
{
    let mut low = from;
    let mut high = upto;
    let mut guessed = 0;
    while low < high {
        let look = next_look(ranks, low, high, address, &mut guessed);
        if ranks.get(look).0 < address {
            low = look + 1;
        } else {
            high = look;
        }
    }
    low
}

// How many of the pairs, whose addresses ascend, have a lower address: these come first.
pub(crate) fn first_at(ranks: &Ranks, address: u64) -> usize
    requires { IsNonDecreasingBy (λ pair. pair.0) ranks.now }
    ensures { IsFirstFrom ranks.now address result }
{
    first_between(ranks, 0, ranks.len(), address)
}

// Places between which the first pair stands whose address isn't lower, found from a place
// on in steps that double. Those before that place are known to have a lower address.
fn range_from(ranks: &Ranks, from: usize, address: u64) -> (usize, usize)
    requires ascend { IsNonDecreasingBy (λ pair. pair.0) ranks.now }
    requires within { from ≤ length ranks.now }
    requires below { AreBelow ranks.now address from }
    ensures { IsRange ranks.now address result }
{
    let mut low = from;
    let mut step = 1;
    while step <= ranks.len() - low {
        let look = low + (step - 1);
        if ranks.get(look).0 >= address {
            return (low, look);
        }
        low = look + 1;
        step = step.saturating_mul(2);
    }
    (low, ranks.len())
}

// The number of the first cell with the address, whose pair would be at the place.
pub(crate) fn number_there(ranks: &Ranks, at: usize, address: u64) -> Option<u32>
    requires { IsFirstFrom ranks.now address at }
    ensures { IsNumberIn ranks.now address result }
{
    if at == ranks.len() {
        return None;
    }
    let (found, number) = ranks.get(at);
    if found == address { Some(number) } else { None }
}

/// A search for several addresses, which begins where the one before it ended. For addresses that ascend it takes
/// one pass over the pairs, or less if they lie far apart. Contracts see the pairs.
#[derive(Drop)]
pub struct Search<'a> {
    ranks: &'a Ranks,
    // The address that was looked up last, and how many of the pairs have a lower one.
    address: u64,
    at: usize,
}

impl<'a> Model for Search<'a> {
    ghost use Rattle.std.specs.Prelude.{ℕ, List, ◌≤◌, length};
    ghost use Rattle.cell_records.specs.Order.{IsRanking};
    ghost use Rattle.cell_records.specs.Inner.Places.{AreBelow};

    ghost Value = { List (ℕ × ℕ) };

    ghost view = { λ s. s.ranks.now };

    ghost invariant = { λ s. IsRanking s.ranks.now × (s.at ≤ length s.ranks.now)
        × AreBelow s.ranks.now s.address s.at };
}

impl<'a> Search<'a> {
    /// A search in the pairs of ranked cells.
    pub fn new(ranks: &'a Ranks) -> Search<'a>
        requires { IsRanking ranks.now }
        ensures { result ≡ ranks.now }
    {
        Search {
            ranks,
            address: 0,
            at: 0,
        }
    }

    /// The number of the first pair with an address. Of ranked cells it is the first cell with that address.
    pub fn find(&mut self, address: u64) -> Option<u32>
        ensures number { IsNumberIn self.old address result }
        ensures same { self.new ≡ self.old }
    {
        let from = if address < self.address { 0 } else { self.at };
        let (low, high) = range_from(self.ranks, from, address);
        let at = first_between(self.ranks, low, high, address);
        self.address = address;
        self.at = at;
        number_there(self.ranks, at, address)
    }
}
