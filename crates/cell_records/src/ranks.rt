// Pairs of an address and a number.
ghost use Rattle.std.specs.Prelude.{◌≡◌, ◌<◌, ◌≤◌, ◌++◌, ◌∷◌, [], ℕ, List, length, map, slice_index_or, IfOk, OnOk, OnErr, IfSome, ◌%◌, ◌^◌};
ghost use Rattle.std.specs.List.Sorted.{IsPermutation};
ghost use Rattle.cell_records.specs.Order.{IsNumberIn, IsOrder, IsRanking, AreRanked, AreSorted};
ghost use Rattle.cell_records.specs.Inner.Ranks.{pair_at, reach, IsSplit};

use crate::search::{first_at, number_there};
use std::alloc::{AllocError, Global};
use std::marker::Model;

// In 64 bits each, as long as all pairs fit; otherwise as they are.
#[derive(Drop)]
enum Kept {
    Narrow(Vec<u64>),
    Wide(Vec<(u64, u32)>),
}

/// Pairs of an address and a number. The addresses of one heap mostly lie close together; the pairs
/// are then stored and sorted in half the memory. Contracts see the list of the pairs.
#[derive(Drop)]
pub struct Ranks {
    base: u64,
    // How many of the 64 bits of a pair are those of its number.
    bits: u32,
    kept: Kept,
}

impl Model for Ranks {
    ghost use Rattle.std.specs.Prelude.{ℕ, List};
    ghost use Rattle.cell_records.specs.Inner.Ranks.{pairs_in, AreNumbered, IsSplit};

    ghost Value = { List (ℕ × ℕ) };

    ghost view = { λ r. pairs_in r.base r.bits r.kept };

    ghost invariant = { λ r. IsSplit r.base r.bits × AreNumbered r.kept };
}

// How many bits the numbers below a bound have, but no more than 32.
fn bits_of(bound: usize) -> u32
    ensures { result ≤ 32 }
{
    match u32::try_from(bound.saturating_sub(1)) {
        Ok(most) => 32 - most.leading_zeros(),
        Err(_) => 32,
    }
}

// How far above a base an address may lie, if its number has so many bits.
fn reach(bits: u32) -> u64
    requires { bits ≤ 32 }
    ensures { result ≡ reach bits }
{
    u64::MAX >> bits
}

// The base of addresses around this one.
fn base_around(address: u64, bits: u32) -> u64
    requires { bits ≤ 32 }
    ensures { IsSplit result bits }
{
    let reach = reach(bits);
    address.saturating_sub(reach / 2).min(u64::MAX - reach)
}

// The lowest bits of a number.
fn low_bits(rank: u64, bits: u32) -> u32
    requires { bits ≤ 32 }
    ensures { result ≡ rank % 2 ^ bits }
{
    (rank & ((1 << bits) - 1)) as u32
}

fn pair_at(base: u64, bits: u32, rank: u64) -> (u64, u32)
    requires { IsSplit base bits }
    ensures { result ≡ pair_at base bits rank }
{
    (base + (rank >> bits), low_bits(rank, bits))
}

// The pair as one number, if it fits.
fn rank_of(base: u64, bits: u32, address: u64, number: u32) -> Option<u64>
    requires { IsSplit base bits }
    ensures { IfSome result (λ rank. pair_at base bits rank ≡ (address, number)) }
{
    let above = address.checked_sub(base)?;
    let low = u64::from(number);
    if above <= reach(bits) && low >> bits == 0 {
        Some(above << bits | low)
    } else {
        None
    }
}

fn pairs_at(
    alloc: Global,
    base: u64,
    bits: u32,
    ranks: &[u64],
) -> Result<Vec<(u64, u32)>, AllocError>
    requires { IsSplit base bits }
    ensures { IfOk result (λ pairs. pairs.items ≡ map (pair_at base bits) ranks.now) }
{
    ranks
        .iter()
        .map(|rank| pair_at(base, bits, *rank))
        .collect(alloc)
}

fn append<T: Drop>(values: &mut Vec<T>, value: T) -> Result<(), AllocError>
    ensures ok { OnOk result (values.new.items ≡ values.old.items ++ value ∷ []) }
    ensures err { OnErr result (values.new.items ≡ values.old.items) }
{
    values.push(value)?;
    Ok(())
}

// The pairs as they are, and one more.
fn widened(
    alloc: Global,
    base: u64,
    bits: u32,
    ranks: &[u64],
    pair: (u64, u32),
) -> Result<Vec<(u64, u32)>, AllocError>
    requires { IsSplit base bits }
    ensures { IfOk result (λ pairs. pairs.items ≡ map (pair_at base bits) ranks.now ++ pair ∷ []) }
{
    let mut pairs = pairs_at(alloc, base, bits, ranks)?;
    append(&mut pairs, pair)?;
    Ok(pairs)
}

impl Ranks {
    /// No pairs, and room for `room` of them. Pairs whose numbers are below a bound, and whose
    /// addresses lie around this one, take 8 bytes each; other pairs make all take 16.
    pub fn around(
        alloc: Global,
        address: u64,
        bound: usize,
        room: usize,
    ) -> Result<Ranks, AllocError>
        ensures { IfOk result (λ ranks. ranks ≡ []) }
    {
        let bits = bits_of(bound);
        let ranks = Vec::with_capacity(alloc, room)?;
        Ok(Ranks {
            base: base_around(address, bits),
            bits,
            kept: Kept::Narrow(ranks),
        })
    }

    /// The number of pairs.
    pub fn len(&self) -> usize
        ensures { result ≡ length self.now }
    {
        match &self.kept {
            Kept::Narrow(ranks) => ranks.len(),
            Kept::Wide(pairs) => pairs.len(),
        }
    }

    /// The pair at a place.
    pub fn get(&self, i: usize) -> (u64, u32)
        requires { i < length self.now }
        ensures { result ≡ slice_index_or self.now i (0, 0) }
    {
        match &self.kept {
            Kept::Narrow(ranks) => pair_at(self.base, self.bits, ranks[i]),
            Kept::Wide(pairs) => pairs[i],
        }
    }

    /// Appends a pair. If it doesn't fit into 8 bytes, all are stored as they are from then on.
    #[inline(always)]
    pub fn push(&mut self, alloc: Global, address: u64, number: u32) -> Result<(), AllocError>
        ensures { OnOk result (self.new ≡ self.old ++ (address, number) ∷ []) }
    {
        match &mut self.kept {
            Kept::Wide(pairs) => append(pairs, (address, number)),
            Kept::Narrow(ranks) => match rank_of(self.base, self.bits, address, number) {
                Some(rank) => append(ranks, rank),
                None => {
                    let pairs = widened(alloc, self.base, self.bits, ranks, (address, number))?;
                    self.kept = Kept::Wide(pairs);
                    Ok(())
                }
            },
        }
    }

    /// Sorts the pairs by address, and those with the same address by number.
    pub fn sort(&mut self)
        ensures permutation { IsPermutation self.old self.new }
        ensures sorted { AreSorted self.new }
    {
        match &mut self.kept {
            Kept::Narrow(ranks) => ranks.sort_unstable(),
            Kept::Wide(pairs) => pairs.sort_unstable(),
        }
    }

    /// The number of the first pair with an address. Of ranked cells it is the first cell with that address.
    pub fn find(&self, address: u64) -> Option<u32>
        requires { IsRanking self.now }
        ensures { IsNumberIn self.now address result }
    {
        number_there(self, first_at(self, address), address)
    }

    /// The numbers of the pairs. Those of ranked cells are the cells' numbers in the order of their addresses.
    pub fn numbers(&self, alloc: Global) -> Result<Vec<u32>, AllocError>
        ensures numbers { IfOk result (λ numbers. numbers.items ≡ map (λ pair. pair.1) self.now) }
        ensures order { IfOk result (λ numbers. (addresses : List ℕ)
            → AreRanked addresses self.now → IsOrder addresses numbers.items) }
    {
        let mut numbers = Vec::with_capacity(alloc, self.len())?;
        for i in 0..self.len() {
            numbers.push(self.get(i).1)?;
        }
        Ok(numbers)
    }
}
