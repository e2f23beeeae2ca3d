// Different cells in the order of their numbers.
ghost use Rattle.std.specs.Prelude.{◌≡◌, ℕ, ◌<◌, All, Contains, length, IfSome};
ghost use Rattle.std.specs.List.Sorted.{IsStrictlyIncreasing};
ghost use Rattle.tuple_fronts.specs.CellSets.{place_of};

use std::marker::Model;

/// Different cells. Contracts see the list of their numbers, which ascend.
#[derive(Drop)]
pub struct CellSet {
    sorted: Vec<u32>,
}

impl Model for CellSet {
    ghost use Rattle.std.specs.Prelude.{ℕ, List};
    ghost use Rattle.std.specs.List.Sorted.{IsStrictlyIncreasing};

    ghost Value = { List ℕ };

    ghost view = { λ s. s.sorted.items };

    ghost invariant = { λ s. IsStrictlyIncreasing s.sorted.items };
}

impl CellSet {
    /// The cells with these numbers.
    pub fn of(mut numbers: Vec<u32>) -> CellSet
        ensures all { (n : ℕ) → Contains numbers.items n → Contains result n }
        ensures ascending { IsStrictlyIncreasing result }
        ensures within { (size : ℕ) → All (λ n. n < size) numbers.items → All (λ n. n < size) result }
    {
        numbers.sort_unstable();
        numbers.dedup();
        numbers.shrink_to_fit();
        CellSet { sorted: numbers }
    }

    /// The numbers of the cells in the set.
    pub fn numbers(&self) -> &[u32]
        ensures value { result.now ≡ self.now }
        ensures ascending { IsStrictlyIncreasing result.now }
    {
        self.sorted.as_slice()
    }

    /// The place of a cell among them, if it is one of them.
    pub fn place(&self, cell: u32) -> Option<usize>
        ensures value { result ≡ place_of self.now cell }
        ensures within { IfSome result (λ i. i < length self.now) }
    {
        match self.sorted.as_slice().binary_search(&cell) {
            Ok(place) => Some(place),
            Err(_) => None,
        }
    }
}
