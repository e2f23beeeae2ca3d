// Rows by their size, the largest first.
ghost use Rattle.std.specs.Prelude.{◌≡◌, ℕ, OnOk, OnErr};
ghost use Rattle.std.specs.List.Sorted.{IsPermutation};
ghost use Rattle.text_groups.specs.Sorting.{most_first};

use std::alloc::AllocError;

/// A row that has a size.
pub trait Measured {
    /// The size as a number.
    ghost size: { Self → ℕ };

    /// The size, in the unit of the rows, such as bytes or words. It may be a sum of numbers of 64 bits.
    fn size(&self) -> u128
        ensures { result ≡ size self.now };
}

/// Sorts rows by their size, the largest first. Rows of the same size stay in their order.
///
/// `AllocError` may come, since the sort takes memory for rows; they stay as
/// they were then. The time is that of a stable sort, whatever the sizes are.
pub fn sort_most_first<T: Measured>(rows: &mut Vec<T>) -> Result<(), AllocError>
    ensures sorted { OnOk result (rows.new.items ≡ most_first T.size rows.old.items) }
    ensures permutation { IsPermutation rows.old.items rows.new.items }
    ensures unchanged { OnErr result (rows.new.items ≡ rows.old.items) }
{
    rows.sort_by(|one, other| other.size().cmp(&one.size()))
}

/// A row that has two sizes.
pub trait MeasuredTwice {
    /// The size by which rows are ordered first, as a number.
    ghost first: { Self → ℕ };

    /// The size by which rows are ordered whose first one is the same.
    ghost second: { Self → ℕ };

    /// The size by which rows are ordered first.
    fn first(&self) -> u128
        ensures { result ≡ first self.now };

    /// The size by which rows are ordered whose first one is the same.
    fn second(&self) -> u128
        ensures { result ≡ second self.now };
}

/// Sorts rows by their first size, the largest first, and rows of the same first size
/// by their second one. Rows both of whose sizes are the same stay in their order.
///
/// `AllocError` may come, since the sort takes memory for rows; they are in any order then.
pub fn sort_most_first_twice<T: MeasuredTwice>(rows: &mut Vec<T>) -> Result<(), AllocError>
    ensures sorted { OnOk result
        (rows.new.items ≡ most_first T.first (most_first T.second rows.old.items)) }
    ensures permutation { IsPermutation rows.old.items rows.new.items }
{
    rows.sort_by(|one, other| other.second().cmp(&one.second()))?;
    rows.sort_by(|one, other| other.first().cmp(&one.first()))
}
