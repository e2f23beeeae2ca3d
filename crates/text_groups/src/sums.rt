// Sums as they are shown.
ghost use Rattle.std.specs.Prelude.{◌≡◌};
ghost use Rattle.text_groups.specs.Sums.{capped};

/// A sum as it is shown: at most 2^64 - 1. Rows are sorted by the whole sum.
pub fn capped(sum: u128) -> u64
    ensures { result ≡ capped sum }
{
    sum.min(u128::from(u64::MAX)) as u64
}
