// Which cells are the first with their address.
ghost use Rattle.std.specs.Prelude.{◌≡◌, ◌<◌, true, false, length, map, IfOk};
ghost use Rattle.cell_records.specs.Order.{AreOfFirsts, AreRanked};
ghost use Rattle.cell_records.specs.Firsts.{AreApart, AreFirsts};
ghost use Rattle.cell_records.specs.Inner.Places.{begins_at};

use crate::located::Located;
use crate::ranks::Ranks;
use std::alloc::{AllocError, Global};

/// Whether no two adjacent pairs have the same address. If they are
/// those of cells, each cell is then the first with its address.
pub fn are_apart(ranks: &Ranks) -> bool
    ensures apart { result ≡ true → AreApart ranks.now }
    ensures beside { result ≡ false → AreApart ranks.now → ⊥ }
    ensures first { result ≡ true → AreOfFirsts ranks.now }
{
    for i in 1..ranks.len() {
        if ranks.get(i - 1).0 == ranks.get(i).0 {
            return false;
        }
    }
    true
}

// Whether the pair at a place is the first with its address.
fn begins_address(ranks: &Ranks, place: usize) -> bool
    requires { place < length ranks.now }
    ensures { result ≡ begins_at ranks.now place }
{
    place == 0 || ranks.get(place - 1).0 != ranks.get(place).0
}

/// Which of the cells come before all others with their address, given their pairs, sorted.
pub fn firsts_of<T: Located>(
    alloc: Global,
    ranks: Ranks,
    cells: &[T],
) -> Result<Vec<bool>, AllocError>
    requires { AreRanked (map T.address cells.now) ranks }
    ensures { IfOk result (λ firsts. AreFirsts (map T.address cells.now) firsts.items) }
{
    let mut firsts = vec![in alloc; false; cells.len()]?;
    for place in 0..ranks.len() {
        if begins_address(&ranks, place) {
            firsts[ranks.get(place).1 as usize] = true;
        }
    }
    Ok(firsts)
}
