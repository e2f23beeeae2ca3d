// Cells with different addresses.
ghost use Rattle.std.specs.Prelude.{◌≤◌, length, IfOk};
ghost use Rattle.cell_records.specs.Order.{AreAllFirst, AreRanked};
ghost use Rattle.heap_graph.specs.Held.{addresses_of, IsSmall};
ghost use Rattle.heap_graph.specs.Keeping.{HoldsLines, AreKept};

use crate::held::Held;
use crate::keeping::keep_firsts;
use cell_records::{Ranks, are_apart, firsts_of, ranks_of};
use std::alloc::{AllocError, Global};

/// Heap lines of which no two have the same address.
#[derive(Drop)]
pub struct Settled {
    pub held: Held,
    /// How many of the lines are the process's own. They come first.
    pub own: u32,
}

/// Heap lines of which no two have the same address, and their addresses in order.
#[derive(Drop)]
pub struct Ordered {
    pub settled: Settled,
    /// The addresses of the cells with their numbers, sorted.
    pub ranks: Ranks,
}

// The cells that are the first with their address. The first `own` of all cells are the process's own.
fn first_cells(alloc: Global, held: Held, own: u32, ranks: Ranks) -> Result<Settled, AllocError>
    requires holds { HoldsLines held }
    requires own { own ≤ length held.parts.items }
    requires ranked { AreRanked (addresses_of held.parts.items) ranks }
    ensures small { IfOk result (λ kept. IsSmall kept.held) }
    ensures kept { IfOk result (AreKept held own) }
{
    let firsts = firsts_of(alloc, ranks, &held.parts)?;
    keep_firsts(alloc, &held, &firsts, own as usize)
}

/// Keeps of the cells with one address the first. The first `own` of all cells are the process's own.
pub fn settle(alloc: Global, held: Held, own: u32) -> Result<Ordered, AllocError>
    requires holds { HoldsLines held }
    requires small { IsSmall held }
    requires own { own ≤ length held.parts.items }
    ensures small { IfOk result (λ found. IsSmall found.settled.held) }
    ensures own { IfOk result (λ found. found.settled.own ≤ length found.settled.held.parts.items) }
    ensures kept { IfOk result (λ found. AreKept held own found.settled) }
    ensures distinct { IfOk result (λ found. AreAllFirst (addresses_of found.settled.held.parts.items)) }
    ensures ranked { IfOk result (λ found. AreRanked (addresses_of found.settled.held.parts.items) found.ranks) }
{
    let ranks = ranks_of(alloc, &held.parts)?;
    if are_apart(&ranks) {
        return Ok(Ordered {
            settled: Settled { held, own },
            ranks,
        });
    }
    let settled = first_cells(alloc, held, own, ranks)?;
    let ranks = ranks_of(alloc, &settled.held.parts)?;
    Ok(Ordered { settled, ranks })
}
