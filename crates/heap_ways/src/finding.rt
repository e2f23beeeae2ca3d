// The way to a cell from roots that make some parts.
ghost use Rattle.std.specs.Prelude.{◌≡◌, ◌<◌, All, length, IfOk};
ghost use Rattle.cell_ways.specs.Depths.{depth_of, way_to};
ghost use Rattle.cell_ways.specs.Ways.{AreWays};
ghost use Rattle.heap_ways.specs.Ways.{is_part};
ghost use Rattle.cell_parts.specs.Over.{IsOver};

use cell_parts::Parts;
use cell_ways::Ways;
use heap_skeleton::Skeleton;
use std::alloc::{AllocError, Global};

/// The depth of a cell, and the way to it.
#[derive(Drop)]
pub(crate) struct Found {
    /// The cells of the way. One that isn't reached has none.
    pub way: Vec<u32>,
    pub depth: Option<u32>,
}

// The ways to all cells.
fn ways_of(alloc: Global, skeleton: &Skeleton, parts: &Parts) -> Result<Ways, AllocError>
    requires { IsOver skeleton.now parts.now }
    ensures { IfOk result (AreWays skeleton.now.leads (is_part parts.now.parts)) }
{
    Ways::of(alloc, skeleton, parts.cells())
}

/// The way to a cell.
pub(crate) fn find_way(
    alloc: Global,
    skeleton: &Skeleton,
    parts: &Parts,
    cell: u32,
) -> Result<Found, AllocError>
    requires over { IsOver skeleton.now parts.now }
    requires cell { cell < length skeleton.now.leads }
    ensures way { IfOk result (λ found. found.way.items ≡ way_to skeleton.now.leads (is_part parts.now.parts) cell) }
    ensures depth { IfOk result (λ found. found.depth ≡ depth_of skeleton.now.leads (is_part parts.now.parts) cell) }
    ensures within { IfOk result (λ found. All (λ n. n < length skeleton.now.leads) found.way.items) }
{
    let ways = ways_of(alloc, skeleton, parts)?;
    let way = ways.way(alloc, cell)?;
    let depth = ways.depth(cell);
    Ok(Found { way, depth })
}
