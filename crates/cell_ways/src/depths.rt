// The depths of all cells.
ghost use Rattle.std.specs.Prelude.{◌<◌, ◌-◌, ◌^◌, All, length, IfOk};
ghost use Rattle.cell_graphs.specs.Frontiers.{is_on};
ghost use Rattle.cell_graphs.specs.Graphs.{LeadsWithin};
ghost use Rattle.cell_ways.specs.Inner.Search.{AreDepths};

use crate::search::search_depths;
use crate::sweeps::sweep_depths;
use cell_graphs::CellGraph;
use std::alloc::{AllocError, Global};

/// The depths of all cells below these roots.
pub(crate) fn find_depths<G: CellGraph>(
    alloc: Global,
    graph: &G,
    roots: &[u32],
) -> Result<Vec<u32>, AllocError>
    requires within { LeadsWithin (G.graph graph.now) }
    requires few { length (G.graph graph.now) < 2 ^ 32 - 1 }
    requires roots { All (λ n. n < length (G.graph graph.now)) roots.now }
    ensures { IfOk result (λ depths. AreDepths (G.graph graph.now) (λ n. is_on n roots.now) depths.items) }
{
    match sweep_depths(alloc, graph, roots)? {
        Some(depths) => Ok(depths),
        None => search_depths(alloc, graph, roots),
    }
}
