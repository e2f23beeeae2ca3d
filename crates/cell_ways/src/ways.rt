// The depths of cells, and the ways to them.
ghost use Rattle.std.specs.Prelude.{◌≡◌, ℕ, ◌<◌, Bool, All, length, reverse, IfOk};
ghost use Rattle.cell_graphs.specs.Frontiers.{is_on};
ghost use Rattle.cell_graphs.specs.Graphs.{Graph};
ghost use Rattle.cell_ways.specs.Depths.{depth_of, way_by, way_to};
ghost use Rattle.cell_ways.specs.Ways.{at_cell, AreWays};

use crate::befores::find_befores;
use crate::depths::find_depths;
use crate::numbers::{NOWHERE, number_at};
use cell_graphs::CellGraph;
use std::alloc::{AllocError, Global};
use std::marker::Model;

/// The depths of the cells of a graph below some roots, and from which cell the way comes to each.
/// Contracts see both, and that they are these (`AreWays`).
#[derive(Drop)]
pub struct Ways {
    depths: Vec<u32>,
    befores: Vec<u32>,
}

impl Model for Ways {
    ghost use Rattle.cell_ways.specs.Ways.{WayMap};

    ghost Value = { WayMap };

    ghost view = { λ w. record { depths = w.depths.items; befores = w.befores.items } };
}

// Goes so many steps back along a way, if this says from which cell it comes to each. Returns its cells, the last first.
fn walk_back(alloc: Global, befores: &[u32], steps: u32, cell: u32) -> Result<Vec<u32>, AllocError>
    ensures { IfOk result (λ back. reverse back.items ≡ way_by (at_cell befores.now) steps cell) }
{
    let mut back = Vec::new(alloc);
    let mut here = cell;
    for _step in 0..steps {
        back.push(here)?;
        let Some(before) = number_at(befores, here) else {
            return Ok(back);
        };
        here = before;
    }
    back.push(here)?;
    Ok(back)
}

impl Ways {
    /// The depths of a graph's cells below these roots, and the ways to them. A root may be named more than once.
    ///
    /// Takes 8 bytes for each cell, and meanwhile 4 more, and 4 for each place of 64 cells at a time. A graph of 2^32 - 1
    /// cells is answered as want of memory.
    pub fn of<G: CellGraph>(alloc: Global, graph: &G, roots: &[u32]) -> Result<Ways, AllocError>
        requires { All (λ n. n < length (G.graph graph.now)) roots.now }
        ensures { IfOk result (AreWays (G.graph graph.now) (λ n. is_on n roots.now)) }
    {
        if graph.cells() == NOWHERE {
            return Err(AllocError);
        }
        let depths = find_depths(alloc, graph, roots)?;
        let befores = find_befores(alloc, graph, &depths)?;
        Ok(Ways { depths, befores })
    }

    /// The depth of a cell. Returns `None` exactly when no root reaches the cell.
    pub fn depth(&self, cell: u32) -> Option<u32>
        requires { cell < length self.now.depths }
        ensures { (graph : Graph) (begun : ℕ → Bool) → AreWays graph begun self.now → result ≡ depth_of graph begun cell }
    {
        number_at(&self.depths, cell)
    }

    /// The way to a cell: a root, then cells of depths 1, 2 and so on, and the cell
    /// itself. The way to a cell that no root reaches is empty.
    pub fn way(&self, alloc: Global, cell: u32) -> Result<Vec<u32>, AllocError>
        requires { cell < length self.now.depths }
        ensures way { IfOk result (λ way. (graph : Graph) (begun : ℕ → Bool) → AreWays graph begun self.now
            → way.items ≡ way_to graph begun cell) }
        ensures within { IfOk result (λ way. (graph : Graph) (begun : ℕ → Bool) → AreWays graph begun self.now
            → All (λ n. n < length graph) way.items) }
    {
        let Some(depth) = number_at(&self.depths, cell) else {
            return Ok(Vec::new(alloc));
        };
        let mut way = walk_back(alloc, &self.befores, depth, cell)?;
        way.reverse();
        Ok(way)
    }
}
