// From which cell the way comes to each.
ghost use Rattle.std.specs.Prelude.{◌≡◌, ◌<◌, ◌-◌, ◌^◌, ◌&&◌, length, IfOk, IfSome};
ghost use Rattle.cell_graphs.specs.Graphs.{LeadsWithin};
ghost use Rattle.cell_graphs.specs.Rounds.{is_to, leads_to};
ghost use Rattle.cell_ways.specs.Depths.{is_next};
ghost use Rattle.cell_ways.specs.Inner.Search.{is_before, AreNoted, Gives};

use crate::numbers::{NOWHERE, give, number_at};
use cell_graphs::CellGraph;
use std::alloc::{AllocError, Global};

// Whether the second of two depths is one more than the first.
fn is_next(depth: Option<u32>, deeper: Option<u32>) -> bool
    ensures { result ≡ is_next depth deeper }
{
    match (depth, deeper) {
        (Some(depth), Some(deeper)) => depth < deeper && deeper - depth == 1,
        _ => false,
    }
}

// The way to the cell to which a place of a cell leads can come from that cell.
fn note_lead(depths: &[u32], befores: &mut [u32], cell: u32, lead: Option<u32>)
    requires cell { cell < 2 ^ 32 - 1 }
    requires lead { IfSome lead (λ n. n < length befores.old) }
    ensures { Gives befores.old befores.new cell (λ n. is_before depths.now cell n && is_to n lead) }
{
    if let Some(n) = lead {
        if is_next(number_at(depths, cell), number_at(depths, n)) {
            give(befores, n, cell);
        }
    }
}

// The ways to the cells to which a cell leads can come from that cell.
fn note_leads<G: CellGraph>(graph: &G, depths: &[u32], befores: &mut [u32], cell: u32)
    requires within { LeadsWithin (G.graph graph.now) }
    requires cells { length befores.old ≡ length (G.graph graph.now) }
    requires few { length (G.graph graph.now) < 2 ^ 32 }
    requires cell { cell < length (G.graph graph.now) }
    ensures { Gives befores.old befores.new cell
        (λ n. is_before depths.now cell n && leads_to (G.graph graph.now) cell n) }
{
    for place in 0..graph.places(cell) {
        note_lead(depths, befores, cell, graph.lead(cell, place));
    }
}

/// From which cell the way comes to each, given the depths of all cells: the
/// cells are looked at in the order of their numbers, so that the first noted is the least.
pub(crate) fn find_befores<G: CellGraph>(
    alloc: Global,
    graph: &G,
    depths: &[u32],
) -> Result<Vec<u32>, AllocError>
    requires within { LeadsWithin (G.graph graph.now) }
    requires few { length (G.graph graph.now) < 2 ^ 32 }
    ensures { IfOk result (λ befores.
        AreNoted (G.graph graph.now) depths.now (length (G.graph graph.now)) befores.items) }
{
    let mut befores = vec![in alloc; NOWHERE; graph.cells() as usize]?;
    for cell in 0..graph.cells() {
        note_leads(graph, depths, &mut befores, cell);
    }
    Ok(befores)
}
