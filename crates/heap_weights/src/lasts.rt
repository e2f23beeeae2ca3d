// Where the last places of cells lead.
ghost use Rattle.std.specs.Prelude.{◌≡◌, ◌<◌, ◌^◌, length, IfOk, IfSome};
ghost use Rattle.cell_graphs.specs.Graphs.{LeadsWithin};
ghost use Rattle.heap_graph.specs.Leads.{cell_for, nowhere};
ghost use Rattle.heap_weights.specs.LastLeads.{TellsLast, TellsLasts};

use cell_graphs::CellGraph;
use heap_graph::NOWHERE;
use std::alloc::{AllocError, Global};

// The number that stands for where a place leads.
fn mark_of(lead: Option<u32>) -> u32
    requires { IfSome lead (λ n. n < nowhere) }
    ensures { cell_for result ≡ lead }
{
    match lead {
        Some(cell) => cell,
        None => NOWHERE,
    }
}

/// The cell for which a number stands, if it does.
pub(crate) fn cell_for(mark: u32) -> Option<u32>
    ensures { result ≡ cell_for mark }
{
    if mark == NOWHERE { None } else { Some(mark) }
}

// The number for where the last place of a cell leads.
fn last_lead<G: CellGraph>(graph: &G, cell: u32) -> u32
    requires within { LeadsWithin (G.graph graph.now) }
    requires few { length (G.graph graph.now) < 2 ^ 32 }
    requires cell { cell < length (G.graph graph.now) }
    ensures { TellsLast (G.graph graph.now) cell result }
{
    let places = graph.places(cell);
    if places == 0 {
        return NOWHERE;
    }
    mark_of(graph.lead(cell, places - 1))
}

/// For each cell, in order, where the last of its places leads. A walk that has it at hand waits along a list for one
/// look into memory at each cell, and not for two or more, one after the other. Takes four bytes for each cell.
pub fn last_leads<G: CellGraph>(alloc: Global, graph: &G) -> Result<Vec<u32>, AllocError>
    ensures { IfOk result (λ lasts. TellsLasts (G.graph graph.now) lasts.items) }
{
    let cells = graph.cells();
    let mut lasts = Vec::with_capacity(alloc, cells as usize)?;
    for cell in 0..cells {
        lasts.push(last_lead(graph, cell))?;
    }
    Ok(lasts)
}
