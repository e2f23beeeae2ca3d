// The walk of a part.
ghost use Rattle.std.specs.Prelude.{◌≡◌, ℕ, ◌+◌, ◌<◌, ◌^◌, length, slice_get, Some, IfSome};
ghost use Rattle.cell_graphs.specs.Graphs.{Leads, LeadsWithin, places_at};
ghost use Rattle.cell_graphs.specs.Reached.{IsIn, AreReached};
ghost use Rattle.cell_graphs.specs.Frontiers.{IsLooked, IsSettled};
ghost use Rattle.heap_weights.specs.Holders.{held_if, holder_at};
ghost use Rattle.heap_weights.specs.Parts.{reached_at};
ghost use Rattle.heap_weights.specs.Labels.{Takes, Walks, frontier};
ghost use Rattle.heap_weights.specs.Inner.Labels.{IsRested};
ghost use Rattle.heap_weights.specs.LastLeads.{TellsLasts};

use crate::labels::Labels;
use crate::lasts::cell_for;
use cell_graphs::CellGraph;

// The part comes to the cell to which a place leads.
fn add_lead(labels: &mut Labels, lead: Option<u32>)
    requires { IfSome lead (λ n. n < length labels.old.holders) }
    ensures { Takes labels.old labels.new (λ n. lead ≡ Some n) }
{
    if let Some(n) = lead {
        labels.add(n);
    }
}

// Where a place of a cell leads that has so many.
fn lead_of<G: CellGraph>(
    graph: &G,
    lasts: &[u32],
    cell: u32,
    place: usize,
    places: usize,
) -> Option<u32>
    requires lasts { TellsLasts (G.graph graph.now) lasts.now }
    requires cell { cell < length (G.graph graph.now) }
    requires places { places ≡ length (places_at (G.graph graph.now) cell) }
    requires place { place < places }
    ensures { slice_get (places_at (G.graph graph.now) cell) place ≡ Some result }
{
    if place + 1 == places {
        return cell_for(lasts[cell as usize]);
    }
    graph.lead(cell, place)
}

// The part comes to the cells to which a cell leads.
fn look_at<G: CellGraph>(graph: &G, lasts: &[u32], labels: &mut Labels, cell: u32)
    requires lasts { TellsLasts (G.graph graph.now) lasts.now }
    requires within { LeadsWithin (G.graph graph.now) }
    requires cells { length labels.old.holders ≡ length (G.graph graph.now) }
    requires cell { cell < length (G.graph graph.now) }
    ensures { Takes labels.old labels.new (Leads (G.graph graph.now) cell) }
{
    let places = graph.places(cell);
    for place in 0..places {
        add_lead(labels, lead_of(graph, lasts, cell, place, places));
    }
}

/// Visits each cell that waits, including those that start to wait meanwhile, given where the last places of all cells lead.
pub fn spread<G: CellGraph>(graph: &G, lasts: &[u32], labels: &mut Labels)
    requires lasts { TellsLasts (G.graph graph.now) lasts.now }
    requires within { LeadsWithin (G.graph graph.now) }
    requires cells { length labels.old.holders ≡ length (G.graph graph.now) }
    requires room { labels.old.reserved ≡ length (G.graph graph.now) }
    requires looked { IsLooked (G.graph graph.now) (frontier labels.old) }
    ensures size { length labels.new.holders ≡ length labels.old.holders }
    ensures walks { Walks labels.old labels.new }
    ensures settled { IsSettled (G.graph graph.now) (frontier labels.new) }
    ensures reached { AreReached (G.graph graph.now) (IsIn (frontier labels.old).marks)
        (frontier labels.new).marks }
{
    while let Some(cell) = labels.pop() {
        look_at(graph, lasts, labels, cell);
    }
}

/// The next part, whose root this is, walks: it holds the cells that the root reaches, or several hold them.
pub(crate) fn walk<G: CellGraph>(
    graph: &G,
    lasts: &[u32],
    labels: &mut Labels,
    part: u32,
    root: u32,
)
    requires lasts { TellsLasts (G.graph graph.now) lasts.now }
    requires within { LeadsWithin (G.graph graph.now) }
    requires rested { IsRested (G.graph graph.now) part labels.old }
    requires room { part + 2 < 2 ^ 32 }
    requires root { root < length (G.graph graph.now) }
    ensures rested { IsRested (G.graph graph.now) (part + 1) labels.new }
    ensures holders { (n : ℕ) → holder_at labels.new.holders n
        ≡ held_if (reached_at (G.graph graph.now) root n) part (holder_at labels.old.holders n) }
{
    labels.begin(part);
    labels.add(root);
    spread(graph, lasts, labels);
}
