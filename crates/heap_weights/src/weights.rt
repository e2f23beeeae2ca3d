// What each of a heap's parts alone holds.
ghost use Rattle.std.specs.Prelude.{◌+◌, ◌<◌, ◌^◌, [], length, All, IfOk};
ghost use Rattle.cell_graphs.specs.Graphs.{LeadsWithin};
ghost use Rattle.heap_weights.specs.Holders.{holder_at};
ghost use Rattle.heap_weights.specs.Shares.{AreShares};
ghost use Rattle.heap_weights.specs.Inner.Labels.{AreHeldBy, IsRested};
ghost use Rattle.heap_weights.specs.Inner.Tallies.{HasCounted};
ghost use Rattle.heap_weights.specs.LastLeads.{TellsLasts};

use crate::counted::Counted;
use crate::labels::Labels;
use crate::lasts::last_leads;
use crate::shares::Shares;
use crate::walking::walk;
use cell_graphs::{CellGraph, Weighed};
use std::alloc::{AllocError, Global};

// Each part walks, one after the other.
fn walk_all<G: CellGraph>(graph: &G, lasts: &[u32], labels: &mut Labels, roots: &[u32])
    requires lasts { TellsLasts (G.graph graph.now) lasts.now }
    requires within { LeadsWithin (G.graph graph.now) }
    requires rested { IsRested (G.graph graph.now) 0 labels.old }
    requires none { AreHeldBy (G.graph graph.now) labels.old [] }
    requires few { length roots.now + 1 < 2 ^ 32 }
    requires cells { All (λ root. root < length (G.graph graph.now)) roots.now }
    ensures rested { IsRested (G.graph graph.now) (length roots.now) labels.new }
    ensures held { AreHeldBy (G.graph graph.now) labels.new roots.now }
{
    for part in 0..roots.len() {
        walk(graph, lasts, labels, part as u32, roots[part]);
    }
}

// Counts one cell after another, for so many parts.
fn tally<G: Weighed>(
    alloc: Global,
    graph: &G,
    labels: &Labels,
    parts: usize,
) -> Result<Counted, AllocError>
    requires { IsRested (G.graph graph.now) parts labels.now }
    ensures { IfOk result (HasCounted (G.words graph.now) (G.binaries graph.now) (holder_at labels.now.holders) parts
        (G.own graph.now)) }
{
    let mut counted = Counted::new(alloc, parts)?;
    for n in 0..graph.own() {
        counted.add(labels.holder(n), graph.words(n), graph.is_binary(n));
    }
    Ok(counted)
}

/// What parts hold of a heap's own cells. A part is a cell, its root; the parts are those with these roots, in order.
///
/// Takes a label of four bytes for each cell and four for where its last place leads, room for as many entries of four
/// bytes, and 32 bytes for each part. A cell is visited at most twice, however many parts there are.
pub fn weigh<G: Weighed>(alloc: Global, graph: &G, roots: &[u32]) -> Result<Shares, AllocError>
    requires few { length roots.now + 1 < 2 ^ 32 }
    requires cells { All (λ root. root < length (G.graph graph.now)) roots.now }
    ensures { IfOk result (AreShares (G.graph graph.now) (G.words graph.now) (G.binaries graph.now) (G.own graph.now) roots.now) }
{
    let lasts = last_leads(alloc, graph)?;
    let mut labels = Labels::new(alloc, graph.cells() as usize)?;
    walk_all(graph, &lasts, &mut labels, roots);
    let counted = tally(alloc, graph, &labels, roots.len())?;
    Ok(counted.shares())
}
