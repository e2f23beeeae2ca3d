// Marking what the roots of a heap reach.
ghost use Rattle.std.specs.Prelude.{◌≡◌, ℕ, ◌<◌, [], ◌∷◌, ◌++◌, length, IfOk, OnOk, false};
ghost use Rattle.std.specs.List.Sorted.{IsStrictlyIncreasing};
ghost use Rattle.term_forms.specs.Seen.{element};
ghost use Rattle.heap_cells.specs.HeapMap.{address_at};
ghost use Rattle.heap_cells.specs.Targets.{At, number, target};
ghost use Rattle.cell_graphs.specs.Frontiers.{Adds};
ghost use Rattle.cell_graphs.specs.Graphs.{graph_of};
ghost use Rattle.cell_graphs.specs.Reached.{is_in, AreReached};
ghost use Rattle.heap_reach.specs.Reached.{Begun};
ghost use Rattle.heap_reach.specs.Rounds.{IsReachOf, AddsRoots};
ghost use Rattle.heap_reach.specs.Unreached.{missed, missed_below, unreached_of, AreMissed};
ghost use Rattle.heap_weights.specs.Labels.{frontier};

use heap_cells::{CellIx, Heap, Seat};
use heap_weights::{Labels, last_leads, spread};
use std::alloc::{AllocError, Global};
use std::marker::Model;
use term_forms::shapes::Elem;

// Adds the cell to which a root refers.
fn add_root(heap: &Heap, labels: &mut Labels, root: &Elem<'_>)
    requires { length labels.old.holders ≡ length heap.now.cells }
    ensures size { length labels.new.holders ≡ length labels.old.holders }
    ensures adds { Adds (frontier labels.old) (frontier labels.new)
        (λ n. target heap.now.cells (element root.now) ≡ At n) }
{
    if let Elem::Ref(addr) = root {
        match heap.at(*addr) {
            Seat::Missing => {}
            Seat::Malformed(ix) | Seat::Cell(ix) => labels.add(ix.number()),
        }
    }
}

fn push_missed(found: &mut Vec<u64>, heap: &Heap, labels: &Labels, n: u32) -> Result<(), AllocError>
    requires cells { length labels.now.holders ≡ length heap.now.cells }
    requires cell { n < length heap.now.cells }
    ensures { OnOk result (found.new.items ≡ found.old.items
        ++ missed (is_in (frontier labels.now).marks n) (address_at heap.now.cells n)) }
{
    if !labels.is_marked(n) {
        found.push(heap.addr(heap.cell(n)))?;
    }
    Ok(())
}

// The addresses of the heap's own cells that aren't marked, in the order of the cells.
fn missed_cells(alloc: Global, heap: &Heap, labels: &Labels) -> Result<Vec<u64>, AllocError>
    requires { length labels.now.holders ≡ length heap.now.cells }
    ensures { IfOk result (λ found. found.items
        ≡ missed_below heap.now.cells (is_in (frontier labels.now).marks) heap.now.own) }
{
    let mut found = Vec::new(alloc);
    for n in 0..heap.own() {
        push_missed(&mut found, heap, labels, n)?;
    }
    Ok(found)
}

/// The cells of a heap that some roots reach. Contracts see the heap, the mark of
/// each cell, and for how many cells still to be visited memory has been taken.
#[derive(Drop)]
pub struct Reach<'h> {
    heap: &'h Heap,
    // Where the last places of all cells lead.
    lasts: Vec<u32>,
    // A cell is reached if part 0, which comes to each root, has come to it.
    labels: Labels,
}

// Between two calls no cell waits, and there is room for exactly as many entries
// as the heap has cells. A cell waits at most once, so there are never more.
impl<'h> Model for Reach<'h> {
    ghost use Rattle.std.specs.Prelude.{◌≡◌, length};
    ghost use Rattle.heap_cells.specs.HeapMap.{IsBounded};
    ghost use Rattle.cell_graphs.specs.Graphs.{graph_of};
    ghost use Rattle.cell_graphs.specs.Frontiers.{IsSettled};
    ghost use Rattle.heap_reach.specs.Reached.{Reaching};
    ghost use Rattle.heap_weights.specs.Labels.{frontier};
    ghost use Rattle.heap_weights.specs.LastLeads.{TellsLasts};

    ghost Value = { Reaching };

    ghost view = { λ r. record {
      heap = r.heap.now;
      marks = (frontier r.labels).marks;
      reserved = r.labels.reserved;
    } };

    ghost invariant = { λ r. IsBounded r.heap.now × (length r.labels.holders ≡ length r.heap.now.cells)
        × IsSettled (graph_of r.heap.now.cells) (frontier r.labels) × TellsLasts (graph_of r.heap.now.cells) r.lasts.items };
}

impl<'h> Reach<'h> {
    /// A heap of which no cell is reached yet. Takes all the memory that calls of `root` need: eight bytes for
    /// each cell, and room for exactly as many entries in the list of cells that are still to be visited.
    pub fn new(alloc: Global, heap: &'h Heap) -> Result<Reach<'h>, AllocError>
        ensures heap { IfOk result (λ reach. reach.heap ≡ heap.now) }
        ensures none { IfOk result (λ reach. (n : ℕ) → is_in reach.marks n ≡ false) }
        ensures roots { IfOk result (λ reach. IsReachOf reach []) }
        ensures reserved { IfOk result (λ reach. reach.reserved ≡ length heap.now.cells) }
    {
        let lasts = last_leads(alloc, heap)?;
        let labels = Labels::new(alloc, heap.cells() as usize)?;
        Ok(Reach {
            heap,
            lasts,
            labels,
        })
    }

    /// Adds what a root reaches: afterwards the reached cells are the least closed set that contains those
    /// reached before and, if the root refers to an address of the heap, the cell there. If those reached
    /// before are what some roots reach, they are now what these and this one reach. Takes no memory.
    pub fn root(&mut self, root: Elem<'_>)
        ensures heap { self.new.heap ≡ self.old.heap }
        ensures reserved { self.new.reserved ≡ self.old.reserved }
        ensures reached { let cells = self.old.heap.cells in
            AreReached (graph_of cells) (Begun cells self.old.marks (element root.entry)) self.new.marks }
        ensures roots { AddsRoots self.old self.new (element root.entry ∷ []) }
    {
        add_root(self.heap, &mut self.labels, &root);
        spread(self.heap, &self.lasts, &mut self.labels);
    }

    /// Whether a cell is reached.
    pub fn reached(&self, ix: CellIx) -> bool
        requires { number ix < length self.now.heap.cells }
        ensures { result ≡ is_in self.now.marks (number ix) }
    {
        self.labels.is_marked(ix.number())
    }

    /// The addresses of the heap's own cells that aren't reached, ascending.
    pub fn unreached(&self, alloc: Global) -> Result<Vec<u64>, AllocError>
        ensures ascending { IfOk result (λ found. IsStrictlyIncreasing found.items) }
        ensures each { IfOk result (λ found.
            AreMissed self.now.heap (is_in self.now.marks) found.items) }
        ensures value { IfOk result (λ found.
            found.items ≡ unreached_of self.now.heap (is_in self.now.marks)) }
    {
        let mut found = missed_cells(alloc, self.heap, &self.labels)?;
        found.sort_unstable();
        Ok(found)
    }
}
