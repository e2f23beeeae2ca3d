// Depths that are found by going over all cells in the order of their numbers.
ghost use Rattle.std.specs.Prelude.{◌≡◌, ℕ, ◌<◌, ◌-◌, ◌^◌, All, length, nat_eq, IfOk, IfSome, None};
ghost use Rattle.cell_graphs.specs.Frontiers.{is_on};
ghost use Rattle.cell_graphs.specs.Graphs.{LeadsWithin};
ghost use Rattle.cell_graphs.specs.Rounds.{is_to, leads_to};
ghost use Rattle.cell_ways.specs.Ways.{at_cell};
ghost use Rattle.cell_ways.specs.Inner.Search.{AreDepths};
ghost use Rattle.cell_ways.specs.Inner.Sweeps.{turned, GoesOver, Lowers, Sweeps};

use crate::numbers::{NOWHERE, number_at};
use cell_graphs::CellGraph;
use std::alloc::{AllocError, Global};

// So many sweeps are tried at most. Where cells lead to later ones, or to earlier ones, two or three settle all.
const MOST_SWEEPS: u32 = 6;

/// In how many steps cells are known to be reached, and what the sweep over them that goes on has done.
#[derive(Drop)]
pub(crate) struct Sweep {
    pub depths: Vec<u32>,
    /// Whether a number was given or replaced, or can't be.
    pub changed: bool,
    /// How many numbers were replaced by lesser ones, in all sweeps.
    pub replaced: u32,
}

// The cell to which a sweep over so many cells comes after so many others.
fn turned(up: bool, cells: u32, step: u32) -> u32
    requires { step < cells }
    ensures value { result ≡ turned up cells step }
    ensures within { result < cells }
{
    if up { step } else { cells - 1 - step }
}

fn one_if(is: bool) -> u32 {
    if is { 1 } else { 0 }
}

impl Sweep {
    // No cell is known to be reached.
    fn new(alloc: Global, cells: usize) -> Result<Sweep, AllocError>
        ensures size { IfOk result (λ sweep. length sweep.depths.items ≡ cells) }
        ensures none { IfOk result (λ sweep. (n : ℕ) → at_cell sweep.depths.items n ≡ None) }
    {
        Ok(Sweep {
            depths: vec![in alloc; NOWHERE; cells]?,
            changed: false,
            replaced: 0,
        })
    }

    // A cell is reached in so many steps.
    fn lower(&mut self, cell: u32, depth: u32)
        requires cell { cell < length self.old.depths.items }
        requires depth { depth < 2 ^ 32 - 1 }
        ensures { Lowers self.old self.new depth (nat_eq cell) }
    {
        let place = cell as usize;
        let before = self.depths[place];
        // What stands for none is above all depths.
        if before <= depth {
            return;
        }
        self.replaced = self.replaced.saturating_add(one_if(before != NOWHERE));
        self.depths[place] = depth;
        self.changed = true;
    }

    // The cell to which a place leads is reached in so many steps.
    fn lower_lead(&mut self, lead: Option<u32>, depth: u32)
        requires lead { IfSome lead (λ n. n < length self.old.depths.items) }
        requires depth { depth < 2 ^ 32 - 1 }
        ensures { Lowers self.old self.new depth (λ n. is_to n lead) }
    {
        if let Some(cell) = lead {
            self.lower(cell, depth);
        }
    }

    // The cells to which a cell leads are reached in so many steps.
    fn lower_leads<G: CellGraph>(&mut self, graph: &G, cell: u32, depth: u32)
        requires within { LeadsWithin (G.graph graph.now) }
        requires cells { length self.old.depths.items ≡ length (G.graph graph.now) }
        requires cell { cell < length (G.graph graph.now) }
        requires depth { depth < 2 ^ 32 - 1 }
        ensures { Lowers self.old self.new depth (leads_to (G.graph graph.now) cell) }
    {
        for place in 0..graph.places(cell) {
            self.lower_lead(graph.lead(cell, place), depth);
        }
    }

    // Roots are reached in no steps.
    fn lower_all(&mut self, roots: &[u32])
        requires { All (λ n. n < length self.old.depths.items) roots.now }
        ensures { Lowers self.old self.new 0 (λ n. is_on n roots.now) }
    {
        for root in roots {
            self.lower(*root, 0);
        }
    }

    // The cells to which a cell leads are reached in one step more than the cell, if that is known to be reached.
    fn go_on<G: CellGraph>(&mut self, graph: &G, cell: u32)
        requires within { LeadsWithin (G.graph graph.now) }
        requires cells { length self.old.depths.items ≡ length (G.graph graph.now) }
        requires cell { cell < length (G.graph graph.now) }
        ensures { Sweeps (G.graph graph.now) (λ n. n ≡ cell) self.old self.new }
    {
        let Some(depth) = number_at(&self.depths, cell) else {
            return;
        };
        // One step more couldn't be told from none.
        if depth == NOWHERE - 1 {
            self.changed = true;
            return;
        }
        self.lower_leads(graph, cell, depth + 1);
    }

    // Goes over all cells once, upwards or downwards. If nothing changes then, all depths are found.
    fn go_over<G: CellGraph>(&mut self, graph: &G, up: bool)
        requires within { LeadsWithin (G.graph graph.now) }
        requires cells { length self.old.depths.items ≡ length (G.graph graph.now) }
        ensures { GoesOver (G.graph graph.now) self.old self.new }
    {
        self.changed = false;
        let cells = graph.cells();
        for step in 0..cells {
            self.go_on(graph, turned(up, cells, step));
        }
    }
}

/// The depths of all cells below these roots, if a few sweeps settle them. A sweep reads memory in order, where a search
/// goes along all ways at once and waits for memory at each step. Returns `None` where the sweeps replace more numbers than an
/// eighth of the cells, or too many sweeps would be needed.
pub(crate) fn sweep_depths<G: CellGraph>(
    alloc: Global,
    graph: &G,
    roots: &[u32],
) -> Result<Option<Vec<u32>>, AllocError>
    requires within { LeadsWithin (G.graph graph.now) }
    requires roots { All (λ n. n < length (G.graph graph.now)) roots.now }
    ensures { IfOk result (λ found. IfSome found (λ depths.
        AreDepths (G.graph graph.now) (λ n. is_on n roots.now) depths.items)) }
{
    let mut sweep = Sweep::new(alloc, graph.cells() as usize)?;
    sweep.lower_all(roots);
    for turn in 0..MOST_SWEEPS {
        sweep.go_over(graph, turn % 2 == 0);
        if !sweep.changed {
            return Ok(Some(sweep.depths));
        }
        if sweep.replaced > graph.cells() / 8 {
            return Ok(None);
        }
    }
    Ok(None)
}
