// Searching the depths of cells.
ghost use Rattle.std.specs.Prelude.{◌≡◌, ℕ, ◌<◌, ◌≤◌, ◌-◌, ◌^◌, [], All, drop, length, nat_eq, take, IfOk, IfSome, None, OnOk};
ghost use Rattle.cell_graphs.specs.Frontiers.{is_on};
ghost use Rattle.cell_graphs.specs.Graphs.{LeadsWithin};
ghost use Rattle.cell_graphs.specs.Rounds.{is_to, leads_to};
ghost use Rattle.cell_ways.specs.Ways.{at_cell};
ghost use Rattle.cell_ways.specs.Inner.Search.{is_led_by, AreDepths, Finds, Gathers};

use crate::numbers::{NOWHERE, give};
use cell_graphs::CellGraph;
use std::alloc::{AllocError, Global};

// So many cells are looked at together. Cells of one depth may lie far apart, and memory answers
// several loads at a time if none of them waits for what another found.
const TOGETHER: usize = 64;

/// The depths that are known, and the cells that have one, by their depths.
#[derive(Drop)]
pub(crate) struct Search {
    pub depths: Vec<u32>,
    pub queue: Vec<u32>,
}

impl Search {
    // No depths, of so many cells, and room for as many in the queue.
    fn new(alloc: Global, cells: usize) -> Result<Search, AllocError>
        ensures size { IfOk result (λ search. length search.depths.items ≡ cells) }
        ensures none { IfOk result (λ search. (n : ℕ) → at_cell search.depths.items n ≡ None) }
        ensures queue { IfOk result (λ search. search.queue.items ≡ []) }
    {
        Ok(Search {
            depths: vec![in alloc; NOWHERE; cells]?,
            queue: Vec::with_capacity(alloc, cells)?,
        })
    }

    // A cell has this depth, unless it has one already.
    fn add(&mut self, cell: u32, depth: u32) -> Result<(), AllocError>
        requires cell { cell < length self.old.depths.items }
        requires depth { depth < 2 ^ 32 - 1 }
        ensures { OnOk result (Finds self.old self.new depth (nat_eq cell)) }
    {
        if give(&mut self.depths, cell, depth) {
            self.queue.push(cell)?;
        }
        Ok(())
    }
}

// Puts the cell to which a place leads behind others, if it leads to one.
fn push_lead(leads: &mut Vec<u32>, lead: Option<u32>) -> Result<(), AllocError>
    ensures { (size : ℕ) → IfSome lead (λ n. n < size)
        → OnOk result (Gathers size leads.old.items leads.new.items (λ n. is_to n lead)) }
{
    if let Some(cell) = lead {
        leads.push(cell)?;
    }
    Ok(())
}

// Puts the cells to which a cell leads behind others.
fn push_leads<G: CellGraph>(graph: &G, cell: u32, leads: &mut Vec<u32>) -> Result<(), AllocError>
    requires within { LeadsWithin (G.graph graph.now) }
    requires cell { cell < length (G.graph graph.now) }
    ensures { OnOk result (Gathers (length (G.graph graph.now)) leads.old.items leads.new.items
        (leads_to (G.graph graph.now) cell)) }
{
    for place in 0..graph.places(cell) {
        push_lead(leads, graph.lead(cell, place))?;
    }
    Ok(())
}

// Puts the cells to which some cells lead behind others.
fn push_all_leads<G: CellGraph>(
    graph: &G,
    cells: &[u32],
    leads: &mut Vec<u32>,
) -> Result<(), AllocError>
    requires within { LeadsWithin (G.graph graph.now) }
    requires cells { All (λ n. n < length (G.graph graph.now)) cells.now }
    ensures { OnOk result (Gathers (length (G.graph graph.now)) leads.old.items leads.new.items
        (is_led_by (G.graph graph.now) cells.now)) }
{
    for cell in cells {
        push_leads(graph, *cell, leads)?;
    }
    Ok(())
}

// These cells have this depth, unless they have one already.
fn add_all(search: &mut Search, cells: &[u32], depth: u32) -> Result<(), AllocError>
    requires cells { All (λ n. n < length search.old.depths.items) cells.now }
    requires depth { depth < 2 ^ 32 - 1 }
    ensures { OnOk result (Finds search.old search.new depth (λ n. is_on n cells.now)) }
{
    for cell in cells {
        search.add(*cell, depth)?;
    }
    Ok(())
}

// The cells to which those lead that are in the queue from one place up to another have this depth, unless they have one
// already. What `leads` holds is overwritten.
fn look_at<G: CellGraph>(
    graph: &G,
    search: &mut Search,
    leads: &mut Vec<u32>,
    from: usize,
    upto: usize,
    depth: u32,
) -> Result<(), AllocError>
    requires within { LeadsWithin (G.graph graph.now) }
    requires cells { length search.old.depths.items ≡ length (G.graph graph.now) }
    requires queue { All (λ n. n < length (G.graph graph.now)) search.old.queue.items }
    requires part { from ≤ upto }
    requires end { upto ≤ length search.old.queue.items }
    requires depth { depth < 2 ^ 32 - 1 }
    ensures { OnOk result (Finds search.old search.new depth
        (is_led_by (G.graph graph.now) (take (upto - from) (drop from search.old.queue.items)))) }
{
    leads.clear();
    push_all_leads(graph, &search.queue[from..upto], leads)?;
    add_all(search, leads, depth)
}

// Where the next cells end that are looked at together.
fn next_end(place: usize, upto: usize) -> usize
    requires { place < upto }
    ensures later { place < result }
    ensures within { result ≤ upto }
{
    if upto - place > TOGETHER {
        place + TOGETHER
    } else {
        upto
    }
}

// The cells to which those lead that are in the queue from a place on have this depth, unless they have one already.
fn go_deeper<G: CellGraph>(
    graph: &G,
    search: &mut Search,
    leads: &mut Vec<u32>,
    from: usize,
    depth: u32,
) -> Result<(), AllocError>
    requires within { LeadsWithin (G.graph graph.now) }
    requires cells { length search.old.depths.items ≡ length (G.graph graph.now) }
    requires queue { All (λ n. n < length (G.graph graph.now)) search.old.queue.items }
    requires depth { depth < 2 ^ 32 - 1 }
    ensures { OnOk result (Finds search.old search.new depth
        (is_led_by (G.graph graph.now) (drop from search.old.queue.items))) }
{
    let upto = search.queue.len();
    let mut place = from;
    while place < upto {
        let next = next_end(place, upto);
        look_at(graph, search, leads, place, next, depth)?;
        place = next;
    }
    Ok(())
}

/// The depths of all cells below these roots, found one depth after the other.
pub(crate) fn search_depths<G: CellGraph>(
    alloc: Global,
    graph: &G,
    roots: &[u32],
) -> Result<Vec<u32>, AllocError>
    requires within { LeadsWithin (G.graph graph.now) }
    requires few { length (G.graph graph.now) < 2 ^ 32 - 1 }
    requires roots { All (λ n. n < length (G.graph graph.now)) roots.now }
    ensures { IfOk result (λ depths. AreDepths (G.graph graph.now) (λ n. is_on n roots.now) depths.items) }
{
    let mut search = Search::new(alloc, graph.cells() as usize)?;
    let mut leads = Vec::new(alloc);
    add_all(&mut search, roots, 0)?;
    let mut from = 0;
    // No cell lies deeper than there are cells. Once a depth has no cell, to go on costs no more than a step for each.
    for depth in 0..graph.cells() {
        let upto = search.queue.len();
        go_deeper(graph, &mut search, &mut leads, from, depth + 1)?;
        from = upto;
    }
    Ok(search.depths)
}
