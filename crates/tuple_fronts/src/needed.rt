// Which tuples are looked into.
ghost use Rattle.std.specs.Prelude.{◌≡◌, ℕ, ◌<◌, ◌++◌, All, Contains, length, take, flat_map, IfOk, IfSome, OnOk};
ghost use Rattle.std.specs.List.Sorted.{IsStrictlyIncreasing};
ghost use Rattle.cell_graphs.specs.Graphs.{places_at, LeadsWithin};
ghost use Rattle.tuple_fronts.specs.Tuples.{lead_tuple, needed, needed_at};

use crate::cell_set::CellSet;
use crate::first_elements::MOST_ELEMENTS;
use cell_graphs::CellGraph;
use heap_skeleton::Skeleton;
use std::alloc::{AllocError, Global};

/// Appends the cell to which a place leads, if it is a tuple.
pub fn add_lead(
    skeleton: &Skeleton,
    cells: &mut Vec<u32>,
    lead: Option<u32>,
) -> Result<(), AllocError>
    requires { IfSome lead (λ n. n < length skeleton.now.leads) }
    ensures { OnOk result (cells.new.items ≡ cells.old.items ++ lead_tuple skeleton.now lead) }
{
    if let Some(cell) = lead {
        if skeleton.is_tuple(cell) {
            cells.push(cell)?;
        }
    }
    Ok(())
}

// Appends the tuples among those to which the first places of a cell lead.
fn add_leads(skeleton: &Skeleton, cells: &mut Vec<u32>, cell: u32) -> Result<(), AllocError>
    requires cell { cell < length skeleton.now.leads }
    requires within { LeadsWithin skeleton.now.leads }
    ensures { OnOk result (cells.new.items ≡ cells.old.items
        ++ flat_map (lead_tuple skeleton.now) (take 8 (places_at skeleton.now.leads cell))) }
{
    for place in 0..skeleton.places(cell).min(MOST_ELEMENTS) {
        add_lead(skeleton, cells, skeleton.lead(cell, place))?;
    }
    Ok(())
}

/// Appends a cell to which a message refers, if it is a tuple, and the tuples among its first elements.
pub fn add_needed(skeleton: &Skeleton, cells: &mut Vec<u32>, cell: u32) -> Result<(), AllocError>
    requires cell { cell < length skeleton.now.leads }
    requires within { LeadsWithin skeleton.now.leads }
    ensures { OnOk result (cells.new.items ≡ cells.old.items ++ needed_at skeleton.now cell) }
{
    if !skeleton.is_tuple(cell) {
        return Ok(());
    }
    cells.push(cell)?;
    add_leads(skeleton, cells, cell)
}

/// The tuples that are looked into for the shapes of messages that refer to these cells.
pub(crate) fn needed_cells(
    alloc: Global,
    skeleton: &Skeleton,
    subjects: &CellSet,
) -> Result<CellSet, AllocError>
    requires within { LeadsWithin skeleton.now.leads }
    requires subjects { All (λ n. n < length skeleton.now.leads) subjects.now }
    ensures all { IfOk result (λ cells. (n : ℕ) → Contains (needed skeleton.now subjects.now) n → Contains cells n) }
    ensures ascending { IfOk result IsStrictlyIncreasing }
    ensures within { IfOk result (λ cells. All (λ n. n < length skeleton.now.leads) cells) }
{
    let mut cells = Vec::new(alloc);
    for cell in subjects.numbers() {
        add_needed(skeleton, &mut cells, *cell)?;
    }
    Ok(CellSet::of(cells))
}
