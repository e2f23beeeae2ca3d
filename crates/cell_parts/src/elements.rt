// The elements of one cell.
ghost use Rattle.std.specs.Prelude.{◌≡◌, ℕ, ◌+◌, ◌<◌, ◌≤◌, ◌++◌, [], ◌∷◌, List, Option, length, drop, slice_index_or, slice_set, IfSome, OnOk, false, true, if◌then◌else◌};
ghost use Rattle.cell_graphs.specs.Graphs.{LeadsWithin, places_at};
ghost use Rattle.cell_parts.specs.Elements.{cell_elements, leads_on, opened_at, spots_of, weighed};
ghost use Rattle.cell_parts.specs.Parts.{ArePartsOf, CellParts, PartElement};
ghost use Rattle.cell_parts.specs.Inner.Walking.{AreFrames, AreMarked, HasAdded, IsWalking, places_left, spot_at, spots_from, waiting};

use crate::parts::Parts;
use cell_graphs::CellGraph;
use heap_skeleton::{Kind, Skeleton};
use std::alloc::{AllocError, Global};

// Where the walk goes on in a cell.
#[derive(Clone, Copy)]
pub(crate) struct Frame {
    pub cell: u32,
    pub place: usize,
}

// A walk over the elements of a cell.
#[derive(Drop)]
struct Walk {
    // For each cell, whether it was passed.
    passed: Vec<bool>,
    // Where to go on, the innermost cell last. A cell leaves before its last place
    // is looked at, so that a list of any length takes one frame.
    frames: Vec<Frame>,
}

// Whether a place of a cell leads on to more of the same list or the same map.
fn leads_on(kind: Option<Kind>, place: usize, other: Option<Kind>) -> bool
    ensures { result ≡ leads_on kind place other }
{
    match (kind, other) {
        (Some(Kind::List), Some(Kind::List)) => place == 1,
        (Some(Kind::Hash | Kind::Node), Some(Kind::Node)) => true,
        _ => false,
    }
}

// Whether a place that leads here is weighed.
fn is_weighed(kind: Option<Kind>, lead: Option<u32>) -> bool
    ensures { weighed kind lead ≡ (if result then lead ∷ [] else []) }
{
    match kind {
        Some(Kind::SubBin) => lead.is_some(),
        _ => true,
    }
}

// The cell that opens at a place that leads here.
fn opened(skeleton: &Skeleton, passed: &[bool], at: Frame, lead: Option<u32>) -> Option<u32>
    requires cell { at.cell < length skeleton.now.leads }
    requires within { IfSome lead (λ n. n < length skeleton.now.leads) }
    requires marks { length passed.now ≡ length skeleton.now.leads }
    ensures value { (list : List ℕ) → AreMarked passed.now list
        → result ≡ opened_at skeleton.now.kinds list (spot_at skeleton.now.kinds at lead) }
    ensures other { IfSome result (λ n. slice_index_or passed.now n false ≡ false) }
    ensures within { IfSome result (λ n. n < length passed.now) }
{
    let next = lead?;
    if leads_on(skeleton.kind(at.cell), at.place, skeleton.kind(next)) && !passed[next as usize] {
        Some(next)
    } else {
        None
    }
}

// Adds one more element, if it is weighed: the next after those since there were `begun` of them.
fn add_lead(
    parts: &mut Parts,
    begun: u64,
    kind: Option<Kind>,
    lead: Option<u32>,
) -> Result<(), AllocError>
    requires within { IfSome lead (λ n. n < parts.old.cells) }
    requires begun { begun ≤ parts.old.elements }
    ensures cells { parts.new.cells ≡ parts.old.cells }
    ensures total { OnOk result (parts.old.elements ≤ parts.new.elements) }
    ensures added { (before : CellParts) (leads : List (Option ℕ)) → before.elements ≡ begun
        → HasAdded before leads parts.old → OnOk result (HasAdded before (leads ++ weighed kind lead) parts.new) }
{
    if !is_weighed(kind, lead) {
        return Ok(());
    }
    let place = parts.total() - begun;
    parts.add(lead, place, b"-")
}

// Goes on behind a place, if its cell has further ones.
fn go_on(skeleton: &Skeleton, frames: &mut Vec<Frame>, at: Frame) -> Result<(), AllocError>
    requires place { at.place < length (places_at skeleton.now.leads at.cell) }
    requires frames { AreFrames skeleton.now.leads frames.old.items }
    ensures frames { OnOk result (AreFrames skeleton.now.leads frames.new.items) }
    ensures waiting { OnOk result (waiting skeleton.now.kinds skeleton.now.leads frames.new.items
        ≡ drop (at.place + 1) (spots_of skeleton.now.kinds skeleton.now.leads at.cell)
        ++ waiting skeleton.now.kinds skeleton.now.leads frames.old.items) }
{
    if at.place < skeleton.places(at.cell) - 1 {
        frames.push(Frame {
            cell: at.cell,
            place: at.place + 1,
        })?;
    }
    Ok(())
}

// Passes a cell, and goes on at its first place, if it has one.
fn open(skeleton: &Skeleton, walk: &mut Walk, cell: u32) -> Result<(), AllocError>
    requires cell { cell < length skeleton.now.leads }
    requires marks { length walk.old.passed.items ≡ length skeleton.now.leads }
    requires frames { AreFrames skeleton.now.leads walk.old.frames.items }
    ensures marks { walk.new.passed.items ≡ slice_set walk.old.passed.items cell true }
    ensures frames { OnOk result (AreFrames skeleton.now.leads walk.new.frames.items) }
    ensures waiting { OnOk result (waiting skeleton.now.kinds skeleton.now.leads walk.new.frames.items
        ≡ spots_of skeleton.now.kinds skeleton.now.leads cell
        ++ waiting skeleton.now.kinds skeleton.now.leads walk.old.frames.items) }
{
    walk.passed[cell as usize] = true;
    if skeleton.places(cell) > 0 {
        walk.frames.push(Frame { cell, place: 0 })?;
    }
    Ok(())
}

// What stands at a place is opened or weighed.
fn pass(
    parts: &mut Parts,
    begun: u64,
    skeleton: &Skeleton,
    walk: &mut Walk,
    at: Frame,
) -> Result<(), AllocError>
    requires within { LeadsWithin skeleton.now.leads }
    requires cells { parts.old.cells ≡ length skeleton.now.leads }
    requires begun { begun ≤ parts.old.elements }
    requires marks { length walk.old.passed.items ≡ length skeleton.now.leads }
    requires frames { AreFrames skeleton.now.leads walk.old.frames.items }
    requires place { at.place < length (places_at skeleton.now.leads at.cell) }
    ensures cells { parts.new.cells ≡ parts.old.cells }
    ensures total { OnOk result (parts.old.elements ≤ parts.new.elements) }
    ensures marks { length walk.new.passed.items ≡ length walk.old.passed.items }
    ensures frames { OnOk result (AreFrames skeleton.now.leads walk.new.frames.items) }
    ensures work { OnOk result (places_left walk.new.passed.items skeleton.now.leads
        + length (waiting skeleton.now.kinds skeleton.now.leads walk.new.frames.items)
        < places_left walk.old.passed.items skeleton.now.leads
        + length (spots_from skeleton.now.kinds skeleton.now.leads at
        ++ waiting skeleton.now.kinds skeleton.now.leads walk.old.frames.items)) }
    ensures walking { (cell : ℕ) (before : CellParts) → before.elements ≡ begun
        → IsWalking skeleton.now.kinds skeleton.now.leads cell before parts.old walk.old.passed.items
        (spots_from skeleton.now.kinds skeleton.now.leads at
        ++ waiting skeleton.now.kinds skeleton.now.leads walk.old.frames.items)
        → OnOk result (IsWalking skeleton.now.kinds skeleton.now.leads cell before parts.new walk.new.passed.items
        (waiting skeleton.now.kinds skeleton.now.leads walk.new.frames.items)) }
{
    let lead = skeleton.lead(at.cell, at.place);
    go_on(skeleton, &mut walk.frames, at)?;
    match opened(skeleton, &walk.passed, at, lead) {
        Some(next) => open(skeleton, walk, next),
        None => add_lead(parts, begun, skeleton.kind(at.cell), lead),
    }
}

/// Adds the elements of a cell that are weighed, one after another. Each has its
/// number among them, from 0, as its place, and `-` as its label.
///
/// Takes a byte for each cell of the heap, and a stack of at most as many entries as cells.
pub fn add_elements(
    alloc: Global,
    parts: &mut Parts,
    skeleton: &Skeleton,
    cell: u32,
) -> Result<(), AllocError>
    requires cell { cell < length skeleton.now.leads }
    requires cells { parts.old.cells ≡ length skeleton.now.leads }
    ensures cells { parts.new.cells ≡ parts.old.cells }
    ensures parts { (elements : List PartElement) → ArePartsOf elements parts.old → OnOk result
        (ArePartsOf (elements ++ cell_elements skeleton.now.kinds skeleton.now.leads cell) parts.new) }
{
    let begun = parts.total();
    let passed = vec![in alloc; false; skeleton.cells() as usize]?;
    let mut walk = Walk {
        passed,
        frames: Vec::new(alloc),
    };
    open(skeleton, &mut walk, cell)?;
    while let Some(at) = walk.frames.pop() {
        pass(parts, begun, skeleton, &mut walk, at)?;
    }
    Ok(())
}
