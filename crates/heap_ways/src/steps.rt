// The steps of a way.
ghost use Rattle.std.specs.Prelude.{◌≡◌, ◌+◌, ◌<◌, All, length, reverse, IfOk, OnOk};
ghost use Rattle.cell_graphs.specs.Rounds.{is_to};
ghost use Rattle.heap_ways.specs.Steps.{follows, has_pairs, is_list, place_to, steps_of, with_cell, with_tail};
ghost use Rattle.heap_ways.specs.Inner.Steps.{kind_before, steps_at};

use cell_graphs::CellGraph;
use cell_records::Kind;
use heap_skeleton::Skeleton;
use std::alloc::{AllocError, Global};

/// A step of a way. Cells are identified by their numbers.
#[derive(Clone, Copy)]
pub(crate) enum Step {
    /// So many lists that follow on each other, of which this is the first.
    Tails(u32, u32),
    /// A cell, and its place that leads to the next, if there is one.
    Cell(u32, Option<usize>),
}

// Whether a place leads to a cell.
fn is_to(cell: u32, lead: Option<u32>) -> bool
    ensures { result ≡ is_to cell lead }
{
    match lead {
        Some(other) => other == cell,
        None => false,
    }
}

// The first place of a cell that leads to another.
fn place_to(skeleton: &Skeleton, from: u32, to: u32) -> Option<usize>
    requires { from < length skeleton.now.leads }
    ensures { result ≡ place_to skeleton.now.leads from to }
{
    for place in 0..skeleton.places(from) {
        if is_to(to, skeleton.lead(from, place)) {
            return Some(place);
        }
    }
    None
}

fn is_list(kind: Option<Kind>) -> bool
    ensures { result ≡ is_list kind }
{
    matches!(kind, Some(Kind::List))
}

fn has_pairs(kind: Option<Kind>) -> bool
    ensures { result ≡ has_pairs kind }
{
    matches!(kind, Some(Kind::Hash | Kind::Node))
}

// Whether a cell is one of lists that follow on each other.
fn follows(
    before: Option<Kind>,
    here: Option<Kind>,
    place: Option<usize>,
    next: Option<Kind>,
) -> bool
    ensures { result ≡ follows before here place next }
{
    match place {
        Some(1) => is_list(here) && is_list(next) && !has_pairs(before),
        _ => false,
    }
}

// One more list before steps that are kept with the last first.
fn push_tail(steps: &mut Vec<Step>, cell: u32) -> Result<(), AllocError>
    ensures { OnOk result (reverse steps.new.items ≡ with_tail cell (reverse steps.old.items)) }
{
    let popped = steps.pop();
    if let Some(Step::Tails(_next, count)) = popped {
        let Some(more) = count.checked_add(1) else {
            return Err(AllocError);
        };
        steps.push(Step::Tails(cell, more))?;
        return Ok(());
    }
    if let Some(step) = popped {
        steps.push(step)?;
    }
    steps.push(Step::Tails(cell, 1))?;
    Ok(())
}

// One more cell before steps that are kept with the last first.
fn push_cell(
    steps: &mut Vec<Step>,
    is_tail: bool,
    cell: u32,
    place: Option<usize>,
) -> Result<(), AllocError>
    ensures { OnOk result (reverse steps.new.items ≡ with_cell is_tail cell place (reverse steps.old.items)) }
{
    if is_tail {
        return push_tail(steps, cell);
    }
    steps.push(Step::Cell(cell, place))?;
    Ok(())
}

// The kind of the cell before a place of a way.
fn kind_before(skeleton: &Skeleton, way: &[u32], i: usize) -> Option<Kind>
    requires cells { All (λ n. n < length skeleton.now.leads) way.now }
    requires place { i < length way.now }
    ensures { result ≡ kind_before skeleton.now.kinds way.now i }
{
    if i == 0 {
        None
    } else {
        skeleton.kind(way[i - 1])
    }
}

// The cell at a place of a way before the steps that follow it, which are kept with the last first.
fn push_next(
    steps: &mut Vec<Step>,
    skeleton: &Skeleton,
    way: &[u32],
    i: usize,
) -> Result<(), AllocError>
    requires cells { All (λ n. n < length skeleton.now.leads) way.now }
    requires place { i < length way.now }
    requires steps { reverse steps.old.items ≡ steps_at skeleton.now.kinds skeleton.now.leads way.now (i + 1) }
    ensures { OnOk result (reverse steps.new.items ≡ steps_at skeleton.now.kinds skeleton.now.leads way.now i) }
{
    let cell = way[i];
    let Some(next) = way.get(i + 1) else {
        steps.push(Step::Cell(cell, None))?;
        return Ok(());
    };
    let place = place_to(skeleton, cell, *next);
    let before = kind_before(skeleton, way, i);
    let here = skeleton.kind(cell);
    let is_tail = follows(before, here, place, skeleton.kind(*next));
    push_cell(steps, is_tail, cell, place)
}

/// The steps of a way.
pub(crate) fn steps_of(
    alloc: Global,
    skeleton: &Skeleton,
    way: &[u32],
) -> Result<Vec<Step>, AllocError>
    requires { All (λ n. n < length skeleton.now.leads) way.now }
    ensures { IfOk result (λ steps. steps.items ≡ steps_of skeleton.now.kinds skeleton.now.leads way.now) }
{
    let mut steps = Vec::new(alloc);
    for behind in 0..way.len() {
        push_next(&mut steps, skeleton, way, way.len() - 1 - behind)?;
    }
    steps.reverse();
    Ok(steps)
}
