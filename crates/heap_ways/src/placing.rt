// Which shape belongs to which step.
ghost use Rattle.std.specs.Prelude.{◌≡◌, ◌<◌, All, length, map, IfOk, IfSome};
ghost use Rattle.std.specs.List.{AllByRecursion};
ghost use Rattle.heap_ways.specs.Steps.{steps_of};
ghost use Rattle.heap_ways.specs.Inner.Kept.{front_place, placed, step_cell, AreIn};

use crate::steps::{Step, steps_of};
use heap_skeleton::Skeleton;
use std::alloc::{AllocError, Global};
use tuple_fronts::CellSet;

/// A step of a way, and the number of its shape among those that are kept, if it is a tuple.
#[derive(Clone, Copy)]
pub(crate) struct Placed {
    pub step: Step,
    pub front: Option<usize>,
}

// The number of the shape of a step's cell among those of these tuples.
fn front_place(skeleton: &Skeleton, tuples: &CellSet, step: Step) -> Option<usize>
    requires { step_cell step < length skeleton.now.leads }
    ensures value { result ≡ front_place skeleton.now tuples.now step }
    ensures within { IfSome result (λ i. i < length tuples.now) }
{
    match step {
        Step::Cell(cell, _place) if skeleton.is_tuple(cell) => tuples.place(cell),
        _ => None,
    }
}

// The steps with the numbers of their shapes among those of these tuples.
fn placed_steps(
    alloc: Global,
    skeleton: &Skeleton,
    tuples: &CellSet,
    steps: &[Step],
) -> Result<Vec<Placed>, AllocError>
    requires { AllByRecursion (λ st. step_cell st < length skeleton.now.leads) steps.now }
    ensures value { IfOk result (λ found. found.items ≡ map (placed skeleton.now tuples.now) steps.now) }
    ensures within { IfOk result (λ found. AreIn skeleton.now (length tuples.now) found.items) }
{
    let mut found = Vec::new(alloc);
    for step in steps {
        let front = front_place(skeleton, tuples, *step);
        found.push(Placed { step: *step, front })?;
    }
    Ok(found)
}

/// The steps of a way with the numbers of their shapes among those of these tuples.
pub(crate) fn place_steps(
    alloc: Global,
    skeleton: &Skeleton,
    tuples: &CellSet,
    way: &[u32],
) -> Result<Vec<Placed>, AllocError>
    requires { All (λ n. n < length skeleton.now.leads) way.now }
    ensures value { IfOk result (λ found. found.items ≡ map (placed skeleton.now tuples.now)
        (steps_of skeleton.now.kinds skeleton.now.leads way.now)) }
    ensures within { IfOk result (λ found. AreIn skeleton.now (length tuples.now) found.items) }
{
    let steps = steps_of(alloc, skeleton, way)?;
    placed_steps(alloc, skeleton, tuples, &steps)
}
