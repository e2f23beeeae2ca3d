// The shapes of the tuples on a way.
ghost use Rattle.std.specs.Prelude.{◌≡◌, ◌<◌, ◌++◌, [], ◌∷◌, All, filter, length, IfErr, IfOk, OnOk};
ghost use Rattle.std.specs.List.Sorted.{IsStrictlyIncreasing};
ghost use Rattle.dump_io.specs.Dumps.{IfTold, ReadsAtMost};
ghost use Rattle.dump_io.specs.Faults.{IsReadCauseOf};
ghost use Rattle.dump_sections.specs.Index.{sections_in, IsBuiltOver};
ghost use Rattle.dump_sections.specs.Loading.{bodies_length};
ghost use Rattle.heap_cells.specs.Loading.{heap_bodies};
ghost use Rattle.heap_skeleton.specs.Skeletons.{is_tuple, skeleton_for};
ghost use Rattle.tuple_fronts.specs.CellShapes.{inner_shapes};
ghost use Rattle.heap_ways.specs.Inner.Kept.{HasTuples};

use dump_io::{Dumps, ReadFault};
use dump_sections::Index;
use heap_skeleton::Skeleton;
use std::alloc::{AllocError, Global};
use tuple_fronts::{CellSet, Texts, inner_shapes};

// Appends a cell, if it is a tuple.
fn push_tuple(tuples: &mut Vec<u32>, skeleton: &Skeleton, cell: u32) -> Result<(), AllocError>
    requires { cell < length skeleton.now.leads }
    ensures { OnOk result (tuples.new.items ≡ tuples.old.items ++ filter (is_tuple skeleton.now) (cell ∷ [])) }
{
    if skeleton.is_tuple(cell) {
        tuples.push(cell)?;
    }
    Ok(())
}

/// The tuples among these cells.
pub(crate) fn tuples_of(
    alloc: Global,
    skeleton: &Skeleton,
    cells: &[u32],
) -> Result<CellSet, AllocError>
    requires { All (λ n. n < length skeleton.now.leads) cells.now }
    ensures has { IfOk result (HasTuples skeleton.now cells.now) }
    ensures ascending { IfOk result IsStrictlyIncreasing }
    ensures within { IfOk result (All (λ n. n < length skeleton.now.leads)) }
{
    let mut tuples = Vec::new(alloc);
    for cell in cells {
        push_tuple(&mut tuples, skeleton, *cell)?;
    }
    Ok(CellSet::of(tuples))
}

/// The shapes of these cells, for which the heap is read once more if there are any.
pub(crate) fn read_shapes<D: Dumps>(
    alloc: Global,
    dumps: &mut D,
    index: &Index,
    pid: &[u8],
    skeleton: &Skeleton,
    cells: CellSet,
) -> Result<Texts, ReadFault>
    requires over { IsBuiltOver (D.state dumps.old).now index.now }
    requires cells { All (λ n. n < length skeleton.now.leads) cells }
    requires skeleton { IfTold (D.state dumps.old).now
        (λ dump. skeleton.now ≡ skeleton_for dump index.now pid.now) }
    ensures reads { ReadsAtMost (D.state dumps.old) (D.state dumps.new)
        (bodies_length (heap_bodies pid.now (sections_in index.now))) }
    ensures fault { IfErr result (IsReadCauseOf (D.state dumps.old) (D.state dumps.new)) }
    ensures count { IfOk result (λ shapes. length shapes ≡ length cells) }
    ensures shapes { IfOk result (λ shapes. IfTold (D.state dumps.old).now
        (λ dump. shapes ≡ inner_shapes dump index.now pid.now cells)) }
{
    if cells.numbers().is_empty() {
        return Ok(Texts::new(alloc));
    }
    inner_shapes(alloc, dumps, index, pid, skeleton, cells)
}
