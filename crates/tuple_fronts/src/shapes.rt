// The shapes of cells, for which the heap is read once more.
ghost use Rattle.std.specs.Prelude.{◌≡◌, ◌<◌, All, length, IfErr, IfOk};
ghost use Rattle.dump_io.specs.Dumps.{IfTold, ReadsAtMost};
ghost use Rattle.dump_io.specs.Faults.{IsReadCauseOf};
ghost use Rattle.dump_sections.specs.Index.{sections_in, IsBuiltOver};
ghost use Rattle.dump_sections.specs.Loading.{bodies_length};
ghost use Rattle.heap_cells.specs.Loading.{heap_bodies};
ghost use Rattle.heap_skeleton.specs.Skeletons.{skeleton_for};
ghost use Rattle.tuple_fronts.specs.CellShapes.{cell_shapes_with, inner_shapes};

use crate::cell_set::CellSet;
use crate::cell_texts::{inner_texts, subject_texts};
use crate::first_elements::MOST_ELEMENTS;
use crate::needed::needed_cells;
use crate::texts::Texts;
use crate::tuples::Tuples;
use dump_io::{Dumps, ReadFault};
use dump_sections::Index;
use heap_skeleton::Skeleton;
use std::alloc::Global;

/// Reads the heap of a process and the literals, each once and in pieces of at most 65,536 bytes, and returns the shapes
/// that some of its cells have inside messages, in the order of their numbers: of a tuple its first element, if that is
/// an atom, and how many it has. The skeleton is that of this heap. The index was built over the open file, which stays
/// open.
///
/// Returns `Read` only if the device's count of faults rose; `Memory` may come from any allocation, and comes if the
/// texts of the first elements, or the shapes, have 4 GiB or more. Whatever it returns, at most as many bytes are read as
/// the two bodies have. Beside the shapes it needs the texts of the first 8 elements of those cells that are tuples.
pub fn inner_shapes<D: Dumps>(
    alloc: Global,
    dumps: &mut D,
    index: &Index,
    pid: &[u8],
    skeleton: &Skeleton,
    cells: CellSet,
) -> Result<Texts, ReadFault>
    requires over { IsBuiltOver (D.state dumps.old).now index.now }
    requires cells { All (λ n. n < length skeleton.now.leads) cells }
    requires skeleton { IfTold (D.state dumps.old).now
        (λ dump. skeleton.now ≡ skeleton_for dump index.now pid.now) }
    ensures reads { ReadsAtMost (D.state dumps.old) (D.state dumps.new)
        (bodies_length (heap_bodies pid.now (sections_in index.now))) }
    ensures fault { IfErr result (IsReadCauseOf (D.state dumps.old) (D.state dumps.new)) }
    ensures count { IfOk result (λ shapes. length shapes ≡ length cells) }
    ensures shapes { IfOk result (λ shapes. IfTold (D.state dumps.old).now
        (λ dump. shapes ≡ inner_shapes dump index.now pid.now cells)) }
{
    let tuples = Tuples::load(alloc, dumps, index, pid, skeleton, cells, MOST_ELEMENTS)?;
    let shapes = inner_texts(alloc, skeleton, &tuples, false)?;
    Ok(shapes)
}

/// Reads the heap of a process and the literals, each once and in pieces of at most 65,536 bytes, and returns the shapes
/// of messages that refer to some of its cells, in the order of their numbers. The skeleton is that of this heap. The
/// index was built over the open file, which stays open.
///
/// With `pids` a pid that is an element is shown by its text, of which at most the first 255 bytes count.
///
/// The faults and what is read are those of [`inner_shapes`]. Beside the shapes, each of at most 2,213 bytes, it needs
/// the texts of the first 8 elements of those cells that are tuples and of the tuples among these elements, and what each
/// of these is inside a message, of at most 275 bytes: this is made once for each tuple. Where pids are shown these are at
/// most 16,437 and 2,053 bytes.
pub fn cell_shapes_with<D: Dumps>(
    alloc: Global,
    dumps: &mut D,
    index: &Index,
    pid: &[u8],
    skeleton: &Skeleton,
    cells: &CellSet,
    pids: bool,
) -> Result<Texts, ReadFault>
    requires over { IsBuiltOver (D.state dumps.old).now index.now }
    requires cells { All (λ n. n < length skeleton.now.leads) cells.now }
    requires skeleton { IfTold (D.state dumps.old).now
        (λ dump. skeleton.now ≡ skeleton_for dump index.now pid.now) }
    ensures reads { ReadsAtMost (D.state dumps.old) (D.state dumps.new)
        (bodies_length (heap_bodies pid.now (sections_in index.now))) }
    ensures fault { IfErr result (IsReadCauseOf (D.state dumps.old) (D.state dumps.new)) }
    ensures count { IfOk result (λ shapes. length shapes ≡ length cells.now) }
    ensures shapes { IfOk result (λ shapes. IfTold (D.state dumps.old).now
        (λ dump. shapes ≡ cell_shapes_with pids dump index.now pid.now cells.now)) }
{
    skeleton.leads_are_cells();
    let needed = needed_cells(alloc, skeleton, cells)?;
    let tuples = Tuples::load(alloc, dumps, index, pid, skeleton, needed, MOST_ELEMENTS)?;
    let inner = inner_texts(alloc, skeleton, &tuples, pids)?;
    let shapes = subject_texts(alloc, skeleton, &tuples, &inner, cells, pids)?;
    Ok(shapes)
}
