// The way to a cell of the heap of a process.
ghost use Rattle.std.specs.Prelude.{◌≡◌, ◌+◌, ◌<◌, [], length, slice_get, slice_index_or, IfErr, IfOk, IfSome, Some};
ghost use Rattle.std.specs.Option.{option_map};
ghost use Rattle.dump_io.specs.Dumps.{IfTold, ReadsAtMost};
ghost use Rattle.dump_io.specs.Faults.{IsReadCauseOf};
ghost use Rattle.dump_sections.specs.Index.{sections_in, IsBuiltOver};
ghost use Rattle.dump_sections.specs.Loading.{bodies_length};
ghost use Rattle.heap_cells.specs.Loading.{heap_bodies};
ghost use Rattle.heap_skeleton.specs.Skeletons.{skeleton_for};
ghost use Rattle.cell_parts.specs.Over.{IsOver};
ghost use Rattle.root_views.specs.Sections.{root_bodies};
ghost use Rattle.tuple_fronts.specs.Fronts.{cells_for};
ghost use Rattle.heap_ways.specs.Shown.{line};
ghost use Rattle.heap_ways.specs.Ways.{heap_way, root_way, way_found};
ghost use Rattle.heap_ways.specs.Inner.Kept.{line_kept, IsIn};

use crate::finding::{Found, find_way};
use crate::fronts::{read_shapes, tuples_of};
use crate::lines::WayLine;
use crate::placing::{Placed, place_steps};
use crate::roots::{Root, root_of};
use crate::steps::Step;
use cell_parts::{Parts, read_parts};
use dump_io::{Dumps, ReadFault};
use dump_sections::Index;
use heap_skeleton::Skeleton;
use std::alloc::Global;
use std::marker::Model;
use tuple_fronts::Texts;

/// The way from the roots of a process to a cell of its heap. Contracts see it as it is shown.
#[derive(Drop)]
pub struct HeapWay {
    skeleton: Skeleton,
    root: Root,
    steps: Vec<Placed>,
    // The shapes of the tuples on the way.
    fronts: Texts,
    depth: Option<u32>,
}

impl Model for HeapWay {
    ghost use Rattle.heap_ways.specs.Ways.{Way};
    ghost use Rattle.std.specs.Prelude.{length};
    ghost use Rattle.heap_ways.specs.Inner.Kept.{way_kept, AreIn};

    ghost Value = { Way };

    ghost view = { λ w. way_kept w.skeleton w.root w.steps.items w.fronts w.depth };

    ghost invariant = { λ w. AreIn w.skeleton (length w.fronts) w.steps.items };
}

// The way to a cell from roots that make these parts. The heap is read once more.
fn way_from<D: Dumps>(
    alloc: Global,
    dumps: &mut D,
    index: &Index,
    pid: &[u8],
    skeleton: Skeleton,
    parts: &Parts,
    cell: u32,
) -> Result<HeapWay, ReadFault>
    requires over { IsBuiltOver (D.state dumps.old).now index.now }
    requires parts { IsOver skeleton parts.now }
    requires cell { cell < length skeleton.leads }
    requires skeleton { IfTold (D.state dumps.old).now
        (λ dump. skeleton ≡ skeleton_for dump index.now pid.now) }
    ensures reads { ReadsAtMost (D.state dumps.old) (D.state dumps.new)
        (bodies_length (heap_bodies pid.now (sections_in index.now))) }
    ensures fault { IfErr result (IsReadCauseOf (D.state dumps.old) (D.state dumps.new)) }
    ensures way { IfOk result (λ way. IfTold (D.state dumps.old).now (λ dump.
        way ≡ way_found skeleton (cells_for dump index.now pid.now) parts.now.parts cell)) }
{
    let Found { way, depth } = find_way(alloc, &skeleton, parts, cell)?;
    let root = root_of(alloc, parts, &way)?;
    let tuples = tuples_of(alloc, &skeleton, &way)?;
    let steps = place_steps(alloc, &skeleton, &tuples, &way)?;
    let fronts = read_shapes(alloc, dumps, index, pid, &skeleton, tuples)?;
    Ok(HeapWay {
        skeleton,
        root,
        steps,
        fronts,
        depth,
    })
}

// The way to a cell from the roots of a process.
fn find_from_roots<D: Dumps>(
    alloc: Global,
    dumps: &mut D,
    index: &Index,
    pid: &[u8],
    skeleton: Skeleton,
    cell: u32,
) -> Result<HeapWay, ReadFault>
    requires over { IsBuiltOver (D.state dumps.old).now index.now }
    requires cell { cell < length skeleton.leads }
    requires skeleton { IfTold (D.state dumps.old).now
        (λ dump. skeleton ≡ skeleton_for dump index.now pid.now) }
    ensures reads { let sections = sections_in index.now in
        ReadsAtMost (D.state dumps.old) (D.state dumps.new)
        (bodies_length (root_bodies pid.now sections) + bodies_length (heap_bodies pid.now sections)) }
    ensures fault { IfErr result (IsReadCauseOf (D.state dumps.old) (D.state dumps.new)) }
    ensures way { IfOk result (λ way. IfTold (D.state dumps.old).now (λ dump.
        way ≡ root_way dump index.now pid.now skeleton cell)) }
{
    let parts = read_parts(alloc, dumps, index, pid, &skeleton)?;
    let way = way_from(alloc, dumps, index, pid, skeleton, &parts, cell)?;
    Ok(way)
}

// The shape with a number.
fn front_at(fronts: &Texts, front: Option<usize>) -> Option<&[u8]>
    requires { IfSome front (λ i. i < length fronts.now) }
    ensures { option_map (λ text. text.now) result ≡ option_map (λ i. slice_index_or fronts.now i []) front }
{
    match front {
        Some(i) => Some(fronts.get(i)),
        None => None,
    }
}

// A step as it is shown.
fn line_of<'a>(skeleton: &Skeleton, fronts: &'a Texts, placed: Placed) -> WayLine<'a>
    requires { IsIn skeleton.now (length fronts.now) placed }
    ensures { line result ≡ line_kept skeleton.now fronts.now placed }
{
    skeleton.leads_are_cells();
    match placed.step {
        Step::Tails(cell, count) => WayLine::Tails(skeleton.addr(cell), count),
        Step::Cell(cell, place) => WayLine::Cell(
            skeleton.addr(cell),
            skeleton.kind(cell),
            place,
            front_at(fronts, placed.front),
        ),
    }
}

impl HeapWay {
    /// Reads the heap of a process and the literals, and the stack, the dictionary and the mailbox, each in pieces, whatever
    /// their lengths, and finds the way from the terms among the roots, in this order, to the cell at an address. Returns
    /// `None` exactly when neither the heap nor the literals have a cell with this address. The process need not be there; a
    /// missing section counts as empty. The index was built over the open file, which stays open.
    ///
    /// Nothing that the sections hold is refused. Returns `Read` only if the device's count of faults rose; `Memory` may come
    /// from any allocation, and comes where a [`Skeleton`] can't hold the heap, and where the labels of the parts or
    /// the shapes of the tuples on the way have more than 4 GiB together. Whatever it returns, at most as many bytes are read
    /// as the bodies with the roots have, and twice as many as those of the heap and of the literals. Beside the skeleton it
    /// needs 12 bytes for each cell, 28 and its label for each different cell to which a root refers, and what is kept.
    pub fn load<D: Dumps>(
        alloc: Global,
        dumps: &mut D,
        index: &Index,
        pid: &[u8],
        address: u64,
    ) -> Result<Option<HeapWay>, ReadFault>
        requires { IsBuiltOver (D.state dumps.old).now index.now }
        ensures reads { let sections = sections_in index.now in
            ReadsAtMost (D.state dumps.old) (D.state dumps.new)
            (bodies_length (heap_bodies pid.now sections)
            + (bodies_length (root_bodies pid.now sections) + bodies_length (heap_bodies pid.now sections))) }
        ensures fault { IfErr result (IsReadCauseOf (D.state dumps.old) (D.state dumps.new)) }
        ensures way { IfOk result (λ found. IfTold (D.state dumps.old).now (λ dump.
            found ≡ heap_way dump index.now pid.now address)) }
    {
        let skeleton = Skeleton::load(alloc, dumps, index, pid)?;
        match skeleton.find(address) {
            None => Ok(None),
            Some(cell) => {
                let way = find_from_roots(alloc, dumps, index, pid, skeleton, cell)?;
                Ok(Some(way))
            }
        }
    }

    /// The offset in the file of the first root that refers to the first cell of the way. It says nothing if there is no way.
    pub fn root_at(&self) -> u64
        ensures { result ≡ self.now.root.at }
    {
        self.root.at
    }

    /// The label of that root.
    pub fn root_label(&self) -> &[u8]
        ensures { result.now ≡ self.now.root.label }
    {
        self.root.label.as_slice()
    }

    /// The depth of the cell. Returns `None` exactly when no root reaches the cell.
    pub fn depth(&self) -> Option<u32>
        ensures { result ≡ self.now.depth }
    {
        self.depth
    }

    /// How many steps the way has.
    pub fn len(&self) -> usize
        ensures { result ≡ length self.now.lines }
    {
        self.steps.len()
    }

    /// A step of the way, by its place. The first begins with the cell to which the root refers.
    pub fn line(&self, i: usize) -> WayLine<'_>
        requires { i < length self.now.lines }
        ensures { slice_get self.now.lines i ≡ Some (line result) }
    {
        line_of(&self.skeleton, &self.fronts, self.steps[i])
    }
}
