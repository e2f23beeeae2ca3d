// The tuples whose first elements are known.
ghost use Rattle.std.specs.Prelude.{◌≡◌, ◌<◌, All, length, IfErr, IfOk, IfSome};
ghost use Rattle.std.specs.List.Sorted.{IsStrictlyIncreasing};
ghost use Rattle.dump_io.specs.Dumps.{IfTold, ReadsAtMost};
ghost use Rattle.dump_io.specs.Faults.{IsReadCauseOf};
ghost use Rattle.dump_sections.specs.Index.{IsBuiltOver, sections_in};
ghost use Rattle.dump_sections.specs.Loading.{bodies_length};
ghost use Rattle.heap_cells.specs.Loading.{heap_bodies};
ghost use Rattle.heap_skeleton.specs.Skeletons.{skeleton_for};
ghost use Rattle.tuple_fronts.specs.Fronts.{firsts_for};
ghost use Rattle.tuple_fronts.specs.CellSets.{place_of};
ghost use Rattle.tuple_fronts.specs.Tuples.{front_at};

use crate::cell_set::CellSet;
use crate::front::Front;
use crate::fronts::TupleFronts;
use dump_io::{Dumps, ReadFault};
use dump_sections::Index;
use heap_skeleton::Skeleton;
use std::alloc::Global;
use std::marker::Model;

/// Tuples and lists, and the first elements of each, which are found by the number of its cell. Contracts see both.
#[derive(Drop)]
pub struct Tuples {
    cells: CellSet,
    fronts: TupleFronts,
}

impl Model for Tuples {
    ghost use Rattle.std.specs.Prelude.{◌≡◌, length};
    ghost use Rattle.tuple_fronts.specs.Tuples.{TupleMap};

    ghost Value = { TupleMap };

    ghost view = { λ t. record { cells = t.cells; fronts = t.fronts } };

    ghost invariant = { λ t. length t.fronts ≡ length t.cells };
}

impl Tuples {
    /// Reads the heap of a process and the literals once more, and keeps the first `most` elements of these cells, as
    /// [`TupleFronts::load_first`] does.
    pub fn load<D: Dumps>(
        alloc: Global,
        dumps: &mut D,
        index: &Index,
        pid: &[u8],
        skeleton: &Skeleton,
        cells: CellSet,
        most: usize,
    ) -> Result<Tuples, ReadFault>
        requires over { IsBuiltOver (D.state dumps.old).now index.now }
        requires cells { All (λ n. n < length skeleton.now.leads) cells }
        requires skeleton { IfTold (D.state dumps.old).now
            (λ dump. skeleton.now ≡ skeleton_for dump index.now pid.now) }
        ensures reads { ReadsAtMost (D.state dumps.old) (D.state dumps.new)
            (bodies_length (heap_bodies pid.now (sections_in index.now))) }
        ensures fault { IfErr result (IsReadCauseOf (D.state dumps.old) (D.state dumps.new)) }
        ensures cells { IfOk result (λ tuples. tuples.cells ≡ cells) }
        ensures ascending { IfOk result (λ tuples. IsStrictlyIncreasing tuples.cells) }
        ensures fronts { IfOk result (λ tuples. IfTold (D.state dumps.old).now
            (λ dump. tuples.fronts ≡ firsts_for most dump index.now pid.now cells)) }
    {
        skeleton.leads_are_cells();
        let fronts = TupleFronts::load_first(
            alloc,
            dumps,
            index,
            pid,
            skeleton,
            cells.numbers(),
            most,
        )?;
        Ok(Tuples { cells, fronts })
    }

    /// The cells whose first elements are known.
    pub(crate) fn cells(&self) -> &[u32]
        ensures { result.now ≡ self.now.cells }
    {
        self.cells.numbers()
    }

    /// The place of a cell among them, if it is one of them.
    pub(crate) fn place(&self, cell: u32) -> Option<usize>
        ensures value { result ≡ place_of self.now.cells cell }
        ensures within { IfSome result (λ i. i < length self.now.cells) }
    {
        self.cells.place(cell)
    }

    /// The first elements of a cell; of one that isn't among these cells none. The cell is looked up once, for all of its elements.
    pub fn front(&self, cell: u32) -> Front<'_>
        ensures { result ≡ front_at self.now cell }
    {
        Front::new(&self.fronts, self.cells.place(cell))
    }
}
