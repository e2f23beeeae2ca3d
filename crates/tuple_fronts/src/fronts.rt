// The first elements of tuples and lists.
ghost use Rattle.std.specs.Prelude.{◌≡◌, ◌<◌, Some, [], All, length, slice_get, slice_index_or, IfOk, IfErr};
ghost use Rattle.std.specs.List.Sorted.{IsStrictlyIncreasing};
ghost use Rattle.dump_io.specs.Dumps.{ReadsAtMost, IfTold};
ghost use Rattle.dump_io.specs.Faults.{IsReadCauseOf};
ghost use Rattle.dump_sections.specs.Index.{IsBuiltOver, sections_in};
ghost use Rattle.dump_sections.specs.Loading.{bodies_length};
ghost use Rattle.heap_cells.specs.Loading.{heap_bodies};
ghost use Rattle.heap_skeleton.specs.Skeletons.{skeleton_for};
ghost use Rattle.term_forms.specs.Seen.{element};
ghost use Rattle.tuple_fronts.specs.Fronts.{firsts_for};

use crate::front_lines::keep_fronts;
use crate::kept::Kept;
use dump_io::{Dumps, ReadFault};
use dump_sections::Index;
use heap_skeleton::Skeleton;
use std::alloc::Global;
use std::marker::Model;
use term_forms::shapes::Elem;
use term_forms::whole_elem;

/// The first elements of some cells of a heap, as many of each as were asked for. Contracts see a list of them for each cell, in order.
#[derive(Drop)]
pub struct TupleFronts {
    kept: Kept,
}

impl Model for TupleFronts {
    ghost use Rattle.std.specs.Prelude.{List};
    ghost use Rattle.term_forms.specs.Elements.{Element};
    ghost use Rattle.tuple_fronts.specs.Inner.Kept.{shown_fronts, IsSound};

    ghost Value = { List (List Element) };

    ghost view = { λ s. shown_fronts s.kept.texts.items s.kept.ends.items s.kept.lasts.items };

    ghost invariant = { λ s. IsSound s.kept };
}

impl TupleFronts {
    /// Reads the heap of a process and the literals: the first `proc_heap` section with the pid as its id, and the first
    /// `literals` section, each once and in pieces of at most 65,536 bytes, and keeps of each of these cells the first
    /// `most` elements, if it is a tuple, or of its head and its tail, if it is a list. The cells are in ascending order,
    /// and the skeleton is that of this heap. The index was built over the open file, which stays open.
    ///
    /// Returns `Read` only if the device's count of faults rose; `Memory` may come from any allocation, and comes if the
    /// texts of all elements have 4 GiB or more. Whatever it returns, at most as many bytes are read as the two bodies
    /// have. Beside what is kept only a buffer is needed, of at most twice the longest line and a piece.
    pub fn load_first<D: Dumps>(
        alloc: Global,
        dumps: &mut D,
        index: &Index,
        pid: &[u8],
        skeleton: &Skeleton,
        cells: &[u32],
        most: usize,
    ) -> Result<TupleFronts, ReadFault>
        requires over { IsBuiltOver (D.state dumps.old).now index.now }
        requires cells { All (λ n. n < length skeleton.now.addresses) cells.now }
        requires ascending { IsStrictlyIncreasing cells.now }
        requires skeleton { IfTold (D.state dumps.old).now
            (λ dump. skeleton.now ≡ skeleton_for dump index.now pid.now) }
        ensures reads { ReadsAtMost (D.state dumps.old) (D.state dumps.new)
            (bodies_length (heap_bodies pid.now (sections_in index.now))) }
        ensures fault { IfErr result (IsReadCauseOf (D.state dumps.old) (D.state dumps.new)) }
        ensures count { IfOk result (λ f. length f ≡ length cells.now) }
        ensures fronts { IfOk result (λ f. IfTold (D.state dumps.old).now
            (λ dump. f ≡ firsts_for most dump index.now pid.now cells.now)) }
    {
        let heap = index.first(b"proc_heap", Some(pid));
        let literals = index.first_tag(b"literals");
        let kept = keep_fronts(alloc, dumps, index, heap, literals, skeleton, cells, most)?;
        Ok(TupleFronts { kept })
    }

    /// How many cells these are, those without elements among them.
    pub fn len(&self) -> usize
        ensures { result ≡ length self.now }
    {
        self.kept.lasts.len()
    }

    /// How many elements are kept of the cell at a place.
    pub fn count(&self, i: usize) -> usize
        requires { i < length self.now }
        ensures { result ≡ length (slice_index_or self.now i []) }
    {
        let (from, upto) = self.kept.span(i);
        upto - from
    }

    /// The element at a place of the cell at a place.
    pub fn element(&self, i: usize, place: usize) -> Elem<'_>
        requires cell { i < length self.now }
        requires place { place < length (slice_index_or self.now i []) }
        ensures { slice_get (slice_index_or self.now i []) place ≡ Some (element result) }
    {
        let (from, _) = self.kept.span(i);
        let Some(found) = whole_elem(self.kept.text(from + place)) else {
            unreachable!()
        };
        found
    }
}
