// The heap of a process, by address.
ghost use Rattle.std.specs.Prelude.{◌≡◌, [], ◌+◌, ◌<◌, ◌≤◌, map, length, Some, IfSome, IfOk, IfErr};
ghost use Rattle.std.specs.Option.{option_map};
ghost use Rattle.dump_io.specs.Limits.{usual};
ghost use Rattle.term_forms.specs.SeenForms.{heap_form};
ghost use Rattle.heap_cells.specs.Cells.{cells_of, kind_of, own_count};
ghost use Rattle.heap_cells.specs.HeapMap.{IsBounded, address_at, form_at, elements_at, IsSpelled, nth_element};
ghost use Rattle.dump_sections.specs.Index.{IsBuiltOver, sections_in};
ghost use Rattle.heap_cells.specs.Loading.{heap_bodies, IsHeapAnswerFor, bodies_at, IsHeapFor, IsHeapAt, LoadsHeapFor, LoadsHeapAt, IsTextFault, RefusesLarge};
ghost use Rattle.heap_cells.specs.Inner.Faults.{IsOfTheTexts};
ghost use Rattle.heap_cells.specs.Inner.Settling.{IsSettledIn};
ghost use Rattle.heap_cells.specs.Inner.Records.{row_end};
ghost use Rattle.heap_graph.specs.Held.{start_at};
ghost use Rattle.heap_cells.specs.Targets.{number, target, slot_target, kid_target, KeepsElement, IsSeatOf, IsWithin, targets_at, AreWithin};

use crate::cells::{Kid, Seat};
use crate::faults::HeapFault;
use crate::gathering::gather_texts;
use crate::kids::kid_of;
use crate::loading::{large_bodies, read_texts};
use crate::texts::{Texts, part};
use cell_records::{CellIx, Kind, Slot, number_of, resolved};
use dump_io::{Dumps, Limits, items_between};
use dump_sections::{BodyFault, Index};
use heap_graph::{CellPart, Elements, Held, Ordered, Settled, settle, start_at};
use std::alloc::{AllocError, Global};
use std::marker::Model;
use term_forms::shapes::Form;
use term_forms::{Enc, front_is_longest, spelled_form, whole_is_read};

/// The cells of a process's heap, followed by those of the
/// literals. Contracts see the list of the cells by number.
#[derive(Drop)]
pub struct Heap {
    texts: Texts,
    parts: Vec<CellPart>,
    kinds: Vec<Option<Kind>>,
    slots: Vec<Slot>,
    order: Vec<u32>,
    own: u32,
}

impl Model for Heap {
    ghost use Rattle.heap_cells.specs.HeapMap.{HeapMap};
    ghost use Rattle.heap_cells.specs.Inner.Texts.{seam_of, text_of};
    ghost use Rattle.heap_cells.specs.Inner.Records.{cells_at, IsHeap};

    ghost Value = { HeapMap };

    ghost view = { λ h. record {
      cells = cells_at (text_of h.texts) h.texts.enc h.parts.items;
      own = h.own;
      enc = h.texts.enc;
    } };

    ghost invariant = { λ h. IsHeap (text_of h.texts) (seam_of h.texts) h.texts.enc h.parts.items h.kinds.items h.slots.items
        h.order.items h.own };
}

// The heap of cells with different addresses.
fn heap_of(alloc: Global, texts: Texts, ordered: Ordered) -> Result<Heap, AllocError>
    requires heap { length texts.heap.items ≤ usual.section }
    requires literals { length texts.literals.items ≤ usual.section }
    requires settled { IsSettledIn texts ordered }
    ensures heap { IfOk result (λ h. h ≡ record {
      cells = cells_of texts.enc texts.heap.items texts.literals.items;
      own = own_count texts.enc texts.heap.items;
      enc = texts.enc;
    }) }
{
    let Ordered { settled, ranks } = ordered;
    let Settled { held, own } = settled;
    let Held {
        parts,
        kinds,
        elements,
    } = held;
    let Elements::Slots(slots) = elements else {
        unreachable!()
    };
    let slots = resolved(alloc, slots, &ranks, &parts)?;
    let order = ranks.numbers(alloc)?;
    Ok(Heap {
        texts,
        parts,
        kinds,
        slots,
        order,
        own,
    })
}

// Where the elements of a cell begin and end among those of all cells, given the kind of the cell.
// The address of a sub binary is no element, so that the slot that it has is none.
fn row(parts: &[CellPart], slots: &[Slot], kind: Option<Kind>, i: usize) -> (usize, usize)
    requires { i < length parts.now }
    ensures from { result.0 ≡ start_at parts.now i (length slots.now) }
    ensures upto { result.1 ≡ row_end kind result.0 (start_at parts.now (i + 1) (length slots.now)) }
{
    let from = start_at(parts, i, slots.len());
    match kind {
        Some(Kind::SubBin) => (from, from),
        _ => (from, start_at(parts, i + 1, slots.len())),
    }
}

impl Heap {
    /// Reads the heap of a process and the literals: the first `proc_heap` section
    /// with the pid as its id, and the first `literals` section. A missing section
    /// counts as empty. The index was built over the open file, which stays open.
    ///
    /// A heap line is a line with a `:` and a hex number of 1 to 16 digits before the first one.
    /// That number is the address of a cell, and what follows the `:` spells its form; if it
    /// spells none, the cell is malformed. Other lines are passed over, and so are heap lines with
    /// the address of an earlier one; the lines of the heap come before those of the literals.
    ///
    /// The refusals are judged in this order: `SectionTooLarge` exactly when a body has more bytes than the
    /// limit on a section's body, the heap's before that of the literals, and nothing is read then; `Read` only
    /// if the device's count of faults rose; and `TooDense` exactly when all heap lines and the elements of
    /// their forms, including those passed over, are more than the limit, unless `Read` or `Memory` is
    /// returned. `Memory` may come from any allocation. Whatever it returns, at most as many bytes are read as
    /// the two bodies have.
    pub fn load<D: Dumps>(
        alloc: Global,
        dumps: &mut D,
        index: &Index,
        pid: &[u8],
        limits: &Limits,
    ) -> Result<Heap, HeapFault>
        requires over { IsBuiltOver (D.state dumps.old).now index.now }
        ensures loads { LoadsHeapFor D.state index.now pid.now limits.now
            dumps.old dumps.new result }
        ensures answer { IsHeapFor (D.state dumps.old).now index.now pid.now
            limits.now.dense result }

        // A body that is too large is always refused as such, whatever the device does.
        ensures too_large { RefusesLarge limits.now.section
            (heap_bodies pid.now (sections_in index.now)) result }
    {
        let heap = index.first(b"proc_heap", Some(pid));
        let literals = index.first_tag(b"literals");
        Heap::load_at(alloc, dumps, index, heap, literals, limits)
    }

    /// Reads the heap and the literals in two sections whose places in the index are known, as
    /// [`Heap::load`] does, for a caller that loads many heaps. A missing section counts as empty.
    pub fn load_at<D: Dumps>(
        alloc: Global,
        dumps: &mut D,
        index: &Index,
        heap: Option<usize>,
        literals: Option<usize>,
        limits: &Limits,
    ) -> Result<Heap, HeapFault>
        requires over { IsBuiltOver (D.state dumps.old).now index.now }
        requires heap { IfSome heap (λ i. i < length index.now.headers) }
        requires literals { IfSome literals (λ i. i < length index.now.headers) }
        ensures loads { LoadsHeapAt D.state index.now heap literals limits.now
            dumps.old dumps.new result }
        ensures answer { IsHeapAt (D.state dumps.old).now index.now heap literals
            limits.now.dense result }
        ensures too_large { RefusesLarge limits.now.section
            (bodies_at index.now heap literals) result }
    {
        if let Some(large) = large_bodies(index, heap, literals, limits) {
            return Err(HeapFault::from(BodyFault::from(large)));
        }
        let texts = read_texts(alloc, dumps, index, heap, literals, limits)?;
        Heap::new(alloc, texts, limits.dense())
    }

    /// The heap whose lines are those of a text that is in memory, such as
    /// some lines of a heap that is too large to be loaded. It has no literals.
    ///
    /// The heap lines are those of [`Heap::load`]. `TooDense` is returned exactly when they and the elements of
    /// their forms are more than the limit, unless `Memory` is returned, which may come from any allocation.
    pub fn of_lines(
        alloc: Global,
        lines: Vec<u8>,
        enc: Enc,
        limits: &Limits,
    ) -> Result<Heap, HeapFault>
        requires { length lines.items ≤ limits.now.section }
        ensures answer { IsHeapAnswerFor enc lines.items [] limits.now.dense result }
        ensures enc { IfOk result (λ heap. heap.enc ≡ enc) }
        ensures fault { IfErr result IsTextFault }
    {
        let texts = Texts {
            heap: lines,
            literals: Vec::new(alloc),
            enc,
        };
        // What holds of each limit is known where one of them is named.
        let _ = limits.section();
        Heap::new(alloc, texts, limits.dense())
    }

    // The heap with these bodies.
    pub(crate) fn new(alloc: Global, texts: Texts, dense: u32) -> Result<Heap, HeapFault>
        requires heap { length texts.heap.items ≤ usual.section }
        requires literals { length texts.literals.items ≤ usual.section }
        requires limit { dense ≤ usual.dense }
        ensures answer { IsHeapAnswerFor texts.enc texts.heap.items texts.literals.items dense result }
        ensures enc { IfOk result (λ heap. heap.enc ≡ texts.enc) }
        ensures fault { IfErr result (IsOfTheTexts texts dense) }
    {
        let (held, own) = gather_texts(alloc, &texts, dense)?;
        Ok(heap_of(alloc, texts, settle(alloc, held, own)?)?)
    }

    /// The number of cells.
    pub fn cells(&self) -> u32
        ensures value { result ≡ length self.now.cells }
        ensures bounded { IsBounded self.now }
    {
        self.parts.len() as u32
    }

    /// How many of the cells come from the process's own heap. They come first.
    pub fn own(&self) -> u32
        ensures value { result ≡ self.now.own }
        ensures within { result ≤ length self.now.cells }
    {
        self.own
    }

    /// How the payloads of the heap are written.
    pub fn enc(&self) -> Enc
        ensures { result ≡ self.now.enc }
    {
        self.texts.enc
    }

    /// The cell with a number.
    pub fn cell(&self, n: u32) -> CellIx
        requires { n < length self.now.cells }
        ensures { number result ≡ n }
    {
        CellIx::new(n)
    }

    /// The address of a cell.
    pub fn addr(&self, ix: CellIx) -> u64
        requires { number ix < length self.now.cells }
        ensures { Some result ≡ address_at self.now.cells (number ix) }
    {
        self.parts[ix.number() as usize].address
    }

    /// The kind of a cell's form. Returns `None` exactly when the cell is malformed.
    pub fn kind(&self, ix: CellIx) -> Option<Kind>
        requires { number ix < length self.now.cells }
        ensures { result ≡ option_map kind_of (form_at self.now.cells (number ix)) }
    {
        self.kinds[ix.number() as usize]
    }

    /// The number of elements of a cell's form; a malformed cell has none. The
    /// keys element of a flat map is its element 0, and the values follow.
    pub fn kids(&self, ix: CellIx) -> u32
        requires { number ix < length self.now.cells }
        ensures { result ≡ length (elements_at self.now.cells (number ix)) }
    {
        self.slots(ix).len() as u32
    }

    /// An element of a cell's form, by its place from 0.
    pub fn kid(&self, ix: CellIx, n: u32) -> Kid<'_>
        requires cell { number ix < length self.now.cells }
        requires place { n < length (elements_at self.now.cells (number ix)) }
        ensures target { option_map (target self.now.cells) (nth_element self.now.cells (number ix) n)
            ≡ Some (kid_target result) }
        ensures element { IfSome (nth_element self.now.cells (number ix) n) (KeepsElement result) }
        ensures within { IsWithin (length self.now.cells) (kid_target result) }
    {
        front_is_longest();
        whole_is_read();
        let i = ix.number() as usize;
        let (from, _) = row(&self.parts, &self.slots, self.kinds[i], i);
        let slot = self.slots[from + n as usize];
        kid_of(&self.texts, slot)
    }

    /// The form of a cell, whose text is only split: that it spells a form was checked
    /// when the heap was loaded. Returns `None` exactly when the cell is malformed.
    pub fn form(&self, ix: CellIx) -> Option<Form<'_>>
        requires { number ix < length self.now.cells }
        ensures form { option_map heap_form result ≡ form_at self.now.cells (number ix) }
        ensures spelled { IfSome result (λ form. IsSpelled self.now.enc (heap_form form)) }
    {
        let i = ix.number() as usize;
        let cell = self.parts[i];
        let from = cell.at as usize;
        match self.kinds[i] {
            None => None,
            Some(_) => Some(spelled_form(
                part(&self.texts, from, from + cell.size as usize),
                self.texts.enc,
            )),
        }
    }

    /// The elements of a cell's form as they are stored, as many as `kids` says and numbered as in `kid`.
    pub fn slots(&self, ix: CellIx) -> &[Slot]
        requires { number ix < length self.now.cells }
        ensures targets { map slot_target result.now ≡ targets_at self.now.cells (number ix) }
        ensures within { AreWithin (length self.now.cells) result.now }
        ensures few { length result.now ≤ usual.dense }
    {
        let i = ix.number() as usize;
        let (from, upto) = row(&self.parts, &self.slots, self.kinds[i], i);
        items_between(&self.slots, from, upto)
    }

    /// What an address leads to.
    pub fn at(&self, addr: u64) -> Seat
        ensures { IsSeatOf self.now.cells addr result }
    {
        let Some(n) = number_of(&self.order, &self.parts, addr) else {
            return Seat::Missing;
        };
        let ix = CellIx::new(n);
        match self.kinds[n as usize] {
            None => Seat::Malformed(ix),
            Some(_) => Seat::Cell(ix),
        }
    }
}
