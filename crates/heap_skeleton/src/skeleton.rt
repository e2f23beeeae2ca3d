// What leads where in a heap.
ghost use Rattle.std.specs.Prelude.{◌≡◌, ◌<◌, ◌≤◌, ◌^◌, List, length, Some, slice_get, position, unwrap_or, ◌==◌, IfOk, IfErr, IfSome};
ghost use Rattle.cell_graphs.specs.Graphs.{LeadsWithin};
ghost use Rattle.heap_graph.specs.Binaries.{binaries_among};
ghost use Rattle.cell_records.specs.Order.{AreAllFirst, AreRanked};
ghost use Rattle.dump_io.specs.Dumps.{ReadsAtMost, IfTold};
ghost use Rattle.dump_io.specs.Faults.{IsReadCauseOf};
ghost use Rattle.dump_sections.specs.Index.{IsBuiltOver, sections_in};
ghost use Rattle.dump_sections.specs.Loading.{bodies_length};
ghost use Rattle.heap_cells.specs.Loading.{heap_bodies};
ghost use Rattle.heap_skeleton.specs.Skeletons.{is_tuple, skeleton_for};
ghost use Rattle.heap_graph.specs.Elements.{IsOfLeads};
ghost use Rattle.heap_graph.specs.Held.{HeapLine, addresses_of, IsHeld, IsSmall};
ghost use Rattle.heap_graph.specs.declared.held.CellPart.{CellPart};
ghost use Rattle.heap_graph.specs.Keeping.{HoldsLines};
ghost use Rattle.heap_graph.specs.Leads.{cell_for};
ghost use Rattle.heap_skeleton.specs.Inner.Resolving.{AreResolved};
ghost use Rattle.heap_skeleton.specs.Inner.Shown.{skeleton_with, starts_of, AreLaid, IsSpanOf};

use crate::loading::read_lines;
use crate::resolving::resolve;
use cell_graphs::{CellGraph, Weighed};
use cell_records::{Kind, Ranks, number_of};
use dump_io::{Dumps, ReadFault};
use dump_sections::Index;
use heap_graph::{
    CellPart, Elements, Held, Leads, NOWHERE, Ordered, Settled, is_binary_kind, settle,
};
use std::alloc::{AllocError, Global};
use std::marker::Model;

/// The cells of a process's heap, followed by those of the literals, without their texts.
/// Contracts see, by number, what is kept of each.
#[derive(Drop)]
pub struct Skeleton {
    parts: Vec<CellPart>,
    // For each cell the place of its first element, as its part has it. A walk needs no more of the cells to which it
    // comes, and so of six times as many what it needs is still at hand.
    starts: Vec<u32>,
    kinds: Vec<Option<Kind>>,
    // For each element the number of the cell to which it leads.
    leads: Vec<u32>,
    // The numbers of the cells in the order of their addresses.
    order: Vec<u32>,
    own: u32,
}

impl Model for Skeleton {
    ghost use Rattle.heap_skeleton.specs.Skeletons.{SkeletonMap};
    ghost use Rattle.std.specs.Prelude.{◌≡◌};
    ghost use Rattle.heap_skeleton.specs.Inner.Shown.{shown_skeleton, starts_of, IsSound};

    ghost Value = { SkeletonMap };

    ghost view = { λ s. shown_skeleton s.own s.parts.items s.kinds.items s.leads.items };

    ghost invariant = { λ s. IsSound s.own s.parts.items s.kinds.items s.leads.items s.order.items
        × (s.starts.items ≡ starts_of s.parts.items) };
}

// The cell that a number stands for.
fn cell_for(number: u32) -> Option<u32>
    ensures { result ≡ cell_for number }
{
    if number == NOWHERE {
        None
    } else {
        Some(number)
    }
}

// Where the elements of a cell begin, or where all end if there is no such cell.
fn start_in(starts: &[u32], i: usize, total: usize) -> usize
    ensures { result ≡ unwrap_or (slice_get starts.now i) total }
{
    match starts.get(i) {
        Some(start) => *start as usize,
        None => total,
    }
}

// For each cell the place of its first element.
fn starts_of(alloc: Global, parts: &[CellPart]) -> Result<Vec<u32>, AllocError>
    ensures { IfOk result (λ starts. starts.items ≡ starts_of parts.now) }
{
    let mut starts = Vec::with_capacity(alloc, parts.len())?;
    for part in parts {
        starts.push(part.first)?;
    }
    Ok(starts)
}

// Where the elements of a cell begin and end among those of all cells.
fn span_of(starts: &[u32], leads: &[u32], cell: u32) -> (usize, usize)
    requires { cell < length starts.now }
    ensures { (parts : List CellPart) → starts.now ≡ starts_of parts → AreLaid parts (length leads.now)
        → IsSpanOf parts leads.now cell result }
{
    let cell = cell as usize;
    let from = start_in(starts, cell, leads.len());
    let upto = start_in(starts, cell + 1, leads.len());
    (from, upto)
}

// The numbers of the cells to which elements lead.
fn resolve_leads(
    alloc: Global,
    leads: Leads,
    ranks: &Ranks,
    parts: &[CellPart],
    kinds: &[Option<Kind>],
) -> Result<Vec<u32>, AllocError>
    requires few { length leads.marks.items < 2 ^ 32 }
    requires ranked { AreRanked (addresses_of parts.now) ranks.now }
    requires distinct { AreAllFirst (addresses_of parts.now) }
    ensures { IfOk result (λ numbers. AreResolved (addresses_of parts.now) kinds.now leads numbers.items) }
{
    let Leads {
        mut marks,
        references,
    } = leads;
    resolve(alloc, &mut marks, &references, ranks, parts, kinds)?;
    marks.shrink_to_fit();
    Ok(marks)
}

// The skeleton of cells with different addresses. What the vectors have grown to hold beyond the cells and elements
// is given back. The numbers in order are made last, since by then the addresses of references take no memory.
fn skeleton_of(alloc: Global, ordered: Ordered) -> Result<Skeleton, AllocError>
    requires holds { HoldsLines ordered.settled.held }
    requires small { IsSmall ordered.settled.held }
    requires leads { IsOfLeads ordered.settled.held.elements }
    requires own { ordered.settled.own ≤ length ordered.settled.held.parts.items }
    requires ranked { AreRanked (addresses_of ordered.settled.held.parts.items) ordered.ranks }
    requires distinct { AreAllFirst (addresses_of ordered.settled.held.parts.items) }
    ensures cells { IfOk result (λ s. length s.leads ≡ length s.addresses) }
    ensures lines { IfOk result (λ s. (lines : List HeapLine) → IsHeld lines ordered.settled.held
        → s ≡ skeleton_with ordered.settled.own lines) }
{
    let Ordered { settled, ranks } = ordered;
    let Settled { held, own } = settled;
    let Held {
        mut parts,
        mut kinds,
        elements,
    } = held;
    let Elements::Leads(leads) = elements else {
        unreachable!()
    };
    let numbers = resolve_leads(alloc, leads, &ranks, &parts, &kinds)?;
    parts.shrink_to_fit();
    kinds.shrink_to_fit();
    let starts = starts_of(alloc, &parts)?;
    let order = ranks.numbers(alloc)?;
    Ok(Skeleton {
        parts,
        starts,
        kinds,
        leads: numbers,
        order,
        own,
    })
}

impl Skeleton {
    /// Reads the heap of a process and the literals: the first `proc_heap` section with the pid as its id, and the
    /// first `literals` section, each once and in pieces of at most 65,536 bytes, whatever its length. A missing
    /// section counts as empty. The index was built over the open file, which stays open.
    ///
    /// Nothing that the sections hold is refused. Returns `Read` only if the device's count of faults rose; `Memory` may
    /// come from any allocation, and comes if there are more than 2^32 - 2 cells and elements, including those of
    /// repeated addresses, or a cell of 2^32 words or more. Whatever it returns, at most as many bytes are read
    /// as the two bodies have. Only meanwhile are needed: a buffer of at most twice the longest line and a piece, 8 bytes
    /// for each element that is a reference, at most 16 more for each of these that leads elsewhere than to the cell behind
    /// the one before, and 8 for each cell while the addresses are sorted; twice these 16 and 8 if addresses lie too far
    /// apart; and if addresses are repeated, as much again as is kept.
    pub fn load<D: Dumps>(
        alloc: Global,
        dumps: &mut D,
        index: &Index,
        pid: &[u8],
    ) -> Result<Skeleton, ReadFault>
        requires { IsBuiltOver (D.state dumps.old).now index.now }
        ensures reads { ReadsAtMost (D.state dumps.old) (D.state dumps.new)
            (bodies_length (heap_bodies pid.now (sections_in index.now))) }
        ensures fault { IfErr result (IsReadCauseOf (D.state dumps.old) (D.state dumps.new)) }
        ensures skeleton { IfOk result (λ s. IfTold (D.state dumps.old).now
            (λ dump. s ≡ skeleton_for dump index.now pid.now)) }
        ensures cells { IfOk result (λ s. length s.leads ≡ length s.addresses) }
    {
        let heap = index.first(b"proc_heap", Some(pid));
        let literals = index.first_tag(b"literals");
        let (held, own) = read_lines(alloc, dumps, index, heap, literals)?;
        Ok(skeleton_of(alloc, settle(alloc, held, own)?)?)
    }

    /// The number of cells.
    pub fn cells(&self) -> u32
        ensures value { result ≡ length self.now.addresses }
        ensures graph { result ≡ length self.now.leads }
        ensures within { LeadsWithin self.now.leads }
    {
        self.parts.len() as u32
    }

    /// States laws and does no work: there are as many addresses as cells, and what a cell leads to is a cell.
    pub fn leads_are_cells(&self)
        ensures count { length self.now.leads ≡ length self.now.addresses }
        ensures within { LeadsWithin self.now.leads }
    {
        let _ = &self.parts;
    }

    /// The number of the cell with an address. Returns `None` exactly when there is none.
    pub fn find(&self, address: u64) -> Option<u32>
        ensures value { result ≡ position (λ a. a == address) self.now.addresses }
        ensures within { IfSome result (λ n. n < length self.now.leads) }
    {
        number_of(&self.order, &self.parts, address)
    }

    /// The address of a cell.
    pub fn addr(&self, cell: u32) -> u64
        requires { cell < length self.now.addresses }
        ensures { slice_get self.now.addresses cell ≡ Some result }
    {
        self.parts[cell as usize].address
    }

    /// The offset in the file at which the line of a cell begins, in bytes.
    pub fn line(&self, cell: u32) -> u64
        requires { cell < length self.now.addresses }
        ensures { slice_get self.now.lines cell ≡ Some result }
    {
        self.parts[cell as usize].at
    }

    /// The kind of a cell's form. A malformed cell has none.
    pub fn kind(&self, cell: u32) -> Option<Kind>
        requires { cell < length self.now.leads }
        ensures { slice_get self.now.kinds cell ≡ Some result }
    {
        self.kinds[cell as usize]
    }

    /// Whether a cell is a tuple.
    pub fn is_tuple(&self, cell: u32) -> bool
        requires { cell < length self.now.leads }
        ensures { result ≡ is_tuple self.now cell }
    {
        matches!(self.kind(cell), Some(Kind::Tuple))
    }
}

impl CellGraph for Skeleton {
    ghost graph = { λ s. s.leads };

    fn cells(&self) -> u32 {
        Skeleton::cells(self)
    }

    fn places(&self, cell: u32) -> usize {
        let (from, upto) = span_of(&self.starts, &self.leads, cell);
        upto - from
    }

    fn lead(&self, cell: u32, place: usize) -> Option<u32> {
        let (from, _) = span_of(&self.starts, &self.leads, cell);
        cell_for(self.leads[from + place])
    }
}

impl Weighed for Skeleton {
    ghost words = { λ s. s.words };

    ghost binaries = { λ s. binaries_among s.kinds };

    ghost own = { λ s. s.own };

    fn words(&self, cell: u32) -> u64 {
        u64::from(self.parts[cell as usize].size)
    }

    fn is_binary(&self, cell: u32) -> bool {
        is_binary_kind(self.kind(cell))
    }

    fn own(&self) -> u32 {
        self.own
    }
}
