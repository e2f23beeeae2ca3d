// The walk over a part of a heap that looks for a cell that only the whole heap has.
ghost use Rattle.std.specs.Prelude.{◌≡◌, ◌<◌, [], length, IfOk};
ghost use Rattle.term_forms.specs.Seen.{element};
ghost use Rattle.heap_cells.specs.HeapMap.{HeapMap, form_at};
ghost use Rattle.heap_cells.specs.Targets.{number};
ghost use Rattle.term_unfold.specs.Inner.Coming.{asked_by, asked_on, gap_on, HasLeafIn};
ghost use Rattle.term_unfold.specs.Inner.Entries.{Serves};
ghost use Rattle.term_unfold.specs.Parts.{Known, asked_address, has_cell, if_lacking, is_told, gap_of};

use crate::judging::{next_child, visit, visit_root};
use crate::openings::Opened;
use crate::path::Path;
use heap_cells::{CellIx, Heap, Kind, Seat, Why};
use std::alloc::{AllocError, Global};
use std::marker::Model;
use term_forms::shapes::{Elem, Form};

/// The addresses of the cells of a heap that isn't loaded.
pub trait Addresses {
    /// The addresses of all cells, and those that heap binaries may have.
    ghost known: { Self → Known };

    /// Whether a cell has the address.
    fn has(&self, addr: u64) -> bool
        ensures { result ≡ (known self.now).cells addr };

    /// Whether a heap binary may have the address. If all that have one are told, what others are costs time alone.
    fn has_binary(&self, addr: u64) -> bool
        ensures { result ≡ (known self.now).binaries addr };
}

/// What a node of a term asks for beside its own cell. Contracts see it in what a part of a heap lacks.
#[derive(Clone, Copy)]
pub enum Asked {
    /// The cell at an address, where the heap has none.
    CellAt(u64),
    /// The heap binary at an address, of which the child is a part.
    BinaryAt(u64),
}

// What a cell asks for, if it is a sub binary. The kind is
// checked first, so that the text of no other cell is split.
fn asked_by(heap: &Heap, ix: CellIx) -> Option<Asked>
    requires { number ix < length heap.now.cells }
    ensures { result ≡ asked_by (form_at heap.now.cells (number ix)) }
{
    if !matches!(heap.kind(ix), Some(Kind::SubBin)) {
        return None;
    }
    match heap.form(ix) {
        Some(Form::SubBin(addr, _, _)) => Some(Asked::BinaryAt(addr)),
        _ => None,
    }
}

// What a child asks for by itself.
fn asked_on(heap: &Heap, opened: Opened) -> Option<Asked>
    requires { HasLeafIn heap.now.cells opened }
    ensures { result ≡ asked_on heap.now.cells opened }
{
    match opened {
        Opened::Immediate => None,
        Opened::Leaf(ix) => asked_by(heap, ix),
        Opened::Bad(addr, Why::Missing) => Some(Asked::CellAt(addr)),
        Opened::Bad(_, _) => None,
        Opened::Node(_, _) => None,
    }
}

fn has_cell(heap: &Heap, addr: u64) -> bool
    ensures { result ≡ has_cell heap.now.cells addr }
{
    match heap.at(addr) {
        Seat::Missing => false,
        Seat::Malformed(_) => true,
        Seat::Cell(_) => true,
    }
}

// Whether the whole heap has what is asked for.
fn is_told<A: Addresses>(whole: &A, ask: Asked) -> bool
    ensures { result ≡ is_told (A.known whole.now) ask }
{
    match ask {
        Asked::CellAt(addr) => whole.has(addr),
        Asked::BinaryAt(addr) => whole.has_binary(addr),
    }
}

fn asked_address(ask: Asked) -> u64
    ensures { result ≡ asked_address ask }
{
    match ask {
        Asked::CellAt(addr) => addr,
        Asked::BinaryAt(addr) => addr,
    }
}

// The address of what is asked for, if the whole heap has it and the heap has no cell there.
fn if_lacking<A: Addresses>(heap: &Heap, whole: &A, ask: Asked) -> Option<u64>
    ensures { result ≡ if_lacking (A.known whole.now) heap.now.cells ask }
{
    let addr = asked_address(ask);
    if has_cell(heap, addr) {
        return None;
    }
    if is_told(whole, ask) {
        Some(addr)
    } else {
        None
    }
}

// The address of what a child asks for by itself, if the heap lacks it and the whole heap has it.
fn gap_on<A: Addresses>(heap: &Heap, whole: &A, opened: Opened) -> Option<u64>
    requires { HasLeafIn heap.now.cells opened }
    ensures { result ≡ gap_on (A.known whole.now) heap.now.cells opened }
{
    let ask = asked_on(heap, opened)?;
    if_lacking(heap, whole, ask)
}

// The first gap among the first `budget` nodes of the root. The walk is left where it stops.
fn first_gap<A: Addresses>(
    heap: &Heap,
    path: &mut Path,
    root: &Elem<'_>,
    budget: u32,
    whole: &A,
) -> Option<u64>
    requires serves { Serves heap.now path.old.cells }
    requires empty { path.old.entries ≡ [] }
    requires budget { 0 < budget }
    ensures cells { path.new.cells ≡ path.old.cells }
    ensures gap { result ≡ gap_of (A.known whole.now) heap.now.cells (element root.now) budget }
{
    let opened = visit_root(heap, path, root);
    let mut found = gap_on(heap, whole, opened);
    for _ in 1..budget {
        if let Some(_) = found {
            return found;
        }
        let Some(child) = next_child(heap, path) else {
            return None;
        };
        let opened = visit(heap, path, child);
        found = gap_on(heap, whole, opened);
    }
    found
}

/// Walks over a part of a heap.
#[derive(Drop)]
pub struct PartWalker<'h> {
    heap: &'h Heap,
    path: Path,
}

// Between two calls the walk is in no cell.
impl<'h> Model for PartWalker<'h> {
    ghost use Rattle.std.specs.Prelude.{◌≡◌, []};
    ghost use Rattle.heap_cells.specs.HeapMap.{HeapMap};
    ghost use Rattle.term_unfold.specs.Inner.Entries.{Serves};

    ghost Value = { HeapMap };

    ghost view = { λ w. w.heap.now };

    ghost invariant = { λ w. Serves w.heap.now w.path.cells × (w.path.entries ≡ []) };
}

impl<'h> PartWalker<'h> {
    /// Takes the memory that the walks need: room for one more entry
    /// than there are cells, and one mark for each cell.
    pub fn new(alloc: Global, heap: &'h Heap) -> Result<PartWalker<'h>, AllocError>
        ensures { IfOk result (λ walker. walker ≡ heap.now) }
    {
        let path = Path::new(alloc, heap.cells() as usize)?;
        Ok(PartWalker { heap, path })
    }

    /// The address of the first cell or heap binary for which one of the first `budget` nodes of the
    /// root asks, that the whole heap has and this one lacks. Takes no memory.
    pub fn first_gap<A: Addresses>(&mut self, root: Elem<'_>, budget: u32, whole: &A) -> Option<u64>
        requires { 0 < budget }
        ensures gap { result ≡ gap_of (A.known whole.now) self.old.cells
            (element root.entry) budget }
        ensures same { self.new ≡ self.old }
    {
        let gap = first_gap(self.heap, &mut self.path, &root, budget, whole);
        self.path.clear();
        gap
    }
}
