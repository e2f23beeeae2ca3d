// What the walk finds when it comes to a child.
ghost use Rattle.std.specs.Prelude.{◌≡◌, ◌<◌, ◌≤◌, false, ◌∷◌, length, Some, IsFalse};
ghost use Rattle.std.specs.Option.{option_map};
ghost use Rattle.heap_cells.specs.Cells.{kind_of};
ghost use Rattle.heap_cells.specs.HeapMap.{form_at, elements_at};
ghost use Rattle.heap_cells.specs.Targets.{number, slot_target, IsWithin};
ghost use Rattle.term_forms.specs.Elements.{Ref};
ghost use Rattle.term_forms.specs.Seen.{element};
ghost use Rattle.term_unfold.specs.Maps.{address_of};
ghost use Rattle.term_unfold.specs.Inner.Entries.{numbers_of, IsLine, Serves};
ghost use Rattle.term_unfold.specs.Inner.Children.{child_shown, IsItemAt, IsChild};
ghost use Rattle.term_unfold.specs.Inner.Openings.{is_entered, item_in, LeadsFrom, Opens, OpensEach};
ghost use Rattle.term_unfold.specs.Rules.{Term};

use crate::children::Child;
use crate::kinds::{TermKind, are_keys, item_kind, term_kind};
use crate::node::NodeKind;
use crate::path::Path;
use heap_cells::{CellIx, Heap, Kind, Seat, Slot, Why};
use term_forms::shapes::Elem;

/// What a child is, below the cells that the walk is in.
#[derive(Clone, Copy)]
pub(crate) enum Opened {
    /// A leaf: an immediate.
    Immediate,
    /// A leaf: a cell that has no children.
    Leaf(CellIx),
    /// A bad address.
    Bad(u64, Why),
    /// A node, whose cell the walk may enter.
    Node(CellIx, NodeKind),
}

// Whether the walk is in the cell.
#[inline(always)]
fn is_open(heap: &Heap, path: &Path, ix: CellIx) -> bool
    requires cell { number ix < length heap.now.cells }
    requires serves { Serves heap.now path.now.cells }
    ensures on { result ≡ is_entered heap.now path.now ix }
    ensures line { IsFalse result → IsLine path.now.cells (number ix ∷ numbers_of path.now.entries) }
{
    path.contains(ix)
}

// What is found at an address that no cell has. The walk
// is only in cells, so it isn't in one with that address.
fn missing(path: &Path, addr: u64) -> Opened
    ensures found { result ≡ Opened.Bad addr Why.Missing }
    ensures line { IsLine path.now.cells (numbers_of path.now.entries) }
{
    path.line();
    Opened::Bad(addr, Why::Missing)
}

// A flat map that the walk isn't in and whose keys element refers to a cell.
fn open_keyed(heap: &Heap, path: &Path, ix: CellIx, keys: CellIx) -> Opened
    requires cell { number ix < length heap.now.cells }
    requires keys { number keys < length heap.now.cells }
    requires serves { Serves heap.now path.now.cells }
    requires flat { option_map kind_of (form_at heap.now.cells (number ix)) ≡ Some Kind.Flat }
    requires some { 2 ≤ length (elements_at heap.now.cells (number ix)) }
    requires leads { LeadsFrom heap.now ix 0 keys }
    requires off { is_entered heap.now path.now ix ≡ false }
    requires line { IsLine path.now.cells (number ix ∷ numbers_of path.now.entries) }
    ensures { Opens heap.now path.now (Term (Ref (address_of heap.now.cells (number ix)))) result }
{
    if keys.number() == ix.number() {
        return Opened::Bad(heap.addr(keys), Why::OnPath);
    }
    if is_open(heap, path, keys) {
        return Opened::Bad(heap.addr(keys), Why::OnPath);
    }
    let values = u64::from(heap.kids(ix) - 1);
    if are_keys(heap.kind(keys), u64::from(heap.kids(keys)), values) {
        Opened::Node(ix, NodeKind::Flat)
    } else {
        Opened::Bad(heap.addr(keys), Why::Malformed)
    }
}

// A flat map that the walk isn't in.
#[inline(never)]
fn open_flat(heap: &Heap, path: &Path, ix: CellIx) -> Opened
    requires cell { number ix < length heap.now.cells }
    requires serves { Serves heap.now path.now.cells }
    requires flat { option_map kind_of (form_at heap.now.cells (number ix)) ≡ Some Kind.Flat }
    requires off { is_entered heap.now path.now ix ≡ false }
    requires line { IsLine path.now.cells (number ix ∷ numbers_of path.now.entries) }
    ensures { Opens heap.now path.now (Term (Ref (address_of heap.now.cells (number ix)))) result }
{
    if heap.kids(ix) < 2 {
        return Opened::Node(ix, NodeKind::Flat);
    }
    match heap.slots(ix)[0] {
        Slot::Imm(_) => Opened::Bad(heap.addr(ix), Why::Malformed),
        Slot::Gone(addr) => Opened::Bad(addr, Why::Missing),
        Slot::Cell(keys) => open_keyed(heap, path, ix, keys),
    }
}

// A cell as a term.
#[inline(always)]
fn open_cell(heap: &Heap, path: &Path, ix: CellIx) -> Opened
    requires cell { number ix < length heap.now.cells }
    requires serves { Serves heap.now path.now.cells }
    ensures { Opens heap.now path.now (Term (Ref (address_of heap.now.cells (number ix)))) result }
{
    if is_open(heap, path, ix) {
        return Opened::Bad(heap.addr(ix), Why::OnPath);
    }
    match term_kind(heap.kind(ix)) {
        TermKind::Leaf => Opened::Leaf(ix),
        TermKind::Node(kind) => Opened::Node(ix, kind),
        TermKind::Flat => open_flat(heap, path, ix),
        TermKind::Malformed => Opened::Bad(heap.addr(ix), Why::Malformed),
    }
}

// A term, by its slot.
#[inline(always)]
fn open_slot(heap: &Heap, path: &Path, slot: &Slot) -> Opened
    requires slot { IsWithin (length heap.now.cells) (slot_target slot.now) }
    requires serves { Serves heap.now path.now.cells }
    ensures { OpensEach heap.now path.now (slot_target slot.now) result }
{
    match slot {
        Slot::Imm(_) => Opened::Immediate,
        Slot::Gone(addr) => missing(path, *addr),
        Slot::Cell(ix) => open_cell(heap, path, *ix),
    }
}

// An item of the hash map or the inner node `parent`, which refers to a cell.
fn open_member(heap: &Heap, path: &Path, parent: CellIx, place: u32, ix: CellIx) -> Opened
    requires item { IsItemAt heap.now.cells (number parent) place }
    requires cell { number ix < length heap.now.cells }
    requires leads { LeadsFrom heap.now parent place ix }
    requires serves { Serves heap.now path.now.cells }
    ensures { Opens heap.now path.now (item_in heap.now parent place) result }
{
    if is_open(heap, path, ix) {
        return Opened::Bad(heap.addr(ix), Why::OnPath);
    }
    match item_kind(heap.kind(ix)) {
        Some(kind) => Opened::Node(ix, kind),
        None => Opened::Bad(heap.addr(ix), Why::Malformed),
    }
}

// An item of the hash map or the inner node `parent`.
#[inline(never)]
fn open_item(heap: &Heap, path: &Path, parent: CellIx, place: u32) -> Opened
    requires item { IsItemAt heap.now.cells (number parent) place }
    requires serves { Serves heap.now path.now.cells }
    ensures { Opens heap.now path.now (item_in heap.now parent place) result }
{
    match heap.slots(parent)[place as usize] {
        Slot::Imm(_) => Opened::Bad(heap.addr(parent), Why::Malformed),
        Slot::Gone(addr) => missing(path, addr),
        Slot::Cell(ix) => open_member(heap, path, parent, place, ix),
    }
}

/// A child of an open cell.
#[inline(always)]
pub(crate) fn open_child(heap: &Heap, path: &Path, child: Child<'_>) -> Opened
    requires placed { IsChild heap.now.cells child }
    requires serves { Serves heap.now path.now.cells }
    ensures { Opens heap.now path.now (child_shown heap.now.cells child.entry) result }
{
    match child {
        Child::Term(slot, _, _) => open_slot(heap, path, slot),
        Child::Item(parent, place) => open_item(heap, path, parent, place),
    }
}

// A reference to an address, as a term.
fn open_address(heap: &Heap, path: &Path, addr: u64) -> Opened
    requires serves { Serves heap.now path.now.cells }
    ensures { Opens heap.now path.now (Term (Ref addr)) result }
{
    match heap.at(addr) {
        Seat::Missing => missing(path, addr),
        Seat::Malformed(ix) => open_cell(heap, path, ix),
        Seat::Cell(ix) => open_cell(heap, path, ix),
    }
}

/// A root.
pub(crate) fn open_root(heap: &Heap, path: &Path, root: &Elem<'_>) -> Opened
    requires serves { Serves heap.now path.now.cells }
    ensures { Opens heap.now path.now (Term (element root.now)) result }
{
    match root {
        Elem::Ref(addr) => open_address(heap, path, *addr),
        Elem::Nil | Elem::Small(_) | Elem::Atom(_) | Elem::Pid(_) | Elem::Port(_) => {
            Opened::Immediate
        }
    }
}
