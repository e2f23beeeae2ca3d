// The children of an open cell, one by one.
ghost use Rattle.std.specs.Prelude.{◌*◌, ◌≡◌, ◌<◌, length};
ghost use Rattle.std.specs.Option.{option_map};
ghost use Rattle.term_forms.specs.Seen.{element};
ghost use Rattle.dump_io.specs.Limits.{usual};
ghost use Rattle.heap_cells.specs.HeapMap.{IsBounded, form_at};
ghost use Rattle.heap_cells.specs.Targets.{number};
ghost use Rattle.term_unfold.specs.Inner.Children.{child_shown, HasMembers, IsChild, IsChildIn, IsKeyedChild};
ghost use Rattle.term_unfold.specs.Inner.Openings.{immediate_of};

use crate::node::NodeKind;
use heap_cells::{CellIx, Heap, Kid, Kind, Slot};
use term_forms::shapes::Elem;

/// A child of an open cell, given by the place, from 0, at which its element stands in a cell.
#[derive(Clone, Copy)]
pub(crate) enum Child<'h> {
    /// A term, with its slot.
    Term(&'h Slot, CellIx, u32),
    /// An item of a hash map: the cell is the map or an inner node.
    Item(CellIx, u32),
}

// The element at a place of a cell, as a term.
#[inline(always)]
fn term_at(heap: &Heap, ix: CellIx, place: u32) -> Option<Child<'_>>
    requires cell { number ix < length heap.now.cells }
    requires bounded { IsBounded heap.now }
    ensures { IsChildIn heap.now NodeKind.Tuple ix place usual.dense result }
{
    let slot = heap.slots(ix).get(place as usize)?;
    Some(Child::Term(slot, ix, place))
}

// The head or the tail of a cons cell, as a term.
#[inline(always)]
fn head_or_tail(heap: &Heap, ix: CellIx, place: u32) -> Option<Child<'_>>
    requires cell { number ix < length heap.now.cells }
    requires bounded { IsBounded heap.now }
    ensures { IsChildIn heap.now NodeKind.Cons ix place 2 result }
{
    if place < 2 {
        term_at(heap, ix, place)
    } else {
        None
    }
}

// A key or the value after it, when the keys are in one cell,
// and the values are in another, after its first element.
fn key_or_value(heap: &Heap, ix: CellIx, keys: CellIx, place: u32) -> Option<Child<'_>>
    requires map { number ix < length heap.now.cells }
    requires keys { number keys < length heap.now.cells }
    requires bounded { IsBounded heap.now }
    ensures { IsKeyedChild heap.now keys ix place (2 * usual.dense) result }
{
    let key = term_at(heap, keys, place / 2)?;
    let value = term_at(heap, ix, place / 2 + 1)?;
    if place % 2 == 0 {
        Some(key)
    } else {
        Some(value)
    }
}

// A child of a flat map.
#[inline(never)]
fn pair_part(heap: &Heap, ix: CellIx, place: u32) -> Option<Child<'_>>
    requires cell { number ix < length heap.now.cells }
    requires bounded { IsBounded heap.now }
    ensures { IsChildIn heap.now NodeKind.Flat ix place (2 * usual.dense) result }
{
    if heap.kids(ix) == 0 {
        return None;
    }
    match heap.slots(ix)[0] {
        Slot::Cell(keys) => key_or_value(heap, ix, keys, place),
        Slot::Imm(_) | Slot::Gone(_) => None,
    }
}

// An item of a hash map or of an inner node.
fn item_at(heap: &Heap, ix: CellIx, place: u32) -> Option<Child<'_>>
    requires cell { number ix < length heap.now.cells }
    requires bounded { IsBounded heap.now }
    requires kind { HasMembers (form_at heap.now.cells (number ix)) }
    ensures { IsChildIn heap.now NodeKind.Hash ix place usual.dense result }
{
    if place >= heap.kids(ix) {
        return None;
    }
    Some(Child::Item(ix, place))
}

// A child of a hash map or of an inner node.
#[inline(never)]
fn member_at(heap: &Heap, ix: CellIx, place: u32) -> Option<Child<'_>>
    requires cell { number ix < length heap.now.cells }
    requires bounded { IsBounded heap.now }
    ensures { IsChildIn heap.now NodeKind.Hash ix place usual.dense result }
{
    match heap.kind(ix) {
        Some(Kind::Hash | Kind::Tuple | Kind::Node) => item_at(heap, ix, place),
        _ => None,
    }
}

/// The child at a place, from 0, of a cell, by what the cell is in the walk.
#[inline(always)]
pub(crate) fn child_at(heap: &Heap, ix: CellIx, kind: NodeKind, place: u32) -> Option<Child<'_>>
    requires cell { number ix < length heap.now.cells }
    requires bounded { IsBounded heap.now }
    ensures { IsChildIn heap.now kind ix place (2 * usual.dense) result }
{
    match kind {
        NodeKind::Cons => head_or_tail(heap, ix, place),
        NodeKind::Tuple => term_at(heap, ix, place),
        NodeKind::Flat => pair_part(heap, ix, place),
        NodeKind::Hash => member_at(heap, ix, place),
        NodeKind::Inner => member_at(heap, ix, place),
        NodeKind::Pair => head_or_tail(heap, ix, place),
    }
}

/// The immediate that a child is, if it is one.
#[inline(always)]
pub(crate) fn immediate<'h>(heap: &'h Heap, child: Child<'_>) -> Option<Elem<'h>>
    requires { IsChild heap.now.cells child }
    ensures { option_map element result ≡ immediate_of (child_shown heap.now.cells child.entry) }
{
    match child {
        Child::Term(Slot::Imm(_), cell, place) => match heap.kid(cell, place) {
            Kid::Imm(e) => Some(e),
            _ => None,
        },
        _ => None,
    }
}
