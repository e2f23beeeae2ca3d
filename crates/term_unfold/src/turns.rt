// The steps of the walk that prints: what each writes, and where the walk is afterwards.
ghost use Rattle.std.specs.Prelude.{◌≡◌, ℕ, ◌+◌, ◌<◌, ◌≤◌, ◌++◌, List, ◌∷◌, length, drop, slice_get, codes, ◌^◌, Some, IfSome};
ghost use Rattle.heap_cells.specs.Cells.{Cell};
ghost use Rattle.term_unfold.specs.Inner.Coming.{left_of, entered_by};
ghost use Rattle.term_unfold.specs.Inner.Entries.{stepped, outside, is_item, Serves};
ghost use Rattle.term_unfold.specs.Inner.Children.{child_shown, IsChild, next_of_cell};
ghost use Rattle.term_unfold.specs.Inner.Openings.{MayEnter, is_list, is_list_kind};
ghost use Rattle.term_unfold.specs.Inner.Rest.{front_of, is_next_value, left_text, rest, AtChild, TurnsAt, HasItems, HasTerms};
ghost use Rattle.term_unfold.specs.Rules.{Child as Below};
ghost use Rattle.term_unfold.specs.Text.{comma_text};
ghost use Rattle.term_unfold.specs.Trees.{Value, none};

use crate::children::{Child, immediate};
use crate::judging::enter;
use crate::node::NodeKind;
use crate::openings::{Opened, open_child};
use crate::path::{Entry, Path};
use heap_cells::Heap;
use term_forms::shapes::Elem;

/// What the walk writes of a child itself.
#[derive(Clone, Copy)]
pub(crate) enum Own<'h> {
    /// Nothing.
    Nothing,
    /// The text of what the child is, up to its children.
    Child(Opened),
    /// The text of the immediate that the child is, which is in hand.
    Immediate(Elem<'h>),
}

/// What the walk writes when it comes to a child: a text before it, and something of the child itself.
#[derive(Clone, Copy)]
pub(crate) struct Turn<'h> {
    pub front: &'static [u8],
    pub own: Own<'h>,
}

fn comma_text(came: bool) -> &'static [u8]
    ensures { result.now ≡ comma_text came }
{
    if came { b"," } else { b"" }
}

// What stands for all that is left of a node, after some text or none, and closes the node.
fn cut_text(came: bool) -> &'static [u8]
    ensures { result.now ≡ comma_text came ++ codes "...}" }
{
    if came { b",...}" } else { b"...}" }
}

// Whether the next child of a node is a value of a map.
fn is_value(entry: Entry) -> bool
    ensures { result ≡ is_next_value entry.kind entry.next }
{
    match entry.kind {
        NodeKind::Flat => entry.next % 2 != 0,
        NodeKind::Pair => entry.next != 0,
        _ => false,
    }
}

// What stands before the next child of a tuple or of a map.
fn front_text(entry: Entry) -> &'static [u8]
    ensures { result.now ≡ front_of entry }
{
    if is_value(entry) {
        b"=>"
    } else {
        comma_text(entry.came)
    }
}

// What stands for all that is left of a tuple or of a map.
fn left_text(entry: Entry) -> &'static [u8]
    ensures { result.now ≡ left_text entry }
{
    if is_value(entry) {
        b"=>...}"
    } else {
        cut_text(entry.came)
    }
}

fn is_item_kind(kind: NodeKind) -> bool
    ensures { result ≡ is_item kind }
{
    match kind {
        NodeKind::Cons => false,
        NodeKind::Tuple => false,
        NodeKind::Flat => false,
        NodeKind::Hash => false,
        NodeKind::Inner => true,
        NodeKind::Pair => true,
    }
}

// Leaves the innermost node; if that is an item of a hash map, leaves the whole map.
fn leave_node(path: &mut Path)
    ensures { path.new ≡ record path.old { entries = outside path.old.entries } }
{
    while let Some(entry) = path.top() {
        path.pop();
        if !is_item_kind(entry.kind) {
            return;
        }
    }
}

/// Leaves the innermost cell, which has no child left, and returns the text that closes it.
pub(crate) fn close(path: &mut Path, entry: Entry) -> &'static [u8]
    requires top { path.old.entries ≡ entry ∷ drop 1 path.old.entries }
    ensures cells { path.new.cells ≡ path.old.cells }
    ensures fewer { length path.new.entries < length path.old.entries }
    ensures text { (leaf : Value → List ℕ) (heap : List Cell) (m : ℕ)
        → left_of heap entry (drop 1 path.old.entries) ≡ none
        → rest leaf heap path.old.entries m ≡ result.now ++ rest leaf heap path.new.entries m }
{
    path.pop();
    match entry.kind {
        NodeKind::Cons => { if entry.came { b"]" } else { b"" } }
        NodeKind::Tuple => b"}",
        NodeKind::Flat => b"}",
        NodeKind::Hash => b"}",
        NodeKind::Inner => {
            path.tell(entry.came);
            b""
        }
        NodeKind::Pair => {
            path.tell(true);
            b""
        }
    }
}

/// Leaves the innermost node, which still has a child that won't be visited, and returns the text that
/// stands for all that is left of it. Of a hash map everything is left out, wherever in it the walk is.
pub(crate) fn cut(path: &mut Path, entry: Entry) -> &'static [u8]
    requires top { path.old.entries ≡ entry ∷ drop 1 path.old.entries }
    ensures cells { path.new.cells ≡ path.old.cells }
    ensures fewer { length path.new.entries < length path.old.entries }
    ensures text { (leaf : Value → List ℕ) (heap : List Cell) (child : Below)
        → next_of_cell heap entry ≡ Some child
        → rest leaf heap path.old.entries 0 ≡ result.now ++ rest leaf heap path.new.entries 0 }
{
    leave_node(path);
    match entry.kind {
        NodeKind::Cons => { if entry.next == 0 { b"...]" } else { b"|...]" } }
        _ => left_text(entry),
    }
}

// Goes on after a child of the innermost cell, and enters the child if it is a node.
fn advance(path: &mut Path, opened: Opened, came: bool, inside: bool)
    requires some { 0 < length path.old.entries }
    requires few { IfSome (slice_get path.old.entries 0) (λ e. e.next + 1 < 2 ^ 32) }
    requires enters { MayEnter path.old opened }
    ensures { path.new ≡ record path.old {
      entries = entered_by opened inside (stepped came path.old.entries);
    } }
{
    path.step(came);
    enter(path, opened, inside);
}

fn is_list_kind(kind: NodeKind) -> bool
    ensures { result ≡ is_list_kind kind }
{
    match kind {
        NodeKind::Cons => true,
        NodeKind::Tuple => false,
        NodeKind::Flat => false,
        NodeKind::Hash => false,
        NodeKind::Inner => false,
        NodeKind::Pair => false,
    }
}

// Whether a list continues with what was found.
fn is_list(opened: Opened) -> bool
    ensures { result ≡ is_list opened }
{
    match opened {
        Opened::Node(_, kind) => is_list_kind(kind),
        Opened::Immediate => false,
        Opened::Leaf(_) => false,
        Opened::Bad(_, _) => false,
    }
}

// Goes on with a list after its head.
fn turn_tail<'h>(
    heap: &'h Heap,
    path: &mut Path,
    entry: Entry,
    child: Child<'_>,
    opened: Opened,
) -> Turn<'h>
    requires at { AtChild heap.now path.old entry child opened }
    requires kind { entry.kind ≡ NodeKind.Cons }
    requires next { 0 < entry.next }
    ensures cells { path.new.cells ≡ path.old.cells }
    ensures turn { TurnsAt heap.now path.old path.new child.entry result }
{
    if is_list(opened) {
        advance(path, opened, false, false);
        return Turn {
            front: b",",
            own: Own::Nothing,
        };
    }
    let Some(last) = immediate(heap, child) else {
        advance(path, opened, true, false);
        return Turn {
            front: b"|",
            own: Own::Child(opened),
        };
    };
    if let Elem::Nil = last {
        path.pop();
        return Turn {
            front: b"]",
            own: Own::Nothing,
        };
    }
    advance(path, opened, true, false);
    Turn {
        front: b"|",
        own: Own::Immediate(last),
    }
}

// Goes on with a list.
fn turn_list<'h>(
    heap: &'h Heap,
    path: &mut Path,
    entry: Entry,
    child: Child<'_>,
    opened: Opened,
) -> Turn<'h>
    requires at { AtChild heap.now path.old entry child opened }
    requires kind { entry.kind ≡ NodeKind.Cons }
    ensures cells { path.new.cells ≡ path.old.cells }
    ensures turn { TurnsAt heap.now path.old path.new child.entry result }
{
    if entry.next > 0 {
        return turn_tail(heap, path, entry, child, opened);
    }
    advance(path, opened, false, false);
    Turn {
        front: b"",
        own: Own::Child(opened),
    }
}

// Goes on with a tuple, a flat map or a pair of a hash map.
fn turn_terms<'h>(
    heap: &'h Heap,
    path: &mut Path,
    entry: Entry,
    child: Child<'_>,
    opened: Opened,
) -> Turn<'h>
    requires at { AtChild heap.now path.old entry child opened }
    requires kind { HasTerms entry.kind }
    ensures cells { path.new.cells ≡ path.old.cells }
    ensures turn { TurnsAt heap.now path.old path.new child.entry result }
{
    advance(path, opened, true, false);
    Turn {
        front: front_text(entry),
        own: Own::Child(opened),
    }
}

// Goes on with the items of a hash map or of an inner node.
fn turn_item<'h>(
    heap: &'h Heap,
    path: &mut Path,
    entry: Entry,
    child: Child<'_>,
    opened: Opened,
) -> Turn<'h>
    requires at { AtChild heap.now path.old entry child opened }
    requires kind { HasItems entry.kind }
    ensures cells { path.new.cells ≡ path.old.cells }
    ensures turn { TurnsAt heap.now path.old path.new child.entry result }
{
    if let Opened::Bad(_, _) = opened {
        advance(path, opened, true, false);
        return Turn {
            front: comma_text(entry.came),
            own: Own::Child(opened),
        };
    }
    advance(path, opened, entry.came, entry.came);
    Turn {
        front: b"",
        own: Own::Nothing,
    }
}

// Goes on with the innermost cell, given what was found for its next child.
fn turn_by<'h>(
    heap: &'h Heap,
    path: &mut Path,
    entry: Entry,
    child: Child<'_>,
    opened: Opened,
) -> Turn<'h>
    requires at { AtChild heap.now path.old entry child opened }
    ensures cells { path.new.cells ≡ path.old.cells }
    ensures turn { TurnsAt heap.now path.old path.new child.entry result }
{
    match entry.kind {
        NodeKind::Cons => turn_list(heap, path, entry, child, opened),
        NodeKind::Tuple => turn_terms(heap, path, entry, child, opened),
        NodeKind::Flat => turn_terms(heap, path, entry, child, opened),
        NodeKind::Hash => turn_item(heap, path, entry, child, opened),
        NodeKind::Inner => turn_item(heap, path, entry, child, opened),
        NodeKind::Pair => turn_terms(heap, path, entry, child, opened),
    }
}

/// Visits the next child of the innermost cell.
pub(crate) fn visit_next<'h>(
    heap: &'h Heap,
    path: &mut Path,
    entry: Entry,
    child: Child<'_>,
) -> Turn<'h>
    requires serves { Serves heap.now path.old.cells }
    requires top { path.old.entries ≡ entry ∷ drop 1 path.old.entries }
    requires few { length path.old.entries ≤ length heap.now.cells }
    requires next_few { entry.next < 200000000 }
    requires at { next_of_cell heap.now.cells entry ≡ Some (child_shown heap.now.cells child) }
    requires placed { IsChild heap.now.cells child }
    ensures cells { path.new.cells ≡ path.old.cells }
    ensures turn { TurnsAt heap.now path.old path.new child.entry result }
{
    let opened = open_child(heap, path, child);
    turn_by(heap, path, entry, child, opened)
}
