// The walk that prints.
ghost use Rattle.std.specs.Prelude.{◌≡◌, ◌<◌, ◌≤◌, [], ◌∷◌, length, drop};
ghost use Rattle.dump_io.specs.Sinks.{Puts};
ghost use Rattle.term_forms.specs.Seen.{element};
ghost use Rattle.binary_refs.specs.Previews.{AreFor};
ghost use Rattle.term_unfold.specs.Inner.Entries.{Serves};
ghost use Rattle.heap_cells.specs.HeapMap.{IsBounded};
ghost use Rattle.heap_cells.specs.Targets.{number};
ghost use Rattle.term_unfold.specs.Inner.Children.{child_shown, IsChild};
ghost use Rattle.term_unfold.specs.Inner.Openings.{element_of};
ghost use Rattle.term_unfold.specs.Inner.Rest.{bracket, rest, HasOwn, HasText};
ghost use Rattle.term_unfold.specs.Inner.Steps.{Steps, Falls, counted_of};
ghost use Rattle.term_unfold.specs.Leaves.{element_text, leaves};
ghost use Rattle.term_unfold.specs.Rules.{Term};
ghost use Rattle.term_unfold.specs.Inner.Written.{text_of_child, text_of_own, text_of_turn, text_of_root};
ghost use Rattle.term_unfold.specs.Walks.{whole_text};

use crate::children::{Child, child_at, immediate};
use crate::judging::enter;
use crate::leaves::{put_bad, put_cell, put_element};
use crate::node::NodeKind;
use crate::openings::{Opened, open_root};
use crate::path::{Entry, Path};
use crate::turns::{Own, Turn, close, cut, visit_next};
use binary_refs::Previews;
use dump_io::{Failed, Sink, write_all};
use heap_cells::Heap;
use term_forms::shapes::Elem;

fn bracket_text(kind: NodeKind) -> &'static [u8]
    ensures { result.now ≡ bracket kind }
{
    match kind {
        NodeKind::Cons => b"[",
        NodeKind::Tuple => b"{",
        NodeKind::Flat => b"#{",
        NodeKind::Hash => b"#{",
        NodeKind::Inner => b"",
        NodeKind::Pair => b"",
    }
}

// Writes a child that is an immediate.
fn put_immediate<K: Sink>(sink: &mut K, heap: &Heap, child: Child<'_>) -> Result<(), Failed>
    requires placed { IsChild heap.now.cells child }
    requires immediate { HasText heap.now.cells (child_shown heap.now.cells child) Opened.Immediate }
    ensures { Puts (K.state sink.old) (K.state sink.new)
        (element_text (element_of (child_shown heap.now.cells child.entry))) result }
{
    match immediate(heap, child) {
        Some(e) => put_element(sink, &e),
        None => unreachable!(),
    }
}

// Writes a child's own text, up to its children.
fn put_child<K: Sink>(
    sink: &mut K,
    heap: &Heap,
    previews: &Previews,
    child: Child<'_>,
    opened: Opened,
) -> Result<(), Failed>
    requires bounded { IsBounded heap.now }
    requires previews { AreFor heap.now.cells previews.now }
    requires placed { IsChild heap.now.cells child }
    requires text { HasText heap.now.cells (child_shown heap.now.cells child) opened }
    ensures { Puts (K.state sink.old) (K.state sink.new)
        (text_of_child heap.now previews.now child.entry opened) result }
{
    match opened {
        Opened::Immediate => put_immediate(sink, heap, child),
        Opened::Leaf(ix) => put_cell(sink, heap, previews, ix),
        Opened::Bad(addr, why) => put_bad(sink, addr, why),
        Opened::Node(_, kind) => write_all(sink, bracket_text(kind)),
    }
}

// Writes what a turn writes of a child itself.
fn put_own<K: Sink>(
    sink: &mut K,
    heap: &Heap,
    previews: &Previews,
    child: Child<'_>,
    own: &Own<'_>,
) -> Result<(), Failed>
    requires bounded { IsBounded heap.now }
    requires previews { AreFor heap.now.cells previews.now }
    requires placed { IsChild heap.now.cells child }
    requires own { HasOwn heap.now.cells (child_shown heap.now.cells child) own.now }
    ensures { Puts (K.state sink.old) (K.state sink.new)
        (text_of_own heap.now previews.now child.entry own.now) result }
{
    match own {
        Own::Nothing => write_all(sink, b""),
        Own::Child(opened) => put_child(sink, heap, previews, child, *opened),
        Own::Immediate(e) => put_element(sink, e),
    }
}

// Writes what the walk puts out when it comes to a child.
fn put_turn<K: Sink>(
    sink: &mut K,
    heap: &Heap,
    previews: &Previews,
    child: Child<'_>,
    turn: &Turn<'_>,
) -> Result<(), Failed>
    requires bounded { IsBounded heap.now }
    requires previews { AreFor heap.now.cells previews.now }
    requires placed { IsChild heap.now.cells child }
    requires own { HasOwn heap.now.cells (child_shown heap.now.cells child) turn.now.own }
    ensures { Puts (K.state sink.old) (K.state sink.new)
        (text_of_turn heap.now previews.now child.entry turn.now) result }
{
    write_all(sink, turn.front)?;
    put_own(sink, heap, previews, child, &turn.own)
}

// The remaining count, if a text was written.
fn counted(written: Result<(), Failed>, left: u32) -> Result<u32, Failed>
    ensures { result ≡ counted_of written left }
{
    match written {
        Ok(()) => Ok(left),
        Err(failed) => Err(failed),
    }
}

// Goes on with the innermost cell, when `left` nodes remain.
fn step<K: Sink>(
    heap: &Heap,
    previews: &Previews,
    path: &mut Path,
    entry: Entry,
    left: u32,
    sink: &mut K,
) -> Result<u32, Failed>
    requires previews { AreFor heap.now.cells previews.now }
    requires serves { Serves heap.now path.old.cells }
    requires top { path.old.entries ≡ entry ∷ drop 1 path.old.entries }
    requires cell { number entry.cell < length heap.now.cells }
    requires few { length path.old.entries ≤ length heap.now.cells }
    ensures cells { path.new.cells ≡ path.old.cells }
    ensures falls { Falls path.old.entries path.new.entries left result }
    ensures step { Steps (K.state sink.old) (K.state sink.new)
        (rest (leaves heap.now previews.now) heap.now.cells path.old.entries left)
        (rest (leaves heap.now previews.now) heap.now.cells path.new.entries) result }
{
    let Some(child) = child_at(heap, entry.cell, entry.kind, entry.next) else {
        let text = close(path, entry);
        return counted(write_all(sink, text), left);
    };
    if left == 0 {
        let text = cut(path, entry);
        return counted(write_all(sink, text), 0);
    }
    let turn = visit_next(heap, path, entry, child);
    counted(put_turn(sink, heap, previews, child, &turn), left - 1)
}

// Writes a root's own text, up to its children.
fn put_root<K: Sink>(
    sink: &mut K,
    heap: &Heap,
    previews: &Previews,
    root: &Elem<'_>,
    opened: Opened,
) -> Result<(), Failed>
    requires bounded { IsBounded heap.now }
    requires previews { AreFor heap.now.cells previews.now }
    requires text { HasText heap.now.cells (Term (element root.now)) opened }
    ensures { Puts (K.state sink.old) (K.state sink.new)
        (text_of_root heap.now previews.now (element root.now) opened) result }
{
    match opened {
        Opened::Immediate => put_element(sink, root),
        Opened::Leaf(ix) => put_cell(sink, heap, previews, ix),
        Opened::Bad(addr, why) => put_bad(sink, addr, why),
        Opened::Node(_, kind) => write_all(sink, bracket_text(kind)),
    }
}

// Visits a root, within a budget of nodes.
fn print_root<K: Sink>(
    heap: &Heap,
    previews: &Previews,
    path: &mut Path,
    root: &Elem<'_>,
    budget: u32,
    sink: &mut K,
) -> Result<u32, Failed>
    requires previews { AreFor heap.now.cells previews.now }
    requires serves { Serves heap.now path.old.cells }
    requires empty { path.old.entries ≡ [] }
    requires budget { 0 < budget }
    ensures cells { path.new.cells ≡ path.old.cells }
    ensures step { Steps (K.state sink.old) (K.state sink.new)
        (whole_text heap.now previews.now (element root.now) budget)
        (rest (leaves heap.now previews.now) heap.now.cells path.new.entries) result }
{
    let opened = open_root(heap, path, root);
    enter(path, opened, false);
    counted(put_root(sink, heap, previews, root, opened), budget - 1)
}

/// Writes the whole text of a root, over as many nodes as the budget allows.
pub(crate) fn print_all<K: Sink>(
    heap: &Heap,
    previews: &Previews,
    path: &mut Path,
    root: &Elem<'_>,
    budget: u32,
    sink: &mut K,
) -> Result<(), Failed>
    requires previews { AreFor heap.now.cells previews.now }
    requires serves { Serves heap.now path.old.cells }
    requires empty { path.old.entries ≡ [] }
    requires budget { 0 < budget }
    ensures cells { path.new.cells ≡ path.old.cells }
    ensures puts { Puts (K.state sink.old) (K.state sink.new)
        (whole_text heap.now previews.now (element root.now) budget) result }
{
    let mut left = print_root(heap, previews, path, root, budget, sink)?;
    while let Some(entry) = path.top() {
        left = step(heap, previews, path, entry, left, sink)?;
    }
    Ok(())
}
