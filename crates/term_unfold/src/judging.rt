// The walk that judges.
ghost use Rattle.std.specs.Prelude.{◌≡◌, ◌<◌, ◌≤◌, [], length, IfSome, MatchOption};
ghost use Rattle.term_forms.specs.Seen.{element};
ghost use Rattle.term_unfold.specs.Inner.Coming.{to_come, entered_by, verdict_on, coming_with, HasLeafIn, VisitsIn};
ghost use Rattle.term_unfold.specs.Inner.Entries.{Serves};
ghost use Rattle.term_unfold.specs.Inner.Children.{child_shown, IsChild};
ghost use Rattle.term_unfold.specs.Inner.Openings.{MayEnter};
ghost use Rattle.term_unfold.specs.Rules.{Term};
ghost use Rattle.term_unfold.specs.Trees.{verdict};
ghost use Rattle.term_unfold.specs.Unfolding.{unfolding_of};

use crate::children::{Child, child_at};
use crate::openings::{Opened, open_child, open_root};
use crate::path::Path;
use crate::verdict::Verdict;
use heap_cells::Heap;
use term_forms::shapes::Elem;

/// The child that comes next. Leaves the innermost cells that have none left.
#[inline(always)]
pub(crate) fn next_child<'h>(heap: &'h Heap, path: &mut Path) -> Option<Child<'h>>
    requires serves { Serves heap.now path.old.cells }
    ensures cells { path.new.cells ≡ path.old.cells }
    ensures few { IfSome result (λ _. length path.new.entries ≤ length heap.now.cells) }
    ensures placed { IfSome result (IsChild heap.now.cells) }
    ensures next { MatchOption result
        (to_come heap.now.cells path.old.entries ≡ [])
        (λ child. to_come heap.now.cells path.old.entries
        ≡ coming_with heap.now.cells path.new.entries (child_shown heap.now.cells child)) }
{
    while let Some(entry) = path.top() {
        if let Some(child) = child_at(heap, entry.cell, entry.kind, entry.next) {
            path.step(entry.came);
            return Some(child);
        }
        path.pop();
    }
    None
}

/// Enters what was found for a child, if it is a node.
pub(crate) fn enter(path: &mut Path, opened: Opened, came: bool)
    requires { MayEnter path.old opened }
    ensures { path.new ≡ record path.old { entries = entered_by opened came path.old.entries } }
{
    if let Opened::Node(ix, kind) = opened {
        path.push(ix, kind, came);
    }
}

// The verdict on a child by itself.
fn judge_opened(opened: Opened) -> Verdict
    ensures { result ≡ verdict_on opened }
{
    match opened {
        Opened::Immediate => Verdict::Clean,
        Opened::Leaf(_) => Verdict::Clean,
        Opened::Bad(addr, why) => Verdict::Bad(addr, why),
        Opened::Node(_, _) => Verdict::Clean,
    }
}

/// Visits a child of the innermost cell, and returns what it was opened as.
#[inline(always)]
pub(crate) fn visit(heap: &Heap, path: &mut Path, child: Child<'_>) -> Opened
    requires serves { Serves heap.now path.old.cells }
    requires few { length path.old.entries ≤ length heap.now.cells }
    requires placed { IsChild heap.now.cells child }
    ensures cells { path.new.cells ≡ path.old.cells }
    ensures visits { VisitsIn heap.now path.old path.new (child_shown heap.now.cells child.entry) result }
    ensures inside { HasLeafIn heap.now.cells result }
{
    let opened = open_child(heap, path, child);
    enter(path, opened, false);
    opened
}

/// Visits a root, and returns what it was opened as.
pub(crate) fn visit_root(heap: &Heap, path: &mut Path, root: &Elem<'_>) -> Opened
    requires serves { Serves heap.now path.old.cells }
    requires few { length path.old.entries ≤ length heap.now.cells }
    ensures cells { path.new.cells ≡ path.old.cells }
    ensures visits { VisitsIn heap.now path.old path.new (Term (element root.now)) result }
    ensures inside { HasLeafIn heap.now.cells result }
{
    let opened = open_root(heap, path, root);
    enter(path, opened, false);
    opened
}

/// The first bad node among the first `budget` nodes of the root. The walk is left where it stops.
pub(crate) fn first_bad(heap: &Heap, path: &mut Path, root: &Elem<'_>, budget: u32) -> Verdict
    requires serves { Serves heap.now path.old.cells }
    requires empty { path.old.entries ≡ [] }
    requires budget { 0 < budget }
    ensures cells { path.new.cells ≡ path.old.cells }
    ensures verdict { result ≡ verdict (unfolding_of heap.now.cells (element root.now)) budget }
{
    let opened = visit_root(heap, path, root);
    let mut found = judge_opened(opened);
    for _ in 1..budget {
        if let Verdict::Bad(_, _) = found {
            return found;
        }
        let Some(child) = next_child(heap, path) else {
            return Verdict::Clean;
        };
        let opened = visit(heap, path, child);
        found = judge_opened(opened);
    }
    found
}
