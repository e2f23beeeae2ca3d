// The cells that a walk is in: a stack, and a mark for each cell.
ghost use Rattle.std.specs.Prelude.{◌≡◌, ◌<◌, ◌≤◌, ◌+◌, ◌^◌, [], ◌∷◌, length, slice_get, drop, IfOk, IfSome, MatchOption};
ghost use Rattle.heap_cells.specs.Targets.{number};
ghost use Rattle.term_unfold.specs.Inner.Entries.{Entered, numbers_of, stepped, told, IsLine, new_path, IsTop};
ghost use Rattle.term_unfold.specs.Rules.{is_on};

use crate::node::NodeKind;
use heap_cells::CellIx;
use std::alloc::{AllocError, Global};
use std::marker::Model;

/// A cell that the walk is in: what it is there, the place of its next child, and whether something came
/// before: in a list, a tail that a `]` has to follow; in a tuple or a map, a text that a comma has to follow.
#[derive(Clone, Copy)]
pub(crate) struct Entry {
    pub cell: CellIx,
    pub next: u32,
    pub kind: NodeKind,
    pub came: bool,
}

// The marked cells are those on the stack, each once.
#[derive(Drop)]
pub(crate) struct Path {
    stack: Vec<Entry>,
    marks: Vec<bool>,
}

impl Model for Path {
    ghost use Rattle.std.specs.Prelude.{length, reverse};
    ghost use Rattle.std.specs.Vec.{vec_capacity};
    ghost use Rattle.term_unfold.specs.Inner.Entries.{Entered, IsTied};

    ghost Value = { Entered };

    ghost view = { λ p. record {
      cells = length p.marks.items;
      reserved = vec_capacity p.stack;
      entries = reverse p.stack.items;
    } };

    ghost invariant = { λ p. IsTied p.marks.items (vec_capacity p.stack) (reverse p.stack.items) };
}

impl Path {
    /// Room for a walk over `cells` cells: a mark for each, and one more entry than there are cells.
    pub fn new(alloc: Global, cells: usize) -> Result<Path, AllocError>
        requires { cells < 2 ^ 32 }
        ensures { IfOk result (λ path. path ≡ new_path cells) }
    {
        let stack = Vec::with_capacity(alloc, cells + 1)?;
        let marks = vec![in alloc; false; cells]?;
        Ok(Path { stack, marks })
    }

    /// Whether the walk is in the cell.
    pub fn contains(&self, cell: CellIx) -> bool
        requires { number cell < self.now.cells }
        ensures on { result ≡ is_on (number cell) (numbers_of self.now.entries) }
        ensures line { IsLine self.now.cells (numbers_of self.now.entries) }
    {
        self.marks[cell.number() as usize]
    }

    /// States a law and does no work: the cells that the walk is in are distinct cells of the heap.
    pub fn line(&self)
        ensures { IsLine self.now.cells (numbers_of self.now.entries) }
    {
        // What holds of each path is known where one of its fields is named.
        let _ = &self.marks;
    }

    /// The innermost cell.
    pub fn top(&self) -> Option<Entry>
        ensures top { MatchOption result (self.now.entries ≡ []) (IsTop self.now.entries) }
        ensures inside { IfSome result (λ e. number e.cell < self.now.cells) }
        ensures few { length self.now.entries ≤ self.now.cells }
        ensures reserved { self.now.reserved ≡ self.now.cells + 1 }
    {
        self.stack.last().copied()
    }

    /// Enters a cell that the walk isn't in.
    pub fn push(&mut self, cell: CellIx, kind: NodeKind, came: bool)
        requires { IsLine self.old.cells (number cell ∷ numbers_of self.old.entries) }
        ensures { let entry : Entry = record { cell = cell; next = 0; kind = kind; came = came } in
            self.new ≡ record self.old { entries = entry ∷ self.old.entries } }
    {
        self.stack.push_reserved(Entry {
            cell,
            next: 0,
            kind,
            came,
        });
        self.marks[cell.number() as usize] = true;
    }

    /// Goes on to the next child of the innermost cell, after a text or after none.
    pub fn step(&mut self, came: bool)
        requires entry { 0 < length self.old.entries }
        requires few { IfSome (slice_get self.old.entries 0) (λ e. e.next + 1 < 2 ^ 32) }
        ensures { self.new ≡ record self.old { entries = stepped came self.old.entries } }
    {
        let last = self.stack.len() - 1;
        let entry = self.stack[last];
        self.stack[last] = Entry {
            cell: entry.cell,
            next: entry.next + 1,
            kind: entry.kind,
            came,
        };
    }

    /// Records for the innermost cell whether something came before its next child.
    pub fn tell(&mut self, came: bool)
        ensures { self.new ≡ record self.old { entries = told came self.old.entries } }
    {
        let count = self.stack.len();
        if count == 0 {
            return;
        }
        let last = count - 1;
        let entry = self.stack[last];
        self.stack[last] = Entry {
            cell: entry.cell,
            next: entry.next,
            kind: entry.kind,
            came,
        };
    }

    /// Leaves the innermost cell.
    pub fn pop(&mut self)
        ensures { self.new ≡ record self.old { entries = drop 1 self.old.entries } }
    {
        if let Some(entry) = self.stack.pop() {
            self.marks[entry.cell.number() as usize] = false;
        }
    }

    /// Leaves all cells. The room stays as it was when it was made.
    pub fn clear(&mut self)
        ensures left { self.new ≡ record self.old { entries = [] } }
        ensures reserved { self.new.reserved ≡ self.new.cells + 1 }
    {
        while let Some(_) = self.top() {
            self.pop();
        }
    }
}
