// The labels of a heap's cells, and those cells that wait to be visited.
ghost use Rattle.std.specs.Prelude.{◌≡◌, ℕ, ◌+◌, ◌<◌, ◌^◌, [], ◌∷◌, length, IfOk, IfSome, MatchOption, false, true};
ghost use Rattle.heap_weights.specs.Holders.{held_too, holder_at, labelled};
ghost use Rattle.cell_graphs.specs.Reached.{is_in};
ghost use Rattle.heap_weights.specs.Labels.{frontier, is_stop, is_stopped, Takes};
ghost use Rattle.heap_weights.specs.Inner.Labels.{pushed};

use crate::holders::Holder;
use std::alloc::{AllocError, Global};
use std::marker::Model;

// The label of a cell that nobody holds.
const NOBODY: u32 = 0;

// The label of a cell that several parts hold.
const SEVERAL: u32 = 1;

// The label of the first part. The label of each part is as much more as its number says.
const FIRST: u32 = 2;

// A label is one number, so that a cell needs four bytes.
fn holder_of(label: u32) -> Holder
    ensures { result ≡ labelled label }
{
    match label {
        0 => Holder::Nobody,
        1 => Holder::Several,
        _ => Holder::Part(label - FIRST),
    }
}

// Whether a walk of a part leads no further from a cell with a label.
fn is_stop(part: u32, label: u32) -> bool
    requires { part + 2 < 2 ^ 32 }
    ensures { result ≡ is_stop part (labelled label) }
{
    label == SEVERAL || label == part + FIRST
}

// The label of a cell to which a part came, given the one that it had.
fn label_too(part: u32, label: u32) -> u32
    requires { part + 2 < 2 ^ 32 }
    ensures { labelled result ≡ held_too part (labelled label) }
{
    if label == NOBODY {
        part + FIRST
    } else {
        SEVERAL
    }
}

/// The labels of a heap's cells, and the cells that wait to be visited by the part that walks, which is part 0 at first.
// A cell starts to wait when the walk comes to it, and never again in
// the same walk, so the list has no more entries than there are cells.
#[derive(Drop)]
pub struct Labels {
    labels: Vec<u32>,
    waiting: Vec<u32>,
    part: u32,
}

impl Model for Labels {
    ghost use Rattle.std.specs.Prelude.{map, reverse, ◌+◌, ◌<◌, ◌^◌};
    ghost use Rattle.std.specs.Vec.{vec_capacity};
    ghost use Rattle.cell_graphs.specs.Frontiers.{IsTied};
    ghost use Rattle.heap_weights.specs.Holders.{labelled};
    ghost use Rattle.heap_weights.specs.Labels.{Labelling, marks_of};

    ghost Value = { Labelling };

    ghost view = { λ l. record {
      holders = map labelled l.labels.items;
      part = l.part;
      reserved = vec_capacity l.waiting;
      waiting = reverse l.waiting.items;
    } };

    ghost invariant = { λ l. IsTied (marks_of l.part (map labelled l.labels.items)) (vec_capacity l.waiting)
        (reverse l.waiting.items) × (l.part + 2 < 2 ^ 32) };
}

impl Labels {
    /// The labels of `cells` cells, which nobody holds, and room for as many entries.
    pub fn new(alloc: Global, cells: usize) -> Result<Labels, AllocError>
        requires { cells < 2 ^ 32 }
        ensures size { IfOk result (λ labels. length labels.holders ≡ cells) }
        ensures none { IfOk result (λ labels. (n : ℕ) → holder_at labels.holders n ≡ Holder.Nobody) }
        ensures unmarked { IfOk result (λ labels. (n : ℕ) → is_in (frontier labels).marks n ≡ false) }
        ensures reserved { IfOk result (λ labels. labels.reserved ≡ cells) }
        ensures empty { IfOk result (λ labels. labels.waiting ≡ []) }
    {
        let labels = vec![in alloc; NOBODY; cells]?;
        let waiting = Vec::with_capacity(alloc, cells)?;
        Ok(Labels {
            labels,
            waiting,
            part: 0,
        })
    }

    /// Who holds a cell.
    pub fn holder(&self, cell: u32) -> Holder
        requires { cell < length self.now.holders }
        ensures { result ≡ holder_at self.now.holders cell }
    {
        holder_of(self.labels[cell as usize])
    }

    // Whether the walk leads no further from a cell.
    fn stops(&self, cell: u32) -> bool
        requires { cell < length self.now.holders }
        ensures { result ≡ is_stopped self.now cell }
    {
        is_stop(self.part, self.labels[cell as usize])
    }

    /// Whether the part that walks has come to a cell, or several parts hold it.
    pub fn is_marked(&self, cell: u32) -> bool
        requires { cell < length self.now.holders }
        ensures { result ≡ is_in (frontier self.now).marks cell }
    {
        self.stops(cell)
    }

    // The part comes to a cell, which starts to wait.
    fn push(&mut self, cell: u32)
        requires within { cell < length self.old.holders }
        requires passed { is_stopped self.old cell ≡ false }
        ensures { self.new ≡ pushed cell self.old }
    {
        self.labels[cell as usize] = label_too(self.part, self.labels[cell as usize]);
        self.waiting.push_reserved(cell);
    }

    /// The part comes to a cell. If it doesn't stop there, the cell starts to wait.
    pub fn add(&mut self, cell: u32)
        requires { cell < length self.old.holders }
        ensures { Takes self.old self.new (λ n. n ≡ cell) }
    {
        if !self.stops(cell) {
            self.push(cell);
        }
    }

    /// The cell that started to wait last, which stops waiting.
    pub(crate) fn pop(&mut self) -> Option<u32>
        ensures holders { self.new.holders ≡ self.old.holders }
        ensures part { self.new.part ≡ self.old.part }
        ensures reserved { self.new.reserved ≡ self.old.reserved }
        ensures popped { MatchOption result (self.old.waiting ≡ []) (λ cell. self.old.waiting ≡ cell ∷ self.new.waiting) }
        ensures empty { MatchOption result (self.new.waiting ≡ []) (λ cell. cell < length self.old.holders) }
        ensures stopped { IfSome result (λ cell. is_stopped self.old cell ≡ true) }
    {
        self.waiting.pop()
    }

    /// A part begins its walk.
    pub(crate) fn begin(&mut self, part: u32)
        requires empty { self.old.waiting ≡ [] }
        requires room { part + 2 < 2 ^ 32 }
        ensures holders { self.new.holders ≡ self.old.holders }
        ensures part { self.new.part ≡ part }
        ensures reserved { self.new.reserved ≡ self.old.reserved }
        ensures waiting { self.new.waiting ≡ [] }
    {
        self.part = part;
    }
}
