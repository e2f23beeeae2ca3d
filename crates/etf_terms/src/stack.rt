// The terms that are being written: a stack that takes no memory once it is made.
ghost use Rattle.std.specs.Prelude.{◌≡◌, ◌<◌, [], ◌∷◌, length, IfOk, MatchOption};
ghost use Rattle.etf_terms.specs.Inner.Open.{Open};

use std::alloc::{AllocError, Global};
use std::marker::Model;

/// How the terms after a head are written.
#[derive(Clone, Copy)]
pub(crate) enum Kind {
    /// One after another: a leaf has none, and the whole has one.
    Plain,
    Tuple,
    Linked,
    Fun,
    Pairs,
}

/// A head whose terms are being written: how many there are, and the number of the next one.
#[derive(Clone, Copy)]
pub(crate) struct Entry {
    pub kind: Kind,
    pub kids: u64,
    pub next: u64,
}

#[derive(Drop)]
pub(crate) struct Stack {
    entries: Vec<Entry>,
}

impl Model for Stack {
    ghost use Rattle.std.specs.Prelude.{reverse};
    ghost use Rattle.std.specs.Vec.{vec_capacity};
    ghost use Rattle.etf_terms.specs.Inner.Open.{Open};

    ghost Value = { Open };

    ghost view = { λ s. record {
      room = vec_capacity s.entries;
      entries = reverse s.entries.items;
    } };
}

impl Stack {
    /// Room for exactly `room` entries.
    pub fn new(alloc: Global, room: usize) -> Result<Stack, AllocError>
        ensures room { IfOk result (λ stack. stack.room ≡ room) }
        ensures empty { IfOk result (λ stack. stack.entries ≡ []) }
    {
        Ok(Stack {
            entries: Vec::with_capacity(alloc, room)?,
        })
    }

    /// Enters a head.
    pub fn push(&mut self, entry: Entry)
        requires { length self.old.entries < self.old.room }
        ensures { self.new ≡ record self.old { entries = entry ∷ self.old.entries } }
    {
        self.entries.push_reserved(entry);
    }

    /// Leaves the innermost head.
    pub fn pop(&mut self) -> Option<Entry>
        ensures top { MatchOption result (self.old.entries ≡ [])
            (λ e. self.old.entries ≡ e ∷ self.new.entries) }
        ensures room { self.new.room ≡ self.old.room }
    {
        self.entries.pop()
    }

    /// Leaves all heads.
    pub fn clear(&mut self)
        ensures { self.new ≡ record self.old { entries = [] } }
    {
        self.entries.clear();
    }
}
