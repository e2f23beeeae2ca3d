// For whom processes wait, in one pool.
ghost use Rattle.std.specs.Prelude.{◌≡◌, ◌<◌, ◌++◌, [], ◌∷◌, length, slice_index_or, None, IfOk, OnErr, OnOk};
ghost use Rattle.std.specs.Option.{option_copied};
ghost use Rattle.wait_requests.specs.Inner.Pools.{IsBehind};

use dump_io::items_between;
use std::alloc::{AllocError, Global};
use std::marker::Model;

// Where a target stands in the pool.
#[derive(Clone, Copy)]
pub(crate) struct Span {
    pub from: u32,
    pub upto: u32,
}

/// For whom processes wait, in their order. Contracts see for each process the target, if it waits.
#[derive(Drop)]
pub(crate) struct Targets {
    // The targets, one behind the other.
    texts: Vec<u8>,
    spans: Vec<Option<Span>>,
}

impl Model for Targets {
    ghost use Rattle.std.specs.Prelude.{ℕ, List, Option};
    ghost use Rattle.wait_requests.specs.Inner.Pools.{shown_targets, AreWithin};

    ghost Value = { List (Option (List ℕ)) };

    ghost view = { λ t. shown_targets t.texts.items t.spans.items };

    ghost invariant = { λ t. AreWithin t.texts.items t.spans.items };
}

// A place in the pool, if it is kept in so few bits.
fn small(size: usize) -> Result<u32, AllocError>
    ensures { IfOk result (λ small. small ≡ size) }
{
    match u32::try_from(size) {
        Ok(small) => Ok(small),
        Err(_) => Err(AllocError),
    }
}

// Puts a text behind the others, and returns where it stands.
fn push_text(texts: &mut Vec<u8>, text: &[u8]) -> Result<Span, AllocError>
    ensures grown { OnOk result (texts.new.items ≡ texts.old.items ++ text.now) }
    ensures span { IfOk result (IsBehind texts.old.items text.now) }
    ensures kept { OnErr result (texts.new.items ≡ texts.old.items) }
{
    let from = small(texts.len())?;
    let upto = small(texts.len().saturating_add(text.len()))?;
    texts.extend_from_slice(text)?;
    Ok(Span { from, upto })
}

impl Targets {
    /// No processes.
    pub(crate) fn new(alloc: Global) -> Targets
        ensures { result ≡ [] }
    {
        Targets {
            texts: Vec::new(alloc),
            spans: Vec::new(alloc),
        }
    }

    /// How many processes there are.
    pub(crate) fn len(&self) -> usize
        ensures { result ≡ length self.now }
    {
        self.spans.len()
    }

    /// Appends for whom one more process waits. All targets together
    /// have less than 4 GiB; more is answered as want of memory.
    pub(crate) fn push(&mut self, target: Option<&[u8]>) -> Result<(), AllocError>
        ensures { OnOk result (self.new ≡ self.old ++ option_copied target.entry ∷ []) }
    {
        self.spans.reserve(1)?;
        match target {
            Some(text) => {
                let span = push_text(&mut self.texts, text)?;
                self.spans.push_reserved(Some(span));
            }
            None => self.spans.push_reserved(None),
        }
        Ok(())
    }

    /// For whom the process at a place waits.
    pub(crate) fn get(&self, process: usize) -> Option<&[u8]>
        requires { process < length self.now }
        ensures { option_copied result ≡ slice_index_or self.now process None }
    {
        match self.spans[process] {
            Some(span) => Some(items_between(&self.texts, span.from as usize, span.upto as usize)),
            None => None,
        }
    }
}
