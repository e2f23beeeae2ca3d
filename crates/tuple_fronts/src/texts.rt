// Texts in one pool.
ghost use Rattle.std.specs.Prelude.{◌≡◌, ◌<◌, ◌++◌, [], ◌∷◌, length, slice_get, Some, IfOk, if◌then◌else◌};
ghost use Rattle.std.specs.Result.{is_ok};

use dump_io::items_between;
use std::alloc::{AllocError, Global};
use std::marker::Model;

// Where a text stands in the pool.
#[derive(Clone, Copy)]
pub(crate) struct Span {
    pub from: u32,
    pub upto: u32,
}

/// Texts, one behind the other. Contracts see the list of them.
#[derive(Drop)]
pub struct Texts {
    pool: Vec<u8>,
    spans: Vec<Span>,
}

impl Model for Texts {
    ghost use Rattle.std.specs.Prelude.{ℕ, List};
    ghost use Rattle.tuple_fronts.specs.Inner.Texts.{shown_texts, AreWithin};

    ghost Value = { List (List ℕ) };

    ghost view = { λ t. shown_texts t.pool.items t.spans.items };

    ghost invariant = { λ t. AreWithin t.pool.items t.spans.items };
}

// A place in the pool, if it is kept in so few bits.
fn small(size: usize) -> Result<u32, AllocError>
    ensures { IfOk result (λ small. small ≡ size) }
{
    match u32::try_from(size) {
        Ok(small) => Ok(small),
        Err(_) => Err(AllocError),
    }
}

impl Texts {
    /// No texts.
    pub fn new(alloc: Global) -> Texts
        ensures { result ≡ [] }
    {
        Texts {
            pool: Vec::new(alloc),
            spans: Vec::new(alloc),
        }
    }

    /// How many texts there are.
    pub fn len(&self) -> usize
        ensures { result ≡ length self.now }
    {
        self.spans.len()
    }

    /// Appends a text. Together they have less than 4 GiB; more is answered as want of memory.
    pub fn push(&mut self, text: &[u8]) -> Result<(), AllocError>
        ensures { self.new ≡ (if is_ok result then self.old ++ text.now ∷ [] else self.old) }
    {
        self.spans.reserve(1)?;
        let from = small(self.pool.len())?;
        let upto = small(self.pool.len().saturating_add(text.len()))?;
        self.pool.extend_from_slice(text)?;
        self.spans.push_reserved(Span { from, upto });
        Ok(())
    }

    /// The text at a place.
    pub fn get(&self, i: usize) -> &[u8]
        requires { i < length self.now }
        ensures { slice_get self.now i ≡ Some result.now }
    {
        let span = self.spans[i];
        items_between(&self.pool, span.from as usize, span.upto as usize)
    }
}
