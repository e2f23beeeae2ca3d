// The headers of a dump, kept with their texts in one pool.
ghost use Rattle.std.specs.Prelude.{◌≡◌, ◌<◌, ◌≤◌, [], ◌∷◌, ◌++◌, length, slice_get, Some, OnOk, OnErr};
ghost use Rattle.std.specs.List.{between};
ghost use Rattle.dump_sections.specs.Sections.{header};
ghost use Rattle.dump_sections.specs.Inner.Headers.{headers_in, AreWithin};

use std::alloc::{AllocError, Global};
use std::marker::Model;

#[derive(Clone, Copy)]
pub(crate) struct Head {
    at: u64,
    body: u64,
    from: usize,
    upto: usize,
}

// If there is no room for the text, the headers are as before, with a longer pool.
fn push_header(
    heads: &mut Vec<Head>,
    pool: &mut Vec<u8>,
    at: u64,
    body: u64,
    text: &[u8],
) -> Result<(), AllocError>
    requires { AreWithin (length pool.old.items) heads.old.items }
    ensures within { AreWithin (length pool.new.items) heads.new.items }
    ensures pushed { OnOk result (headers_in pool.new.items heads.new.items
        ≡ headers_in pool.old.items heads.old.items ++ header at body text.now ∷ []) }
    ensures kept { OnErr result (headers_in pool.new.items heads.new.items
        ≡ headers_in pool.old.items heads.old.items) }
{
    let from = pool.len();
    pool.extend_from_slice(text)?;
    let upto = pool.len();
    heads.push(Head {
        at,
        body,
        from,
        upto,
    })?;
    Ok(())
}

fn part(pool: &[u8], from: usize, upto: usize) -> &[u8]
    requires ordered { from ≤ upto }
    requires within { upto ≤ length pool.now }
    ensures { result.now ≡ between from upto pool.now }
{
    &pool[from..upto]
}

/// The headers of a dump in order, with their texts in one pool.
#[derive(Drop)]
pub struct Headers {
    heads: Vec<Head>,
    pool: Vec<u8>,
}

impl Model for Headers {
    ghost use Rattle.std.specs.Prelude.{List, length};
    ghost use Rattle.dump_io.specs.Lines.{Header};
    ghost use Rattle.dump_sections.specs.Inner.Headers.{headers_in, AreWithin};

    ghost Value = { List Header };

    ghost view = { λ h. headers_in h.pool.items h.heads.items };

    ghost invariant = { λ h. AreWithin (length h.pool.items) h.heads.items };
}

// A header as it is stored.
#[derive(Clone, Copy)]
pub(crate) struct KeptHeader<'a> {
    pub at: u64,
    pub body: u64,
    pub text: &'a [u8],
}

impl Headers {
    /// No headers.
    pub fn new(alloc: Global) -> Headers
        ensures { result ≡ [] }
    {
        Headers {
            heads: Vec::new(alloc),
            pool: Vec::new(alloc),
        }
    }

    /// The number of headers.
    pub fn len(&self) -> usize
        ensures { result ≡ length self.now }
    {
        self.heads.len()
    }

    /// Adds a header, whose line begins at the offset `at` and ends where its body begins.
    /// If there is no room for the text, the headers are as before.
    pub fn push(&mut self, at: u64, body: u64, text: &[u8]) -> Result<(), AllocError>
        ensures pushed { OnOk result (self.new ≡ self.old ++ header at body text.now ∷ []) }
        ensures kept { OnErr result (self.new ≡ self.old) }
    {
        push_header(&mut self.heads, &mut self.pool, at, body, text)
    }

    pub(crate) fn header(&self, i: usize) -> KeptHeader<'_>
        requires { i < length self.now }
        ensures { slice_get self.now i ≡ Some (header result.at result.body result.text.now) }
    {
        let head = self.heads[i];
        KeptHeader {
            at: head.at,
            body: head.body,
            text: part(self.pool.as_slice(), head.from, head.upto),
        }
    }
}
