// How deeply a term nests.
ghost use Rattle.std.specs.Prelude.{◌≡◌, ℕ, suc, max, [], ◌∷◌, length, IfOk, OnOk, MatchOption};
ghost use Rattle.etf_terms.specs.Inner.Awaiting.{opened, Awaits, Goes, Falls};
ghost use Rattle.etf_terms.specs.Inner.Serving.{IsExact};

use crate::heads::read_head;
use std::alloc::{AllocError, Global};
use std::marker::Model;

// How many terms each open head still needs, from the innermost outwards.
#[derive(Drop)]
struct Wanted {
    counts: Vec<u64>,
}

impl Model for Wanted {
    ghost use Rattle.std.specs.Prelude.{ℕ, List, reverse};

    ghost Value = { List ℕ };

    ghost view = { λ w. reverse w.counts.items };
}

impl Wanted {
    fn new(alloc: Global) -> Wanted
        ensures { result ≡ [] }
    {
        Wanted {
            counts: Vec::new(alloc),
        }
    }

    fn push(&mut self, count: u64) -> Result<(), AllocError>
        ensures { OnOk result (self.new ≡ count ∷ self.old) }
    {
        match self.counts.push(count) {
            Ok(()) => Ok(()),
            Err(_) => Err(AllocError),
        }
    }

    // Opens a head with `count` terms, if it has any.
    fn enter(&mut self, count: u64) -> Result<(), AllocError>
        ensures { OnOk result (self.new ≡ opened count self.old) }
    {
        if count == 0 {
            return Ok(());
        }
        self.push(count)
    }

    fn pop(&mut self) -> Option<u64>
        ensures { MatchOption result (self.old ≡ []) (λ count. self.old ≡ count ∷ self.new) }
    {
        self.counts.pop()
    }

    fn len(&self) -> usize
        ensures { result ≡ length self.now }
    {
        self.counts.len()
    }
}

// Goes on with a head that was taken off and still needs `count` terms.
fn step<'a>(rest: &'a [u8], wanted: &mut Wanted, count: u64) -> Result<&'a [u8], AllocError>
    ensures falls { Falls rest.now wanted.old wanted.new result }
    ensures goes { (most : ℕ) → Awaits (count ∷ wanted.old) rest.now most
        → IfOk result (λ behind. Goes (suc (length wanted.old)) most wanted.new behind.now) }
{
    if count == 0 {
        return Ok(rest);
    }
    match read_head(rest) {
        Ok((head, behind)) => {
            wanted.push(count - 1)?;
            wanted.enter(head.kids())?;
            Ok(behind)
        }
        // What the open heads need are the terms of a term.
        Err(_) => Ok(rest),
    }
}

fn larger(a: usize, b: usize) -> usize
    ensures { result ≡ max a b }
{
    if a < b { b } else { a }
}

/// How many heads are open at once while the term with these bytes is written,
/// including the one around the whole. Takes as much memory as the term is deep.
pub(crate) fn height(alloc: Global, bytes: &[u8]) -> Result<usize, AllocError>
    ensures { IfOk result (IsExact bytes.now) }
{
    let mut wanted = Wanted::new(alloc);
    wanted.push(1)?;
    let mut most = 1;
    let mut rest = bytes;
    while let Some(count) = wanted.pop() {
        match step(rest, &mut wanted, count) {
            Ok(behind) => rest = behind,
            Err(error) => return Err(error),
        }
        most = larger(most, wanted.len());
    }
    Ok(most)
}
