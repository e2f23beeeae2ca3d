// A term that was read, and how it is written.
ghost use Rattle.std.specs.Prelude.{◌≡◌, ◌≤◌, length, None, IfOk, IfErr};
ghost use Rattle.dump_io.specs.Sinks.{Puts};
ghost use Rattle.etf_terms.specs.Faults.{IsFault};
ghost use Rattle.etf_terms.specs.Reading.{external_text};
ghost use Rattle.etf_terms.specs.Terms.{Term, IsExternal};
ghost use Rattle.etf_terms.specs.Text.{text};
ghost use Rattle.etf_terms.specs.Walks.{bad_place};
ghost use Rattle.etf_terms.specs.Inner.Serving.{IsExact};
ghost use Rattle.etf_terms.specs.Held.{IsRoomFor};

use crate::nesting::height;
use crate::printing::put_term;
use crate::stack::Stack;
use crate::verdicts::judge;
use dump_io::{Failed, Sink};
use std::alloc::{AllocError, Global};
use std::marker::Model;

/// Why bytes aren't read.
#[derive(Drop)]
pub enum ExtFault {
    /// The bytes aren't 131 and one term; `at` is the length of their longest prefix that begins some 131 and term.
    Bad { at: u64 },
    /// There was no memory for the stack.
    Memory,
}

/// A term in the External Term Format.
#[derive(Drop)]
pub struct Ext<'a> {
    bytes: &'a [u8],
    stack: Stack,
}

// The bytes are those of a term, and there is room for all heads that are open at once.
impl<'a> Model for Ext<'a> {
    ghost use Rattle.std.specs.Prelude.{◌∷◌};
    ghost use Rattle.etf_terms.specs.Held.{Held};
    ghost use Rattle.etf_terms.specs.Inner.Serving.{Serves};

    ghost Value = { Held };

    ghost view = { λ e. record { bytes = 131 ∷ e.bytes.now; room = e.stack.room } };

    ghost invariant = { λ e. Serves e.bytes.now e.stack.room };
}

// A stack for the term with these bytes.
fn stack_for(alloc: Global, bytes: &[u8]) -> Result<Stack, AllocError>
    ensures { IfOk result (λ stack. IsExact bytes.now stack.room) }
{
    Stack::new(alloc, height(alloc, bytes)?)
}

impl<'a> Ext<'a> {
    /// The term with these bytes, if [`judge`] finds that they are one.
    ///
    /// Takes the memory that writing needs: a stack with one more entry than the term is deep, where
    /// a term with no terms after its head has depth 0. Returns `AllocError` if there is none.
    pub fn judged(alloc: Global, bytes: &'a [u8]) -> Result<Ext<'a>, AllocError>
        requires { bad_place bytes.now ≡ None }
        ensures same { IfOk result (λ ext. ext.bytes ≡ bytes.now) }
        ensures room { IfOk result (λ ext. IsRoomFor bytes.now ext.room) }
        ensures few { IfOk result (λ ext. ext.room ≤ length bytes.now) }
    {
        match bytes.split_first() {
            Some((_, rest)) => {
                let stack = stack_for(alloc, rest)?;
                Ok(Ext { bytes: rest, stack })
            }
            None => unreachable!(),
        }
    }

    /// The term with these bytes, after a 131, with the memory that [`Ext::judged`] takes.
    ///
    /// Returns `Bad` exactly when the bytes aren't 131 and one term, before any memory is taken.
    pub fn read(alloc: Global, bytes: &'a [u8]) -> Result<Ext<'a>, ExtFault>
        ensures same { IfOk result (λ ext. ext.bytes ≡ bytes.now) }
        ensures ok { IfOk result (λ ext. (term : Term) × IsExternal bytes.now term) }
        ensures room { IfOk result (λ ext. IsRoomFor bytes.now ext.room) }
        ensures few { IfOk result (λ ext. ext.room ≤ length bytes.now) }
        ensures fault { IfErr result (λ fault. IsFault fault bytes.now) }
    {
        match judge(bytes) {
            Err(at) => Err(ExtFault::Bad { at }),
            Ok(()) => match Ext::judged(alloc, bytes) {
                Ok(ext) => Ok(ext),
                Err(_) => Err(ExtFault::Memory),
            },
        }
    }

    /// Writes the term's text. Takes no memory. Returns `Failed` only if the
    /// sink's count of faults rose; a proper prefix of the text was written then.
    pub fn put<K: Sink>(&mut self, sink: &mut K) -> Result<(), Failed>
        ensures same { self.new ≡ self.old }
        ensures puts { (term : Term) → IsExternal self.old.bytes term
            → Puts (K.state sink.old) (K.state sink.new) (text term) result }
        ensures writes { Puts (K.state sink.old) (K.state sink.new)
            (external_text self.old.bytes) result }
    {
        put_term(self.bytes, &mut self.stack, sink)
    }
}
