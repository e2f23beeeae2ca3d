// The numbers of texts.
ghost use Rattle.std.specs.Prelude.{◌≡◌, [], length, Some, IfOk};
ghost use Rattle.text_groups.specs.Numbers.{number_in, IsGrown};

use std::alloc::{AllocError, Global};
use std::collections::BTreeMap;
use std::marker::Model;

/// Different texts, each with its place among them as its number, from 0. Contracts see the list of them. They are looked
/// up by their order, since whoever writes a dump could give all of them one hash.
#[derive(Drop)]
pub struct TextNumbers<'a> {
    texts: Vec<&'a [u8]>,
    // The number of each text.
    numbers: BTreeMap<&'a [u8], u32>,
}

impl<'a> Model for TextNumbers<'a> {
    ghost use Rattle.std.specs.Prelude.{ℕ, List, map};
    ghost use Rattle.text_groups.specs.Inner.Numbers.{IsNumberTree};

    ghost Value = { List (List ℕ) };

    ghost view = { λ t. map (λ text. text.now) t.texts.items };

    ghost invariant = { λ t. IsNumberTree t.numbers (map (λ text. text.now) t.texts.items) };
}

impl<'a> TextNumbers<'a> {
    /// No texts.
    pub fn new(alloc: Global) -> TextNumbers<'a>
        ensures { result ≡ [] }
    {
        TextNumbers {
            texts: Vec::new(alloc),
            numbers: BTreeMap::new(alloc),
        }
    }

    /// How many different texts there are.
    pub fn len(&self) -> usize
        ensures { result ≡ length self.now }
    {
        self.texts.len()
    }

    /// The number of a text, which is appended if it is a new one. Returns `AllocError` only for a lack of memory, or where
    /// there are 2^32 different texts.
    pub fn number(&mut self, text: &'a [u8]) -> Result<u32, AllocError>
        ensures grown { IsGrown self.old self.new }
        ensures number { IfOk result (λ number. number_in self.new text.now ≡ Some number) }
    {
        if let Some(number) = self.numbers.get(text) {
            return Ok(*number);
        }
        let Ok(number) = u32::try_from(self.texts.len()) else {
            return Err(AllocError);
        };
        self.texts.reserve(1)?;
        self.numbers.insert(text, number)?;
        self.texts.push_reserved(text);
        Ok(number)
    }
}
