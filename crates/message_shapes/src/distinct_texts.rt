// Texts of which each is kept once.
ghost use Rattle.std.specs.Prelude.{◌≡◌, ◌<◌, [], length, slice_get, Some, IfOk, IfSome};
ghost use Rattle.text_groups.specs.Numbers.{IsGrown};

use std::alloc::{AllocError, Global};
use std::collections::BTreeMap;
use std::marker::Model;
use tuple_fronts::Texts;

/// Different texts, with numbers from 0. Contracts see the list of them.
#[derive(Drop)]
pub(crate) struct DistinctTexts {
    alloc: Global,
    texts: Texts,
    // What may be the number of a text. Whoever looks it up compares the text with that number.
    numbers: BTreeMap<Vec<u8>, u32>,
}

impl Model for DistinctTexts {
    ghost use Rattle.std.specs.Prelude.{ℕ, List};

    ghost Value = { List (List ℕ) };

    ghost view = { λ t. t.texts };
}

// The number of a text that is kept. The time is that of looking it up by its order.
fn known_number(texts: &Texts, numbers: &BTreeMap<Vec<u8>, u32>, text: &[u8]) -> Option<u32>
    ensures { IfSome result (λ number. slice_get texts.now number ≡ Some text.now) }
{
    let number = *numbers.get(text)?;
    let place = number as usize;
    if place < texts.len() && texts.get(place) == text {
        Some(number)
    } else {
        None
    }
}

// Appends a text, and returns its number.
fn push_numbered(texts: &mut Texts, text: &[u8]) -> Result<u32, AllocError>
    ensures grown { IsGrown texts.old texts.new }
    ensures number { IfOk result (λ number. slice_get texts.new number ≡ Some text.now) }
{
    let Ok(number) = u32::try_from(texts.len()) else {
        return Err(AllocError);
    };
    texts.push(text)?;
    Ok(number)
}

impl DistinctTexts {
    /// No texts.
    pub(crate) fn new(alloc: Global) -> DistinctTexts
        ensures { result ≡ [] }
    {
        DistinctTexts {
            alloc,
            texts: Texts::new(alloc),
            numbers: BTreeMap::new(alloc),
        }
    }

    /// The number of a text, which is appended if it isn't kept yet.
    pub(crate) fn number(&mut self, text: &[u8]) -> Result<u32, AllocError>
        ensures grown { IsGrown self.old self.new }
        ensures number { IfOk result (λ number. slice_get self.new number ≡ Some text.now) }
    {
        if let Some(number) = known_number(&self.texts, &self.numbers, text) {
            return Ok(number);
        }
        let key = text.to_vec(self.alloc)?;
        let number = push_numbered(&mut self.texts, text)?;
        self.numbers.insert(key, number)?;
        Ok(number)
    }

    /// The text with a number.
    pub(crate) fn get(&self, number: u32) -> &[u8]
        requires { number < length self.now }
        ensures { slice_get self.now number ≡ Some result.now }
    {
        self.texts.get(number as usize)
    }
}
