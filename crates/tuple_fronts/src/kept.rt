// What is kept of cells: the texts of their first elements.
ghost use Rattle.std.specs.Prelude.{◌≡◌, ◌<◌, [], length, slice_index, slice_index_or, IsSome, OnOk};
ghost use Rattle.term_forms.specs.Reading.{whole_of};
ghost use Rattle.tuple_fronts.specs.Inner.Kept.{element_texts, start_at, IsEnded, IsKept, IsPushed, IsSound, IsSpanOf};

use dump_io::items_between;
use std::alloc::{AllocError, Global};

/// The texts of elements, those of each front one behind the other.
#[derive(Drop)]
pub(crate) struct Kept {
    /// All texts.
    pub texts: Vec<u8>,
    /// For each element the number of bytes up to the end of its text.
    pub ends: Vec<u32>,
    /// For each front the number of elements up to its last one.
    pub lasts: Vec<u32>,
    /// The most elements that a front has.
    pub most: usize,
}

// Where the part with a number begins and ends, of parts that end at these places.
fn span_of(ends: &[u32], i: usize) -> (usize, usize)
    requires { i < length ends.now }
    ensures from { result.0 ≡ start_at ends.now i }
    ensures upto { result.1 ≡ slice_index ends.now i }
{
    let from = if i == 0 { 0 } else { ends[i - 1] as usize };
    (from, ends[i] as usize)
}

impl Kept {
    // No fronts, each of which is to have at most `most` elements.
    pub(crate) fn new(alloc: Global, most: usize) -> Kept
        ensures kept { IsKept [] result }
        ensures most { result.most ≡ most }
    {
        Kept {
            texts: Vec::new(alloc),
            ends: Vec::new(alloc),
            lasts: Vec::new(alloc),
            most,
        }
    }

    // Appends the text of an element.
    pub(crate) fn push(&mut self, text: &[u8]) -> Result<(), AllocError>
        ensures { OnOk result (IsPushed self.old self.new text.now) }
    {
        self.texts.extend_from_slice(text)?;
        let Ok(end) = u32::try_from(self.texts.len()) else {
            return Err(AllocError);
        };
        self.ends.push(end)?;
        Ok(())
    }

    // Ends a front, whose elements were appended.
    pub(crate) fn end_front(&mut self) -> Result<(), AllocError>
        ensures { OnOk result (IsEnded self.old self.new) }
    {
        let Ok(last) = u32::try_from(self.ends.len()) else {
            return Err(AllocError);
        };
        self.lasts.push(last)?;
        Ok(())
    }

    // Gives back what the vectors have grown to hold beyond what is kept.
    pub(crate) fn shrink(&mut self)
        ensures texts { self.new.texts.items ≡ self.old.texts.items }
        ensures ends { self.new.ends.items ≡ self.old.ends.items }
        ensures lasts { self.new.lasts.items ≡ self.old.lasts.items }
        ensures most { self.new.most ≡ self.old.most }
    {
        self.texts.shrink_to_fit();
        self.ends.shrink_to_fit();
        self.lasts.shrink_to_fit();
    }

    // Where the elements of a front begin and end among those of all fronts.
    pub(crate) fn span(&self, i: usize) -> (usize, usize)
        requires sound { IsSound self.now }
        requires front { i < length self.now.lasts.items }
        ensures { IsSpanOf self.now i result }
    {
        span_of(&self.lasts, i)
    }

    // The text of an element, of those of all fronts.
    pub(crate) fn text(&self, n: usize) -> &[u8]
        requires sound { IsSound self.now }
        requires element { n < length self.now.ends.items }
        ensures text { result.now ≡ slice_index_or (element_texts self.now) n [] }
        ensures spelled { IsSome (whole_of result.now) }
    {
        let (from, upto) = span_of(&self.ends, n);
        items_between(&self.texts, from, upto)
    }
}
