// What is kept of messages as they are heard.
ghost use Rattle.std.specs.Prelude.{◌≡◌, ◌<◌, ◌++◌, [], ◌∷◌, length, OnOk};
ghost use Rattle.message_shapes.specs.Inner.Telling.{shown_source, told_at, OfCell, OfText};

use crate::distinct_texts::DistinctTexts;
use std::alloc::{AllocError, Global};
use std::marker::Model;

// What a message is: one that refers to a cell, or one whose shape is the text with a number.
#[derive(Clone, Copy)]
pub(crate) enum Subject {
    Cell(u32),
    Text(u32),
}

// A message: the offset of its line, and what it is.
#[derive(Clone, Copy)]
pub(crate) struct Found {
    pub at: u64,
    pub subject: Subject,
}

/// What a message is.
#[derive(Clone, Copy)]
pub(crate) enum Source<'a> {
    /// The message refers to this cell.
    Cell(u32),
    /// This is the shape of the message.
    Text(&'a [u8]),
}

/// Messages in the order in which they were heard. Contracts see the list of them.
#[derive(Drop)]
pub(crate) struct Heard {
    texts: DistinctTexts,
    found: Vec<Found>,
}

impl Model for Heard {
    ghost use Rattle.std.specs.Prelude.{List};
    ghost use Rattle.message_shapes.specs.Inner.Telling.{all_told, AreKnown, Told};

    ghost Value = { List Told };

    ghost view = { λ h. all_told h.texts h.found.items };

    ghost invariant = { λ h. AreKnown h.texts h.found.items };
}

impl Heard {
    /// No messages.
    pub(crate) fn new(alloc: Global) -> Heard
        ensures { result ≡ [] }
    {
        Heard {
            texts: DistinctTexts::new(alloc),
            found: Vec::new(alloc),
        }
    }

    /// How many messages there are.
    pub(crate) fn len(&self) -> usize
        ensures { result ≡ length self.now }
    {
        self.found.len()
    }

    /// Appends a message that refers to a cell.
    pub(crate) fn push_cell(&mut self, at: u64, cell: u32) -> Result<(), AllocError>
        ensures { OnOk result (self.new ≡ self.old ++ record { at = at; source = OfCell cell } ∷ []) }
    {
        self.found.push(Found {
            at,
            subject: Subject::Cell(cell),
        })?;
        Ok(())
    }

    /// Appends a message of which this is the shape.
    pub(crate) fn push_text(&mut self, at: u64, text: &[u8]) -> Result<(), AllocError>
        ensures { OnOk result (self.new ≡ self.old ++ record { at = at; source = OfText text.now } ∷ []) }
    {
        self.found.reserve(1)?;
        let number = self.texts.number(text)?;
        self.found.push_reserved(Found {
            at,
            subject: Subject::Text(number),
        });
        Ok(())
    }

    /// Gives back what the list has grown to hold beyond these messages.
    pub(crate) fn shrink(&mut self)
        ensures { self.new ≡ self.old }
    {
        self.found.shrink_to_fit();
    }

    /// The offset of the message at a place.
    pub(crate) fn at(&self, i: usize) -> u64
        requires { i < length self.now }
        ensures { result ≡ (told_at self.now i).at }
    {
        self.found[i].at
    }

    /// What the message at a place is.
    pub(crate) fn source(&self, i: usize) -> Source<'_>
        requires { i < length self.now }
        ensures { shown_source result ≡ (told_at self.now i).source }
    {
        match self.found[i].subject {
            Subject::Cell(cell) => Source::Cell(cell),
            Subject::Text(number) => Source::Text(self.texts.get(number)),
        }
    }
}
