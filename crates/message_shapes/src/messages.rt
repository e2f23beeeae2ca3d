// Messages with their shapes.
ghost use Rattle.std.specs.Prelude.{◌≡◌, ◌<◌, All, length, map, IfOk};
ghost use Rattle.text_groups.specs.Groups.{groups};
ghost use Rattle.message_shapes.specs.Messages.{item_of, message_at};

use crate::heard::{Heard, Source};
use crate::shape_numbers::number_messages;
use std::alloc::{AllocError, Global};
use std::marker::Model;
use text_groups::{TextGroup, group_numbers};
use tuple_fronts::{CellSet, Texts};

/// Messages with their shapes. Contracts see the list of them.
#[derive(Drop)]
pub(crate) struct Messages {
    pub heard: Heard,
    // The cells to which they refer, and of each the shape.
    pub cells: CellSet,
    pub shapes: Texts,
}

impl Model for Messages {
    ghost use Rattle.std.specs.Prelude.{◌≡◌, List, length};
    ghost use Rattle.message_shapes.specs.Messages.{Message};
    ghost use Rattle.message_shapes.specs.Inner.Shaped.{messages_with};

    ghost Value = { List Message };

    ghost view = { λ m. messages_with m.cells m.shapes m.heard };

    ghost invariant = { λ m. length m.shapes ≡ length m.cells };
}

impl Messages {
    /// How many messages there are.
    pub(crate) fn count(&self) -> usize
        ensures { result ≡ length self.now }
    {
        self.heard.len()
    }

    /// The offset of the message at a place.
    pub(crate) fn at(&self, i: usize) -> u64
        requires { i < length self.now }
        ensures { result ≡ (message_at self.now i).at }
    {
        self.heard.at(i)
    }

    /// The shape of the message at a place.
    pub(crate) fn shape(&self, i: usize) -> &[u8]
        requires { i < length self.now }
        ensures { result.now ≡ (message_at self.now i).shape }
    {
        match self.heard.source(i) {
            Source::Text(text) => text,
            Source::Cell(cell) => match self.cells.place(cell) {
                Some(place) => self.shapes.get(place),
                None => b"",
            },
        }
    }

    /// The groups of messages that have the same shape, in the order of their first ones. Each different shape is compared
    /// once for each cell that has it, and not for each message of that cell.
    pub(crate) fn groups(&self, alloc: Global) -> Result<Vec<TextGroup>, AllocError>
        ensures groups { IfOk result (λ found. found.items ≡ groups (map item_of self.now)) }
        ensures firsts { IfOk result (λ found. All (λ group. group.first < length self.now) found.items) }
    {
        let numbers = number_messages(alloc, &self.heard, &self.cells, &self.shapes)?;
        group_numbers(alloc, &numbers.numbers, numbers.different)
    }
}
