// The numbers of the shapes of messages.
ghost use Rattle.std.specs.Prelude.{◌≡◌, ◌<◌, length, Some, IfOk};
ghost use Rattle.text_groups.specs.Numbers.{number_in, HaveNumbers, IsGrown};
ghost use Rattle.message_shapes.specs.Messages.{message_at};
ghost use Rattle.message_shapes.specs.Inner.Shaped.{messages_with, AreNumbered};

use crate::heard::{Heard, Source};
use std::alloc::{AllocError, Global};
use text_groups::TextNumbers;
use tuple_fronts::{CellSet, Texts};

/// The number of the shape of each message, and how many different shapes there are.
#[derive(Drop)]
pub(crate) struct ShapeNumbers {
    pub numbers: Vec<u32>,
    pub different: usize,
}

// The numbers of texts.
fn number_texts<'a>(
    alloc: Global,
    known: &mut TextNumbers<'a>,
    texts: &'a Texts,
) -> Result<Vec<u32>, AllocError>
    ensures { IfOk result (λ numbers. HaveNumbers known.new texts.now numbers.items) }
{
    let mut numbers = Vec::new(alloc);
    for i in 0..texts.len() {
        let number = known.number(texts.get(i))?;
        numbers.push(number)?;
    }
    Ok(numbers)
}

// The number of the shape of a message, given those of the shapes of cells.
fn number_message<'a>(
    known: &mut TextNumbers<'a>,
    heard: &'a Heard,
    cells: &CellSet,
    shapes: &Texts,
    of_cells: &[u32],
    i: usize,
) -> Result<u32, AllocError>
    requires place { i < length heard.now }
    requires shapes { length shapes.now ≡ length cells.now }
    requires cells { HaveNumbers known.old shapes.now of_cells.now }
    ensures grown { IsGrown known.old known.new }
    ensures number { IfOk result (λ number.
        number_in known.new (message_at (messages_with cells.now shapes.now heard.now) i).shape ≡ Some number) }
{
    match heard.source(i) {
        Source::Text(text) => known.number(text),
        Source::Cell(cell) => match cells.place(cell) {
            Some(place) => Ok(of_cells[place]),
            None => known.number(b""),
        },
    }
}

/// The numbers of the shapes of messages, given the cells to which they refer, and the shapes of these.
pub(crate) fn number_messages(
    alloc: Global,
    heard: &Heard,
    cells: &CellSet,
    shapes: &Texts,
) -> Result<ShapeNumbers, AllocError>
    requires { length shapes.now ≡ length cells.now }
    ensures { IfOk result (λ found.
        AreNumbered (messages_with cells.now shapes.now heard.now) found.numbers.items found.different) }
{
    let mut known = TextNumbers::new(alloc);
    let of_cells = number_texts(alloc, &mut known, shapes)?;
    let mut numbers = Vec::with_capacity(alloc, heard.len())?;
    for i in 0..heard.len() {
        let number = number_message(&mut known, heard, cells, shapes, &of_cells, i)?;
        numbers.push(number)?;
    }
    Ok(ShapeNumbers {
        numbers,
        different: known.len(),
    })
}
