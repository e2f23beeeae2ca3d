//! The shapes of the messages in a mailbox, whatever its size and that of the heap.
//!
//! The *shape* of a message says what kind of term it is, and of a tuple the kinds of its first 8 elements, as in
//! `{'$gen_cast',{put,_,_}}` or `{event,integer(),list(),map()}` (`specs/Shapes.antt`). [`MailShapes::load`] hears the
//! messages one by one, makes the shape of each cell to which one refers once, and groups the messages by the numbers of
//! their shapes, the largest group first. Of an atom at most the first 255 bytes are shown, and so of a pid, if pids are shown.
//!
//! Of the heap its skeleton is kept (`heap_skeleton`), and of the tuples that are looked into the first elements
//! (`tuple_fronts`), for which the heap is read once more.
//!
//! ```text
//! let shapes = MailShapes::load(alloc, &mut dumps, &index, b"<0.1.0>", false)?;
//! for group in shapes.groups() {
//!     let shape = shapes.shape(group.first); // group.count messages have this shape
//!     let at = shapes.at(group.first); // where the first of them stands
//! }
//! ```
#![tactic(auto)]

mod distinct_texts;
mod heard;
mod mail_cells;
mod mail_sink;
mod messages;
mod shape_numbers;
mod shapes;

pub use shapes::MailShapes;
