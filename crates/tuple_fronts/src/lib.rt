//! The first elements of some tuples and lists of a heap of any size, which are read again, and the shapes of its cells.
//!
//! A skeleton (`heap_skeleton`) has where the line of each cell of a heap begins, and no text. [`TupleFronts::load_first`]
//! reads the heap once more, and keeps of the cells that are asked for the texts of their first elements, all in one pool:
//! for each element its text and 4 bytes, and 4 bytes for each cell. No other line is looked at, and of a cell no more
//! elements are read than are kept, however many it has.
//!
//! ```text
//! let skeleton = Skeleton::load(alloc, &mut dumps, &index, b"<0.1.0>")?;
//! let fronts = TupleFronts::load_first(alloc, &mut dumps, &index, b"<0.1.0>", &skeleton, &[2, 5], 8)?;
//! for place in 0..fronts.count(1) {
//!     let e = fronts.element(1, place); // of the cell with the number 5
//! }
//! ```
//!
//! The *shape* of a cell says of what kind it is, and of a tuple what its first elements are (`specs/Shapes.antt`):
//! [`cell_shapes_with`] has that of a message that refers to it, as `{'$gen_cast',{put,_,_}}`, and [`inner_shapes`] that
//! which it has inside a message, as `{put,_,_}`. Of an atom at most the first 255 bytes are shown. The cells are a
//! [`CellSet`]. Pids that are elements can be shown too, as `{ok,<0.81.0>}`.
//!
//! What else has to show shapes in the same pass over the heap (`part_keys`) collects the tuples that it needs by
//! [`add_lead`] and [`add_needed`], reads them with [`Tuples::load`], makes the shapes that they have inside messages with
//! [`inner_texts`], and writes by these what it shows: [`push_element`] and [`push_subject`].
#![tactic(auto)]

mod cell_set;
mod cell_texts;
mod first_elements;
mod front;
mod front_lines;
mod front_sink;
mod fronts;
mod kept;
mod needed;
mod runs;
mod shapes;
mod texts;
mod tuples;
mod words;

pub use cell_set::CellSet;
pub use cell_texts::{inner_texts, push_element, push_subject};
pub use first_elements::MOST_ELEMENTS;
pub use front::Front;
pub use fronts::TupleFronts;
pub use needed::{add_lead, add_needed};
pub use shapes::{cell_shapes_with, inner_shapes};
pub use texts::Texts;
pub use tuples::Tuples;
pub use words::{push_plain, push_plain_with};
