//! Down to where the memory of a process hangs, level after level, for a heap of any size.
//!
//! On each *level* parts are weighed (`part_weights`): on level 0 the three kinds of roots, on level 1 the cells to which the
//! roots of one kind refer, and on each further level those to which the elements of one cell refer. A level is followed by
//! what its heaviest part leads to, as long as that alone holds more than half of the words that all roots reach, down to
//! level 19 (`specs/Levels.antt`). Of the last level all parts are grouped by their shapes.
//!
//! Of the heap its skeleton is kept (`heap_skeleton`), on which all levels are weighed. It is read twice more for the keys of
//! all levels and the shapes of the parts of the last one together (`part_keys`).
//!
//! ```text
//! let levels = Levels::load(alloc, &mut dumps, &index, b"<0.1.0>", 3)?;
//! for i in 0..levels.below() {
//!     let level = levels.level(i); // level i + 1, with at most 3 rows
//! }
//! if levels.shapes() > 0 {
//!     let shape = levels.shape(0); // shape.parts of the parts of the last level have it
//! }
//! ```
#![tactic(auto)]

mod all_levels;
mod descending;
mod found_levels;
mod kind_graph;
mod kinds;
mod labelling;
mod level_parts;
mod level_rows;
mod levels;
mod shape_rows;

pub use all_levels::Levels;
pub use kinds::{KindLevel, KindRow};
pub use levels::{Level, Subject};
pub use shape_rows::ShapeRow;
