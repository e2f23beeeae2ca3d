//! The skeleton of a heap: what leads where in a heap of any size, without its texts.
//!
//! [`Skeleton::load`] reads the first `proc_heap` section of a pid and the first `literals` section once, in pieces of at
//! most 65,536 bytes, whatever their lengths. The cells are those of `heap_cells`, with the same numbers. Of each cell is
//! kept where its line begins in the file, its kind, its words, and the cells to which it leads: 33 bytes for a cell, and 4
//! for each of its elements. No text is kept. A skeleton is a [`CellGraph`](cell_graphs::CellGraph) and
//! [`Weighed`](cell_graphs::Weighed), as a heap in memory is, and says which kind each cell has.
//!
//! ```text
//! let skeleton = Skeleton::load(alloc, &mut dumps, &index, b"<0.1.0>")?;
//! if let Some(cell) = skeleton.find(0x7F1C40) {
//!     for place in 0..skeleton.places(cell) {
//!         let other = skeleton.lead(cell, place);
//!     }
//! }
//! ```
#![tactic(auto)]

mod far;
mod heap_sink;
mod loading;
mod resolving;
mod skeleton;

pub use cell_records::Kind;
pub use skeleton::Skeleton;
