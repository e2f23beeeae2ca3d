//! The way from the roots of a process to a cell of its heap, for a heap of any size.
//!
//! The way begins with the first root that refers to its first cell, and its cells are those of `cell_ways`: as few as lead
//! from a root to the cell. Its *steps* are its cells, and of lists that follow on each other by their tails one for
//! all (`specs/Steps.antt`). [`steps_are_the_way`] says that nothing of the way is lost in them.
//!
//! [`HeapWay::load`] reads the heap once for its skeleton, then the bodies with the roots, and then the heap once
//! more for the shapes of the tuples on the way, each in pieces.
//!
//! ```text
//! let found = HeapWay::load(alloc, &mut dumps, &index, b"<0.1.0>", 0x7F1C40)?;
//! if let Some(way) = found {
//!     for i in 0..way.len() {
//!         let line = way.line(i);
//!     }
//! }
//! ```
#![tactic(auto)]

mod finding;
mod fronts;
mod laws;
mod lines;
mod placing;
mod roots;
mod steps;
mod ways;

pub use laws::steps_are_the_way;
pub use lines::WayLine;
pub use ways::HeapWay;
