//! What the parts of a process's heap alone hold, for a heap of any size.
//!
//! The *elements* that are weighed are the terms among the roots of a process ([`Weights::of_roots`]), or
//! the elements of one cell ([`Weights::of_cell`]). The *parts* are the different cells to which they lead. A part alone
//! holds the own cells of the heap that it reaches and no other part does (`heap_weights`).
//!
//! The heap is read once, in pieces, and nothing of it is kept but its skeleton (`heap_skeleton`); so are the bodies with
//! the roots, of which the parts are kept.
//!
//! ```text
//! let weights = Weights::of_roots(alloc, &mut dumps, &index, b"<0.1.0>")?;
//! if weights.rows() > 0 {
//!     let largest = weights.row(0);
//! }
//! ```
#![tactic(auto)]

mod held_parts;
mod part_rows;
mod weights;

pub use held_parts::{HeldPart, first_held};
pub use part_rows::PartRow;
pub use weights::{Weights, held_keys, part_row};
