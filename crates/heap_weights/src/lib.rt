//! What each of a heap's parts alone holds.
//!
//! A *part* is a cell, its root, and reaches what that reaches: the least set that contains the root and, with
//! each of its cells, those to which that cell leads. A cell that one part reaches and no other is held by
//! that part alone, and one that two or more reach is shared (`specs/Parts.antt`).
//!
//! [`weigh`] keeps a label for each cell: nobody, a part, or several. One part after the other walks: it gives its
//! label to the cells that nobody held, turns those of other parts to several, and leads no further from
//! a cell that has its label or is several. So a cell is visited at most twice, however many parts there
//! are. Then one pass counts the cells and the words of each label, and their sums are what is reached.
//!
//! ```
//! let shares = weigh(alloc, &heap, &[3, 0])?;
//! let words = shares.alone[0].words;
//! ```
#![tactic(auto)]

mod counted;
mod holders;
mod labels;
mod lasts;
mod laws;
mod shares;
mod walking;
mod weights;

pub use holders::Holder;
pub use labels::Labels;
pub use lasts::last_leads;
pub use laws::{parts_hold, shares_add_up};
pub use shares::{Shares, Weight};
pub use walking::spread;
pub use weights::weigh;
