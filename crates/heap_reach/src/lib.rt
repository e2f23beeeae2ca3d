//! Which cells of a heap its roots reach.
//!
//! A root reaches the cell to which it refers, and a reached cell reaches those to which the elements of
//! its form refer, including the keys element of a flat map; a sub binary reaches the heap binary of which
//! it is a part. A malformed cell can be reached, and leads nowhere. The cells that some roots reach are a
//! least set (`specs/Reached.antt`). [`Reach::root`] adds to it what one more root reaches: it keeps a
//! label for each cell, and a list of those still to be visited, for which [`Reach::new`] takes the memory.
//!
//! ```
//! let mut reach = Reach::new(alloc, &heap)?;
//! for root in dict(body) {
//!     if let What::Term(e) = root.what {
//!         reach.root(e);
//!     }
//! }
//! let unreached = reach.unreached(alloc)?;
//! ```
#![tactic(auto)]

mod reach;

pub use reach::Reach;
