//! The order of a heap's cells by address, and what each reference leads to.
//!
//! Each element of a cell's form is a [`Slot`]. [`ranks_of`] sorts the addresses of cells, with their numbers, and [`firsts_of`] says
//! which of the cells are the first with their address. [`resolved`] turns each reference into the cell that has the address,
//! if there is one; [`number_of`] looks up a single address. What a cell's text says plays no part here. [`Ranks`] keeps a number
//! beside an address in 64 bits as long as the addresses lie close together, and serves all that is [`Located`].
//!
//! ```text
//! let ranks = ranks_of(alloc, &cells)?;
//! let slots = resolved(alloc, slots, &ranks, &cells)?;
//! let first = number_of(&ranks.numbers(alloc)?, &cells, address);
//! ```
#![tactic(auto)]

mod cells;
mod firsts;
mod located;
mod near;
mod order;
mod ranks;
mod resolving;
mod search;

pub use cells::{CellIx, Kind, Slot, Span, Why};
pub use firsts::{are_apart, firsts_of};
pub use located::Located;
pub use near::Near;
pub use order::{number_of, ranks_of};
pub use ranks::Ranks;
pub use resolving::resolved;
pub use search::Search;
