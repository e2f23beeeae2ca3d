//! What is kept of the cells of a heap while it is loaded, and which of them stay.
//!
//! [`gather_run`] reads the heap lines of a run of lines, and [`gather_cell`] that of one line. Of each is held where it is, its kind,
//! and of its elements what [`Elements`] says: where each leads, for a heap of which no text is kept, or a slot for each, for one whose
//! text is in memory. [`settle`] keeps of the cells with one address the first, and sorts the addresses that are left. No reference
//! is resolved here.
//!
//! What follows from the definitions, for the proofs of those who load heaps, is in `specs/Laws`.
//!
//! ```text
//! let mut held = Held::new(alloc, Elements::slots(alloc));
//! gather_run(&mut held, enc, 0, body)?;
//! let own = held.parts.len() as u32;
//! let Ordered { settled, ranks } = settle(alloc, held, own)?;
//! ```
#![tactic(auto)]

mod binaries;
mod elements;
mod forms;
mod gathering;
mod held;
mod keeping;
mod kinds;
mod leads;
mod settling;
mod words;

pub use binaries::is_binary_kind;
pub use elements::Elements;
pub use gathering::{gather_cell, gather_run};
pub use held::{CellPart, Held, start_at};
pub use kinds::kind_of;
pub use leads::{BINARY, Lead, Leads, NOWHERE};
pub use settling::{Ordered, Settled, settle};
pub use words::{kind_words, payload_words};
