//! What is kept of sections of a dump: for each its offset, and a cell for each requested column.
//! A column shows the tag, the id, or of the body the value of the first field with a key, or the first line that begins
//! with one of two texts.
//!
//! [`SectionRows::load`] reads the bodies of the sections one after
//! another, takes from each what the columns ask for, and frees it.
//!
//! ```text
//! let columns = [Column::Id, Column::Field(b"Memory")];
//! let rows = SectionRows::load(alloc, &mut dumps, &index, &places, &columns, &limits)?;
//! let memory = rows.cell(0, 1);
//! ```
#![tactic(auto)]

mod columns;
mod loaded_rows;
mod one_pass;
mod rows;
mod store;

pub use columns::{Column, Kept};
pub use rows::SectionRows;
