//! The tables of a dump other than the process table: the
//! ETS tables, the ports, the other nodes, and the modules.
//!
//! [`Rows::load`] finds the sections of a table and reads their bodies one after another.
//! [`TableSections::find`] only finds them, for a caller that has more to judge before [`Rows::read`].
//! [`SectionFields::load`] reads those with any tag, and keeps one field of each.
//!
//! ```text
//! let rows = Rows::load(alloc, &mut dumps, &index, TableKind::Ets, &limits)?;
//! for i in 0..rows.len() {
//!     let id = rows.cell(i, 0);
//! }
//! ```
#![tactic(auto)]

mod fields;
mod kinds;
mod places;
mod rows;

pub use fields::SectionFields;
pub use kinds::TableKind;
pub use places::TableSections;
pub use rows::Rows;
