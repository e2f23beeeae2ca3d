//! The process table of a dump: a record for each process, with its pid,
//! the place of its section and the fields that reports and audits ask for.
//!
//! [`Procs::load`] finds the first section of each process and reads the bodies of
//! these sections one after another. A caller may take the two steps itself:
//! [`ProcSections::find`] needs only the index, and [`Procs::read`] reads the bodies.
//! [`load_rows`] keeps what other columns show of each process. [`binary_words`] is what a process counted of binaries.
//!
//! ```text
//! let procs = Procs::load(alloc, &mut dumps, &index, &limits)?;
//! for i in 0..procs.len() {
//!     let process = procs.at(i);
//! }
//! let place = procs.get(b"<0.1.0>");
//! ```
#![tactic(auto)]

mod columns;
mod fields;
mod first_by_pid;
mod hints;
mod numbers;
mod pids;
mod proc_sections;
mod procs;
mod signals;
mod stands;

pub use columns::load_rows;
pub use fields::FieldTable;
pub use numbers::{binary_bytes, binary_words, stated_number};
pub use proc_sections::ProcSections;
pub use procs::{Proc, Procs};
pub use section_rows::Kept;
pub use signals::signalled;
pub use stands::Stands;
