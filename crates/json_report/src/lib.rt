//! The findings of an audit as JSON.
//!
//! ```text
//! let found = audit(alloc, &index, &procs, &graph, 10000)?;
//! put_findings(alloc, &mut out, &index, &procs, &graph, &found)?; // `{"count":0,"findings":[],"state":"whole"}`
//! ```
//!
//! The tree is an object with the number of findings, an object for each finding,
//! and the state of the dump, as `specs/Trees.antt` says. A text of the dump need
//! not be UTF-8: in a string each of its bytes is the character with that number.
#![tactic(auto)]

mod building;
mod found;
mod laws;
mod members;
mod objects;
mod putting;
mod sending;

pub use building::tree;
pub use laws::text_reads_back;
pub use putting::{JsonFault, put_findings, put_json};
