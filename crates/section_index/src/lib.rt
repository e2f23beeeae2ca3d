//! The index of a dump: [`build`] opens a dump by its name, reads it once in pieces and
//! finds its sections, or says why the dump is refused.
//!
//! An [`Index`] holds no part of a body. What it says of a dump, and how it is asked, is
//! the crate dump_sections, all of which is also here.
//!
//! ```text
//! let index = build(alloc, &mut dumps, "erl_crash.dump", &limits)?;
//! for i in 0..index.len() {
//!     let section = index.section(i); // its offsets, its tag and its id
//! }
//! if let Some(i) = index.first_tag(b"memory") {
//!     let body = read_body(alloc, &mut dumps, &index, i, &limits)?;
//! }
//! ```
#![tactic(auto)]

mod beginning;
mod builder;
mod opening;
mod receiver;
mod scanning;

pub use builder::build;
pub use dump_sections::{
    BodyFault, Extent, Index, Section, State, Tags, Version, a_cut_keeps_sections, read_body,
    sections_tile_a_dump,
};
pub use opening::OpenFault;
