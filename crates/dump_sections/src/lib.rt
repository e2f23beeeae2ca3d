//! The sections of a dump, by an index of them: the offsets of each one's header and body, and
//! the texts of the headers in one pool.
//!
//! An [`Index`] finds a section by its tag and id; [`read_body`] reads the body
//! of one, and [`Tags`] counts the sections by their tags. The crate section_index
//! builds an index from the bytes of a dump.
//!
//! ```text
//! let section = index.section(i); // its offsets, its tag and its id
//! if let Some(i) = index.first_tag(b"memory") {
//!     let body = read_body(alloc, &mut dumps, &index, i, &limits)?;
//! }
//! ```
//!
//! [`Index::first`] goes through all headers. For a caller that asks for many, [`FirstSections`]
//! goes through them once, and then finds, for any id, the first section of a tag that has it.
//! [`FirstPlaces`] finds the first place of a key of any kind, such as the
//! number of a binary, among pairs of keys and places that the caller gives.
//!
//! ```
//! let mailboxes = FirstSections::find(alloc, &index, b"proc_messages")?;
//! let place = mailboxes.get(b"<0.1.0>");
//!
//! let binaries = FirstPlaces::of(pairs)?; // of a number and the place of a section each
//! let place = binaries.get(0x7f00_1234);
//! ```
#![tactic(auto)]

mod bodies;
mod firsts;
mod header_text;
mod headers;
mod index;
mod laws;
mod lookups;
mod marks;
mod places;
mod tags;
mod version;

pub use bodies::{BodyFault, LargeSection, large, large_body, read_body};
pub use firsts::FirstSections;
pub use header_text::tag_and_id;
pub use headers::Headers;
pub use index::{Extent, Index, Section, State};
pub use laws::{a_cut_keeps_sections, sections_tile_a_dump};
pub use places::FirstPlaces;
pub use tags::Tags;
pub use version::{Version, version_of};
