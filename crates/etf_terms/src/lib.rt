//! Terms in the External Term Format: read, judged and written as text.
//!
//! ```text
//! let mut ext = Ext::read(alloc, b"\x83h\x02a\x01w\x02ok")?;
//! ext.put(&mut out)?; // `{1,ok}`
//! ```
//!
//! A term is a *head* followed by as many terms as the head says. The table of
//! tags is in `specs/Table.antt`, and the text of each head in `specs/Text.antt`.
#![tactic(auto)]

mod ext;
mod heads;
mod laws;
mod nesting;
mod printing;
mod references;
mod stack;
mod verdicts;

pub use ext::{Ext, ExtFault};
pub use laws::{bad_place_is_longest, no_proper_prefix, text_is_read, unique_reading};
pub use references::{reference_words, words_are_read};
pub use verdicts::judge;
