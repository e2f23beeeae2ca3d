//! A writer of crash dumps, line by line, and a generator of whole dumps.
//!
//! [`put_header`], [`put_line`] and [`put_heap`] append a line to a vector. [`make`] makes the
//! dump of a node with a given number of processes, with which a reader of dumps can be tried.
//!
//! ```text
//! put_header(&mut dump, b"erl_crash_dump", Some(b"0.5"))?;
//! put_line(&mut dump, b"Slogan: no more room")?;
//! put_header(&mut dump, b"end", None)?;
//! let made = make(alloc, 7, 200)?;
//! ```
#![tactic(auto)]

mod appending;
mod laws;
mod made;
mod writing;

pub use laws::made_dump_is_accepted;
pub use made::make;
pub use writing::{put_header, put_heap, put_line};
