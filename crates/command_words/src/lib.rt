//! The words of the command line, and the commands that they are.
//!
//! ```
//! if let Some(Cmd::On { file, query: Query::Proc { pid } }) = read_words(&words) {
//!     // The words are `proc`, the name of a file and a pid, byte for byte as it stands in the dump.
//! }
//! ```
//!
//! `specs/Command.antt` says which words are which command.
#![tactic(auto)]

mod budgets;
mod made_words;
mod numbers;
mod words;

pub use words::{Cmd, Query, read_words};
