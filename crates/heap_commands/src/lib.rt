//! The commands on the terms of a process and on a binary: roots, single terms, what the roots reach,
//! what is on the heap, and terms of a heap of any size.
//!
//! ```text
//! let dump = Unopened { alloc, file: "erl_crash.dump", limits: &limits };
//! let ended = run_term(&dump, b"<0.69.0>", 0x7F2EAC938DC8, 10_000, false, &mut dumps, &mut out);
//! ```
//!
//! Each command is a file: what it asks, its run, and what it writes. Its row, in
//! `specs/Rows`, says what it means.
#![tactic(auto)]

mod binary;
mod cells;
mod ext;
mod peek;
mod reach;
mod roots;
mod term;

pub use binary::run_binary;
pub use cells::run_cells;
pub use ext::run_ext;
pub use peek::{run_peek_roots, run_peek_term};
pub use reach::run_reach;
pub use roots::run_roots;
pub use term::run_term;
