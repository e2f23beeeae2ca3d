//! A trial of the whole reader: a made dump is held in memory, and the reports on it are counted.
//!
//! [`trial`] makes a dump from a seed and a count of processes, opens it under
//! the usual limits, reads its processes with their heaps, stacks, dictionaries
//! and mailboxes, judges each root and audits the links and the message queues.
//!
//! ```text
//! let summary = trial(alloc, 7, 200)?;
//! put_trial(&mut out, &summary)?;
//! ```
#![tactic(auto)]

mod bad_roots;
mod finder;
mod good_dump;
mod only_memory;
mod summary;
mod tally;
mod trials;

pub use summary::{Summary, put_trial};
pub use tally::Tally;
pub use trials::trial;
