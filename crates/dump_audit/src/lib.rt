//! The audit of a dump: one-sided links and monitors,
//! mailboxes that have grown too long, and what can't be read.
//!
//! ```text
//! let bodies = AuditBodies::load(alloc, &mut dumps, &index, true, &limits)?;
//! let graph = Graph::build(alloc, &bodies.procs)?;
//! let findings = audit(alloc, &index, &bodies.procs, &graph, 1000)?;
//! ```
//!
//! [`AuditBodies`] are the processes of a dump and, for a full audit, how many messages their mailboxes have.
//! All bodies are found on the index and judged before one is read; of a mailbox only the number of its
//! messages is kept. A finding names processes by their places in the process table, and an entry by its number
//! in its process's list; [`view_of`] has the word, the pids, the reference and the numbers to write. [`part`] sets those
//! apart that are in flight: a signal explains them that was sent and isn't handled yet.
#![tactic(auto)]

mod audited;
mod auditing;
mod bodies;
mod finding;
mod flight;
mod linking;
mod mailboxes;
mod messages;
mod queues;
mod views;

pub use auditing::{audit, audit_full, audit_with, is_cut};
pub use bodies::AuditBodies;
pub use finding::Finding;
pub use flight::{Parted, part};
pub use views::{FindingView, Named, view_of};
