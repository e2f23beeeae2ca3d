//! Which processes hold which of the binaries outside the heaps.
//!
//! A process holds such a binary if a cell of its heap refers to it or to a part of it. [`binary_use`]
//! finds for each process how many of these binaries it holds and how large they are together, and
//! for each binary how many processes hold it; [`holders`] finds for one binary which processes
//! hold it. The heaps are read one at a time and in pieces, whatever their lengths.
//!
//! ```text
//! let procs = Procs::load(alloc, &mut dumps, &index, &limits)?;
//! let used = binary_use(alloc, &mut dumps, &index, &procs)?;
//! for holding in &used.held {
//!     let pid = procs.pid(holding.process); // it holds holding.bytes
//! }
//! ```
#![tactic(auto)]

mod counts;
mod heap_holders;
mod heap_places;
mod heap_sink;
mod hints;
mod lines;
mod pushing;
mod rows;
mod scanning;
mod stored;
mod targets;
mod texts;
mod using;

pub use rows::{BinaryRow, Holding, WholeLines};
pub use using::{BinaryUse, binary_use, holders};
