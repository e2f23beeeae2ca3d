//! For whom processes wait.
//!
//! A process that calls another monitors it and waits, and while it waits it holds the reference of the monitor in the
//! frame in which it stands. Releases dump such a reference as an external term where it is longer than a word of
//! the machine. [`Waits::find`] reads the stacks and heaps of the processes that monitor something, one after another
//! and in pieces, and says for each process the target of the first of its monitors whose reference it holds.
//!
//! ```text
//! let graph = Graph::build(alloc, &procs)?;
//! let waits = Waits::find(alloc, &mut dumps, &index, &procs, &graph)?;
//! let target = waits.target(process); // a pid, or a registered name with its node in braces
//! let found = WaitGraph::of(alloc, &Waiters::of(&procs, &waits))?;
//! ```
#![tactic(auto)]

mod asked;
mod externals;
mod heap_sink;
mod held;
mod laws;
mod memories;
mod slot_sink;
mod tails;
mod targets;
mod waits;

pub use laws::a_reference_has_its_words;
pub use waits::{Waiters, Waits};
