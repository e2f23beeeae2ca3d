//! What stands out in a dump: how many processes are in which state, and how many stand at the same place; the processes
//! with the longest message queues and with the most memory, the largest ETS tables, which ports there are most of, and how many
//! findings of each kind an audit has.
//!
//! ```text
//! let found = ProcSections::find(alloc, &index)?;
//! let (procs, stands) = Procs::read_standing(alloc, &mut dumps, &index, found, &limits)?;
//! let tables = Rows::load(alloc, &mut dumps, &index, TableKind::Ets, &limits)?;
//! let ports = Rows::load(alloc, &mut dumps, &index, TableKind::PortUses, &limits)?;
//! let triage = Triage::of(alloc, &index, &procs, &stands, &tables, &ports, 10)?;
//! for row in triage.queues() {
//!     let pid = procs.pid(row.place); // row.number messages wait
//! }
//! ```
#![tactic(auto)]

mod finding_counts;
mod groups;
mod numbers;
mod ranked;
mod shown;
mod states;
mod triage;

pub use finding_counts::FindingCounts;
pub use ranked::Ranked;
pub use shown::shown_text;
pub use triage::Triage;
