//! The links and monitors of a dump's processes: what an entry of a link list says, the entries of a
//! list in order, and the lists of all processes with their look-up.
//!
//! ```text
//! for entry in entries(b"[<0.7.0>, #Port<0.3>]")? {
//!     if let EntryKind::Link(pid) = entry.kind {
//!         linked.push(pid)?;
//!     }
//! }
//!
//! let graph = Graph::build(alloc, &procs)?;
//! for n in 0..graph.count(p) {
//!     let entry = graph.entry(p, n);
//! }
//! let linked = graph.has_link(p, b"<0.7.0>");
//! ```
//!
//! What stands between the brackets is cut at each comma followed by a space. An entry that has
//! the form of no link and no monitor is kept too, as [`EntryKind::Other`]. [`EntryLists`] keeps
//! the entries of all lists in one pool, and reads each entry once.
#![tactic(auto)]

mod entry_lists;
mod graph;
mod kind_set;
mod kinds;
mod laws;
mod list_parts;
mod listed;
mod lists;
pub mod reading;
mod requests;
pub mod shapes;
mod texts;

pub use entry_lists::EntryLists;
pub use graph::Graph;
pub use laws::{a_list_is_cut_at_gaps, a_partner_is_named, an_entry_has_one_kind};
pub use requests::{Request, request_in};
pub use shapes::{Entry, EntryKind};
pub use texts::is_local;
