//! What a term of a heap unfolds to: its first bad address, and its text, within a budget of nodes.
//!
//! A heap may be any graph, shared, cyclic or broken. A term unfolds to a finite tree, in which an address
//! that no cell has, a malformed cell and a cell below itself are bad nodes; the budget says how many nodes
//! of it are judged or written. A [`Walker`] takes its memory when it is made, and none for a walk.
//!
//! ```text
//! let mut walker = Walker::new(alloc, &heap, &previews)?;
//! match walker.judge(root, 10_000) {
//!     Verdict::Clean => walker.print(root, 10_000, false, &mut out)?,
//!     Verdict::Bad(address, why) => put_bad(&mut out, address, why)?,
//! }
//! ```
#![tactic(auto)]

mod children;
mod gaps;
mod judging;
mod kinds;
mod laws;
mod leaves;
mod node;
mod openings;
mod path;
mod printing;
mod turns;
mod verdict;
mod walker;

pub use gaps::{Addresses, Asked, PartWalker};
pub use kinds::{TermKind, are_keys, item_kind, term_kind};
pub use laws::{
    inner_node_is_its_children, part_is_enough, text_is_of_first_nodes, unfolding_is_finite,
};
pub use leaves::why_text;
pub use node::NodeKind;
pub use verdict::Verdict;
pub use walker::Walker;
