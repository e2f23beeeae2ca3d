//! Which cells of a heap lead to which, and what cells reach.
//!
//! A [`CellGraph`] says of each cell to which others it leads, so that a walk over cells needs to know nothing else of
//! them. A [`Heap`](heap_cells::Heap) is one: a cell leads to those to which the elements of its form refer, including the
//! keys element of a flat map, and a sub binary to the heap binary of which it is a part; a malformed cell leads nowhere
//! (`specs/Graphs.antt`). What some cells reach is a least set (`specs/Reached.antt`).
//! [`Weighed`] are cells whose words can be asked for, and of which some are a heap's own.
//!
//! The definitions of a walk that marks cells are in `specs/Frontiers.antt`, and what follows
//! from them, for the proofs of those who walk, is in `specs/Laws`.
#![tactic(auto)]

mod cell_graph;
mod heap_leads;
mod laws;
mod weighed;

pub use cell_graph::CellGraph;
pub use laws::{reached_is_least, rounds_find_the_reached};
pub use weighed::Weighed;
