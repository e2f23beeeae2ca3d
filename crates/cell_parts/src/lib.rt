//! What is weighed, the elements of a cell or of the roots of a process, and the parts that these elements make.
//!
//! The *elements* of a list are the heads along its tails and the last tail, those of a hash map what stands below its
//! nodes, and those of any other cell what stands at its places (`specs/Elements.antt`). Each leads to a
//! cell, or to none. The *parts* are the different cells to which elements lead, in the order of the
//! first that leads to each (`specs/Parts.antt`).
//!
//! [`Parts`] keeps for each cell the number of its part, so that nothing is searched. [`add_elements`] adds the elements
//! of one cell, and [`Parts::add`] any other. [`read_parts`] reads the bodies with the roots of a process in pieces,
//! whatever their lengths, and keeps nothing of the roots but their parts: for each its cell, how many roots refer to it,
//! and offset and label of the first. [`read_kind_parts`] does so for the roots of one kind.
//!
//! ```text
//! let skeleton = Skeleton::load(alloc, &mut dumps, &index, b"<0.1.0>")?;
//! let parts = read_parts(alloc, &mut dumps, &index, b"<0.1.0>", &skeleton)?;
//! let shares = weigh(alloc, &skeleton, parts.cells())?;
//! ```
#![tactic(auto)]

mod elements;
mod laws;
mod parts;
mod roots;

pub use elements::add_elements;
pub use laws::{none_is_cut_off, what_is_led_to_has_a_part};
pub use parts::Parts;
pub use roots::{read_kind_parts, read_parts};
