//! How deep cells lie below those with which a walk begins, and by which ways it comes to them.
//!
//! The *depth* of a cell is the least number of steps, each from a cell to one to which it leads, in which some
//! of these cells, the roots, lead to it. The *way* to a cell of depth 0 is that cell; to a deeper one it comes from the
//! cell with the least number among those of one depth less that lead to it (`specs/Depths.antt`).
//! [`depth_is_least`] and [`a_way_leads`] say so of cells and lists of cells (`specs/Laws.antt`).
//!
//! [`Ways::of`] first goes over all cells in the order of their numbers, upwards and downwards in turn, and notes in how many
//! steps each is known to be reached: one more than a cell that leads to it. Where this changes nothing all depths are found,
//! after two or three turns if nearly all cells lead to later ones, or to earlier ones. If it isn't soon, the depths are found one
//! after the other from the roots on. Then it goes once more over all cells, and notes for each the first from which its
//! way can come. So its time is linear in the places of the cells.
//!
//! ```
//! let ways = Ways::of(alloc, &heap, &[3, 0])?;
//! if ways.depth(5).is_some() {
//!     let way = ways.way(alloc, 5)?; // 3 or 0, cells of depths 1, 2 and so on, and 5
//! }
//! ```
#![tactic(auto)]

mod befores;
mod depths;
mod laws;
mod numbers;
mod search;
mod sweeps;
mod ways;

pub use laws::{a_way_leads, depth_is_least};
pub use ways::Ways;
