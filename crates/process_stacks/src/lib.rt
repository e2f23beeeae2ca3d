//! Which processes stand at the same place.
//!
//! The place of a process is its program counter, its current call and the frames of its stack. [`StackProcs`] loads
//! what a dump says of its processes but for their stacks; [`Stacks::gather`] reads these, one at a time and in
//! pieces, whatever their lengths, and groups the processes by their places.
//!
//! ```text
//! let procs = StackProcs::load(alloc, &mut dumps, &index, &limits)?;
//! let stacks = Stacks::gather(alloc, &mut dumps, &index, &procs)?;
//! for group in stacks.groups() {
//!     let pid = procs.pid(group.first); // group.count processes stand where it does
//!     let lines = stacks.place(group.first); // such as `frame\tReturn addr 0x5 (m:f/1 + 8)`
//! }
//! ```
#![tactic(auto)]

mod frame_sink;
mod frames;
mod place_lines;
mod procs;
mod read_stands;
mod stacks;
mod stands;

pub use place_lines::lines_tell_places;
pub use procs::StackProcs;
pub use stacks::Stacks;
