//! Processes that wait for one another: who comes to what, and who stands in a circle.
//!
//! Each process waits for one target at most, which is a text: the pid of another process, or of
//! one that isn't there, or a name. What is given states the processes by [`Waiting`]; no dump is read here.
//! A process *comes to* a target if it waits for it, or if the process whose pid it waits for comes to it.
//! [`WaitGraph::of`] finds how many come to each target, and the circles of processes that wait for one another.
//!
//! ```text
//! let graph = WaitGraph::of(alloc, &waits)?;
//! for blocker in graph.blockers() {
//!     let target = waits.target(blocker.first as usize); // blocker.all processes come to it
//! }
//! for one in graph.on_circles() {
//!     let pid = procs.pid(one.process as usize); // it stands on the circle with the number one.circle
//! }
//! ```
//!
//! The targets are numbered first, so that the rest is about numbers that lead to others, each to one at most. A number to
//! which none leads is peeled off, and what comes to it with it; then it is known how many come to each but those on
//! circles, and these are all that is left. So the time is linear, and nothing is entered into by recursion: a chain
//! of any length costs what as many processes cost that wait for one (`specs/Inner/Peeling.antt`).
#![tactic(auto)]

mod blocker;
mod blockers;
mod circles;
mod graph;
mod laws;
mod numbering;
mod on_circle;
mod tokens;
mod waiting;

pub use blocker::Blocker;
pub use graph::WaitGraph;
pub use laws::{all_on_a_circle, circles_are_all, comes_is_least};
pub use on_circle::OnCircle;
pub use waiting::Waiting;
