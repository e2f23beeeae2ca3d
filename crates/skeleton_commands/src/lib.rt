//! The commands that walk a heap of any size, of which no text is kept: the shapes of messages, the weights of parts of a
//! heap, where most of it hangs, and the ways to its cells.
//!
//! ```text
//! let dump = Unopened { alloc, file: "erl_crash.dump", limits: &limits };
//! let ended = run_weigh(&dump, b"<0.1.0>", 10, &mut dumps, &mut out);
//! ```
//!
//! Each command is a file: what it asks, its run, and what it writes. Its row, in
//! `specs/Rows`, says what it means.
#![tactic(auto)]

mod heavy;
mod heavy_report;
mod path;
mod path_report;
mod shape_report;
mod shapes;
mod weigh;
mod weight_report;

pub use heavy::run_heavy;
pub use path::run_path;
pub use path_report::put_path;
pub use shape_report::put_shapes;
pub use shapes::run_shapes;
pub use weigh::{run_weigh, run_weigh_cell};
pub use weight_report::put_weights;
