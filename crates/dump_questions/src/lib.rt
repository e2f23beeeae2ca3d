//! Questions to a dump: what one means, and its run from a device to a sink.
//!
//! A question is a value of a type that implements [`Report`]: its meaning, what it reads of an open
//! dump, and what it writes from that. [`run_report`] opens the dump, lets it read and lets it write.
//! Why it ends without its whole report is a [`Stop`], to which `?` converts the faults of the
//! layers below; [`end`] turns that into a status of [`status`] and a line.
//!
//! ```text
//! let dump = Unopened { alloc, file: "erl_crash.dump", limits: &limits };
//! let ended = run_report(&dump, &Field { key: b"State" }, &mut dumps, &mut out);
//! let status = end(ended, &mut err);
//! ```
#![tactic(auto)]

mod ending;
mod open;
mod report;
pub mod status;
mod stop;
mod subjects;

pub use ending::{end, put_usage};
pub use open::{Opened, Unopened, open_dump};
pub use report::{Report, run_report};
pub use stop::{Stop, or_stop};
pub use subjects::{Body, find_cell, find_process, load_behind, load_heap, read_found};
