//! The commands of edump: running them from a device to two sinks. Their words are
//! those of command_words, whose [`Cmd`], [`Query`] and [`read_words`] are re-exported here.
//!
//! ```
//! let mut dumps = FileDumps::new(&rt);
//! let mut out = StdSink::new(rt.alloc(), rt.stdout())?;
//! let mut err = StdSink::new(rt.alloc(), rt.stderr())?;
//! let status = run(rt.alloc(), &words, &Limits::usual(), &mut dumps, &mut out, &mut err);
//! ```
//!
//! What each command means, reads and writes stands in table_commands, heap_commands,
//! skeleton_commands and stream_commands; here stands which command each of them is.
#![tactic(auto)]

mod commands;
mod runner;

pub use command_words::{Cmd, Query, read_words};
pub use dump_questions::status;
pub use runner::run;
