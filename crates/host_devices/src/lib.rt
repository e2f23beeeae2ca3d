//! The files and the streams of the machine, as devices of dumps and sinks.
//!
//! ```
//! let mut dumps = FileDumps::new(&rt);
//! let mut out = StdSink::new(rt.alloc(), rt.stdout())?;
//! write_all(&mut out, b"a report\n")?;
//! out.flush()?;
//! ```
//!
//! No contract can say what a file or a stream of the machine holds: a [`FileDumps`]
//! tells no bytes, and a [`StdSink`] tells none of its own. Their counts are exact.
#![tactic(auto)]

mod file_dumps;
mod std_sink;

pub use file_dumps::{FileDumps, read_retrying};
pub use std_sink::StdSink;
