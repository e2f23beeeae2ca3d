//! The texts of `triage`, `binaries` and `holders`, which show a whole dump at a glance.
//!
//! ```
//! let found = binary_use(rt.alloc(), &mut dumps, &index, &procs)?;
//! put_binaries(&mut out, &index, &procs, &found)?;
//! ```
//!
//! Each call writes one report to a sink, and takes no memory. It returns `Failed` only if
//! the sink's count of faults rose; a proper prefix of the text was written then.
#![tactic(auto)]

mod holder_report;
mod triage_report;
mod triage_rows;

pub use holder_report::{put_binaries, put_holders};
pub use triage_report::put_triage;
