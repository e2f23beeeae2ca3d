//! The commands that go over bodies of any size in pieces and keep no heap: who holds binaries, where processes stand, who
//! waits for whom, and the redacted dump.
//!
//! ```text
//! let dump = Unopened { alloc, file: "erl_crash.dump", limits: &limits };
//! let ended = run_stacks(&dump, 10, &mut dumps, &mut out);
//! ```
//!
//! Each command is a file: what it asks, its run, and what it writes. Its row, in
//! `specs/Rows`, says what it means.
#![tactic(auto)]

mod binaries;
mod holders;
mod redact;
mod stack_report;
mod stacks;
mod wait_report;
mod waits;

pub use binaries::run_binaries;
pub use holders::run_holders;
pub use redact::run_redact;
pub use stack_report::put_stacks;
pub use stacks::run_stacks;
pub use waits::run_waits;
