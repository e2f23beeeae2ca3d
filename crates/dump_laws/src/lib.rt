//! What stays the same in a redacted dump, what `peek` reports beside the commands that load a heap, and what is read back of
//! an audit. No program needs this crate: its functions do no work.
#![tactic(auto)]

mod laws;

pub use laws::{audits_read_back, findings_stay, heaps_stay, peek_reports_the_same, trees_stay};
