//! The commands that read whole bodies and no heap: the index, the fields of sections, tables,
//! links, audits and what to read first; and those that make a dump, which open no file.
//!
//! ```text
//! let dump = Unopened { alloc, file: "erl_crash.dump", limits: &limits };
//! let ended = run_field(&dump, b"State", &mut dumps, &mut out);
//! ```
//!
//! Each command is a file: what it asks, its run, and what it writes. Its row, in
//! `specs/Rows`, says what it means.
#![tactic(auto)]

mod audit;
mod audit_report;
mod field;
mod fields;
mod index;
mod info;
mod links;
mod make;
mod memory;
mod proc;
mod procs;
mod tables;
mod triage;
mod trial;

pub use audit::{run_audit, run_audit_json, run_audit_settled};
pub use audit_report::put_findings;
pub use field::run_field;
pub use fields::run_fields;
pub use index::run_index;
pub use info::run_info;
pub use links::run_links;
pub use make::run_make;
pub use memory::run_memory;
pub use proc::run_proc;
pub use procs::run_procs;
pub use tables::run_table;
pub use triage::run_triage;
pub use trial::run_trial;
