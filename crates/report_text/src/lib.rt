//! The texts of the reports on sections, processes, tables and links, and of the refusals.
//!
//! ```
//! let index = build(rt.alloc(), &mut dumps, "erl_crash.dump", &limits)?;
//! put_index(&mut out, &index)?;
//! ```
//!
//! Each call writes one report, or one line on a refusal, to a sink, and takes no memory. It returns
//! `Failed` only if the sink's count of faults rose; a proper prefix of the text was written then.
#![tactic(auto)]

mod field_report;
mod index_report;
mod info_report;
mod link_report;
mod process_report;
mod refusals;
mod section_field_report;
mod table_report;
mod value_report;

pub use field_report::put_fields;
pub use index_report::put_index;
pub use info_report::{put_heading, put_info};
pub use link_report::put_links;
pub use process_report::{process_end, put_processes_line, put_procs, text_of};
pub use refusals::{Refusal, put_refusal};
pub use report_lines::put_state;
pub use section_field_report::put_section_fields;
pub use table_report::{put_rows, text_at};
pub use value_report::put_values;
