//! The texts of the reports on terms and on heaps, and of what a truncated dump may lack for them.
//!
//! ```
//! let heap = Heap::load(rt.alloc(), &mut dumps, &index, b"<0.1.0>", &limits)?;
//! put_cells(&mut out, &heap)?;
//! ```
//!
//! Each call writes one report to a sink, and takes no memory. It returns `Failed` only
//! if the sink's count of faults rose; a proper prefix of the text was written then.
#![tactic(auto)]

mod binary_report;
mod cell_report;
mod cut_report;
mod ext_report;
mod reach_report;
mod root_report;

pub use binary_report::put_binary;
pub use cell_report::{kind_word, put_cells};
pub use cut_report::put_cuts;
pub use ext_report::put_ext;
pub use reach_report::{add_roots, put_reach};
pub use root_report::{put_roots, put_shown_roots, put_term};
