//! Lines that several reports have: parts with the same bytes between
//! them, how many of something there are, and the state of the dump.
//!
//! ```text
//! put_line(&mut out, b" ", &[Piece::Bytes(b"link"), Piece::Bytes(pid), Piece::Dec(at)])?;
//! put_total_line(&mut out, b"findings", 1)?;
//! put_state(&mut out, &index)?;
//! ```
#![tactic(auto)]

mod count_lines;
mod state_lines;

pub use count_lines::{put_count_line, put_line, put_total_line};
pub use state_lines::put_state;
