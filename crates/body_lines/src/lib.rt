//! The lines of a part of a dump, read in pieces.
//!
//! [`hear_body`] reads the open file between two offsets, in pieces of at most 65,536 bytes, into one buffer that the
//! caller makes once, and lets a [`LineSink`] hear each line, however long the part is and however the pieces cut its
//! lines. What the sink hears of a line is its offset, as many of its first bytes as it keeps, and how many bytes it has.
//! The buffer is all the memory that this takes. A `LineSink` hears runs of whole lines, as bytes with their offset, so
//! that it may search a run for what it needs.
//!
//! Where lines are needed whole, [`hear_whole_lines`] reads in the same pieces, and lets a [`WholeLineSink`] hear runs
//! of them; its buffer grows to hold the longest line.
//!
//! ```text
//! let mut buffer = make_buffer::<Sink>(alloc)?;
//! hear_body(&mut dumps, section.body, section.end, &mut buffer, &mut sink)?;
//!
//! let mut buffer = Vec::new(alloc);
//! hear_whole_lines(&mut dumps, section.body, section.end, &mut buffer, &mut whole_sink)?;
//! ```
#![tactic(auto)]

mod faults;
mod heard_body;
mod line_sink;
mod pieces;
mod starts;
mod whole_lines;
mod whole_sink;

pub use faults::{LinesFault, WholeLinesFault};
pub use heard_body::{hear_body, make_buffer};
pub use line_sink::LineSink;
pub use starts::line_start;
pub use whole_lines::hear_whole_lines;
pub use whole_sink::WholeLineSink;
