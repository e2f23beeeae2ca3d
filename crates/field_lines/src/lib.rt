//! The lines and the fields of a body, which is the bytes between a header's line and the next header.
//!
//! [`reading::lines`] gives the lines, [`field`] splits a line's text at its first colon,
//! and [`find`] looks for the first field with a key. All calls are pure and take no memory.
//!
//! ```text
//! for line in reading::lines(body) {
//!     if let Some((key, value)) = field(line.text) { .. }
//! }
//! let slogan = find(body, b"Slogan").map(|place| &body[place.from..place.upto]);
//! ```
#![tactic(auto)]

pub mod reading;
pub mod shapes;

pub use reading::{field, find};
pub use shapes::{FieldAt, Line};
