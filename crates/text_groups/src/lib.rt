//! Rows in the order of their sizes, and items grouped by their texts.
//!
//! Several reports list what is largest: processes by the bytes that they hold,
//! binaries by their sizes. A row states its size by [`Measured`], and
//! [`sort_most_first`] sorts rows by it; rows of the same size stay in their order.
//! [`sort_most_first_twice`] does so by a first and a second size ([`MeasuredTwice`]).
//!
//! Several reports show which things are alike: processes that stand at the same place, messages that have the
//! same shape. What is grouped states the text and the weight of each item by [`Grouped`], and [`group_texts`] returns
//! which items have the same text, with the sum of their weights. The texts are looked up by their order, since
//! whoever writes a dump could give all of them one hash.
//!
//! Where many items have one text that is known to be the same, no text is to be compared for each of them: [`TextNumbers`]
//! gives each different text a number, and [`group_numbers`] groups numbers. Texts of any length are shown up to a limit,
//! by [`cut_text`].
//!
//! ```text
//! let mut groups = group_texts(alloc, &stands)?;
//! sort_most_first(&mut groups)?;
//! for group in &groups {
//!     let text = stands.text(group.first); // group.count items have this text
//! }
//! ```
#![tactic(auto)]

mod cut;
mod grouped;
mod grouping;
mod number_groups;
mod numbers;
mod sorting;
mod sums;
mod text_group;

pub use cut::cut_text;
pub use grouped::Grouped;
pub use grouping::group_texts;
pub use number_groups::group_numbers;
pub use numbers::TextNumbers;
pub use sorting::{Measured, MeasuredTwice, sort_most_first, sort_most_first_twice};
pub use sums::capped;
pub use text_group::TextGroup;
