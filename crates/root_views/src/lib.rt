//! The roots of a process: the terms from which its stack, its dictionary and its mailbox reach its heap.
//!
//! ```
//! for root in mail(b"H40:N\nD4:AAAAAA==:N\n") {
//!     // At 0 a message, the term `H40`, and at 4 its token, the term `N`; at 6 a message in the external format, whose
//!     // text is `D4:AAAAAA==`, and at 18 its token, the term `N`.
//! }
//! ```
//!
//! [`stack`], [`dict`] and [`mail`] take the body of a `proc_stack`, a `proc_dictionary` or a
//! `proc_messages` section, [`RootKind::roots`] that of any of the three, and [`messages`] counts the
//! messages of a mailbox. These calls are pure and take no memory. `specs/Roots.antt` says what is a root.
//!
//! A body of any size is read in pieces: [`hear_roots`] reads it once, in pieces of at most 65,536 bytes, and lets an
//! [`EachRoot`] hear its roots one by one; none of them is kept. [`ShownRoots::load`] reads in the same pieces, counts the
//! roots, and keeps those from a place on, at most so many, with the lines in which they stand.
//!
//! ```text
//! let mut buffer = Vec::new(alloc);
//! hear_roots(&mut dumps, stack.body, stack.end, RootKind::Stack, &mut buffer, &mut each)?;
//!
//! let shown = ShownRoots::load(alloc, &mut dumps, mail.body, mail.end, RootKind::Mail, 40, 10)?;
//! for i in 0..shown.len() {
//!     let root = shown.root(i); // from the 41st root on, root.at bytes behind mail.body
//! }
//! let all = shown.count();
//! ```
#![tactic(auto)]

mod dictionaries;
mod each_root;
mod kept_roots;
mod kinds;
mod mailboxes;
mod mails;
mod message_count;
mod root_count;
mod root_sink;
mod root_texts;
mod roots;
mod roots_of_lines;
mod shown_roots;
mod stacks;
mod texts;

pub use dictionaries::{DictRoots, dict};
pub use each_root::{EachRoot, hear_roots};
pub use kinds::{RootKind, Roots};
pub use mailboxes::{MailRoots, mail};
pub use message_count::messages;
pub use roots::{Root, What};
pub use shown_roots::ShownRoots;
pub use stacks::{StackRoots, stack};
