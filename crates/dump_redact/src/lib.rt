//! A dump with its binary payloads made zero.
//!
//! [`redact`] writes the open dump into a sink, with zeros in place of the bytes of
//! binaries. Everything else stays: each offset, each section, each address and each size.
//! So whatever user data a node held in binaries can be left out before a dump is handed
//! on. The dump isn't made anonymous: atoms, numbers, external terms and messages stay.
//!
//! ```text
//! let index = build(alloc, &mut dumps, "erl_crash.dump", &limits)?;
//! redact(alloc, &mut dumps, &index, &limits, &mut out)?;
//! ```
//!
//! `specs/Redacted.antt` says what a redacted dump is, over the lines of a dump; the laws in `specs/Laws.antt`
//! say what stays. As many sections are redacted at once as lie whole in a piece of 64 KiB. A larger
//! section is loaded if it is a heap or literals, and copied in pieces if it is anything else.
#![tactic(auto)]

mod blanks;
mod bodies;
mod copying;
mod faults;
mod heaps;
mod laws;
mod parts;
mod redacting;
mod spans;

pub use faults::RedactFault;
pub use laws::{binaries_stay, bodies_are_redacted, payloads_stay, redacted_stays, sections_stay};
pub use redacting::redact;
