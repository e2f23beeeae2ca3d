//! The payloads of binaries: the characters that write their bytes in a crash dump, in hex or in base64.
//!
//! ```
//! let mut bytes = [0; 5];
//! payload(b"aGVsbG8=", Enc::Base64, &mut bytes); // true, and `bytes` is `hello`
//! is_payload(b"68656C6C6F", Enc::Hex, 5); // true
//! let mut middle = [0; 3];
//! payload_part(b"aGVsbG8=", Enc::Base64, 5, 1, &mut middle); // `ell`
//! let four = cover(Enc::Base64, 5, 1, 2); // the first four characters, which write `hel`
//! ```
//!
//! Which characters are the payload of which bytes is in `specs/Payload.antt`.
#![tactic(auto)]

mod covering;
pub mod covers;
mod enc;
mod payloads;

pub use covering::{cover, cover_holds_range, payload_part};
pub use enc::Enc;
pub use payloads::{
    are_digits, encoding_in_pieces, is_digit, is_payload, payload, payload_bytes_are_read,
    payload_is_of_one,
};
