//! The elements and heap forms of a crash dump's text, read and written. What
//! reads the payloads of forms, in both encodings, is handed on from binary_payloads.
//!
//! ```
//! let (address, text) = heap_line(b"7F10:t2:A2:ok,H20")?; // 0x7F10, and the text of a form
//! if let Opened::Tuple(mut elements) = open_form(text, Enc::Base64)? {
//!     while elements.left() > 0 {
//!         let found = elements.next_elem()?;
//!         // The atom `ok` at 3, and a reference to 0x20 at 8: what `elem(&text[found.at..])` reads again.
//!     }
//! }
//! let mut first = [0; 3];
//! if let Form::HeapBin(size, chars) = form(b"Yh5:aGVsbG8=", Enc::Base64)? {
//!     payload_part(chars, Enc::Base64, size, 1, &mut first); // `ell`
//! }
//! ```
//!
//! The types `Elem`, `Form`, `Opened` and `Cover` are in [`shapes`], and the functions `elem`, `form` and `cover`,
//! which share their names, in [`reading`]. The grammar is in `specs/Elements.antt` and `specs/Forms.antt`.
#![tactic(auto)]

mod elements;
mod elems;
mod forms;
mod laws;
mod opening;
mod plain;
pub mod reading;
pub mod shapes;
mod words;
mod writing;

pub use binary_payloads::{
    Enc, cover_holds_range, encoding_in_pieces, is_payload, payload, payload_bytes_are_read,
    payload_is_of_one, payload_part,
};
pub use elems::{Elems, whole_elem};
pub use forms::spelled_form;
pub use laws::{
    form_is_read, front_is_longest, front_of_element, number_is_in_front, number_is_read,
    plain_spelling_of_elements, plain_spelling_of_forms, unique_reading_of_elements,
    unique_reading_of_forms, whole_is_read,
};
pub use opening::{Joined, open_form};
pub use shapes::PlacedElem;
pub use words::heap_line;
pub use writing::{put_elem, put_form};
