//! The binaries outside the heaps, and those to which the cells of a heap refer.
//!
//! A dump has the binaries outside the heaps in its `binary` sections. The id of such a section is the
//! binary's number, an address in hex. Its body is a line of the number of bytes in hex, `:`, and the
//! bytes as characters, in hex or in base64. [`read_size`] reads the number of bytes, [`read_range`] the
//! first bytes of a range, at most 32, from the few characters that write them, and [`whole`] all bytes.
//!
//! ```text
//! let places = BinaryPlaces::find(alloc, &index)?;
//! let range = Range::new(0x7f10, 2, 100); // of the binary 7f10, from its third byte on
//! if let Some(few) = read_range(&mut dumps, &places, Enc::Base64, &range)? {
//!     let bytes = few.bytes(); // the first 32 of them
//! }
//! ```
//!
//! [`Previews::load`] reads, for each cell of a heap that refers to a binary, the first bytes of the
//! stated range, at most 32: of a binary outside the heaps from its `binary` section, and of a heap
//! binary from the characters of its cell.
//!
//! ```text
//! let previews = Previews::load(alloc, &mut dumps, &index, &heap)?;
//! if let Preview::Bytes(bytes, size) = previews.get(ix) {
//!     // the first bytes of the range of `size` bytes to which the cell `ix` refers
//! }
//! ```
#![tactic(auto)]

mod entries;
mod faults;
mod few_bytes;
mod leads;
mod numbers;
mod payloads;
mod places;
mod previews;
mod ranges;
mod wholes;

pub use entries::Preview;
pub use faults::{BinFault, PreviewFault};
pub use few_bytes::FewBytes;
pub use leads::read_size;
pub use numbers::{binary_number, first_binary};
pub use payloads::decode_payload;
pub use places::BinaryPlaces;
pub use previews::Previews;
pub use ranges::{Range, read_range};
pub use wholes::{bytes_of_body, whole};
