//! One process's heap by address.
//!
//! [`Heap::load`] reads the first `proc_heap` section of a pid and the first `literals`
//! section. Each line of the two bodies that consists of a hex address, a `:` and the text of a
//! form is a cell; of all lines with the same address the first counts. The cells are numbered
//! in the order of their lines, and a reference to another cell is kept as that cell's number.
//!
//! ```text
//! let heap = Heap::load(alloc, &mut dumps, &index, b"<0.1.0>", &limits)?;
//! if let Seat::Cell(ix) = heap.at(0x7F1C40) {
//!     for n in 0..heap.kids(ix) {
//!         let kid = heap.kid(ix, n);
//!     }
//! }
//! ```
#![tactic(auto)]

mod cells;
mod faults;
mod gathering;
mod heap;
mod kids;
mod loading;
mod spelled;
mod texts;

pub use cell_records::{CellIx, Kind, Slot, Span, Why};
pub use cells::{Kid, Seat};
pub use faults::HeapFault;
pub use heap::Heap;
pub use heap_graph::kind_of;
pub use loading::enc_of;
