//! The heap lines of a process, for a heap of any size, and a part of that heap: the cells that some roots need within a
//! budget of nodes.
//!
//! [`LineTable::read`] reads a body once, in pieces of at most 65,536 bytes, whatever its length, and keeps of each heap
//! line its address and the offset at which it begins: 16 bytes. [`LineTable::find`] then returns the offset of the first
//! heap line with an address, so that the line can be read when it is needed. [`HeapLines::load`] does so for the heap of
//! a process and for the literals.
//!
//! [`load_part`] goes from each root through the cells that its unfolding enters, gathers their lines as it comes to
//! them, and makes a heap of these. What it reads of a line is kept, so that each is read and parsed once, whichever
//! roots lead to it. A walk over that heap then decides whether it is enough: no node may ask for a cell that only the
//! whole heap has. So nothing has to be known about which lines are gathered, but that each is the first with its address.
//!
//! ```text
//! let lines = HeapLines::load(alloc, &mut dumps, &index, pid)?;
//! let found = lines.has(0x7F1C40);
//! let part = load_part(alloc, &lines, &mut dumps, &roots, nodes, &limits)?;
//! ```
#![tactic(auto)]

mod address_sink;
mod gathered;
mod heap_lines;
mod laws;
mod line_table;
mod line_text;
mod part;
mod search;

pub use heap_lines::HeapLines;
pub use laws::one_line_is_one_cell;
pub use line_table::LineTable;
pub use line_text::push_text;
pub use part::load_part;
