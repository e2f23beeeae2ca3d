//! Under which keys parts of maps stand, and the shapes of parts, of a heap of any size.
//!
//! A skeleton (`heap_skeleton`) says what leads where in a heap, and has no text. A *part* is a cell to which an element of
//! another cell leads. The *key* under which a part of a map stands is an element of a cell: [`key_place`] says of which.
//! The *shape* of a part is that of a message that refers to its cell, and of a pair in a hash map that of its value:
//! [`shaped_part`] says of which cell or of which list's tail. [`read_shapes`] reads the heap twice, and has the shapes of
//! keys, which are labels (`specs/Keys.antt`), and those of parts (`specs/PartShapes.antt`); [`key_shapes`] has the former.
//!
//! ```text
//! let skeleton = Skeleton::load(alloc, &mut dumps, &index, b"<0.1.0>")?;
//! let key = key_place(&skeleton, PartPlace { cell: 2, at: 1, part: 5 }); // of what stands first in the flat map 2
//! let part = shaped_part(&skeleton, Some(2), 5);
//! let texts = read_shapes(alloc, &mut dumps, &index, b"<0.1.0>", &skeleton, &[key], &[part])?;
//! let (label, shape) = (texts.labels.get(0), texts.shapes.get(0));
//! ```
#![tactic(auto)]

mod key_places;
mod needed;
mod shaped;
mod shapes;
mod shown_keys;
mod shown_parts;

pub use key_places::{KeyPlace, PartPlace, key_place};
pub use shaped::{ShapedPart, shaped_part};
pub use shapes::{PartTexts, key_shapes, read_shapes};
