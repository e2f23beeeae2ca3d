// Of which parts the shapes are wanted.
ghost use Rattle.std.specs.Prelude.{◌≡◌, ◌<◌, length, IfSome};
ghost use Rattle.part_keys.specs.PartShapes.{list_value, shaped_part, whole_kind, IsShapedWithin};

use heap_skeleton::{Kind, Skeleton};

/// What is shown of a part, as a message.
#[derive(Clone, Copy)]
pub enum ShapedPart {
    /// The cell with this number.
    Cell(u32),
    /// The value of a pair: the tail of the list with this number.
    Value(u32),
}

// A child of a hash map, of which the value is wanted if it is a pair.
fn list_value(skeleton: &Skeleton, part: u32) -> ShapedPart
    requires { part < length skeleton.now.leads }
    ensures value { result ≡ list_value skeleton.now part }
    ensures within { IsShapedWithin (length skeleton.now.leads) result }
{
    if matches!(skeleton.kind(part), Some(Kind::List)) {
        ShapedPart::Value(part)
    } else {
        ShapedPart::Cell(part)
    }
}

// The kind of a cell, if there is one.
fn whole_kind(skeleton: &Skeleton, cell: Option<u32>) -> Option<Kind>
    requires { IfSome cell (λ n. n < length skeleton.now.leads) }
    ensures { result ≡ whole_kind skeleton.now cell }
{
    match cell {
        Some(cell) => skeleton.kind(cell),
        None => None,
    }
}

/// What is shown of a part of the cell `whole`, or of the roots of a process: of a list that is a child of a hash map or
/// of one of its nodes the value, and of any other cell itself.
pub fn shaped_part(skeleton: &Skeleton, whole: Option<u32>, part: u32) -> ShapedPart
    requires whole { IfSome whole (λ n. n < length skeleton.now.leads) }
    requires part { part < length skeleton.now.leads }
    ensures value { result ≡ shaped_part skeleton.now whole part }
    ensures within { IsShapedWithin (length skeleton.now.leads) result }
{
    match whole_kind(skeleton, whole) {
        Some(Kind::Hash | Kind::Node) => list_value(skeleton, part),
        _ => ShapedPart::Cell(part),
    }
}
