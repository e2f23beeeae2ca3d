// The root with which a way begins.
ghost use Rattle.std.specs.Prelude.{◌≡◌, ◌==◌, ◌<◌, map, length, position, IfOk, IfSome};
ghost use Rattle.heap_ways.specs.Ways.{first_root, root_of};
ghost use Rattle.heap_ways.specs.Inner.Kept.{root_kept};

use cell_parts::Parts;
use std::alloc::{AllocError, Global};

/// A root.
#[derive(Drop)]
pub(crate) struct Root {
    /// The offset in the file at which it stands.
    pub at: u64,
    pub label: Vec<u8>,
}

// The number of the part with this cell.
fn part_with(parts: &Parts, cell: u32) -> Option<usize>
    ensures value { result ≡ position (λ m. m == cell) (map (λ part. part.cell) parts.now.parts) }
    ensures within { IfSome result (λ part. part < length parts.now.parts) }
{
    parts.cells().iter().position(|other| *other == cell)
}

// The first root that refers to a cell.
fn first_root(alloc: Global, parts: &Parts, cell: u32) -> Result<Root, AllocError>
    ensures { IfOk result (λ root. root_kept root ≡ first_root parts.now.parts cell) }
{
    let mut label = Vec::new(alloc);
    let Some(part) = part_with(parts, cell) else {
        return Ok(Root { at: 0, label });
    };
    label.extend_from_slice(parts.label(part))?;
    Ok(Root {
        at: parts.at(part),
        label,
    })
}

/// The first root that refers to the first cell of a way.
pub(crate) fn root_of(alloc: Global, parts: &Parts, way: &[u32]) -> Result<Root, AllocError>
    ensures { IfOk result (λ root. root_kept root ≡ root_of parts.now.parts way.now) }
{
    match way.first() {
        Some(cell) => first_root(alloc, parts, *cell),
        None => Ok(Root {
            at: 0,
            label: Vec::new(alloc),
        }),
    }
}
