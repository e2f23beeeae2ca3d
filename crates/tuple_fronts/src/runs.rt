// Finding the lines of cells in a run of lines.
ghost use Rattle.std.specs.Prelude.{◌≡◌, ◌+◌, ◌-◌, ◌<◌, ◌≤◌, ◌^◌, drop, length, OnOk, IfOk};
ghost use Rattle.body_lines.specs.Lines.{lines_at};
ghost use Rattle.tuple_fronts.specs.Inner.Kept.{Keeps};
ghost use Rattle.tuple_fronts.specs.Inner.Hearing.{HasCells, KeepsNext, is_listed, known_of, left_behind};

use crate::first_elements::keep_line;
use crate::kept::Kept;
use dump_io::{bytes_from, line_len};
use heap_skeleton::{Kind, Skeleton};
use std::alloc::AllocError;
use term_forms::Enc;

// Whether a cell is a tuple or a list.
fn is_listed(skeleton: &Skeleton, cell: u32) -> bool
    requires { cell < length skeleton.now.addresses }
    ensures { result ≡ is_listed skeleton.now cell }
{
    skeleton.leads_are_cells();
    matches!(skeleton.kind(cell), Some(Kind::Tuple | Kind::List))
}

// Keeps the front of a cell if its line begins within the rest of a run, the first line of which begins at
// an offset. Returns how many bytes of the rest end with its line.
fn keep_next(
    kept: &mut Kept,
    enc: Enc,
    skeleton: &Skeleton,
    cell: u32,
    line: u64,
    rest: &[u8],
) -> Result<Option<usize>, AllocError>
    requires { cell < length skeleton.now.addresses }
    ensures { IfOk result (KeepsNext skeleton.now enc cell line rest.now kept.old kept.new) }
{
    let place = skeleton.line(cell).saturating_sub(line);
    if place >= rest.len() as u64 {
        return Ok(None);
    }
    let place = place as usize;
    let size = line_len(&rest[place..]);
    let line = &rest[place..place + size];
    keep_line(kept, line, enc, is_listed(skeleton, cell))?;
    Ok(Some(place + size))
}

/// The cells from a place on.
pub(crate) fn cells_behind(cells: &[u32], from: usize) -> &[u32]
    requires { from ≤ length cells.now }
    ensures { result.now ≡ drop from cells.now }
{
    &cells[from..]
}

/// Keeps the fronts of those cells whose lines are in a run, the first line of which begins
/// at an offset, and returns the other cells. No line between them is looked at.
pub(crate) fn keep_run<'a>(
    kept: &mut Kept,
    enc: Enc,
    skeleton: &Skeleton,
    cells: &'a [u32],
    at: u64,
    run: &[u8],
) -> Result<&'a [u32], AllocError>
    requires cells { HasCells skeleton.now cells.now }
    requires fits { at + length run.now < 2 ^ 64 }
    ensures cells { IfOk result (λ left. HasCells skeleton.now left.now) }
    ensures left { IfOk result (λ left.
        left.now ≡ left_behind skeleton.now (lines_at at run.now) cells.now) }
    ensures keeps { OnOk result (let lines = lines_at at run.now in
        Keeps kept.old kept.new (known_of skeleton.now enc lines cells.now)) }
{
    let mut left = cells;
    let mut line = at;
    let mut rest = run;
    while !left.is_empty() {
        let Some(size) = keep_next(kept, enc, skeleton, left[0], line, rest)? else {
            return Ok(left);
        };
        line += size as u64;
        rest = bytes_from(rest, size);
        left = cells_behind(left, 1);
    }
    Ok(left)
}
