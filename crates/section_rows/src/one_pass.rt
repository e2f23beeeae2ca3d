// The cells of a section. All its fields are found in one pass over the lines of its body.
ghost use Rattle.std.specs.Prelude.{◌≡◌, ℕ, List, ◌+◌, ◌<◌, ◌≤◌, ◌∷◌, false, true, None, length, map, get_or, All, IfOk};
ghost use Rattle.dump_io.specs.Limits.{usual};
ghost use Rattle.field_lines.specs.Lines.{TextLine, text_lines};
ghost use Rattle.field_lines.specs.Shown.{shown_line};
ghost use Rattle.section_rows.specs.Rows.{column_cell};
ghost use Rattle.section_rows.specs.Shown.{shown_cell, shown_column};
ghost use Rattle.section_rows.specs.Inner.Lent.{IsLent, shown_section};
ghost use Rattle.section_rows.specs.Inner.Passing.{IsSettled, AreSettled, IsOver, AreOver};
ghost use Rattle.section_rows.specs.Inner.Places.{HasRoom};

use crate::columns::{Column, Kept, in_line, own};
use dump_sections::Section;
use field_lines::Line;
use field_lines::reading::lines;
use std::alloc::{AllocError, Global};

// The cells of the columns that show the header; those of fields are still to come.
fn own_cells<'a>(
    alloc: Global,
    section: &Section<'a>,
    columns: &[Column<'_>],
) -> Result<Vec<Option<Kept<'a>>>, AllocError>
    requires { IsLent section.now }
    ensures { IfOk result (λ cells. (body : List ℕ)
        → AreSettled (shown_section section.now) body columns.now (text_lines body) cells.items) }
{
    let mut cells = Vec::with_capacity(alloc, columns.len())?;
    for column in columns {
        cells.push(own(section, column))?;
    }
    Ok(cells)
}

// Whether a line may still give a column its cell.
fn is_open(column: &Column<'_>, cell: &Option<Kept<'_>>) -> bool
    ensures open { result ≡ true → shown_cell cell.now ≡ None }
    ensures over { result ≡ false → IsOver (shown_column column.now) (shown_cell cell.now) }
{
    match column {
        Column::Tag => false,
        Column::Id => false,
        Column::Field(_) | Column::Starting(_, _) => cell.is_none(),
    }
}

// Lets the column at a place see a line, and returns `more`, or
// `true` if a later line may still give that column its cell.
fn see_line<'a>(
    section: &Section<'a>,
    line: &Line<'a>,
    column: &Column<'_>,
    cells: &mut [Option<Kept<'a>>],
    c: usize,
    more: bool,
) -> bool
    requires lent { IsLent section.now }
    requires inside { section.now.body + line.now.at + length line.now.text.now ≤ section.now.end }
    requires small { line.now.at + length line.now.text.now ≤ usual.section }
    requires place { c < length cells.old }
    ensures count { length cells.new ≡ length cells.old }
    ensures others { (k : ℕ) → (k ≡ c → ⊥) → get_or cells.new k None ≡ get_or cells.old k None }
    ensures settles { (body : List ℕ) (rest : List TextLine)
        → let Settled = IsSettled (shown_section section.now) body (shown_column column.now) in
        Settled (shown_line line.now ∷ rest) (shown_cell (get_or cells.old c None))
        → Settled rest (shown_cell (get_or cells.new c None)) }
    ensures over { result ≡ false → (more ≡ false)
        × IsOver (shown_column column.now) (shown_cell (get_or cells.new c None)) }
{
    if !is_open(column, &cells[c]) {
        return more;
    }
    match in_line(section, line, column) {
        Some(found) => {
            cells[c] = Some(found);
            more
        }
        None => true,
    }
}

// Lets each column see a line, and returns whether a later one may still give some column its cell.
fn take_line<'a>(
    section: &Section<'a>,
    line: &Line<'a>,
    columns: &[Column<'_>],
    cells: &mut [Option<Kept<'a>>],
) -> bool
    requires lent { IsLent section.now }
    requires inside { section.now.body + line.now.at + length line.now.text.now ≤ section.now.end }
    requires small { line.now.at + length line.now.text.now ≤ usual.section }
    requires count { length cells.old ≡ length columns.now }
    ensures count { length cells.new ≡ length columns.now }
    ensures settles { (body : List ℕ) (rest : List TextLine)
        → let Settled = AreSettled (shown_section section.now) body columns.now in
        Settled (shown_line line.now ∷ rest) cells.old → Settled rest cells.new }
    ensures over { result ≡ false → AreOver columns.now cells.new }
{
    let mut more = false;
    for c in 0..columns.len() {
        more = see_line(section, line, &columns[c], cells, c, more);
    }
    more
}

// The cells of a section with this body, one for each column.
pub(crate) fn cells_of<'a>(
    alloc: Global,
    section: &Section<'a>,
    body: &'a [u8],
    columns: &[Column<'_>],
) -> Result<Vec<Option<Kept<'a>>>, AllocError>
    requires lent { IsLent section.now }
    requires body { section.now.body + length body.now ≤ section.now.end }
    requires small { length body.now ≤ usual.section }
    ensures cells { IfOk result (λ cells. map shown_cell cells.items
        ≡ map (column_cell (shown_section section.now) body.now) (map shown_column columns.now)) }
    ensures room { IfOk result (λ cells. All (λ cell. HasRoom section.now.at
        (shown_cell cell)) cells.items) }
{
    let mut cells = own_cells(alloc, section, columns)?;
    for line in lines(body) {
        if !take_line(section, &line, columns, &mut cells) {
            return Ok(cells);
        }
    }
    Ok(cells)
}
