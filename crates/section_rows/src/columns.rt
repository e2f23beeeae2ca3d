// What a column shows of a section.
ghost use Rattle.std.specs.Prelude.{◌≡◌, ◌==◌, ◌&&◌, ◌+◌, ◌≤◌, length, nat_lt, slice_index, Some};
ghost use Rattle.dump_io.specs.Colons.{colon};
ghost use Rattle.dump_io.specs.Limits.{usual};
ghost use Rattle.field_lines.specs.Shown.{shown_line};
ghost use Rattle.section_rows.specs.Rows.{id_kept, tag_kept};
ghost use Rattle.section_rows.specs.Shown.{shown_cell, shown_column};
ghost use Rattle.section_rows.specs.Inner.Lent.{IsLent, shown_section};
ghost use Rattle.section_rows.specs.Inner.Passing.{own_cell, field_cell, line_cell, starting_cell};
ghost use Rattle.section_rows.specs.Inner.Places.{HasRoom};

use dump_sections::Section;
use field_lines::{Line, field};

/// A text of a section, with its place in the file.
#[derive(Clone, Copy)]
pub struct Kept<'a> {
    /// The offset in the file at which the text's line begins.
    pub at: u64,
    /// The offset in the file at which the text begins.
    pub value_at: u64,
    /// The text.
    pub text: &'a [u8],
}

/// What a column shows of a section.
#[derive(Clone, Copy)]
pub enum Column<'a> {
    /// The tag.
    Tag,
    /// The id, if there is one.
    Id,
    /// The value of the first field with this key in the body, if there is one.
    Field(&'a [u8]),
    /// The first line of the body that begins with one of these two texts, if there is one.
    Starting(&'a [u8], &'a [u8]),
}

fn id<'a>(section: &Section<'a>) -> Option<Kept<'a>>
    requires { IsLent section.now }
    ensures value { shown_cell result ≡ id_kept (shown_section section.now) }
    ensures room { HasRoom section.now.at (shown_cell result) }
{
    let text = section.id?;
    Some(Kept {
        at: section.at,
        value_at: section.at + section.tag.len() as u64 + 2,
        text,
    })
}

// The tag, which each section has.
fn tag<'a>(section: &Section<'a>) -> Option<Kept<'a>>
    requires { IsLent section.now }
    ensures value { shown_cell result ≡ Some (tag_kept (shown_section section.now)) }
    ensures room { HasRoom section.now.at (shown_cell result) }
{
    Some(Kept {
        at: section.at,
        value_at: section.at + 1,
        text: section.tag,
    })
}

// The cell of a column that shows the header. The cell of a field is in the body.
pub(crate) fn own<'a>(section: &Section<'a>, column: &Column<'_>) -> Option<Kept<'a>>
    requires { IsLent section.now }
    ensures value { shown_cell result ≡ own_cell (shown_section section.now)
        (shown_column column.now) }
    ensures room { HasRoom section.now.at (shown_cell result) }
{
    match column {
        Column::Tag => tag(section),
        Column::Id => id(section),
        Column::Field(_) | Column::Starting(_, _) => None,
    }
}

// Whether a `:` stands where a field with this key has its first one. In
// few other lines it does, so that few are searched for their first `:`.
fn may_have_key(text: &[u8], key: &[u8]) -> bool
    ensures { result ≡ (nat_lt (length key.now) (length text.now)
        && (slice_index text.now (length key.now) == colon)) }
{
    key.len() < text.len() && text[key.len()] == b':'
}

// The field in a line of the body, if it has this key.
fn field_in<'a>(section: &Section<'_>, line: &Line<'a>, key: &[u8]) -> Option<Kept<'a>>
    requires lent { IsLent section.now }
    requires inside { section.now.body + line.now.at + length line.now.text.now ≤ section.now.end }
    requires small { line.now.at + length line.now.text.now ≤ usual.section }
    ensures value { shown_cell result ≡ field_cell section.now.body (shown_line line.now) key.now }
    ensures room { HasRoom section.now.at (shown_cell result) }
{
    if !may_have_key(line.text, key) {
        return None;
    }
    let (name, value) = field(line.text)?;
    if name != key {
        return None;
    }
    let from = line.at + line.text.len() - value.len();
    Some(Kept {
        at: section.body + line.at as u64,
        value_at: section.body + from as u64,
        text: value,
    })
}

// The line of the body, if it begins with one of two texts.
fn starting_in<'a>(
    section: &Section<'_>,
    line: &Line<'a>,
    one: &[u8],
    other: &[u8],
) -> Option<Kept<'a>>
    requires lent { IsLent section.now }
    requires inside { section.now.body + line.now.at + length line.now.text.now ≤ section.now.end }
    requires small { line.now.at + length line.now.text.now ≤ usual.section }
    ensures value { shown_cell result
        ≡ starting_cell section.now.body (shown_line line.now) one.now other.now }
    ensures room { HasRoom section.now.at (shown_cell result) }
{
    if !line.text.starts_with(one) && !line.text.starts_with(other) {
        return None;
    }
    let at = section.body + line.at as u64;
    Some(Kept {
        at,
        value_at: at,
        text: line.text,
    })
}

// The cell that a line of the body gives to a column.
pub(crate) fn in_line<'a>(
    section: &Section<'_>,
    line: &Line<'a>,
    column: &Column<'_>,
) -> Option<Kept<'a>>
    requires lent { IsLent section.now }
    requires inside { section.now.body + line.now.at + length line.now.text.now ≤ section.now.end }
    requires small { line.now.at + length line.now.text.now ≤ usual.section }
    ensures value { shown_cell result ≡ line_cell section.now.body (shown_line line.now)
        (shown_column column.now) }
    ensures room { HasRoom section.now.at (shown_cell result) }
{
    match column {
        Column::Tag => None,
        Column::Id => None,
        Column::Field(key) => field_in(section, line, key),
        Column::Starting(one, other) => starting_in(section, line, one, other),
    }
}
