// Reading a body: its lines, and its fields.
ghost use Rattle.std.specs.Prelude.{◌≡◌, ◌==◌, ◌&&◌, ◌+◌, ◌^◌, ◌<◌, ◌≤◌, length, nat_lt, Some, None, IfSome, All, option_map, slice_index, slice_range, if◌then◌else◌};
ghost use Rattle.dump_io.specs.Colons.{colon};
ghost use Rattle.field_lines.specs.Lines.{text_lines, IsPart};
ghost use Rattle.field_lines.specs.Fields.{field_of, find_field, find_value, has_key, place_of, without_space};
ghost use Rattle.field_lines.specs.Shown.{shown_field, shown_line};

use crate::shapes::{FieldAt, Line, Lines};
use dump_io::split_at_colon;

/// The lines of a body, in order. Each ends after its LF; a last line without LF counts too.
pub fn lines(body: &[u8]) -> Lines<'_>
    ensures value { result ≡ text_lines body.now }
    ensures count { length result ≤ length body.now }
    ensures parts { All (IsPart body.now) result }
{
    Lines::new(body)
}

// The bytes without one leading space.
fn value(bytes: &[u8]) -> &[u8]
    ensures { result.now ≡ without_space bytes.now }
{
    match bytes {
        [b' ', value @ ..] => value,
        _ => bytes,
    }
}

/// The key and the value of a line's text: what stands before its first `:`, and what follows
/// it, less one space directly after it. Returns `None` exactly when there is no `:`.
pub fn field(text: &[u8]) -> Option<(&[u8], &[u8])>
    ensures { shown_field result ≡ field_of text.now }
{
    let (key, rest) = split_at_colon(text)?;
    Some((key, value(rest)))
}

// Whether a `:` stands where a field with this key has its first one. In
// few other lines it does, so that few are searched for their first `:`.
fn may_have_key(text: &[u8], key: &[u8]) -> bool
    ensures { result ≡ (nat_lt (length key.now) (length text.now)
        && (slice_index text.now (length key.now) == colon)) }
{
    key.len() < text.len() && text[key.len()] == b':'
}

// Where the line's field stands, if it has this key.
fn place(line: &Line<'_>, key: &[u8]) -> Option<FieldAt>
    requires { line.now.at + length line.now.text.now < 2 ^ 64 }
    ensures { result ≡ (if has_key key.now (shown_line line.now)
        then Some (place_of (shown_line line.now)) else None) }
{
    if !may_have_key(line.text, key) {
        return None;
    }
    let (name, value) = field(line.text)?;
    if name != key {
        return None;
    }
    let upto = line.at + line.text.len();
    Some(FieldAt {
        at: line.at,
        from: upto - value.len(),
        upto,
    })
}

/// The place of the first field of a body with this key. Returns `None` exactly when there is none.
pub fn find(body: &[u8], key: &[u8]) -> Option<FieldAt>
    ensures place { result ≡ find_field body.now key.now }
    ensures within { IfSome result (λ field. (field.at ≤ field.from) × (field.from ≤ field.upto)
        × (field.upto ≤ length body.now)) }
    ensures value { option_map (λ field. slice_range body.now field.from field.upto) result
        ≡ find_value body.now key.now }
{
    for line in lines(body) {
        if let Some(found) = place(&line, key) {
            return Some(found);
        }
    }
    None
}
