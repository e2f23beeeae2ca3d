// The lines of a body that have a text, and a text with a colon.
ghost use Rattle.std.specs.Prelude.{◌<◌, filter, length, All, IfSome};
ghost use Rattle.std.specs.Iterator.{YieldsFirstBy};
ghost use Rattle.field_lines.specs.Shown.{shown_line};
ghost use Rattle.root_views.specs.Roots.{has_text};
ghost use Rattle.root_views.specs.Inner.Lines.{IsSmall};
ghost use Rattle.root_views.specs.Inner.Splits.{SplitsAtLast};

use field_lines::Line;
use field_lines::shapes::Lines;
use memchr::memrchr;

// The next line that has a text.
pub(crate) fn next_text<'a>(lines: &mut Lines<'a>) -> Option<Line<'a>>
    ensures first { YieldsFirstBy shown_line (filter has_text) lines.old result lines.new }
    ensures small { All IsSmall lines.old → All IsSmall lines.new }
    ensures line { All IsSmall lines.old → IfSome result (λ line. IsSmall (shown_line line)) }
{
    while let Some(line) = lines.next() {
        if !line.text.is_empty() {
            return Some(line);
        }
    }
    None
}

// Splits a text at its last `:` into what stands before it and what follows it.
pub(crate) fn split_at_last_colon(text: &[u8]) -> Option<(&[u8], &[u8])>
    ensures parts { SplitsAtLast text.now result }
    ensures shorter { IfSome result (λ parts. length parts.0.now < length text.now) }
{
    let colon = memrchr(b':', text)?;
    Some((&text[..colon], &text[colon + 1..]))
}
