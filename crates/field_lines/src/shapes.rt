// A line, the lines that are still to come, and the place of a field.
ghost use Rattle.std.specs.Prelude.{◌≡◌};
ghost use Rattle.std.specs.Iterator.{YieldsFirstBy, item_count};
ghost use Rattle.field_lines.specs.Lines.{text_lines};
ghost use Rattle.field_lines.specs.Shown.{shown_line};

use dump_io::{line_len, line_text};
use std::marker::Model;

/// A line of a body.
#[derive(Clone, Copy)]
pub struct Line<'a> {
    /// The number of bytes of the body before the line.
    pub at: usize,
    /// The line without its LF, and without one CR directly before that LF.
    pub text: &'a [u8],
}

/// Where a field stands in its body. Offsets are in bytes of the body.
#[derive(Clone, Copy, Debug, PartialEq, Eq)]
pub struct FieldAt {
    /// Where the field's line begins.
    pub at: usize,
    /// Where the field's value begins.
    pub from: usize,
    /// Where the field's value ends.
    pub upto: usize,
}

/// The lines of a body that are still to come, in order.
#[derive(Drop)]
pub struct Lines<'a> {
    body: &'a [u8],
    at: usize,
}

impl<'a> Model for Lines<'a> {
    ghost use Rattle.std.specs.Prelude.{List, ◌≤◌, length, drop};
    ghost use Rattle.field_lines.specs.Lines.{TextLine, text_lines_from};

    ghost Value = { List TextLine };

    ghost view = { λ lines. text_lines_from lines.at (drop lines.at lines.body.now) };

    ghost invariant = { λ lines. lines.at ≤ length lines.body.now };
}

impl<'a> Lines<'a> {
    pub(crate) fn new(body: &'a [u8]) -> Lines<'a>
        ensures { result ≡ text_lines body.now }
    {
        Lines { body, at: 0 }
    }
}

impl<'a> Iterator for Lines<'a> {
    type Item = Line<'a>;

    ghost next_gives = { YieldsFirstBy shown_line (λ lines. lines) };

    ghost remaining = { item_count (λ lines. lines) };

    fn next(&mut self) -> Option<Line<'a>> {
        let rest = &self.body[self.at..];
        if rest.is_empty() {
            return None;
        }
        let len = line_len(rest);
        let line = Line {
            at: self.at,
            text: line_text(&rest[..len]),
        };
        self.at += len;
        Some(line)
    }
}
