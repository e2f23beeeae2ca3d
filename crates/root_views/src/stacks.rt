// The roots of a stack.
ghost use Rattle.std.specs.Prelude.{◌≡◌, List, map, filter, All};
ghost use Rattle.std.specs.Option.{option_map};
ghost use Rattle.std.specs.Iterator.{YieldsFirstBy, item_count};
ghost use Rattle.field_lines.specs.Shown.{shown_line};
ghost use Rattle.root_views.specs.Roots.{BodyRoot, has_text, stack_content, stack_root, stack_roots, IsInside};
ghost use Rattle.root_views.specs.Seen.{content, root};

use crate::roots::{Root, What};
use crate::texts::next_text;
use dump_io::split_at_colon;
use field_lines::Line;
use field_lines::reading::lines;
use field_lines::shapes::Lines;
use std::marker::Model;
use term_forms::whole_elem;

// What stands after a label.
fn stack_content(text: &[u8]) -> Option<What<'_>>
    ensures { option_map content result ≡ stack_content text.now }
{
    match text {
        [b'S', info @ ..] => Some(What::Info(info)),
        _ => Some(What::Term(whole_elem(text)?)),
    }
}

fn stack_root<'a>(line: &Line<'a>) -> Root<'a>
    ensures { root result ≡ stack_root (shown_line line.now) }
{
    if let Some((label, rest)) = split_at_colon(line.text) {
        if let Some(what) = stack_content(rest) {
            return Root {
                at: line.at,
                label,
                what,
            };
        }
    }
    Root {
        at: line.at,
        label: &[],
        what: What::Unread,
    }
}

/// The roots of a stack that are still to come. Contracts see the list of these roots.
#[derive(Drop)]
pub struct StackRoots<'a> {
    lines: Lines<'a>,
}

impl<'a> Model for StackRoots<'a> {
    ghost Value = { List BodyRoot };

    ghost view = { λ s. map stack_root (filter has_text s.lines) };
}

impl<'a> Iterator for StackRoots<'a> {
    type Item = Root<'a>;

    ghost next_gives = { YieldsFirstBy root (λ roots. roots) };

    ghost remaining = { item_count (λ roots. roots) };

    fn next(&mut self) -> Option<Root<'a>> {
        let line = next_text(&mut self.lines)?;
        Some(stack_root(&line))
    }
}

/// The roots of the body of a `proc_stack` section, one for each line that has a text. What
/// stands before the first `:` of a line is its label. After it an `S` begins an info, and a
/// text that is wholly an element is a term; anything else, and a line without a `:`, is unread.
pub fn stack(body: &[u8]) -> StackRoots<'_>
    ensures value { result ≡ stack_roots body.now }
    ensures inside { All (IsInside body.now) result }
{
    StackRoots { lines: lines(body) }
}
