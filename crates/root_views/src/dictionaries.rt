// The roots of a dictionary.
ghost use Rattle.std.specs.Prelude.{◌≡◌, List, map, filter, All};
ghost use Rattle.std.specs.Iterator.{YieldsFirstBy, item_count};
ghost use Rattle.field_lines.specs.Shown.{shown_line};
ghost use Rattle.root_views.specs.Roots.{BodyRoot, has_text, dict_root, dict_roots, IsInside};
ghost use Rattle.root_views.specs.Seen.{root};

use crate::roots::{Root, What};
use crate::texts::next_text;
use field_lines::Line;
use field_lines::reading::lines;
use field_lines::shapes::Lines;
use std::marker::Model;
use term_forms::whole_elem;

fn dict_root<'a>(line: &Line<'a>) -> Root<'a>
    ensures { root result ≡ dict_root (shown_line line.now) }
{
    let what = match whole_elem(line.text) {
        Some(e) => What::Term(e),
        None => What::Unread,
    };
    Root {
        at: line.at,
        label: b"e",
        what,
    }
}

/// The roots of a dictionary that are still to come. Contracts see the list of these roots.
#[derive(Drop)]
pub struct DictRoots<'a> {
    lines: Lines<'a>,
}

impl<'a> Model for DictRoots<'a> {
    ghost Value = { List BodyRoot };

    ghost view = { λ s. map dict_root (filter has_text s.lines) };
}

impl<'a> Iterator for DictRoots<'a> {
    type Item = Root<'a>;

    ghost next_gives = { YieldsFirstBy root (λ roots. roots) };

    ghost remaining = { item_count (λ roots. roots) };

    fn next(&mut self) -> Option<Root<'a>> {
        let line = next_text(&mut self.lines)?;
        Some(dict_root(&line))
    }
}

/// The roots of the body of a `proc_dictionary` section, one for each line that has a text,
/// with the label `e`: a term if the text is wholly an element, and otherwise unread.
pub fn dict(body: &[u8]) -> DictRoots<'_>
    ensures value { result ≡ dict_roots body.now }
    ensures inside { All (IsInside body.now) result }
{
    DictRoots { lines: lines(body) }
}
