// Cutting a list's text into its parts.
ghost use Rattle.std.specs.Prelude.{◌≡◌, ◌+◌, ◌^◌, ◌<◌, ◌≤◌, [], ◌∷◌, length, take, drop, MatchOption, IfSome};
ghost use Rattle.std.specs.Option.{option_copied};
ghost use Rattle.std.specs.Iterator.{YieldsFirstBy, item_count};
ghost use Rattle.link_graph.specs.Entries.{cut, list_parts};
ghost use Rattle.link_graph.specs.Inner.Cutting.{cut_rest, shown_piece};
ghost use Rattle.link_graph.specs.Inner.Searching.{IsFirst};

use crate::texts::inside;
use std::marker::Model;

/// A part of a list's text.
#[derive(Clone, Copy)]
pub(crate) struct Piece<'a> {
    // The offset of the part's first byte.
    pub at: u64,
    pub text: &'a [u8],
}

// Where the first space stands. A part is short, and a bytewise
// search finds its end before a vectorized one would get started.
fn first_space(text: &[u8]) -> Option<usize>
    ensures { IsFirst 32 text.now result }
{
    for i in 0..text.len() {
        if text[i] == b' ' {
            return Some(i);
        }
    }
    None
}

// Where the first comma stands that is followed by a space. A
// list has fewer spaces than commas, so those are searched for.
fn first_gap(text: &[u8]) -> Option<usize>
    ensures { MatchOption result (cut text.now ≡ text.now ∷ [])
        (λ gap. (gap + 2 ≤ length text.now) × (cut text.now ≡ take gap text.now ∷ cut (drop (gap + 2) text.now))) }
{
    let mut from = 0;
    while let Some(space) = first_space(&text[from..]) {
        let at = from + space;
        if space > 0 && text[at - 1] == b',' {
            return Some(at - 1);
        }
        from = at + 1;
    }
    None
}

// The part that begins a text, and what stands after the gap that ends it.
fn split_part(text: &[u8]) -> (&[u8], Option<&[u8]>)
    ensures parts { cut text.now ≡ result.0.now ∷ cut_rest (option_copied result.1) }
    ensures behind { IfSome result.1 (λ rest. length result.0.now + 2 + length rest.now
        ≡ length text.now) }
{
    match first_gap(text) {
        None => (text, None),
        Some(gap) => (&text[..gap], Some(&text[gap + 2..])),
    }
}

// The parts of a list that are still to come, in order.
#[derive(Drop)]
pub(crate) struct Parts<'a> {
    // What is still to be cut, and the offset at which it ends.
    rest: Option<&'a [u8]>,
    end: u64,
}

impl<'a> Model for Parts<'a> {
    ghost use Rattle.std.specs.Prelude.{List};
    ghost use Rattle.std.specs.Option.{option_copied};
    ghost use Rattle.link_graph.specs.Entries.{Part};
    ghost use Rattle.link_graph.specs.Inner.Cutting.{parts_left, EndsBy};

    ghost Value = { List Part };

    ghost view = { λ parts. parts_left parts.end (option_copied parts.rest) };

    ghost invariant = { λ parts. EndsBy parts.end (option_copied parts.rest) };
}

impl<'a> Parts<'a> {
    // The parts of a list that begins at the offset.
    pub fn new(at: u64, text: &'a [u8]) -> Option<Parts<'a>>
        requires { at + length text.now < 2 ^ 64 }
        ensures { result ≡ list_parts at text.now }
    {
        let inner = inside(text, b"[", b"]")?;
        let rest = if inner.is_empty() { None } else { Some(inner) };
        let end = at + inner.len() as u64 + 1;
        Some(Parts { rest, end })
    }
}

impl<'a> Iterator for Parts<'a> {
    type Item = Piece<'a>;

    ghost next_gives = { YieldsFirstBy shown_piece (λ parts. parts) };

    ghost remaining = { item_count (λ parts. parts) };

    fn next(&mut self) -> Option<Piece<'a>> {
        let rest = self.rest?;
        let (text, others) = split_part(rest);
        let at = self.end - rest.len() as u64;
        self.rest = others;
        Some(Piece { at, text })
    }
}
