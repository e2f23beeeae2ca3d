// Elements joined by commas.
ghost use Rattle.std.specs.Prelude.{◌≡◌, ◌-◌, ◌<◌, List, [], ◌^◌, length, true, is_some, IsTrue, IsSome, IfSome, IfNone};
ghost use Rattle.std.specs.Option.{option_map, option_copied};
ghost use Rattle.std.specs.Iterator.{YieldsFirstBy, item_count};
ghost use Rattle.term_forms.specs.Elements.{Element, IsElem};
ghost use Rattle.term_forms.specs.Reading.{whole_of};
ghost use Rattle.term_forms.specs.ReadingForms.{until_of, behind, joined_of, joined_list, with_first};
ghost use Rattle.term_forms.specs.Seen.{element};
ghost use Rattle.term_forms.specs.Inner.Ends.{element_rest};

use crate::elements::elem;
use crate::opening::first_in;
use crate::shapes::Elem;
use std::marker::Model;

#[tactic(auto, unfolding(crate::specs::Reading::whole_of))]
pub(crate) fn read_whole(text: &[u8]) -> Option<Elem<'_>>
    ensures { option_map element result ≡ whole_of text.now }
{
    let (e, len) = elem(text)?;
    if len == text.len() { Some(e) } else { None }
}

/// The element that the whole text spells. Returns `None` if it spells none.
pub fn whole_elem(text: &[u8]) -> Option<Elem<'_>>
    // What is found is an element that the text spells.
    ensures found { IfSome result (λ e. IsElem text.now (element e)) }
    // Nothing is found only if the text spells no element.
    ensures none { IfNone result ((e : Element) → IsElem text.now e → ⊥) }
    // What is found is the element that the definitions compute.
    ensures exact { option_map element result ≡ whole_of text.now }
{
    read_whole(text)
}

#[tactic(auto, unfolding(crate::specs::ReadingForms::behind))]
fn behind(stop: u8, text: &[u8]) -> Option<&[u8]>
    ensures { option_copied result ≡ behind stop text.now }
{
    let (first, rest) = text.split_first()?;
    if *first == stop { Some(rest) } else { None }
}

// The element that begins the text, and what stands after the stop byte, which follows it.
#[tactic(auto, unfolding(crate::specs::ReadingForms::until_of))]
pub(crate) fn elem_until(text: &[u8], stop: u8) -> Option<(Elem<'_>, &[u8])>
    ensures { option_map element_rest result ≡ until_of stop text.now }
{
    let (e, len) = elem(text)?;
    let rest = behind(stop, &text[len..])?;
    Some((e, rest))
}

pub(crate) fn end_of(text: &[u8]) -> &[u8]
    ensures { result.now ≡ [] }
{
    &text[text.len()..]
}

// The first of `count` elements, and the text of the others.
fn split_elem(count: u64, text: &[u8]) -> Option<(Elem<'_>, &[u8])>
    requires { 0 < count }
    ensures { joined_of count text.now ≡ with_first (count - 1) (option_map element_rest result) }
{
    let (found, others) = first_in(text, text, count)?;
    Some((found.elem, others))
}

// Whether the text spells `count` elements, which isn't checked if `spelled` says that it is known.
fn are_joined(count: u64, text: &[u8], spelled: bool) -> bool
    requires { spelled ≡ true → IsSome (joined_of count text.now) }
    ensures { result ≡ is_some (joined_of count text.now) }
{
    if spelled {
        return true;
    }
    let mut left = count;
    let mut rest = text;
    while left > 0 {
        let Some((_, others)) = split_elem(left, rest) else {
            return false;
        };
        rest = others;
        left -= 1;
    }
    rest.is_empty()
}

/// An iterator over the elements that a text spells, joined by commas.
/// Contracts see it as the list of the elements that are left.
#[derive(Drop)]
pub struct Elems<'a> {
    text: &'a [u8],
    left: u64,
}

impl<'a> Model for Elems<'a> {
    ghost Value = { List Element };

    ghost view = { λ s. joined_list s.left s.text.now };

    ghost invariant = { λ s. IsTrue (is_some (joined_of s.left s.text.now)) };
}

impl<'a> Elems<'a> {
    // The `count` elements, if the whole text spells them.
    pub(crate) fn new(count: u64, text: &'a [u8], spelled: bool) -> Option<Elems<'a>>
        requires { spelled ≡ true → IsSome (joined_of count text.now) }
        ensures { result ≡ joined_of count text.now }
    {
        if are_joined(count, text, spelled) {
            Some(Elems { text, left: count })
        } else {
            None
        }
    }

    /// How many elements are left: fewer than the most bytes that a text can have.
    pub fn left(&self) -> u64
        ensures count { result ≡ length self.now }
        ensures few { result < 2 ^ 63 }
    {
        self.left
    }

    /// A second iterator over the elements that are left.
    pub fn again(&self) -> Elems<'a>
        ensures { result ≡ self.now }
    {
        Elems {
            text: self.text,
            left: self.left,
        }
    }
}

impl<'a> Iterator for Elems<'a> {
    type Item = Elem<'a>;

    ghost next_gives = { YieldsFirstBy element (λ left. left) };

    ghost remaining = { item_count (λ left. left) };

    fn next(&mut self) -> Option<Elem<'a>> {
        if self.left == 0 {
            return None;
        }
        let (first, rest) = split_elem(self.left, self.text)?;
        self.text = rest;
        self.left -= 1;
        Some(first)
    }
}
