// Forms whose elements are read when they are asked for.
ghost use Rattle.std.specs.Prelude.{◌≡◌, ◌<◌, ◌≤◌, ◌-◌, [], length, true, None, Some, IsSome, IfSome, IfNone};
ghost use Rattle.std.specs.Bool.{OnTrue, OnFalse};
ghost use Rattle.std.specs.Option.{option_map, option_and_then};
ghost use Rattle.term_forms.specs.Unread.{IsFirstOf};
ghost use Rattle.term_forms.specs.Places.{StandsAt};
ghost use Rattle.term_forms.specs.Reading.{whole_of, led_of};
ghost use Rattle.term_forms.specs.ReadingForms.{form_of, cons_of, counted_of, flat_of, hash_of, map_of, until_of, joined_of, with_first};
ghost use Rattle.term_forms.specs.Inner.Ends.{IsEnd, placed_rest};
ghost use Rattle.term_forms.specs.Seen.{element, number_rest};
ghost use Rattle.term_forms.specs.SeenOpened.{opened_form, IsOpenedIn};
ghost use Rattle.term_forms.specs.SeenPlaces.{placed};

use crate::elems::{Elems, elem_until, end_of, read_whole};
use crate::plain::read_plain;
use crate::shapes::{Opened, PlacedElem};
use crate::words::split_number;
use binary_payloads::{Enc, payload_bytes_are_read};
use std::marker::Model;

/// The elements that a text has to spell from a place on, joined by commas. None of them is read before it is
/// asked for. Contracts see what the text spells there, or that it doesn't spell as many.
#[derive(Drop)]
pub struct Joined<'a> {
    text: &'a [u8],
    rest: &'a [u8],
    left: u64,
}

impl<'a> Model for Joined<'a> {
    ghost use Rattle.term_forms.specs.Unread.{Unread};
    ghost use Rattle.term_forms.specs.Inner.Ends.{IsEnd};
    ghost use Rattle.term_forms.specs.ReadingForms.{joined_of};

    ghost Value = { Unread };

    ghost view = { λ s. record {
      text = s.text.now;
      count = s.left;
      elements = joined_of s.left s.rest.now;
    } };

    ghost invariant = { λ s. IsEnd s.text.now s.rest.now };
}

// A number and its colon, and what stands behind them.
fn number_in<'a>(text: &'a [u8], rest: &'a [u8]) -> Option<(u64, &'a [u8])>
    requires { IsEnd text.now rest.now }
    ensures led { option_map number_rest result ≡ led_of rest.now }
    ensures end { IfSome result (λ found. IsEnd text.now found.1.now) }
{
    split_number(rest)
}

// The element that begins the rest of the text, and what stands behind the stop byte, which follows it.
fn elem_in<'a>(text: &'a [u8], rest: &'a [u8], stop: u8) -> Option<(PlacedElem<'a>, &'a [u8])>
    requires { IsEnd text.now rest.now }
    ensures until { option_map placed_rest result ≡ until_of stop rest.now }
    ensures stands { IfSome result (λ found. StandsAt text.now (placed found.0)) }
    ensures end { IfSome result (λ found. IsEnd text.now found.1.now) }
{
    let (elem, behind) = elem_until(rest, stop)?;
    let at = text.len() - rest.len();
    let len = rest.len() - behind.len() - 1;
    Some((PlacedElem { at, len, elem }, behind))
}

// The element that is the rest of the text.
fn last_in<'a>(text: &'a [u8], rest: &'a [u8]) -> Option<PlacedElem<'a>>
    requires { IsEnd text.now rest.now }
    ensures whole { option_map (λ found. element found.elem) result ≡ whole_of rest.now }
    ensures stands { IfSome result (λ found. StandsAt text.now (placed found)) }
{
    let elem = read_whole(rest)?;
    let at = text.len() - rest.len();
    let len = rest.len();
    Some(PlacedElem { at, len, elem })
}

// The first of `count` elements, and the text of the others.
pub(crate) fn first_in<'a>(
    text: &'a [u8],
    rest: &'a [u8],
    count: u64,
) -> Option<(PlacedElem<'a>, &'a [u8])>
    requires end { IsEnd text.now rest.now }
    requires some { 0 < count }
    ensures joined { joined_of count rest.now
        ≡ with_first (count - 1) (option_map placed_rest result) }
    ensures stands { IfSome result (λ found. StandsAt text.now (placed found.0)) }
    ensures end { IfSome result (λ found. IsEnd text.now found.1.now) }
{
    if count == 1 {
        let found = last_in(text, rest)?;
        Some((found, end_of(text)))
    } else {
        elem_in(text, rest, b',')
    }
}

impl<'a> Joined<'a> {
    /// How many elements the text still has to spell.
    pub fn left(&self) -> u64
        ensures count { result ≡ self.now.count }
        ensures few { IfSome self.now.elements (λ es. length es ≤ length self.now.text) }
        ensures over { result ≡ 0 → IfSome self.now.elements (λ es. es ≡ []) }
    {
        self.left
    }

    /// The next element, with its place. Returns `None` if the text doesn't spell all that it has to.
    pub fn next_elem(&mut self) -> Option<PlacedElem<'a>>
        requires { 0 < self.old.count }
        ensures first { IfSome result (λ found. IsFirstOf self.old self.new (placed found)) }
        ensures none { IfNone result (self.old.elements ≡ None) }
    {
        let (found, rest) = first_in(self.text, self.rest, self.left)?;
        self.rest = rest;
        self.left -= 1;
        Some(found)
    }

    /// Whether nothing stands behind the last element, once all are read.
    pub fn is_over(&self) -> bool
        requires { self.now.count ≡ 0 }
        ensures over { OnTrue result (self.now.elements ≡ Some []) }
        ensures more { OnFalse result (self.now.elements ≡ None) }
    {
        self.rest.is_empty()
    }

    // All the elements, if the text spells them, which isn't checked if `spelled` says that it is known.
    pub(crate) fn all(self, spelled: bool) -> Option<Elems<'a>>
        requires { spelled ≡ true → IsSome self.elements }
        ensures { result ≡ self.entry.elements }
    {
        Elems::new(self.left, self.rest, spelled)
    }
}

// A number, and that many elements.
#[tactic(auto, unfolding(crate::specs::ReadingForms::counted_of))]
fn counted<'a>(text: &'a [u8], rest: &'a [u8]) -> Option<Joined<'a>>
    requires { IsEnd text.now rest.now }
    ensures elements { option_and_then (λ es. es.elements) result ≡ counted_of rest.now }
    ensures text { IfSome result (λ es. es.text ≡ text.now) }
{
    let (left, rest) = number_in(text, rest)?;
    Some(Joined { text, rest, left })
}

#[tactic(auto, unfolding(crate::specs::ReadingForms::cons_of))]
fn list<'a>(text: &'a [u8], rest: &'a [u8]) -> Option<Opened<'a>>
    requires { IsEnd text.now rest.now }
    ensures form { option_and_then opened_form result ≡ cons_of rest.now }
    ensures places { IfSome result (IsOpenedIn text.now) }
{
    let (head, rest) = elem_in(text, rest, b'|')?;
    let tail = last_in(text, rest)?;
    Some(Opened::List(head, tail))
}

#[tactic(auto, unfolding(crate::specs::ReadingForms::flat_of))]
fn flat<'a>(text: &'a [u8], rest: &'a [u8]) -> Option<Opened<'a>>
    requires { IsEnd text.now rest.now }
    ensures form { option_and_then opened_form result ≡ flat_of rest.now }
    ensures places { IfSome result (IsOpenedIn text.now) }
{
    let (left, rest) = number_in(text, rest)?;
    let (keys, rest) = elem_in(text, rest, b':')?;
    Some(Opened::Flat(keys, Joined { text, rest, left }))
}

#[tactic(auto, unfolding(crate::specs::ReadingForms::hash_of))]
fn hash<'a>(text: &'a [u8], rest: &'a [u8]) -> Option<Opened<'a>>
    requires { IsEnd text.now rest.now }
    ensures form { option_and_then opened_form result ≡ hash_of rest.now }
    ensures places { IfSome result (IsOpenedIn text.now) }
{
    let (size, rest) = number_in(text, rest)?;
    let children = counted(text, rest)?;
    Some(Opened::Hash(size, children))
}

#[tactic(auto, unfolding(crate::specs::ReadingForms::map_of))]
fn map<'a>(text: &'a [u8], rest: &'a [u8]) -> Option<Opened<'a>>
    requires { IsEnd text.now rest.now }
    ensures form { option_and_then opened_form result ≡ map_of rest.now }
    ensures places { IfSome result (IsOpenedIn text.now) }
{
    let (kind, rest) = rest.split_first()?;
    match *kind {
        b'f' => flat(text, rest),
        b'h' => hash(text, rest),
        b'n' => {
            let children = counted(text, rest)?;
            Some(Opened::Node(children))
        }
        _ => None,
    }
}

// What `open_form` returns. If the text is known to spell a form, the characters of its payload aren't checked.
#[tactic(auto, unfolding(crate::specs::ReadingForms::form_of))]
pub(crate) fn open_known(text: &[u8], enc: Enc, spelled: bool) -> Option<Opened<'_>>
    requires { spelled ≡ true → IsSome (form_of enc text.now) }
    ensures form { option_and_then opened_form result ≡ form_of enc text.now }
    ensures places { IfSome result (IsOpenedIn text.now) }
{
    payload_bytes_are_read(enc);
    let (tag, rest) = text.split_first()?;
    match *tag {
        b'l' => list(text, rest),
        b't' => {
            let elements = counted(text, rest)?;
            Some(Opened::Tuple(elements))
        }
        b'M' => map(text, rest),
        _ => {
            let found = read_plain(*tag, rest, enc, spelled)?;
            Some(Opened::Plain(found))
        }
    }
}

/// How the form begins that the whole text spells: what stands before its elements is read, and these can be
/// read one by one. If all of them are read, and are followed by nothing, the text spells the form, as
/// [`form`](crate::reading::form) returns it. Returns `None` only if the text spells no form.
pub fn open_form(text: &[u8], enc: Enc) -> Option<Opened<'_>>
    // With the elements that the text spells it is the form of the text.
    ensures form { option_and_then opened_form result ≡ form_of enc text.now }
    // Each element is read at its place.
    ensures places { IfSome result (IsOpenedIn text.now) }
{
    open_known(text, enc, false)
}
