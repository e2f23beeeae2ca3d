// What the text of a cell's form spells: its kind, its words, and its elements.
ghost use Rattle.std.specs.Prelude.{◌≡◌, ℕ, ◌<◌, ◌≤◌, ◌^◌, ◌∷◌, [], length, None, Some, OnOk, IfOk};
ghost use Rattle.term_forms.specs.Seen.{element};
ghost use Rattle.term_forms.specs.SeenPlaces.{placed};
ghost use Rattle.term_forms.specs.Places.{elements_of};
ghost use Rattle.term_forms.specs.SeenForms.{heap_form};
ghost use Rattle.term_forms.specs.ReadingForms.{form_of};
ghost use Rattle.heap_graph.specs.Elements.{found_at, found_in, Appends, PushesElements, PushesForm, PushesRead};
ghost use Rattle.heap_graph.specs.Leads.{lead_of};
ghost use Rattle.heap_graph.specs.Reading.{read_of, read_with};

use crate::elements::Elements;
use crate::kinds::kind_of;
use crate::leads::Lead;
use crate::words::{kind_words, payload_words};
use cell_records::Kind;
use std::alloc::AllocError;
use term_forms::shapes::{Elem, Form, Opened};
use term_forms::{Enc, Joined, PlacedElem, open_form};

// The kind of the form that a text spells, if it spells one, its words, and how many elements it has.
#[derive(Drop)]
pub(crate) struct Read {
    pub kind: Option<Kind>,
    pub words: u64,
    pub count: u64,
}

fn lead_of(e: &Elem<'_>) -> Lead
    ensures { result ≡ lead_of (element e.now) }
{
    match e {
        Elem::Ref(address) => Lead::Cell(*address),
        Elem::Nil | Elem::Small(_) | Elem::Atom(_) | Elem::Pid(_) | Elem::Port(_) => Lead::Nowhere,
    }
}

// An element of a text before which so many bytes stand.
#[inline(always)]
fn push_elem(elements: &mut Elements, from: u64, found: &PlacedElem<'_>) -> Result<(), AllocError>
    ensures { OnOk result (Appends elements.old elements.new
        (found_at from (placed found.now) ∷ [])) }
{
    elements.push(lead_of(&found.elem), from, found.at, found.len)
}

// A cons cell's head and tail.
#[inline(always)]
fn push_pair(
    elements: &mut Elements,
    from: u64,
    head: &PlacedElem<'_>,
    tail: &PlacedElem<'_>,
) -> Result<(), AllocError>
    ensures { OnOk result (Appends elements.old elements.new
        (found_at from (placed head.now) ∷ found_at from (placed tail.now) ∷ [])) }
{
    push_elem(elements, from, head)?;
    push_elem(elements, from, tail)
}

// A form without elements. A sub binary leads to the binary of which it is a part.
fn push_plain(elements: &mut Elements, form: &Form<'_>) -> Result<Read, AllocError>
    requires { elements_of (heap_form form.now) ≡ [] }
    ensures read { IfOk result (λ read. read ≡ read_of (Some (heap_form form.now))) }
    ensures pushed { OnOk result ((from : ℕ)
        → Appends elements.old elements.new (found_in from (Some (heap_form form.now)) [])) }
{
    if let Form::SubBin(address, _, _) = form {
        elements.push(Lead::Binary(*address), 0, 0, 0)?;
    }
    let kind = kind_of(form);
    Ok(Read {
        kind: Some(kind),
        words: kind_words(kind, 0) + payload_words(form),
        count: 0,
    })
}

// No form.
fn malformed() -> Read
    ensures { result ≡ read_of None }
{
    Read {
        kind: None,
        words: 0,
        count: 0,
    }
}

// Elements, each of which is read once, of a form without a payload that has so many elements before them.
fn push_joined(
    kept: &mut Elements,
    from: u64,
    mut elements: Joined<'_>,
    kind: Kind,
    before: u32,
) -> Result<Read, AllocError>
    requires small { length elements.text < 2 ^ 63 }
    requires few { before ≤ 1 }
    ensures read { IfOk result (λ read. read ≡ read_with kind before elements.entry.elements) }
    ensures pushed { OnOk result (PushesElements from elements.entry.text kept.old kept.new
        elements.entry.elements) }
{
    let count = elements.left();
    while elements.left() > 0 {
        let Some(found) = elements.next_elem() else {
            return Ok(malformed());
        };
        push_elem(kept, from, &found)?;
    }
    if !elements.is_over() {
        return Ok(malformed());
    }
    let Ok(all) = u32::try_from(u64::from(before) + count) else {
        return Err(AllocError);
    };
    Ok(Read {
        kind: Some(kind),
        words: kind_words(kind, all),
        count: u64::from(all),
    })
}

// The elements that the text spells, until it turns out to spell no form.
#[inline(always)]
fn push_opened(
    elements: &mut Elements,
    text: &[u8],
    enc: Enc,
    from: u64,
) -> Result<Read, AllocError>
    ensures read { IfOk result (λ read. read ≡ read_of (form_of enc text.now)) }
    ensures pushed { OnOk result (PushesRead from text.now elements.old elements.new
        (form_of enc text.now)) }
{
    let Some(opened) = open_form(text, enc) else {
        return Ok(malformed());
    };
    match opened {
        Opened::List(head, tail) => {
            push_pair(elements, from, &head, &tail)?;
            Ok(Read {
                kind: Some(Kind::List),
                words: kind_words(Kind::List, 2),
                count: 2,
            })
        }
        Opened::Tuple(rest) => push_joined(elements, from, rest, Kind::Tuple, 0),
        Opened::Flat(keys, values) => {
            push_elem(elements, from, &keys)?;
            push_joined(elements, from, values, Kind::Flat, 1)
        }
        Opened::Hash(_, children) => push_joined(elements, from, children, Kind::Hash, 0),
        Opened::Node(children) => push_joined(elements, from, children, Kind::Node, 0),
        Opened::Plain(form) => push_plain(elements, &form),
    }
}

// Reads the text of a cell's form once, before which so many bytes stand, and pushes its
// elements. Those of a text that turns out to spell no form are taken back.
#[inline(always)]
pub(crate) fn push_form(
    elements: &mut Elements,
    text: &[u8],
    enc: Enc,
    from: u64,
) -> Result<Read, AllocError>
    ensures read { IfOk result (λ read. read ≡ read_of (form_of enc text.now)) }
    ensures pushed { OnOk result (PushesForm from text.now elements.old elements.new
        (form_of enc text.now)) }
{
    let len = elements.len();
    let addresses = elements.address_count();
    let read = push_opened(elements, text, enc, from)?;
    if read.kind.is_some() {
        return Ok(read);
    }
    elements.truncate(len, addresses);
    Ok(read)
}
