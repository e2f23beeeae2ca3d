// The shapes of cells, in which pids are shown or not.
ghost use Rattle.std.specs.Prelude.{◌≡◌, ◌<◌, ◌++◌, All, false, length, map, IfOk, OnOk};
ghost use Rattle.term_forms.specs.Seen.{element};
ghost use Rattle.tuple_fronts.specs.Shapes.{comma_list, tags_with};
ghost use Rattle.tuple_fronts.specs.CellTexts.{element_text, element_texts, inner_text, size_of, subject_text, tag_at, tuple_with, AreInner};
ghost use Rattle.tuple_fronts.specs.Tuples.{front_at};

use crate::cell_set::CellSet;
use crate::front::Front;
use crate::texts::Texts;
use crate::tuples::Tuples;
use crate::words::{kind_word, push_comma, push_end, push_pid, push_plain_with, push_tag};
use cell_graphs::CellGraph;
use heap_skeleton::Skeleton;
use std::alloc::{AllocError, Global};
use term_forms::shapes::Elem;

// Appends the text of the element at a place of a tuple inside a message, if no pid is shown.
fn push_unshown(
    alloc: Global,
    text: &mut Vec<u8>,
    place: usize,
    e: &Elem<'_>,
) -> Result<(), AllocError>
    ensures { OnOk result (text.new.items ≡ text.old.items ++ tag_at false place (element e.now)) }
{
    if place == 0 {
        push_tag(alloc, text, e)
    } else {
        text.extend_from_slice(b"_")
    }
}

// Appends the text of the element at a place of a tuple inside a message.
fn push_tag_at(
    alloc: Global,
    text: &mut Vec<u8>,
    place: usize,
    e: &Elem<'_>,
    pids: bool,
) -> Result<(), AllocError>
    ensures { OnOk result (text.new.items ≡ text.old.items ++ tag_at pids place (element e.now)) }
{
    match e {
        Elem::Pid(pid) => push_pid(text, pid, b"_", pids),
        _ => push_unshown(alloc, text, place, e),
    }
}

// Appends the elements of a tuple inside a message.
fn push_tags(
    alloc: Global,
    text: &mut Vec<u8>,
    front: &Front<'_>,
    pids: bool,
) -> Result<(), AllocError>
    ensures { OnOk result (text.new.items ≡ text.old.items ++ comma_list (tags_with pids front.now)) }
{
    for place in 0..front.count() {
        push_comma(text, place)?;
        push_tag_at(alloc, text, place, &front.element(place), pids)?;
    }
    Ok(())
}

// Appends a tuple inside a message.
fn push_inner_tuple(
    alloc: Global,
    text: &mut Vec<u8>,
    skeleton: &Skeleton,
    tuples: &Tuples,
    cell: u32,
    pids: bool,
) -> Result<(), AllocError>
    requires { cell < length skeleton.now.leads }
    ensures { OnOk result (text.new.items ≡ text.old.items
        ++ tuple_with (size_of skeleton.now cell) (tags_with pids (front_at tuples.now cell))) }
{
    let front = tuples.front(cell);
    text.push(b'{')?;
    push_tags(alloc, text, &front, pids)?;
    push_end(text, front.count(), skeleton.places(cell))
}

// Makes the shape of a cell inside a message.
fn push_new_inner(
    alloc: Global,
    text: &mut Vec<u8>,
    skeleton: &Skeleton,
    tuples: &Tuples,
    cell: u32,
    pids: bool,
) -> Result<(), AllocError>
    requires { cell < length skeleton.now.leads }
    ensures { OnOk result (text.new.items ≡ text.old.items ++ inner_text pids skeleton.now tuples.now cell) }
{
    if skeleton.is_tuple(cell) {
        push_inner_tuple(alloc, text, skeleton, tuples, cell, pids)
    } else {
        text.extend_from_slice(kind_word(skeleton.kind(cell)))
    }
}

/// The shapes that tuples have inside messages, given the first 8 elements of each. Each is made once, however many messages
/// show it.
pub fn inner_texts(
    alloc: Global,
    skeleton: &Skeleton,
    tuples: &Tuples,
    pids: bool,
) -> Result<Texts, AllocError>
    requires { All (λ n. n < length skeleton.now.leads) tuples.now.cells }
    ensures { IfOk result (AreInner pids skeleton.now tuples.now) }
{
    let mut texts = Texts::new(alloc);
    let mut text = Vec::new(alloc);
    for cell in tuples.cells() {
        text.clear();
        push_new_inner(alloc, &mut text, skeleton, tuples, *cell, pids)?;
        texts.push(&text)?;
    }
    Ok(texts)
}

// Appends the shape of a cell inside a message, given those of tuples.
fn push_inner(
    alloc: Global,
    text: &mut Vec<u8>,
    skeleton: &Skeleton,
    tuples: &Tuples,
    inner: &Texts,
    cell: u32,
    pids: bool,
) -> Result<(), AllocError>
    requires cell { cell < length skeleton.now.leads }
    requires inner { AreInner pids skeleton.now tuples.now inner.now }
    ensures { OnOk result (text.new.items ≡ text.old.items ++ inner_text pids skeleton.now tuples.now cell) }
{
    match tuples.place(cell) {
        Some(place) => text.extend_from_slice(inner.get(place)),
        None => push_new_inner(alloc, text, skeleton, tuples, cell, pids),
    }
}

/// Appends the shape of an element of a message, given the tuples among those to which it refers, and their shapes inside
/// messages.
pub fn push_element(
    alloc: Global,
    text: &mut Vec<u8>,
    skeleton: &Skeleton,
    tuples: &Tuples,
    inner: &Texts,
    e: &Elem<'_>,
    pids: bool,
) -> Result<(), AllocError>
    requires { AreInner pids skeleton.now tuples.now inner.now }
    ensures { OnOk result (text.new.items ≡ text.old.items
        ++ element_text pids skeleton.now tuples.now (element e.now)) }
{
    if let Elem::Ref(address) = e {
        if let Some(cell) = skeleton.find(*address) {
            return push_inner(alloc, text, skeleton, tuples, inner, cell, pids);
        }
    }
    push_plain_with(alloc, text, e, pids)
}

// Appends the shapes of the first elements of a cell.
fn push_elements(
    alloc: Global,
    text: &mut Vec<u8>,
    skeleton: &Skeleton,
    tuples: &Tuples,
    inner: &Texts,
    front: &Front<'_>,
    pids: bool,
) -> Result<(), AllocError>
    requires { AreInner pids skeleton.now tuples.now inner.now }
    ensures { OnOk result (text.new.items ≡ text.old.items
        ++ comma_list (map (element_text pids skeleton.now tuples.now) front.now)) }
{
    for place in 0..front.count() {
        push_comma(text, place)?;
        push_element(
            alloc,
            text,
            skeleton,
            tuples,
            inner,
            &front.element(place),
            pids,
        )?;
    }
    Ok(())
}

// Appends a tuple to which a message refers.
fn push_subject_tuple(
    alloc: Global,
    text: &mut Vec<u8>,
    skeleton: &Skeleton,
    tuples: &Tuples,
    inner: &Texts,
    cell: u32,
    pids: bool,
) -> Result<(), AllocError>
    requires cell { cell < length skeleton.now.leads }
    requires inner { AreInner pids skeleton.now tuples.now inner.now }
    ensures { OnOk result (text.new.items ≡ text.old.items
        ++ tuple_with (size_of skeleton.now cell) (element_texts pids skeleton.now tuples.now cell)) }
{
    let front = tuples.front(cell);
    text.push(b'{')?;
    push_elements(alloc, text, skeleton, tuples, inner, &front, pids)?;
    push_end(text, front.count(), skeleton.places(cell))
}

/// Appends the shape of a cell to which a message refers, given the tuples that it needs, and their shapes inside messages.
pub fn push_subject(
    alloc: Global,
    text: &mut Vec<u8>,
    skeleton: &Skeleton,
    tuples: &Tuples,
    inner: &Texts,
    cell: u32,
    pids: bool,
) -> Result<(), AllocError>
    requires cell { cell < length skeleton.now.leads }
    requires inner { AreInner pids skeleton.now tuples.now inner.now }
    ensures { OnOk result (text.new.items ≡ text.old.items ++ subject_text pids skeleton.now tuples.now cell) }
{
    if skeleton.is_tuple(cell) {
        push_subject_tuple(alloc, text, skeleton, tuples, inner, cell, pids)
    } else {
        text.extend_from_slice(kind_word(skeleton.kind(cell)))
    }
}

/// The shapes of cells to which messages refer.
pub(crate) fn subject_texts(
    alloc: Global,
    skeleton: &Skeleton,
    tuples: &Tuples,
    inner: &Texts,
    cells: &CellSet,
    pids: bool,
) -> Result<Texts, AllocError>
    requires cells { All (λ n. n < length skeleton.now.leads) cells.now }
    requires inner { AreInner pids skeleton.now tuples.now inner.now }
    ensures { IfOk result (λ texts. texts ≡ map (subject_text pids skeleton.now tuples.now) cells.now) }
{
    let mut texts = Texts::new(alloc);
    let mut text = Vec::new(alloc);
    for cell in cells.numbers() {
        text.clear();
        push_subject(alloc, &mut text, skeleton, tuples, inner, *cell, pids)?;
        texts.push(&text)?;
    }
    Ok(texts)
}
