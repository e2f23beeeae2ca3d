// The shapes of keys, from what was read.
ghost use Rattle.std.specs.Prelude.{◌≡◌, ◌++◌, false, map, IfOk, OnOk};
ghost use Rattle.tuple_fronts.specs.CellTexts.{AreInner};
ghost use Rattle.part_keys.specs.Inner.KeyTexts.{key_text};

use crate::key_places::KeyPlace;
use heap_skeleton::Skeleton;
use std::alloc::{AllocError, Global};
use tuple_fronts::{Texts, Tuples, push_element};

// Appends the shape of an element of a cell, if so many are known.
fn push_key(
    alloc: Global,
    text: &mut Vec<u8>,
    skeleton: &Skeleton,
    firsts: &Tuples,
    tuples: &Tuples,
    inner: &Texts,
    cell: u32,
    place: usize,
) -> Result<(), AllocError>
    requires { AreInner false skeleton.now tuples.now inner.now }
    ensures { OnOk result (text.new.items ≡ text.old.items
        ++ key_text skeleton.now firsts.now tuples.now (KeyPlace.At cell place)) }
{
    let front = firsts.front(cell);
    if place >= front.count() {
        return text.extend_from_slice(b"?");
    }
    push_element(
        alloc,
        text,
        skeleton,
        tuples,
        inner,
        &front.element(place),
        false,
    )
}

// Appends the shape of a key.
fn push_shape(
    alloc: Global,
    text: &mut Vec<u8>,
    skeleton: &Skeleton,
    firsts: &Tuples,
    tuples: &Tuples,
    inner: &Texts,
    key: KeyPlace,
) -> Result<(), AllocError>
    requires { AreInner false skeleton.now tuples.now inner.now }
    ensures { OnOk result (text.new.items ≡ text.old.items
        ++ key_text skeleton.now firsts.now tuples.now key) }
{
    match key {
        KeyPlace::NoKey => text.extend_from_slice(b"-"),
        KeyPlace::Unknown => text.extend_from_slice(b"?"),
        KeyPlace::At(cell, place) => {
            push_key(alloc, text, skeleton, firsts, tuples, inner, cell, place)
        }
    }
}

/// The shapes of keys, given the first elements of the cells in which they stand, and those of the tuples to which they refer.
pub(crate) fn key_texts(
    alloc: Global,
    skeleton: &Skeleton,
    firsts: &Tuples,
    tuples: &Tuples,
    inner: &Texts,
    keys: &[KeyPlace],
) -> Result<Texts, AllocError>
    requires { AreInner false skeleton.now tuples.now inner.now }
    ensures { IfOk result (λ texts. texts ≡ map (key_text skeleton.now firsts.now tuples.now) keys.now) }
{
    let mut texts = Texts::new(alloc);
    let mut text = Vec::new(alloc);
    for key in keys {
        text.clear();
        push_shape(alloc, &mut text, skeleton, firsts, tuples, inner, *key)?;
        texts.push(&text)?;
    }
    Ok(texts)
}
