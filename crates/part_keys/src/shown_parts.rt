// The shapes of parts, from what was read.
ghost use Rattle.std.specs.Prelude.{◌≡◌, ◌++◌, ◌<◌, false, length, map, IfOk, OnOk};
ghost use Rattle.term_forms.specs.Seen.{element};
ghost use Rattle.tuple_fronts.specs.CellTexts.{AreInner};
ghost use Rattle.part_keys.specs.PartShapes.{AreShapedWithin, IsShapedWithin};
ghost use Rattle.part_keys.specs.Inner.PartTexts.{part_text, term_text, value_text};

use crate::shaped::ShapedPart;
use heap_skeleton::Skeleton;
use std::alloc::{AllocError, Global};
use term_forms::shapes::Elem;
use tuple_fronts::{Texts, Tuples, push_plain, push_subject};

// Appends the shape of a term.
fn push_term(
    alloc: Global,
    text: &mut Vec<u8>,
    skeleton: &Skeleton,
    tuples: &Tuples,
    inner: &Texts,
    e: &Elem<'_>,
) -> Result<(), AllocError>
    requires { AreInner false skeleton.now tuples.now inner.now }
    ensures { OnOk result (text.new.items ≡ text.old.items ++ term_text skeleton.now tuples.now (element e.now)) }
{
    if let Elem::Ref(address) = e {
        if let Some(cell) = skeleton.find(*address) {
            return push_subject(alloc, text, skeleton, tuples, inner, cell, false);
        }
    }
    push_plain(alloc, text, e)
}

// Appends the shape of the tail of a list, if it is known.
fn push_value(
    alloc: Global,
    text: &mut Vec<u8>,
    skeleton: &Skeleton,
    firsts: &Tuples,
    tuples: &Tuples,
    inner: &Texts,
    pair: u32,
) -> Result<(), AllocError>
    requires { AreInner false skeleton.now tuples.now inner.now }
    ensures { OnOk result (text.new.items ≡ text.old.items
        ++ value_text skeleton.now firsts.now tuples.now pair) }
{
    let front = firsts.front(pair);
    if front.count() <= 1 {
        return text.extend_from_slice(b"?");
    }
    push_term(alloc, text, skeleton, tuples, inner, &front.element(1))
}

// Appends the shape of a part.
fn push_part(
    alloc: Global,
    text: &mut Vec<u8>,
    skeleton: &Skeleton,
    firsts: &Tuples,
    tuples: &Tuples,
    inner: &Texts,
    part: ShapedPart,
) -> Result<(), AllocError>
    requires part { IsShapedWithin (length skeleton.now.leads) part }
    requires inner { AreInner false skeleton.now tuples.now inner.now }
    ensures { OnOk result (text.new.items ≡ text.old.items
        ++ part_text skeleton.now firsts.now tuples.now part) }
{
    match part {
        ShapedPart::Cell(cell) => push_subject(alloc, text, skeleton, tuples, inner, cell, false),
        ShapedPart::Value(pair) => push_value(alloc, text, skeleton, firsts, tuples, inner, pair),
    }
}

/// The shapes of parts, given the first elements of the lists whose tails are shown, and those of the tuples that are needed.
pub(crate) fn part_texts(
    alloc: Global,
    skeleton: &Skeleton,
    firsts: &Tuples,
    tuples: &Tuples,
    inner: &Texts,
    parts: &[ShapedPart],
) -> Result<Texts, AllocError>
    requires parts { AreShapedWithin (length skeleton.now.leads) parts.now }
    requires inner { AreInner false skeleton.now tuples.now inner.now }
    ensures { IfOk result (λ texts. texts ≡ map (part_text skeleton.now firsts.now tuples.now) parts.now) }
{
    let mut texts = Texts::new(alloc);
    let mut text = Vec::new(alloc);
    for part in parts {
        text.clear();
        push_part(alloc, &mut text, skeleton, firsts, tuples, inner, *part)?;
        texts.push(&text)?;
    }
    Ok(texts)
}
