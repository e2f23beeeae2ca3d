// The shapes of the parts of the last level.
ghost use Rattle.std.specs.Prelude.{◌≡◌, ◌<◌, ◌^◌, [], length, map, take, slice_get, slice_index_or, Some, IfOk, OnOk};
ghost use Rattle.std.specs.List.{sum_by};
ghost use Rattle.text_groups.specs.Sorting.{most_first};
ghost use Rattle.heap_levels.specs.Inner.Plain.{text_shapes};
ghost use Rattle.heap_levels.specs.Inner.Shapes.{kept_group};
ghost use Rattle.heap_levels.specs.Shown.{shown_shape};

use std::alloc::{AllocError, Global};
use std::marker::Model;
use text_groups::{Grouped, Measured, TextGroup, group_texts, sort_most_first};
use tuple_fronts::Texts;

/// A shape of the parts of the last level.
#[derive(Clone, Copy)]
pub struct ShapeRow<'a> {
    /// How many parts have it.
    pub parts: u64,
    /// The sum of the words that each of them alone holds.
    pub words: u128,
    /// The text of the shape.
    pub text: &'a [u8],
}

// The parts that have a shape: the first of them, how many they are, and the words that they alone hold.
#[derive(Clone, Copy)]
pub(crate) struct ShapeGroup {
    pub first: usize,
    pub parts: u64,
    pub words: u128,
}

impl Measured for ShapeGroup {
    ghost size = { λ group. group.words };

    fn size(&self) -> u128 {
        self.words
    }
}

// The parts of the last level, which are grouped by their shapes.
#[derive(Drop)]
struct ShapedItems<'a> {
    texts: &'a Texts,
    words: &'a [u64],
}

impl<'a> Model for ShapedItems<'a> {
    ghost use Rattle.std.specs.Prelude.{◌≡◌, List, length, map};
    ghost use Rattle.std.specs.List.{zip};
    ghost use Rattle.text_groups.specs.Groups.{Item};
    ghost use Rattle.heap_levels.specs.Inner.Plain.{text_item};

    ghost Value = { List Item };

    ghost view = { λ s. map text_item (zip s.texts.now s.words.now) };

    ghost invariant = { λ s. length s.texts.now ≡ length s.words.now };
}

// The text of the shape of the part at a place. Past the last one it is empty.
fn shape_at(texts: &Texts, i: usize) -> &[u8]
    ensures { result.now ≡ slice_index_or texts.now i [] }
{
    if i < texts.len() { texts.get(i) } else { b"" }
}

// The words that the part at a place alone holds. Past the last one there are none.
fn words_at(words: &[u64], i: usize) -> u64
    ensures { result ≡ slice_index_or words.now i 0 }
{
    if i < words.len() { words[i] } else { 0 }
}

impl<'a> Grouped for ShapedItems<'a> {
    ghost items = { λ items. items };

    fn len(&self) -> usize {
        self.words.len()
    }

    fn text(&self, i: usize) -> &[u8] {
        shape_at(self.texts, i)
    }

    fn weight(&self, i: usize) -> u64 {
        words_at(self.words, i)
    }
}

// The sum of words.
fn sum_words(words: &[u64]) -> u128
    ensures { result ≡ sum_by (λ words. words) words.now }
{
    let mut sum = 0u128;
    for own in words {
        sum += u128::from(*own);
    }
    sum
}

// Fails if parts alone hold more than 2^64 - 1 words together: no group of them has a sum above that.
fn check_sum(words: &[u64]) -> Result<(), AllocError>
    ensures { OnOk result (sum_by (λ words. words) words.now < 2 ^ 64) }
{
    if sum_words(words) > u128::from(u64::MAX) {
        return Err(AllocError);
    }
    Ok(())
}

fn kept_group(group: &TextGroup) -> ShapeGroup
    ensures { result ≡ kept_group group.now }
{
    ShapeGroup {
        first: group.first,
        parts: group.count,
        words: u128::from(group.weight),
    }
}

// The first of these groups, at most `most`, with the most words first.
fn first_groups(
    alloc: Global,
    groups: &[TextGroup],
    most: usize,
) -> Result<Vec<ShapeGroup>, AllocError>
    ensures { IfOk result (λ first. first.items ≡ take most (most_first (λ group. group.words) (map kept_group groups.now))) }
{
    let mut first = Vec::new(alloc);
    for group in groups {
        first.push(kept_group(group))?;
    }
    sort_most_first(&mut first)?;
    first.truncate(most);
    first.shrink_to_fit();
    Ok(first)
}

// The texts of groups.
fn group_texts_of(alloc: Global, groups: &[ShapeGroup], texts: &Texts) -> Result<Texts, AllocError>
    ensures { IfOk result (λ found. found ≡ map (λ group. slice_index_or texts.now group.first []) groups.now) }
{
    let mut found = Texts::new(alloc);
    for group in groups {
        found.push(shape_at(texts, group.first))?;
    }
    Ok(found)
}

/// Shapes. Contracts see the list of them.
#[derive(Drop)]
pub(crate) struct ShapeRows {
    groups: Vec<ShapeGroup>,
    texts: Texts,
}

impl Model for ShapeRows {
    ghost use Rattle.std.specs.Prelude.{◌≡◌, List, length};
    ghost use Rattle.heap_levels.specs.Levels.{Shape};
    ghost use Rattle.heap_levels.specs.Inner.Shapes.{shown_shapes};

    ghost Value = { List Shape };

    ghost view = { λ s. shown_shapes s.groups.items s.texts };

    ghost invariant = { λ s. length s.texts ≡ length s.groups.items };
}

// The group at a place.
fn group_at(groups: &[ShapeGroup], i: usize) -> ShapeGroup
    requires { i < length groups.now }
    ensures { slice_get groups.now i ≡ Some result }
{
    groups[i]
}

impl ShapeRows {
    /// How many shapes there are.
    pub(crate) fn len(&self) -> usize
        ensures { result ≡ length self.now }
    {
        self.groups.len()
    }

    /// The shape at a place.
    pub(crate) fn row(&self, i: usize) -> ShapeRow<'_>
        requires { i < length self.now }
        ensures { slice_get self.now i ≡ Some (shown_shape result) }
    {
        let group = group_at(&self.groups, i);
        ShapeRow {
            parts: group.parts,
            words: group.words,
            text: self.texts.get(i),
        }
    }
}

/// The shapes of parts that alone hold so many words, at most `most`, with the most words first.
pub(crate) fn shapes_of_parts(
    alloc: Global,
    texts: &Texts,
    words: &[u64],
    most: usize,
) -> Result<ShapeRows, AllocError>
    requires { length texts.now ≡ length words.now }
    ensures { IfOk result (λ rows. rows ≡ take most (text_shapes texts.now words.now)) }
{
    check_sum(words)?;
    let items = ShapedItems { texts, words };
    let groups = first_groups(alloc, &group_texts(alloc, &items)?, most)?;
    let texts = group_texts_of(alloc, &groups, texts)?;
    Ok(ShapeRows { groups, texts })
}
