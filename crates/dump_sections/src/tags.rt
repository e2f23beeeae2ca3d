// How many sections each tag has.
ghost use Rattle.std.specs.Prelude.{◌≡◌, ◌+◌, ◌^◌, ◌<◌, true, None, Some, All, length, take, slice_get, IfOk, OnOk};
ghost use Rattle.dump_sections.specs.Tags.{tag_counts, tags_in};
ghost use Rattle.dump_sections.specs.Inner.Counting.{counts_of, one_more, place_in, AreNumbered, AreApart, IsCounted};

use crate::index::Index;
use crate::marks::mark_of;
use std::alloc::{AllocError, Global};
use std::collections::BTreeMap;
use std::marker::Model;

// A tag, and how many sections have it.
#[derive(Drop)]
pub(crate) struct TagCount {
    tag: Vec<u8>,
    count: u64,
}

/// How many sections each tag has, in the order in which the tags first appear.
#[derive(Drop)]
pub struct Tags {
    counts: Vec<TagCount>,
}

impl Model for Tags {
    ghost use Rattle.std.specs.Prelude.{List, ℕ};
    ghost use Rattle.dump_sections.specs.Inner.Counting.{counts_of};

    ghost Value = { List (List ℕ × ℕ) };

    ghost view = { λ tags. counts_of tags.counts.items };
}

// Guesses the next tag: the one that last followed the same tag. Nothing
// is promised of a guess, since it is compared where it is used.
#[derive(Drop)]
struct Guesses {
    next: Vec<usize>,
    last: usize,
}

impl Guesses {
    fn new(alloc: Global) -> Guesses {
        Guesses {
            next: Vec::new(alloc),
            last: 0,
        }
    }

    fn likely(&self) -> usize {
        match self.next.get(self.last) {
            Some(next) => *next,
            None => 0,
        }
    }

    // Notes the number of the tag that came.
    fn note(&mut self, number: usize) -> Result<(), AllocError> {
        if number >= self.next.len() {
            self.next.push(0)?;
        }
        if let Some(next) = self.next.get_mut(self.last) {
            *next = number;
        }
        self.last = number;
        Ok(())
    }
}

// Whether the tag with this number is the given one.
fn is_tag(counts: &[TagCount], number: usize, tag: &[u8]) -> bool
    requires { AreApart (counts_of counts.now) }
    ensures { result ≡ true → place_in tag.now (counts_of counts.now) ≡ Some number }
{
    match counts.get(number) {
        Some(count) => tag == count.tag.as_slice(),
        None => false,
    }
}

// The number of a tag, if it has come before. The likely number is tried first.
fn number_of<'a>(
    counts: &[TagCount],
    numbers: &BTreeMap<(u64, &'a [u8]), usize>,
    likely: usize,
    tag: &'a [u8],
) -> Option<usize>
    requires apart { AreApart (counts_of counts.now) }
    requires numbered { AreNumbered numbers.now (counts_of counts.now) }
    ensures { result ≡ place_in tag.now (counts_of counts.now) }
{
    if is_tag(counts, likely, tag) {
        return Some(likely);
    }
    let key = (mark_of(tag), tag);
    numbers.get(&key).copied()
}

// Counts one more section of the tag with this number.
fn add_one(counts: &mut Vec<TagCount>, number: usize, tag: &[u8])
    requires place { place_in tag.now (counts_of counts.old.items) ≡ Some number }
    requires few { All (λ count. count.1 + 1 < 2 ^ 64) (counts_of counts.old.items) }
    ensures { counts_of counts.new.items ≡ one_more tag.now (counts_of counts.old.items) }
{
    counts[number].count += 1;
}

// Counts the first section of a tag.
fn add_tag<'a>(
    alloc: Global,
    counts: &mut Vec<TagCount>,
    numbers: &mut BTreeMap<(u64, &'a [u8]), usize>,
    tag: &'a [u8],
) -> Result<(), AllocError>
    requires new { place_in tag.now (counts_of counts.old.items) ≡ None }
    requires numbered { AreNumbered numbers.old (counts_of counts.old.items) }
    ensures counts { OnOk result (counts_of counts.new.items
        ≡ one_more tag.now (counts_of counts.old.items)) }
    ensures numbered { OnOk result (AreNumbered numbers.new (counts_of counts.new.items)) }
{
    let text = Vec::from_slice(alloc, tag)?;
    numbers.insert((mark_of(tag), tag), counts.len())?;
    counts.push(TagCount {
        tag: text,
        count: 1,
    })?;
    Ok(())
}

// Counts the section at a place, after those before it, and returns the number of its tag. The likely number is
// tried first. Otherwise the tag is looked up in a tree, by its mark first, so that few of the comparisons read
// tags. Whoever writes a dump could give all tags one mark, as they could one hash; a tree is fast even then.
fn count_section<'a>(
    alloc: Global,
    counts: &mut Vec<TagCount>,
    numbers: &mut BTreeMap<(u64, &'a [u8]), usize>,
    likely: usize,
    index: &'a Index,
    i: usize,
) -> Result<usize, AllocError>
    requires place { i < length index.now.headers }
    requires fits { i + 1 < 2 ^ 64 }
    requires before { IsCounted numbers.old (counts_of counts.old.items)
        (take i (tags_in index.now)) }
    ensures { OnOk result (IsCounted numbers.new (counts_of counts.new.items)
        (take (i + 1) (tags_in index.now))) }
{
    let tag = index.section(i).tag;
    match number_of(counts, numbers, likely, tag) {
        Some(number) => {
            add_one(counts, number, tag);
            Ok(number)
        }
        None => {
            let number = counts.len();
            add_tag(alloc, counts, numbers, tag)?;
            Ok(number)
        }
    }
}

impl Tags {
    /// Counts the sections of an index by their tags.
    pub fn count(alloc: Global, index: &Index) -> Result<Tags, AllocError>
        ensures { IfOk result (λ tags. tags ≡ tag_counts (tags_in index.now)) }
    {
        let mut counts = Vec::new(alloc);
        let mut numbers = BTreeMap::new(alloc);
        let mut guesses = Guesses::new(alloc);
        for i in 0..index.len() {
            let number = count_section(
                alloc,
                &mut counts,
                &mut numbers,
                guesses.likely(),
                index,
                i,
            )?;
            guesses.note(number)?;
        }
        Ok(Tags { counts })
    }

    /// The number of different tags.
    pub fn len(&self) -> usize
        ensures { result ≡ length self.now }
    {
        self.counts.len()
    }

    /// The tag at a place, from 0, and the number of sections that have it.
    pub fn at(&self, i: usize) -> (&[u8], u64)
        requires { i < length self.now }
        ensures { slice_get self.now i ≡ Some (result.0.now, result.1) }
    {
        let count = &self.counts[i];
        (count.tag.as_slice(), count.count)
    }
}
