// The first section with a tag and each id.
ghost use Rattle.std.specs.Prelude.{◌≡◌, ◌+◌, ◌<◌, length, take, slice_get, Some, IfOk, IfSome, OnOk};
ghost use Rattle.std.specs.Option.{option_copied};
ghost use Rattle.dump_sections.specs.Bodies.{section_at, section_in};
ghost use Rattle.dump_sections.specs.Index.{sections_in};
ghost use Rattle.dump_sections.specs.Lookups.{first_named, is_named, place_where};
ghost use Rattle.dump_sections.specs.Inner.Places.{AreFirsts, IsFound, id_with};

use crate::Index;
use crate::places::FirstPlaces;
use std::alloc::{AllocError, Global};
use std::marker::Model;

// The id of the section at a place, if it has the tag.
fn id_at<'a>(index: &'a Index, tag: &[u8], i: usize) -> Option<&'a [u8]>
    requires { i < length index.now.headers }
    ensures id { option_copied result ≡ id_with tag.now (section_at index.now i) }
    ensures section { slice_get (sections_in index.now) i ≡ Some (section_at index.now i) }
{
    let section = index.section(i);
    if section.tag == tag { section.id } else { None }
}

// Appends the id of the section at a place, if it has the tag.
fn push_pair<'a>(
    pairs: &mut Vec<(&'a [u8], usize)>,
    index: &'a Index,
    tag: &[u8],
    i: usize,
) -> Result<(), AllocError>
    requires place { i < length index.now.headers }
    requires before { AreFirsts tag.now (take i (sections_in index.now)) pairs.old.items }
    ensures { OnOk result (AreFirsts tag.now (take (i + 1)
        (sections_in index.now)) pairs.new.items) }
{
    let Some(id) = id_at(index, tag, i) else {
        return Ok(());
    };
    pairs.push((id, i))?;
    Ok(())
}

// The ids of the sections with a tag, and the places of these sections.
fn pairs_of<'a>(
    alloc: Global,
    index: &'a Index,
    tag: &[u8],
) -> Result<Vec<(&'a [u8], usize)>, AllocError>
    ensures { IfOk result (λ pairs. IsFound index.now tag.now pairs.items) }
{
    let mut pairs = Vec::new(alloc);
    for i in 0..index.len() {
        push_pair(&mut pairs, index, tag, i)?;
    }
    Ok(pairs)
}

/// The first section of an index with a tag and each id. Contracts see the tag and the index.
#[derive(Drop)]
pub struct FirstSections<'a> {
    tag: &'static [u8],
    index: &'a Index,
    places: FirstPlaces<&'a [u8]>,
}

impl<'a> Model for FirstSections<'a> {
    ghost use Rattle.dump_sections.specs.Firsts.{Firsts};
    ghost use Rattle.dump_sections.specs.Inner.Places.{IsFound};

    ghost Value = { Firsts };

    ghost view = { λ f. record { tag = f.tag.now; index = f.index.now } };

    ghost invariant = { λ f. IsFound f.index.now f.tag.now f.places };
}

impl<'a> FirstSections<'a> {
    /// Goes through the sections of an index once. Returns an error only if memory is lacking.
    pub fn find(
        alloc: Global,
        index: &'a Index,
        tag: &'static [u8],
    ) -> Result<FirstSections<'a>, AllocError>
        ensures tag { IfOk result (λ firsts. firsts.tag ≡ tag.now) }
        ensures index { IfOk result (λ firsts. firsts.index ≡ index.now) }
    {
        let places = FirstPlaces::of(pairs_of(alloc, index, tag)?)?;
        Ok(FirstSections { tag, index, places })
    }

    /// The place of the first section with the tag and this id, byte for byte, as [`Index::first`] returns it.
    pub fn get(&self, id: &[u8]) -> Option<usize>
        ensures place { result ≡ place_where (is_named self.now.tag (Some id.now))
            (sections_in self.now.index) }
        ensures section { section_in self.now.index result
            ≡ first_named self.now.tag id.now (sections_in self.now.index) }
        ensures within { IfSome result (λ i. i < length self.now.index.headers) }
    {
        self.places.get(id)
    }
}
