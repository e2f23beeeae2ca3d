// The first `binary` section of each address.
ghost use Rattle.std.specs.Prelude.{◌≡◌, ◌+◌, ◌<◌, length, take, IfOk, OnOk, IfSome};
ghost use Rattle.dump_sections.specs.Bodies.{section_in};
ghost use Rattle.dump_sections.specs.Index.{sections_in};
ghost use Rattle.binary_refs.specs.StoredBinaries.{binary_section};
ghost use Rattle.binary_refs.specs.Inner.Places.{AreFirsts, IsFound};

use crate::numbers::binary_number;
use dump_sections::{FirstPlaces, Index};
use std::alloc::{AllocError, Global};
use std::marker::Model;

// Appends the address of the section at a place, if it is a `binary` section.
fn push_pair(pairs: &mut Vec<(u64, usize)>, index: &Index, i: usize) -> Result<(), AllocError>
    requires place { i < length index.now.headers }
    requires before { AreFirsts (take i (sections_in index.now)) pairs.old.items }
    ensures { OnOk result (AreFirsts (take (i + 1) (sections_in index.now)) pairs.new.items) }
{
    let Some(address) = binary_number(index, i) else {
        return Ok(());
    };
    pairs.push((address, i))?;
    Ok(())
}

// The address of each `binary` section, with the place of the section.
fn pairs_of(alloc: Global, index: &Index) -> Result<Vec<(u64, usize)>, AllocError>
    ensures { IfOk result (λ pairs. IsFound index.now pairs.items) }
{
    let mut pairs = Vec::new(alloc);
    for i in 0..index.len() {
        push_pair(&mut pairs, index, i)?;
    }
    Ok(pairs)
}

/// The `binary` sections of an index by their addresses. Contracts see the index.
#[derive(Drop)]
pub struct BinaryPlaces<'a> {
    index: &'a Index,
    places: FirstPlaces<u64>,
}

impl<'a> Model for BinaryPlaces<'a> {
    ghost use Rattle.dump_sections.specs.Index.{Contents};
    ghost use Rattle.binary_refs.specs.Inner.Places.{IsFound};

    ghost Value = { Contents };

    ghost view = { λ found. found.index.now };

    ghost invariant = { λ found. IsFound found.index.now found.places };
}

impl<'a> BinaryPlaces<'a> {
    /// Sorts the `binary` sections of an index. Returns an error only if memory is lacking.
    pub fn find(alloc: Global, index: &'a Index) -> Result<BinaryPlaces<'a>, AllocError>
        ensures { IfOk result (λ places. places ≡ index.now) }
    {
        let places = FirstPlaces::of(pairs_of(alloc, index)?)?;
        Ok(BinaryPlaces { index, places })
    }

    /// The index of the sections.
    pub fn index(&self) -> &'a Index
        ensures { result.now ≡ self.now }
    {
        self.index
    }

    /// The place in the index of the first `binary` section with an address.
    pub(crate) fn first(&self, address: u64) -> Option<usize>
        ensures section { section_in self.now result ≡ binary_section address (sections_in self.now) }
        ensures within { IfSome result (λ i. i < length self.now.headers) }
    {
        self.places.get(address)
    }
}
