// The sections that a table lists, from an index.
ghost use Rattle.std.specs.Prelude.{◌≡◌, ◌<◌, length, map, IfOk, All};
ghost use Rattle.dump_sections.specs.Bodies.{section_at};
ghost use Rattle.dump_sections.specs.Index.{sections_in};
ghost use Rattle.dump_sections.specs.Loading.{large_fault};
ghost use Rattle.table_sections.specs.Fields.{tagged};
ghost use Rattle.table_sections.specs.Tables.{listed, AreListed};

use crate::kinds::{TableKind, lists};
use dump_io::Limits;
use dump_sections::{Index, LargeSection, large};
use std::alloc::{AllocError, Global};
use std::marker::Model;

/// The sections of a table, in dump order, as its index shows them: no body is read for this.
#[derive(Drop)]
pub struct TableSections {
    kind: TableKind,
    places: Vec<usize>,
}

impl Model for TableSections {
    ghost use Rattle.table_sections.specs.Tables.{TablePlaces};

    ghost Value = { TablePlaces };

    ghost view = { λ f. record { kind = f.kind; places = f.places.items } };
}

// The places of the sections that a table lists, from 0.
fn places(alloc: Global, index: &Index, kind: TableKind) -> Result<Vec<usize>, AllocError>
    ensures listed { IfOk result (λ places. map (section_at index.now) places.items
        ≡ listed kind (sections_in index.now)) }
    ensures within { IfOk result (λ places. All (λ i. i < length index.now.headers) places.items) }
{
    let mut places = Vec::new(alloc);
    for i in 0..index.len() {
        if lists(kind, index.section(i).tag) {
            places.push(i)?;
        }
    }
    Ok(places)
}

// The places of the sections with a tag, from 0.
pub(crate) fn tagged_places(
    alloc: Global,
    index: &Index,
    tag: &[u8],
) -> Result<Vec<usize>, AllocError>
    ensures tagged { IfOk result (λ places. map (section_at index.now) places.items
        ≡ tagged tag.now (sections_in index.now)) }
    ensures within { IfOk result (λ places. All (λ i. i < length index.now.headers) places.items) }
{
    let mut places = Vec::new(alloc);
    for i in 0..index.len() {
        if index.section(i).tag == tag {
            places.push(i)?;
        }
    }
    Ok(places)
}

impl TableSections {
    /// Finds the sections of a table in an index.
    pub fn find(alloc: Global, index: &Index, kind: TableKind) -> Result<TableSections, AllocError>
        ensures kind { IfOk result (λ found. found.kind ≡ kind) }
        ensures listed { IfOk result (AreListed index.now) }
    {
        let places = places(alloc, index, kind)?;
        Ok(TableSections { kind, places })
    }

    /// The first of these sections of the index whose body has more bytes than the limit
    /// on a section's body. Returns `None` exactly when each body is within the limit. Nothing is read.
    pub fn large(&self, index: &Index, limits: &Limits) -> Option<LargeSection>
        requires { AreListed index.now self.now }
        ensures { result ≡ large_fault limits.now.section
            (listed self.now.kind (sections_in index.now)) }
    {
        large(index, self.places.as_slice(), limits)
    }

    // The kind of the table, and the places of its sections.
    pub(crate) fn into_parts(self) -> (TableKind, Vec<usize>)
        ensures kind { result.0 ≡ self.kind }
        ensures places { result.1.items ≡ self.places }
    {
        (self.kind, self.places)
    }
}
