// The sections of processes, from an index.
ghost use Rattle.std.specs.Prelude.{◌≡◌, ◌<◌, ◌≤◌, length, slice_get, Some, IfOk};
ghost use Rattle.dump_io.specs.Limits.{usual};
ghost use Rattle.dump_sections.specs.Index.{sections_in};
ghost use Rattle.dump_sections.specs.Loading.{large_fault};
ghost use Rattle.process_table.specs.Records.{proc_places, record_sections};
ghost use Rattle.process_table.specs.Inner.Finding.{named_places, sections_of, AreOrdered};

use crate::first_by_pid::find;
use crate::pids::{PidOrder, PidPlace};
use dump_io::Limits;
use dump_sections::{Index, LargeSection, large};
use std::alloc::{AllocError, Global};
use std::marker::Model;

/// The processes of a dump, in dump order, as its index shows them: no body
/// is read for this. Of the sections with the same pid the first counts.
#[derive(Drop)]
pub struct ProcSections {
    places: Vec<PidPlace>,
    order: PidOrder,
    sections: Vec<usize>,
    repeated: u64,
}

impl Model for ProcSections {
    ghost use Rattle.process_table.specs.Records.{ProcPlaces};
    ghost use Rattle.process_table.specs.Inner.Finding.{named_places, AreListed};

    ghost Value = { ProcPlaces };

    ghost view = { λ f. record { places = named_places f.places.items; repeated = f.repeated } };

    ghost invariant = { λ f. AreListed f.places.items f.order f.sections.items };
}

// The pid at a place, and the place of its section.
pub(crate) fn place_at(places: &[PidPlace], i: usize) -> (&[u8], usize)
    requires { i < length places.now }
    ensures { slice_get (named_places places.now) i ≡ Some (result.0.now, result.1) }
{
    let place = &places[i];
    (place.pid.as_slice(), place.section)
}

// The places of the sections, in dump order.
fn sections_of(alloc: Global, places: &[PidPlace]) -> Result<Vec<usize>, AllocError>
    ensures { IfOk result (λ sections. sections.items ≡ sections_of places.now) }
{
    places.iter().map(|place| place.section).collect(alloc)
}

impl ProcSections {
    /// Finds the processes of an index.
    pub fn find(alloc: Global, index: &Index) -> Result<ProcSections, AllocError>
        ensures { IfOk result (λ found. found ≡ proc_places (sections_in index.now)) }
    {
        let (found, order) = find(alloc, index)?;
        let sections = sections_of(alloc, &found.places)?;
        Ok(ProcSections {
            places: found.places,
            order,
            sections,
            repeated: found.repeated,
        })
    }

    /// The number of processes.
    pub fn len(&self) -> usize
        ensures { result ≡ length self.now.places }
    {
        self.sections.len()
    }

    /// The pid of the process at place `i`, from 0, and the
    /// place of its section among the sections of the index.
    pub fn at(&self, i: usize) -> (&[u8], usize)
        requires { i < length self.now.places }
        ensures { slice_get self.now.places i ≡ Some (result.0.now, result.1) }
    {
        place_at(&self.places, i)
    }

    /// The first of these sections of the index whose body has more bytes than the limit
    /// on a section's body. Returns `None` exactly when each body is within the limit. Nothing is read.
    pub fn large(&self, index: &Index, limits: &Limits) -> Option<LargeSection>
        requires { self.now ≡ proc_places (sections_in index.now) }
        ensures { result ≡ large_fault limits.now.section
            (record_sections (sections_in index.now)) }
    {
        large(index, self.sections.as_slice(), limits)
    }

    // The pids with the places of their sections, their order, these
    // places alone, and the number of sections that were passed over.
    pub(crate) fn into_parts(self) -> (Vec<PidPlace>, PidOrder, Vec<usize>, u64)
        ensures places { named_places result.0.items ≡ self.places }
        ensures ordered { AreOrdered result.0.items result.1 }
        ensures sections { result.2.items ≡ sections_of result.0.items }
        ensures count { length result.0.items ≤ usual.sections }
        ensures repeated { result.3 ≡ self.repeated }
    {
        (self.places, self.order, self.sections, self.repeated)
    }
}
