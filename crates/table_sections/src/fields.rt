// One field of every section with a tag.
ghost use Rattle.std.specs.Prelude.{◌≡◌, ◌<◌, length, IfOk};
ghost use Rattle.dump_io.specs.Dumps.{IfTold};
ghost use Rattle.dump_sections.specs.Index.{IsBuiltOver, sections_in};
ghost use Rattle.dump_sections.specs.Loading.{LoadsBodies};
ghost use Rattle.section_rows.specs.Rows.{cell_at, row_at};
ghost use Rattle.section_rows.specs.Shown.{shown_cell};
ghost use Rattle.table_sections.specs.Fields.{section_fields, tagged};

use crate::places::tagged_places;
use dump_io::{Dumps, Limits};
use dump_sections::{BodyFault, Index};
use section_rows::{Column, Kept, SectionRows};
use std::alloc::Global;
use std::marker::Model;

/// One field of every section with a tag, in dump order, whether the sections have an id or repeat one.
#[derive(Drop)]
pub struct SectionFields {
    rows: SectionRows,
}

impl Model for SectionFields {
    ghost use Rattle.std.specs.Prelude.{◌≡◌, List};
    ghost use Rattle.section_rows.specs.Rows.{Row};

    ghost Value = { List Row };

    ghost view = { λ t. t.rows.rows };

    ghost invariant = { λ t. t.rows.width ≡ 2 };
}

impl SectionFields {
    /// Finds the sections of an index that have a tag, reads their bodies one after another, and
    /// keeps of each the first field with this key. The index was built over the open file, which stays open.
    ///
    /// Returns the faults of [`Rows::load`](crate::Rows::load), for the same causes, and reads as many bytes.
    pub fn load<D: Dumps>(
        alloc: Global,
        dumps: &mut D,
        index: &Index,
        tag: &[u8],
        key: &[u8],
        limits: &Limits,
    ) -> Result<SectionFields, BodyFault>
        requires { IsBuiltOver (D.state dumps.old).now index.now }
        ensures loads { LoadsBodies D.state (tagged tag.now (sections_in index.now))
            limits.now.section dumps.old dumps.new result }
        ensures fields { IfOk result (λ fields. IfTold (D.state dumps.old).now
            (λ bytes. fields ≡ section_fields tag.now key.now bytes)) }
    {
        let Ok(places) = tagged_places(alloc, index, tag) else {
            return Err(BodyFault::Memory);
        };
        let columns = [Column::Id, Column::Field(key)];
        let rows = SectionRows::load(alloc, dumps, index, &places, &columns, limits)?;
        Ok(SectionFields { rows })
    }

    /// The number of sections.
    pub fn len(&self) -> usize
        ensures { result ≡ length self.now }
    {
        self.rows.len()
    }

    /// The offset in the file of the section at a place, from 0.
    pub fn at(&self, i: usize) -> u64
        requires { i < length self.now }
        ensures { result ≡ (row_at self.now i).at }
    {
        self.rows.at(i)
    }

    /// What is kept of the section at a place: its id in column 0, and the field in column 1.
    pub fn cell(&self, i: usize, c: usize) -> Option<Kept<'_>>
        requires row { i < length self.now }
        requires column { c < 2 }
        ensures { shown_cell result ≡ cell_at (row_at self.now i) c }
    {
        self.rows.cell(i, c)
    }
}
