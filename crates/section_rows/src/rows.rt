// What is kept of sections: a row for each.
ghost use Rattle.std.specs.Prelude.{◌≡◌, ◌<◌, ◌≤◌, drop, length, map, slice_get, take, Some, None, All, IfOk, IsErrOf, IfSome};
ghost use Rattle.dump_sections.specs.Index.{IsBuiltOver};
ghost use Rattle.dump_sections.specs.Loading.{sections_at, body_fault, large_fault, LoadsBodies};
ghost use Rattle.section_rows.specs.Rows.{row_at, AreRowsOf, AreEven, AreBoundedCells};
ghost use Rattle.section_rows.specs.Shown.{shown_cell, shown_column};

use crate::columns::{Column, Kept};
use crate::loaded_rows::{load_rows, load_split};
use crate::store::Store;
use dump_io::{Dumps, Limits};
use dump_sections::{BodyFault, Index, large};
use std::alloc::Global;
use std::marker::Model;

/// What is kept of sections of a dump: a row for each, with its offset in the file and a cell for each column.
#[derive(Drop)]
pub struct SectionRows {
    store: Store,
}

impl Model for SectionRows {
    ghost use Rattle.section_rows.specs.Rows.{Table};
    ghost use Rattle.section_rows.specs.Inner.Places.{rows_in, AreWithin};

    ghost Value = { Table };

    ghost view = { λ t. record { width = t.store.width; rows = rows_in t.store } };

    ghost invariant = { λ t. AreWithin t.store };
}

impl SectionRows {
    /// Loads the bodies of the sections at these places, from 0, one after another, and keeps of
    /// each what the columns ask for. The index was built over the open file, which stays open.
    ///
    /// Returns `SectionTooLarge` exactly when a body has more bytes than the limit on a section's body;
    /// it names the first such section, in the order of the places, and nothing is read then. Returns
    /// `Read` only if the device's count of faults rose; `Memory` may come from any allocation. At most
    /// as many bytes are read as the bodies have together, even if they aren't loaded.
    pub fn load<D: Dumps>(
        alloc: Global,
        dumps: &mut D,
        index: &Index,
        sections: &[usize],
        columns: &[Column<'_>],
        limits: &Limits,
    ) -> Result<SectionRows, BodyFault>
        requires over { IsBuiltOver (D.state dumps.old).now index.now }
        requires places { All (λ i. i < length index.now.headers) sections.now }
        ensures loads { LoadsBodies D.state (sections_at index.now sections.now) limits.now.section
            dumps.old dumps.new result }
        ensures rows { IfOk result (AreRowsOf (D.state dumps.old).now (map shown_column columns.now)
            (sections_at index.now sections.now)) }

        // A body that is too large is always refused as such, whatever the device does.
        ensures too_large { IfSome
            (large_fault limits.now.section (sections_at index.now sections.now))
            (λ large. IsErrOf result (body_fault large)) }
    {
        if let Some(large) = large(index, sections, limits) {
            return Err(BodyFault::from(large));
        }
        let store = load_rows(alloc, dumps, index, sections, columns, limits)?;
        Ok(SectionRows { store })
    }

    /// Loads rows as [`SectionRows::load`] does, in one pass over each body, and splits them: the first table has
    /// the cells of the first `first` columns, and the second those of the others.
    ///
    /// Returns the faults of [`SectionRows::load`], for the same causes, and reads as many bytes.
    pub fn load_split<D: Dumps>(
        alloc: Global,
        dumps: &mut D,
        index: &Index,
        sections: &[usize],
        columns: &[Column<'_>],
        first: usize,
        limits: &Limits,
    ) -> Result<(SectionRows, SectionRows), BodyFault>
        requires over { IsBuiltOver (D.state dumps.old).now index.now }
        requires places { All (λ i. i < length index.now.headers) sections.now }
        requires first { first ≤ length columns.now }
        ensures loads { LoadsBodies D.state (sections_at index.now sections.now) limits.now.section
            dumps.old dumps.new result }
        ensures first { IfOk result (λ rows. AreRowsOf (D.state dumps.old).now
            (take first (map shown_column columns.now)) (sections_at index.now sections.now) rows.0) }
        ensures second { IfOk result (λ rows. AreRowsOf (D.state dumps.old).now
            (drop first (map shown_column columns.now)) (sections_at index.now sections.now) rows.1) }
    {
        let too_large = large(index, sections, limits);
        if let Some(large) = too_large {
            return Err(BodyFault::from(large));
        }
        let split = load_split(alloc, dumps, index, sections, columns, first, limits)?;
        Ok((
            SectionRows { store: split.first },
            SectionRows {
                store: split.second,
            },
        ))
    }

    /// The number of rows.
    pub fn len(&self) -> usize
        ensures value { result ≡ length self.now.rows }
        ensures even { AreEven self.now }
        ensures bounded { AreBoundedCells self.now }
    {
        self.store.len()
    }

    /// The number of columns.
    pub fn columns(&self) -> usize
        ensures { result ≡ self.now.width }
    {
        self.store.width()
    }

    /// The offset in the file of the section at a place, from 0.
    pub fn at(&self, i: usize) -> u64
        requires { i < length self.now.rows }
        ensures { result ≡ (row_at self.now.rows i).at }
    {
        self.store.at(i)
    }

    /// The cell in row `i` and column `c`, both from 0. Returns
    /// `None` exactly when the section has no such text.
    pub fn cell(&self, i: usize, c: usize) -> Option<Kept<'_>>
        requires row { i < length self.now.rows }
        requires column { c < self.now.width }
        ensures { slice_get (row_at self.now.rows i).cells c ≡ Some (shown_cell result) }
    {
        self.store.cell(i, c)
    }
}
