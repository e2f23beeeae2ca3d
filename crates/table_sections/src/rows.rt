// The rows of a table.
ghost use Rattle.std.specs.Prelude.{◌≡◌, ◌<◌, length, None, IfOk};
ghost use Rattle.std.specs.Option.{option_copied};
ghost use Rattle.dump_io.specs.Dumps.{IfTold};
ghost use Rattle.dump_sections.specs.Index.{IsBuiltOver, sections_in};
ghost use Rattle.dump_sections.specs.Loading.{LoadsBodies};
ghost use Rattle.section_rows.specs.Rows.{row_at, cell_at, text_in, AreEven};
ghost use Rattle.table_sections.specs.Tables.{listed, table_of, AreListed, IsTableOver};

use crate::kinds::{TableKind, columns};
use crate::places::TableSections;
use dump_io::{Dumps, Limits};
use dump_sections::{BodyFault, Index};
use section_rows::SectionRows;
use std::alloc::Global;
use std::marker::Model;

/// The rows of a table, a row for each of its sections, in dump order.
#[derive(Drop)]
pub struct Rows {
    rows: SectionRows,
}

impl Model for Rows {
    ghost use Rattle.section_rows.specs.Rows.{Table};

    ghost Value = { Table };

    ghost view = { λ t. t.rows };
}

impl Rows {
    /// Finds the sections of a table, and reads their bodies one after
    /// another. The index was built over the open file, which stays open.
    ///
    /// Returns `SectionTooLarge` exactly when one of these bodies has more bytes than the limit on a
    /// section's body, unless it returns `Memory`; it names the first such section of the dump, and nothing
    /// is read then. Returns `Read` only if the device's count of faults rose; `Memory` may come from any
    /// allocation. At most as many bytes are read as the bodies have together, even if they aren't loaded.
    pub fn load<D: Dumps>(
        alloc: Global,
        dumps: &mut D,
        index: &Index,
        kind: TableKind,
        limits: &Limits,
    ) -> Result<Rows, BodyFault>
        requires { IsBuiltOver (D.state dumps.old).now index.now }
        ensures loads { LoadsBodies D.state (listed kind (sections_in index.now)) limits.now.section
            dumps.old dumps.new result }
        ensures table { IfOk result (λ rows. IfTold (D.state dumps.old).now
            (λ bytes. rows ≡ table_of kind bytes)) }
        ensures over { IfOk result (IsTableOver kind index.now) }
    {
        let Ok(found) = TableSections::find(alloc, index, kind) else {
            return Err(BodyFault::Memory);
        };
        Rows::read(alloc, dumps, index, found, limits)
    }

    /// Reads the bodies of the sections of a table that were found in an index, one
    /// after another. The index was built over the open file, which stays open.
    ///
    /// Returns what [`Rows::load`] does, which finds the sections first. A caller that has more
    /// to judge on the index finds them by [`TableSections::find`], and reads once it has judged.
    pub fn read<D: Dumps>(
        alloc: Global,
        dumps: &mut D,
        index: &Index,
        found: TableSections,
        limits: &Limits,
    ) -> Result<Rows, BodyFault>
        requires over { IsBuiltOver (D.state dumps.old).now index.now }
        requires found { AreListed index.now found }
        ensures loads { LoadsBodies D.state (listed found.kind (sections_in index.now))
            limits.now.section dumps.old dumps.new result }
        ensures table { IfOk result (λ rows. IfTold (D.state dumps.old).now
            (λ bytes. rows ≡ table_of found.kind bytes)) }
        ensures over { IfOk result (IsTableOver found.kind index.now) }
    {
        let (kind, places) = found.into_parts();
        let rows = SectionRows::load(alloc, dumps, index, &places, columns(kind), limits)?;
        Ok(Rows { rows })
    }

    /// The number of rows.
    pub fn len(&self) -> usize
        ensures value { result ≡ length self.now.rows }
        ensures even { AreEven self.now }
    {
        self.rows.len()
    }

    /// The number of columns.
    pub fn columns(&self) -> usize
        ensures { result ≡ self.now.width }
    {
        self.rows.columns()
    }

    /// The offset in the file of the section at a place, from 0.
    pub fn at(&self, i: usize) -> u64
        requires { i < length self.now.rows }
        ensures { result ≡ (row_at self.now.rows i).at }
    {
        self.rows.at(i)
    }

    /// The text in row `i` and column `c`, both from 0. Returns
    /// `None` exactly when the section has no such id or field.
    pub fn cell(&self, i: usize, c: usize) -> Option<&[u8]>
        requires row { i < length self.now.rows }
        requires column { c < self.now.width }
        ensures { option_copied result ≡ text_in (cell_at (row_at self.now.rows i) c) }
    {
        self.rows.cell(i, c).map(|cell| cell.text)
    }
}
