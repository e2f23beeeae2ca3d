// One field of every process.
ghost use Rattle.std.specs.Prelude.{◌≡◌, ◌<◌, length, IfOk};
ghost use Rattle.dump_io.specs.Dumps.{IfTold};
ghost use Rattle.dump_sections.specs.Index.{IsBuiltOver, sections_in};
ghost use Rattle.dump_sections.specs.Loading.{LoadsBodies};
ghost use Rattle.section_rows.specs.Rows.{cell_at, row_at};
ghost use Rattle.section_rows.specs.Shown.{shown_cell};
ghost use Rattle.process_table.specs.Fields.{field_table};
ghost use Rattle.process_table.specs.Records.{record_sections};

use crate::columns::load_rows;
use dump_io::{Dumps, Limits};
use dump_sections::{BodyFault, Index};
use section_rows::{Column, Kept, SectionRows};
use std::alloc::Global;
use std::marker::Model;

/// One field of every process of a dump, in dump order. Of the sections with the same pid the first counts.
#[derive(Drop)]
pub struct FieldTable {
    rows: SectionRows,
    repeated: u64,
}

impl Model for FieldTable {
    ghost use Rattle.std.specs.Prelude.{◌≡◌};
    ghost use Rattle.process_table.specs.Fields.{ProcessFields};

    ghost Value = { ProcessFields };

    ghost view = { λ t. record { rows = t.rows.rows; repeated = t.repeated } };

    ghost invariant = { λ t. t.rows.width ≡ 3 };
}

impl FieldTable {
    /// Finds the processes of an index, reads the bodies of their sections one after another, and keeps of each
    /// the first field with this key. The index was built over the open file, which stays open.
    ///
    /// Returns the faults of [`Procs::load`](crate::Procs::load), for the same causes, and reads as many bytes.
    pub fn load<D: Dumps>(
        alloc: Global,
        dumps: &mut D,
        index: &Index,
        key: &[u8],
        limits: &Limits,
    ) -> Result<FieldTable, BodyFault>
        requires { IsBuiltOver (D.state dumps.old).now index.now }
        ensures loads { LoadsBodies D.state (record_sections (sections_in index.now)) limits.now.section
            dumps.old dumps.new result }
        ensures table { IfOk result (λ table. IfTold (D.state dumps.old).now
            (λ bytes. table ≡ field_table key.now bytes)) }
    {
        let columns = [Column::Id, Column::Field(b"Name"), Column::Field(key)];
        let (rows, repeated) = load_rows(alloc, dumps, index, &columns, limits)?;
        Ok(FieldTable { rows, repeated })
    }

    /// The number of processes.
    pub fn len(&self) -> usize
        ensures { result ≡ length self.now.rows }
    {
        self.rows.len()
    }

    /// The offset in the file of the section of the process at a place, from 0.
    pub fn at(&self, i: usize) -> u64
        requires { i < length self.now.rows }
        ensures { result ≡ (row_at self.now.rows i).at }
    {
        self.rows.at(i)
    }

    /// What is kept of the process at a place: its pid in
    /// column 0, its name in column 1, and the field in column 2.
    pub fn cell(&self, i: usize, c: usize) -> Option<Kept<'_>>
        requires row { i < length self.now.rows }
        requires column { c < 3 }
        ensures { shown_cell result ≡ cell_at (row_at self.now.rows i) c }
    {
        self.rows.cell(i, c)
    }

    /// How many sections of processes were passed over because an earlier section has the same pid.
    pub fn repeated(&self) -> u64
        ensures { result ≡ self.now.repeated }
    {
        self.repeated
    }
}
