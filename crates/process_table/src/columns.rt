// Loading what columns show of processes.
ghost use Rattle.std.specs.Prelude.{◌≡◌, ◌++◌, map, IfOk, All};
ghost use Rattle.dump_sections.specs.Index.{IsBuiltOver, sections_in};
ghost use Rattle.dump_sections.specs.Loading.{LoadsBodies};
ghost use Rattle.section_rows.specs.Rows.{AreRowsOf};
ghost use Rattle.section_rows.specs.Shown.{shown_column};
ghost use Rattle.process_table.specs.Records.{records, record_sections, repeated};
ghost use Rattle.process_table.specs.Inner.Finding.{IsRecordOf};

use crate::proc_sections::ProcSections;
use dump_io::{Dumps, Limits};
use dump_sections::{BodyFault, Index};
use section_rows::{Column, SectionRows};
use std::alloc::{AllocError, Global};

// Some columns, and behind them others.
fn both<'a>(
    alloc: Global,
    some: &[Column<'a>],
    others: &[Column<'a>],
) -> Result<Vec<Column<'a>>, AllocError>
    ensures { IfOk result (λ columns. columns.items ≡ some.now ++ others.now) }
{
    let mut columns = Vec::from_slice(alloc, some)?;
    columns.extend_from_slice(others)?;
    Ok(columns)
}

// Loads a row for each process, whose sections are at these places.
pub(crate) fn load_columns<D: Dumps>(
    alloc: Global,
    dumps: &mut D,
    index: &Index,
    sections: &[usize],
    columns: &[Column<'_>],
    limits: &Limits,
) -> Result<SectionRows, BodyFault>
    requires over { IsBuiltOver (D.state dumps.old).now index.now }
    requires found { sections.now ≡ map (λ r. r.0) (records (sections_in index.now)) }
    requires records { All (IsRecordOf index.now) (records (sections_in index.now)) }
    ensures loads { LoadsBodies D.state (record_sections (sections_in index.now)) limits.now.section
        dumps.old dumps.new result }
    ensures rows { IfOk result (AreRowsOf (D.state dumps.old).now (map shown_column columns.now)
        (record_sections (sections_in index.now))) }
{
    SectionRows::load(alloc, dumps, index, sections, columns, limits)
}

// Loads a row for each process as `load_columns` does, and splits it: some columns are in one table, and others in another.
pub(crate) fn load_split<D: Dumps>(
    alloc: Global,
    dumps: &mut D,
    index: &Index,
    sections: &[usize],
    some: &[Column<'_>],
    others: &[Column<'_>],
    limits: &Limits,
) -> Result<(SectionRows, SectionRows), BodyFault>
    requires over { IsBuiltOver (D.state dumps.old).now index.now }
    requires found { sections.now ≡ map (λ r. r.0) (records (sections_in index.now)) }
    requires records { All (IsRecordOf index.now) (records (sections_in index.now)) }
    ensures loads { LoadsBodies D.state (record_sections (sections_in index.now)) limits.now.section
        dumps.old dumps.new result }
    ensures rows { IfOk result (λ rows. AreRowsOf (D.state dumps.old).now (map shown_column some.now)
        (record_sections (sections_in index.now)) rows.0) }
    ensures others { IfOk result (λ rows. AreRowsOf (D.state dumps.old).now (map shown_column others.now)
        (record_sections (sections_in index.now)) rows.1) }
{
    let Ok(columns) = both(alloc, some, others) else {
        return Err(BodyFault::Memory);
    };
    SectionRows::load_split(
        alloc,
        dumps,
        index,
        sections,
        columns.as_slice(),
        some.len(),
        limits,
    )
}

/// Finds the processes of an index, reads the bodies of their sections one after another, and keeps a row of each
/// with what the columns show, in dump order. Of the sections with the same pid the first counts; returns how many
/// sections were passed over beside the rows. The index was built over the open file, which stays open.
///
/// Returns the faults of [`Procs::load`](crate::Procs::load), for the same causes, and reads as many bytes.
pub fn load_rows<D: Dumps>(
    alloc: Global,
    dumps: &mut D,
    index: &Index,
    columns: &[Column<'_>],
    limits: &Limits,
) -> Result<(SectionRows, u64), BodyFault>
    requires { IsBuiltOver (D.state dumps.old).now index.now }
    ensures loads { LoadsBodies D.state (record_sections (sections_in index.now)) limits.now.section
        dumps.old dumps.new result }
    ensures rows { IfOk result (λ loaded. AreRowsOf (D.state dumps.old).now
        (map shown_column columns.now) (record_sections (sections_in index.now)) loaded.0) }
    ensures repeated { IfOk result (λ loaded. loaded.1 ≡ repeated (sections_in index.now)) }
{
    let Ok(found) = ProcSections::find(alloc, index) else {
        return Err(BodyFault::Memory);
    };
    let (_, _, sections, repeated) = found.into_parts();
    let rows = load_columns(alloc, dumps, index, sections.as_slice(), columns, limits)?;
    Ok((rows, repeated))
}
