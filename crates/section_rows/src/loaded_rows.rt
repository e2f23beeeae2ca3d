// Loading the bodies of sections one after another, and keeping what the columns ask for.
ghost use Rattle.std.specs.Prelude.{◌≡◌, ◌+◌, ◌<◌, ◌≤◌, drop, length, map, take, All, IfOk, OnOk, IfErr};
ghost use Rattle.dump_io.specs.Dumps.{ReadsAtMost};
ghost use Rattle.dump_sections.specs.Bodies.{section_at, body_length};
ghost use Rattle.dump_sections.specs.Index.{IsBuiltOver};
ghost use Rattle.dump_sections.specs.Loading.{sections_at, bodies_length, IsUnloaded};
ghost use Rattle.section_rows.specs.Shown.{shown_column};
ghost use Rattle.dump_io.specs.Limits.{usual};
ghost use Rattle.section_rows.specs.Rows.{row_of};
ghost use Rattle.section_rows.specs.Inner.Gains.{GainsRow, HoldsRows, HoldsSplit, IsSplit};
ghost use Rattle.section_rows.specs.Inner.Lent.{IsLent, shown_section};
ghost use Rattle.section_rows.specs.Inner.Places.{AreWithin, HasGained};

use crate::columns::Column;
use crate::one_pass::cells_of;
use crate::store::Store;
use dump_io::{Dumps, Limits};
use dump_sections::{BodyFault, Index, Section, read_body};
use std::alloc::{AllocError, Global};

// The section at a place, which ends within the largest dump, as the file does.
fn lent(index: &Index, i: usize) -> Section<'_>
    requires { i < length index.now.headers }
    ensures section { shown_section result ≡ section_at index.now i }
    ensures lent { IsLent result }
{
    index.section(i)
}

// Loads the body of a section, appends its row to the rows, and frees it.
fn load_row<D: Dumps>(
    alloc: Global,
    dumps: &mut D,
    index: &Index,
    i: usize,
    columns: &[Column<'_>],
    limits: &Limits,
    store: &mut Store,
) -> Result<(), BodyFault>
    requires over { IsBuiltOver (D.state dumps.old).now index.now }
    requires place { i < length index.now.headers }
    requires small { body_length (section_at index.now i) ≤ limits.now.section }
    requires width { store.old.width ≡ length columns.now }
    requires within { AreWithin store.old }
    ensures reads { ReadsAtMost (D.state dumps.old) (D.state dumps.new)
        (body_length (section_at index.now i)) }
    ensures row { OnOk result (GainsRow (D.state dumps.old).now (map shown_column columns.now)
        (section_at index.now i) store.old store.new) }
    ensures fault { IfErr result (IsUnloaded (D.state dumps.old) (D.state dumps.new)) }
{
    let section = lent(index, i);
    let body = read_body(alloc, dumps, index, i, limits)?;
    store
        .push(alloc, &section, body.as_slice(), columns)
        .map_err(|_| BodyFault::Memory)
}

// Loads the bodies of sections, none of which is too large, one after another.
pub(crate) fn load_rows<D: Dumps>(
    alloc: Global,
    dumps: &mut D,
    index: &Index,
    sections: &[usize],
    columns: &[Column<'_>],
    limits: &Limits,
) -> Result<Store, BodyFault>
    requires over { IsBuiltOver (D.state dumps.old).now index.now }
    requires places { All (λ i. i < length index.now.headers) sections.now }
    requires small { All (λ i. body_length (section_at index.now i)
        ≤ limits.now.section) sections.now }
    ensures reads { ReadsAtMost (D.state dumps.old) (D.state dumps.new)
        (bodies_length (sections_at index.now sections.now)) }
    ensures rows { IfOk result (HoldsRows (D.state dumps.old).now (map shown_column columns.now)
        (sections_at index.now sections.now)) }
    ensures fault { IfErr result (IsUnloaded (D.state dumps.old) (D.state dumps.new)) }
{
    let mut store = Store::new(alloc, columns.len());
    for i in sections {
        load_row(alloc, dumps, index, *i, columns, limits, &mut store)?;
    }
    Ok(store)
}

// Rows that stand in two tables: the first columns in one, and the others in the other.
#[derive(Drop)]
pub(crate) struct Split {
    pub first: Store,
    pub second: Store,
}

// Appends the row of a section with this body to both tables, from one pass over its lines.
fn push_split(
    alloc: Global,
    split: &mut Split,
    section: &Section<'_>,
    body: &[u8],
    columns: &[Column<'_>],
    first: usize,
) -> Result<(), AllocError>
    requires lent { IsLent section.now }
    requires body { section.now.body + length body.now ≤ section.now.end }
    requires small { length body.now ≤ usual.section }
    requires split { IsSplit first (length columns.now) split.old }
    ensures first { OnOk result (HasGained split.old.first split.new.first
        (row_of (take first (map shown_column columns.now)) (shown_section section.now) body.now)) }
    ensures second { OnOk result (HasGained split.old.second split.new.second
        (row_of (drop first (map shown_column columns.now)) (shown_section section.now) body.now)) }
{
    let cells = cells_of(alloc, section, body, columns)?;
    let (fronts, others) = cells.split_at(first);
    split.first.push_row(section.at, fronts)?;
    split.second.push_row(section.at, others)
}

// Loads the body of a section, appends its row to both tables, and frees it.
fn load_split_row<D: Dumps>(
    alloc: Global,
    dumps: &mut D,
    index: &Index,
    i: usize,
    columns: &[Column<'_>],
    first: usize,
    limits: &Limits,
    split: &mut Split,
) -> Result<(), BodyFault>
    requires over { IsBuiltOver (D.state dumps.old).now index.now }
    requires place { i < length index.now.headers }
    requires small { body_length (section_at index.now i) ≤ limits.now.section }
    requires split { IsSplit first (length columns.now) split.old }
    ensures reads { ReadsAtMost (D.state dumps.old) (D.state dumps.new)
        (body_length (section_at index.now i)) }
    ensures first { OnOk result (GainsRow (D.state dumps.old).now (take first (map shown_column columns.now))
        (section_at index.now i) split.old.first split.new.first) }
    ensures second { OnOk result (GainsRow (D.state dumps.old).now (drop first (map shown_column columns.now))
        (section_at index.now i) split.old.second split.new.second) }
    ensures fault { IfErr result (IsUnloaded (D.state dumps.old) (D.state dumps.new)) }
{
    let section = lent(index, i);
    let body = read_body(alloc, dumps, index, i, limits)?;
    let Ok(()) = push_split(alloc, split, &section, body.as_slice(), columns, first) else {
        return Err(BodyFault::Memory);
    };
    Ok(())
}

// Loads the bodies of sections, none of which is too large, one after another, and splits their rows.
pub(crate) fn load_split<D: Dumps>(
    alloc: Global,
    dumps: &mut D,
    index: &Index,
    sections: &[usize],
    columns: &[Column<'_>],
    first: usize,
    limits: &Limits,
) -> Result<Split, BodyFault>
    requires over { IsBuiltOver (D.state dumps.old).now index.now }
    requires places { All (λ i. i < length index.now.headers) sections.now }
    requires small { All (λ i. body_length (section_at index.now i)
        ≤ limits.now.section) sections.now }
    requires first { first ≤ length columns.now }
    ensures reads { ReadsAtMost (D.state dumps.old) (D.state dumps.new)
        (bodies_length (sections_at index.now sections.now)) }
    ensures rows { IfOk result (HoldsSplit (D.state dumps.old).now first (map shown_column columns.now)
        (sections_at index.now sections.now)) }
    ensures fault { IfErr result (IsUnloaded (D.state dumps.old) (D.state dumps.new)) }
{
    let mut split = Split {
        first: Store::new(alloc, first),
        second: Store::new(alloc, columns.len() - first),
    };
    for i in sections {
        load_split_row(alloc, dumps, index, *i, columns, first, limits, &mut split)?;
    }
    Ok(split)
}
