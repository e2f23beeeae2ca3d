// The process table.
ghost use Rattle.std.specs.Prelude.{◌≡◌, ◌<◌, length, map, slice_get, None, Some, IfSome, IfOk, position};
ghost use Rattle.std.specs.Str.{bytes_eq};
ghost use Rattle.dump_io.specs.Dumps.{IfTold};
ghost use Rattle.dump_sections.specs.Index.{IsBuiltOver, sections_in};
ghost use Rattle.dump_sections.specs.Loading.{LoadsBodies};
ghost use Rattle.section_rows.specs.Rows.{AreRowsOf};
ghost use Rattle.section_rows.specs.Shown.{shown_cell, shown_column};
ghost use Rattle.process_table.specs.Records.{proc_places, record_sections};
ghost use Rattle.process_table.specs.Processes.{AreBoundedProcesses, AreProcessesOver, process_at, process_table};
ghost use Rattle.process_table.specs.Shown.{shown_process};
ghost use Rattle.process_table.specs.Stands.{stand_rows};
ghost use Rattle.process_table.specs.Inner.Finding.{named_places};
ghost use Rattle.process_table.specs.Inner.Joined.{all_joined, AreJoined};

use crate::columns::{load_columns, load_split};
use crate::hints::Hints;
use crate::pids::{PidOrder, PidPlace, number_of};
use crate::proc_sections::{ProcSections, place_at};
use crate::stands::{COLUMNS, Stands};
use dump_io::{Dumps, Limits};
use dump_sections::{BodyFault, Index};
use section_rows::{Column, Kept, SectionRows};
use std::alloc::Global;
use std::marker::Model;

/// A process of a dump. A field is `None` exactly when the section's body has no such line.
#[derive(Clone, Copy)]
pub struct Proc<'a> {
    /// The place of the section among the sections of the index, from 0.
    pub section: usize,
    /// The id of the section.
    pub pid: &'a [u8],
    /// The field `State`.
    pub state: Option<Kept<'a>>,
    /// The field `Name`.
    pub name: Option<Kept<'a>>,
    /// The field `Message queue length`.
    pub queue: Option<Kept<'a>>,
    /// The field `Memory`.
    pub memory: Option<Kept<'a>>,
    /// The field `Link list`.
    pub links: Option<Kept<'a>>,
    /// The field `BinVHeap`: how many words the binaries outside the heaps take to which its young cells refer.
    pub virtual_heap: Option<Kept<'a>>,
    /// The field `OldBinVHeap`: how many words the binaries outside the heaps take to which its old cells refer.
    pub old_virtual_heap: Option<Kept<'a>>,
}

/// The processes of a dump, in dump order. Of the sections with the same pid the first counts.
#[derive(Drop)]
pub struct Procs {
    places: Vec<PidPlace>,
    order: PidOrder,
    hints: Hints,
    fields: SectionRows,
    repeated: u64,
}

impl Model for Procs {
    ghost use Rattle.process_table.specs.Processes.{ProcessTable};
    ghost use Rattle.process_table.specs.Inner.Finding.{named_places};
    ghost use Rattle.process_table.specs.Inner.Joined.{all_joined, AreJoined};

    ghost Value = { ProcessTable };

    ghost view = { λ t. record {
      processes = all_joined (named_places t.places.items) t.fields.rows;
      repeated = t.repeated;
    } };

    ghost invariant = { λ t. AreJoined t.places.items t.order t.fields };
}

// The process from the entry and the row at a place.
fn joined_at<'a>(places: &'a [PidPlace], fields: &'a SectionRows, i: usize) -> Proc<'a>
    requires rows { length fields.now.rows ≡ length places.now }
    requires width { fields.now.width ≡ 7 }
    requires place { i < length places.now }
    ensures { slice_get (all_joined (named_places places.now) fields.now.rows) i
        ≡ Some (shown_process result) }
{
    let (pid, section) = place_at(places, i);
    Proc {
        section,
        pid,
        state: fields.cell(i, 0),
        name: fields.cell(i, 1),
        queue: fields.cell(i, 2),
        memory: fields.cell(i, 3),
        links: fields.cell(i, 4),
        virtual_heap: fields.cell(i, 5),
        old_virtual_heap: fields.cell(i, 6),
    }
}

// The fields of a process, in the order of the columns.
const FIELDS: [Column<'static>; 7] = [
    Column::Field(b"State"),
    Column::Field(b"Name"),
    Column::Field(b"Message queue length"),
    Column::Field(b"Memory"),
    Column::Field(b"Link list"),
    Column::Field(b"BinVHeap"),
    Column::Field(b"OldBinVHeap"),
];

impl Procs {
    /// Finds the processes of an index, and reads the bodies of their sections one
    /// after another. The index was built over the open file, which stays open.
    ///
    /// Returns `SectionTooLarge` exactly when one of these bodies has more bytes than the limit on a
    /// section's body, unless it returns `Memory`; it names the first such section of the dump, and nothing
    /// is read then. Returns `Read` only if the device's count of faults rose; `Memory` may come from any
    /// allocation. At most as many bytes are read as the bodies have together, even if they aren't loaded.
    pub fn load<D: Dumps>(
        alloc: Global,
        dumps: &mut D,
        index: &Index,
        limits: &Limits,
    ) -> Result<Procs, BodyFault>
        requires { IsBuiltOver (D.state dumps.old).now index.now }
        ensures loads { LoadsBodies D.state (record_sections (sections_in index.now))
            limits.now.section dumps.old dumps.new result }
        ensures table { IfOk result (λ procs. IfTold (D.state dumps.old).now
            (λ bytes. procs ≡ process_table bytes)) }
        ensures over { IfOk result (AreProcessesOver index.now) }
    {
        let Ok(found) = ProcSections::find(alloc, index) else {
            return Err(BodyFault::Memory);
        };
        Procs::read(alloc, dumps, index, found, limits)
    }

    /// Reads the bodies of the sections of processes that were found in an index,
    /// one after another. The index was built over the open file, which stays open.
    ///
    /// Returns what [`Procs::load`] does, which finds the processes first. A caller that has more
    /// to judge on the index finds them by [`ProcSections::find`], and reads once it has judged.
    pub fn read<D: Dumps>(
        alloc: Global,
        dumps: &mut D,
        index: &Index,
        found: ProcSections,
        limits: &Limits,
    ) -> Result<Procs, BodyFault>
        requires over { IsBuiltOver (D.state dumps.old).now index.now }
        requires found { found ≡ proc_places (sections_in index.now) }
        ensures loads { LoadsBodies D.state (record_sections (sections_in index.now))
            limits.now.section dumps.old dumps.new result }
        ensures table { IfOk result (λ procs. IfTold (D.state dumps.old).now
            (λ bytes. procs ≡ process_table bytes)) }
        ensures over { IfOk result (AreProcessesOver index.now) }
    {
        let (places, order, sections, repeated) = found.into_parts();
        let Ok(hints) = Hints::of(alloc, &places) else {
            return Err(BodyFault::Memory);
        };
        let fields = load_columns(alloc, dumps, index, sections.as_slice(), &FIELDS, limits)?;
        Ok(Procs {
            places,
            order,
            hints,
            fields,
            repeated,
        })
    }

    /// Reads the bodies as [`Procs::read`] does, and keeps in a row for each process what further columns show of it.
    ///
    /// Returns the faults of [`Procs::load`], for the same causes, and reads as many bytes.
    pub fn read_with<D: Dumps>(
        alloc: Global,
        dumps: &mut D,
        index: &Index,
        found: ProcSections,
        more: &[Column<'_>],
        limits: &Limits,
    ) -> Result<(Procs, SectionRows), BodyFault>
        requires over { IsBuiltOver (D.state dumps.old).now index.now }
        requires found { found ≡ proc_places (sections_in index.now) }
        ensures loads { LoadsBodies D.state (record_sections (sections_in index.now))
            limits.now.section dumps.old dumps.new result }
        ensures table { IfOk result (λ read. IfTold (D.state dumps.old).now
            (λ bytes. read.0 ≡ process_table bytes)) }
        ensures over { IfOk result (λ read. AreProcessesOver index.now read.0) }
        ensures rows { IfOk result (λ read. AreRowsOf (D.state dumps.old).now
            (map shown_column more.now) (record_sections (sections_in index.now)) read.1) }
    {
        let (places, order, sections, repeated) = found.into_parts();
        let Ok(hints) = Hints::of(alloc, &places) else {
            return Err(BodyFault::Memory);
        };
        let (fields, rows) = load_split(
            alloc,
            dumps,
            index,
            sections.as_slice(),
            &FIELDS,
            more,
            limits,
        )?;
        let procs = Procs {
            places,
            order,
            hints,
            fields,
            repeated,
        };
        Ok((procs, rows))
    }

    /// Reads the bodies as [`Procs::read`] does, and keeps also where each process stands.
    ///
    /// Returns the faults of [`Procs::load`], for the same causes, and reads as many bytes.
    pub fn read_standing<D: Dumps>(
        alloc: Global,
        dumps: &mut D,
        index: &Index,
        found: ProcSections,
        limits: &Limits,
    ) -> Result<(Procs, Stands), BodyFault>
        requires over { IsBuiltOver (D.state dumps.old).now index.now }
        requires found { found ≡ proc_places (sections_in index.now) }
        ensures loads { LoadsBodies D.state (record_sections (sections_in index.now))
            limits.now.section dumps.old dumps.new result }
        ensures table { IfOk result (λ read. IfTold (D.state dumps.old).now
            (λ bytes. read.0 ≡ process_table bytes)) }
        ensures over { IfOk result (λ read. AreProcessesOver index.now read.0) }
        ensures stands { IfOk result (λ read. IfTold (D.state dumps.old).now
            (λ bytes. read.1 ≡ stand_rows bytes)) }
        ensures count { IfOk result (λ read. length read.1 ≡ length read.0.processes) }
    {
        let (procs, rows) = Procs::read_with(alloc, dumps, index, found, &COLUMNS, limits)?;
        Ok((procs, Stands::of(rows)))
    }

    /// The number of processes.
    pub fn len(&self) -> usize
        ensures value { result ≡ length self.now.processes }
        ensures bounded { AreBoundedProcesses self.now }
    {
        self.fields.len()
    }

    /// The process at a place, from 0.
    pub fn at(&self, i: usize) -> Proc<'_>
        requires { i < length self.now.processes }
        ensures { slice_get self.now.processes i ≡ Some (shown_process result) }
    {
        joined_at(&self.places, &self.fields, i)
    }

    /// The place of the section of the process at a place, among the sections of the index. This
    /// and the three methods below return one value of [`Procs::at`] each, and read no other.
    pub fn section(&self, i: usize) -> usize
        requires { i < length self.now.processes }
        ensures { result ≡ (process_at self.now.processes i).section }
    {
        place_at(&self.places, i).1
    }

    /// The pid of the process at a place.
    pub fn pid(&self, i: usize) -> &[u8]
        requires { i < length self.now.processes }
        ensures { result.now ≡ (process_at self.now.processes i).pid }
    {
        place_at(&self.places, i).0
    }

    /// The field `Message queue length` of the process at a place.
    pub fn queue(&self, i: usize) -> Option<Kept<'_>>
        requires { i < length self.now.processes }
        ensures { shown_cell result ≡ (process_at self.now.processes i).queue }
    {
        self.fields.cell(i, 2)
    }

    /// The field `Link list` of the process at a place.
    pub fn links(&self, i: usize) -> Option<Kept<'_>>
        requires { i < length self.now.processes }
        ensures { shown_cell result ≡ (process_at self.now.processes i).links }
    {
        self.fields.cell(i, 4)
    }

    /// The place of the process with this pid. Returns `None` exactly when there is none.
    pub fn get(&self, pid: &[u8]) -> Option<usize>
        ensures place { result ≡ position (λ process. bytes_eq pid.now process.pid)
            self.now.processes }
        ensures within { IfSome result (λ i. i < length self.now.processes) }
    {
        let places = self.places.as_slice();
        match self.hints.find(places, pid) {
            Some(i) => Some(i),
            None => number_of(places, &self.order, pid),
        }
    }

    /// How many sections of processes were passed over because an earlier section has the same pid.
    pub fn repeated(&self) -> u64
        ensures { result ≡ self.now.repeated }
    {
        self.repeated
    }
}
