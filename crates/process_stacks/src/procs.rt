// What is loaded of the processes of a dump.
ghost use Rattle.std.specs.Prelude.{◌≡◌, ◌<◌, length, map, unwrap_or, IfOk};
ghost use Rattle.std.specs.Option.{option_and_then, option_copied};
ghost use Rattle.dump_io.specs.Dumps.{IfTold};
ghost use Rattle.dump_io.specs.Numbers.{dec_number};
ghost use Rattle.dump_sections.specs.Index.{IsBuiltOver, sections_in};
ghost use Rattle.dump_sections.specs.Loading.{LoadsBodies};
ghost use Rattle.process_table.specs.Records.{record_sections};
ghost use Rattle.section_rows.specs.Rows.{cell_at, row_at, text_in};
ghost use Rattle.process_stacks.specs.Rows.{call_in, counter_in, memory_in, name_in, pid_in, stack_rows};

use dump_io::{Dumps, Limits, dec_u64};
use dump_sections::{BodyFault, Index};
use process_table::load_rows;
use section_rows::{Column, SectionRows};
use std::alloc::Global;
use std::marker::Model;

// The columns of a row.
const COLUMNS: [Column<'static>; 5] = [
    Column::Id,
    Column::Field(b"Name"),
    Column::Field(b"Memory"),
    Column::Field(b"Program counter"),
    Column::Field(b"Current call"),
];

/// What a dump says of its processes, in dump order, but for their stacks: the pid, the
/// name, the memory, the program counter and the current call of each. Of the sections
/// with the same pid the first counts. Contracts see a row for each process.
#[derive(Drop)]
pub struct StackProcs {
    rows: SectionRows,
}

impl Model for StackProcs {
    ghost use Rattle.std.specs.Prelude.{◌≡◌, List};
    ghost use Rattle.section_rows.specs.Rows.{Row};

    ghost Value = { List Row };

    ghost view = { λ p. p.rows.rows };

    ghost invariant = { λ p. p.rows.width ≡ 5 };
}

// The text of the cell in row `i` and column `c`, if there is one.
fn text_at(rows: &SectionRows, i: usize, c: usize) -> Option<&[u8]>
    requires row { i < length rows.now.rows }
    requires column { c < rows.now.width }
    ensures { option_copied result ≡ text_in (cell_at (row_at rows.now.rows i) c) }
{
    rows.cell(i, c).map(|cell| cell.text)
}

// The number that a text writes, or 0.
fn number_or_0(text: Option<&[u8]>) -> u64
    ensures { result ≡ unwrap_or (option_and_then dec_number (option_copied text.entry)) 0 }
{
    match text {
        Some(text) => dec_u64(text).unwrap_or(0),
        None => 0,
    }
}

impl StackProcs {
    /// Finds the processes of an index, and reads the bodies of their sections one
    /// after another. The index was built over the open file, which stays open.
    ///
    /// Returns `SectionTooLarge` exactly when one of these bodies has more bytes than the limit on a
    /// section's body, unless it returns `Memory`; it names the first such section of the dump, and nothing
    /// is read then. Returns `Read` only if the device's count of faults rose; `Memory` may come from any
    /// allocation. At most as many bytes are read as the bodies have together, even if they aren't loaded.
    pub fn load<D: Dumps>(
        alloc: Global,
        dumps: &mut D,
        index: &Index,
        limits: &Limits,
    ) -> Result<StackProcs, BodyFault>
        requires { IsBuiltOver (D.state dumps.old).now index.now }
        ensures loads { LoadsBodies D.state (record_sections (sections_in index.now))
            limits.now.section dumps.old dumps.new result }
        ensures rows { IfOk result (λ procs. IfTold (D.state dumps.old).now
            (λ bytes. procs ≡ stack_rows bytes)) }
        ensures offsets { IfOk result (λ procs. map (λ row. row.at) procs
            ≡ map (λ s. s.at) (record_sections (sections_in index.now))) }
    {
        let (rows, _repeated) = load_rows(alloc, dumps, index, &COLUMNS, limits)?;
        Ok(StackProcs { rows })
    }

    /// The number of processes.
    pub fn len(&self) -> usize
        ensures { result ≡ length self.now }
    {
        self.rows.len()
    }

    /// The offset in the file of the header of the section of the process at a place, from 0.
    pub fn at(&self, i: usize) -> u64
        requires { i < length self.now }
        ensures { result ≡ (row_at self.now i).at }
    {
        self.rows.at(i)
    }

    /// The pid of the process at a place.
    pub fn pid(&self, i: usize) -> &[u8]
        requires { i < length self.now }
        ensures { result.now ≡ pid_in (row_at self.now i) }
    {
        match text_at(&self.rows, i, 0) {
            Some(pid) => pid,
            None => b"",
        }
    }

    /// The name of the process at a place, if it has one.
    pub fn name(&self, i: usize) -> Option<&[u8]>
        requires { i < length self.now }
        ensures { option_copied result ≡ name_in (row_at self.now i) }
    {
        text_at(&self.rows, i, 1)
    }

    /// The memory of the process at a place in bytes, or 0 where its section has no decimal number below 2^64 for it.
    pub fn memory(&self, i: usize) -> u64
        requires { i < length self.now }
        ensures { result ≡ memory_in (row_at self.now i) }
    {
        number_or_0(text_at(&self.rows, i, 2))
    }

    /// The program counter of the process at a place, if it has one.
    pub fn counter(&self, i: usize) -> Option<&[u8]>
        requires { i < length self.now }
        ensures { option_copied result ≡ counter_in (row_at self.now i) }
    {
        text_at(&self.rows, i, 3)
    }

    /// The current call of the process at a place, if it has one.
    pub fn call(&self, i: usize) -> Option<&[u8]>
        requires { i < length self.now }
        ensures { option_copied result ≡ call_in (row_at self.now i) }
    {
        text_at(&self.rows, i, 4)
    }
}
