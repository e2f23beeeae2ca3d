// The processes and the ETS tables by the numbers that their sections state.
ghost use Rattle.std.specs.Prelude.{◌≡◌, ◌<◌, length, IfOk};
ghost use Rattle.section_rows.specs.Rows.{row_at};
ghost use Rattle.dump_triage.specs.Triage.{largest_processes, largest_tables, longest_queues, most_binaries, words_in};

use crate::ranked::{Ranked, first_rows, push_row, push_sum, push_words};
use dump_io::dec_u64;
use process_table::{Procs, binary_bytes, stated_number};
use std::alloc::{AllocError, Global};
use table_sections::Rows;

// The processes with the longest message queues, at most `most`.
pub(crate) fn longest_queues(
    alloc: Global,
    procs: &Procs,
    most: u64,
) -> Result<Vec<Ranked>, AllocError>
    ensures { IfOk result (λ rows. rows.items ≡ longest_queues most procs.now.processes) }
{
    let mut rows = Vec::new(alloc);
    for p in 0..procs.len() {
        push_row(&mut rows, p, stated_number(&procs.queue(p)))?;
    }
    first_rows(rows, most)
}

// The processes with the most memory, at most `most`.
pub(crate) fn largest_processes(
    alloc: Global,
    procs: &Procs,
    most: u64,
) -> Result<Vec<Ranked>, AllocError>
    ensures { IfOk result (λ rows. rows.items ≡ largest_processes most procs.now.processes) }
{
    let mut rows = Vec::new(alloc);
    for p in 0..procs.len() {
        let process = procs.at(p);
        push_row(&mut rows, p, stated_number(&process.memory))?;
    }
    first_rows(rows, most)
}

// The processes whose binaries take the most bytes, at most `most`.
pub(crate) fn most_binaries(
    alloc: Global,
    procs: &Procs,
    most: u64,
) -> Result<Vec<Ranked>, AllocError>
    ensures { IfOk result (λ rows. rows.items ≡ most_binaries most procs.now.processes) }
{
    let mut rows = Vec::new(alloc);
    for p in 0..procs.len() {
        push_sum(&mut rows, p, binary_bytes(&procs.at(p)))?;
    }
    first_rows(rows, most)
}

// The words of the ETS table at a place.
fn words_at(tables: &Rows, i: usize) -> Option<u64>
    requires place { i < length tables.now.rows }
    requires width { tables.now.width ≡ 5 }
    ensures { result ≡ words_in (row_at tables.now.rows i) }
{
    dec_u64(tables.cell(i, 4)?)
}

// The ETS tables with the most bytes, at most `most`.
pub(crate) fn largest_tables(
    alloc: Global,
    tables: &Rows,
    most: u64,
) -> Result<Vec<Ranked>, AllocError>
    requires { tables.now.width ≡ 5 }
    ensures { IfOk result (λ rows. rows.items ≡ largest_tables most tables.now.rows) }
{
    let mut rows = Vec::new(alloc);
    for i in 0..tables.len() {
        push_words(&mut rows, i, words_at(tables, i))?;
    }
    first_rows(rows, most)
}
