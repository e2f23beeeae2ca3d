// Where the processes of a dump stand.
ghost use Rattle.std.specs.Prelude.{◌≡◌, ◌<◌, length, map, IfOk};
ghost use Rattle.std.specs.Option.{option_copied};
ghost use Rattle.section_rows.specs.Rows.{cell_at, row_at, text_in};
ghost use Rattle.process_table.specs.Signals.{is_signalled};
ghost use Rattle.process_table.specs.Stands.{spawned_in, where_in};

use crate::signals::signalled;
use section_rows::{Column, SectionRows};
use std::alloc::{AllocError, Global};
use std::marker::Model;

/// Where each process of a dump stands, in dump order, and as what it was spawned. Contracts see a row for each
/// process, with its fields `Internal State`, `Current call`, `Program counter` and `Spawned as`.
#[derive(Drop)]
pub struct Stands {
    rows: SectionRows,
}

impl Model for Stands {
    ghost use Rattle.std.specs.Prelude.{◌≡◌, List};
    ghost use Rattle.section_rows.specs.Rows.{Row};

    ghost Value = { List Row };

    ghost view = { λ s. s.rows.rows };

    ghost invariant = { λ s. s.rows.width ≡ 4 };
}

// The columns of a row.
pub(crate) const COLUMNS: [Column<'static>; 4] = [
    Column::Field(b"Internal State"),
    Column::Field(b"Current call"),
    Column::Field(b"Program counter"),
    Column::Field(b"Spawned as"),
];

impl Stands {
    // The rows of the columns.
    pub(crate) fn of(rows: SectionRows) -> Stands
        requires { rows.width ≡ 4 }
        ensures { result ≡ rows.rows }
    {
        Stands { rows }
    }

    // The text of the cell in row `i` and column `c`, if there is one.
    fn text(&self, i: usize, c: usize) -> Option<&[u8]>
        requires row { i < length self.now }
        requires column { c < 4 }
        ensures { option_copied result ≡ text_in (cell_at (row_at self.now i) c) }
    {
        self.rows.cell(i, c).map(|cell| cell.text)
    }

    /// The number of processes.
    pub fn len(&self) -> usize
        ensures { result ≡ length self.now }
    {
        self.rows.len()
    }

    /// Where the process at a place stands: its field `Current call`, else its field `Program counter`,
    /// since a hibernated process has no function there, if it has one of them.
    pub fn place(&self, i: usize) -> Option<&[u8]>
        requires { i < length self.now }
        ensures { option_copied result ≡ where_in (row_at self.now i) }
    {
        match self.text(i, 1) {
            Some(call) => Some(call),
            None => self.text(i, 2),
        }
    }

    /// The field `Spawned as` of the process at a place, if it has one.
    pub fn spawned(&self, i: usize) -> Option<&[u8]>
        requires { i < length self.now }
        ensures { option_copied result ≡ spawned_in (row_at self.now i) }
    {
        self.text(i, 3)
    }

    /// For which processes signals wait, as [`signalled`] says.
    pub fn signalled(&self, alloc: Global) -> Result<Vec<bool>, AllocError>
        ensures { IfOk result (λ marks. marks.items ≡ map is_signalled self.now) }
    {
        signalled(alloc, &self.rows)
    }
}
