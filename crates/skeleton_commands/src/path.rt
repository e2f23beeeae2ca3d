// `path`: by which way the roots of a process reach a cell.
ghost use Rattle.std.specs.Prelude.{◌≡◌, is_some, IfOk, Some};
ghost use Rattle.dump_questions.specs.Heaps.{address_cause};
ghost use Rattle.dump_questions.specs.Stops.{Judges};
ghost use Rattle.skeleton_commands.specs.Rows.{path_row};
ghost use Rattle.dump_questions.specs.Runs.{Runs};
ghost use Rattle.dump_questions.specs.Tasks.{question};

use crate::put_path;
use dump_io::{Dumps, Sink};
use dump_questions::status::DONE;
use dump_questions::{Opened, Report, Stop, Unopened, find_process, run_report};
use heap_ways::HeapWay;
use report_text::Refusal;
use root_views::RootKind;
use term_text::put_cuts;

#[derive(Clone, Copy)]
pub(crate) struct Path<'a> {
    pub pid: &'a [u8],
    pub addr: u64,
}

// Refuses an address that no cell of the heap has.
fn or_no_cell(found: Option<HeapWay>, addr: u64) -> Result<HeapWay, Stop>
    ensures judges { Judges (address_cause addr (is_some found)) result }
    ensures found { IfOk result (λ way. found ≡ Some way) }
{
    match found {
        Some(way) => Ok(way),
        None => Err(Stop::Refused(Refusal::NoAddress { addr })),
    }
}

impl Report for Path<'_> {
    type Loaded = HeapWay;

    ghost means = { λ c. path_row c.pid.now c.addr };

    ghost seen = { λ _ index way. record { index = index; seen = Some way } };

    fn read<D: Dumps>(&self, at: &Opened<'_>, dumps: &mut D) -> Result<HeapWay, Stop> {
        find_process(at, self.pid)?;
        let found = HeapWay::load(at.alloc, dumps, at.index, self.pid, self.addr)?;
        or_no_cell(found, self.addr)
    }

    fn put<K: Sink>(&self, at: &Opened<'_>, way: &HeapWay, out: &mut K) -> Result<u8, Stop> {
        put_path(out, way)?;
        let kinds = [RootKind::Stack, RootKind::Dict, RootKind::Mail];
        put_cuts(out, at.index, self.pid, &kinds)?;
        Ok(DONE)
    }
}

/// Runs `path`, and returns its status.
pub fn run_path<D: Dumps, K: Sink>(
    dump: &Unopened<'_>,
    pid: &[u8],
    addr: u64,
    dumps: &mut D,
    out: &mut K,
) -> Result<u8, Stop>
    ensures { Runs (question dump.now.file.now (path_row pid.now addr)) dump.now.limits.now
        (D.state dumps.old) (D.state dumps.new) (K.state out.old) (K.state out.new) result }
{
    run_report(dump, &Path { pid, addr }, dumps, out)
}
