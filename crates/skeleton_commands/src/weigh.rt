// `weigh`: which parts of a process's heap alone hold its memory.
ghost use Rattle.std.specs.Prelude.{◌≡◌, is_some, IfOk, Some};
ghost use Rattle.dump_questions.specs.Heaps.{address_cause};
ghost use Rattle.dump_questions.specs.Stops.{Judges};
ghost use Rattle.skeleton_commands.specs.Rows.{weigh_cell_row, weigh_row};
ghost use Rattle.dump_questions.specs.Runs.{Runs};
ghost use Rattle.dump_questions.specs.Tasks.{question};

use crate::put_weights;
use dump_io::{Dumps, Sink};
use dump_questions::status::DONE;
use dump_questions::{Opened, Report, Stop, Unopened, find_process, run_report};
use part_weights::Weights;
use report_text::Refusal;
use root_views::RootKind;
use term_text::put_cuts;

/// `weigh` of a process.
#[derive(Clone, Copy)]
pub(crate) struct Weigh<'a> {
    pub pid: &'a [u8],
    pub count: u32,
}

/// `weigh` of the cell at an address.
#[derive(Clone, Copy)]
pub(crate) struct WeighCell<'a> {
    pub pid: &'a [u8],
    pub count: u32,
    pub addr: u64,
}

impl Report for Weigh<'_> {
    type Loaded = Weights;

    ghost means = { λ c. weigh_row c.pid.now c.count };

    ghost seen = { λ _ index weights. record { index = index; seen = weights } };

    fn read<D: Dumps>(&self, at: &Opened<'_>, dumps: &mut D) -> Result<Weights, Stop> {
        find_process(at, self.pid)?;
        let weights = Weights::of_roots(at.alloc, dumps, at.index, self.pid)?;
        Ok(weights)
    }

    fn put<K: Sink>(&self, at: &Opened<'_>, weights: &Weights, out: &mut K) -> Result<u8, Stop> {
        put_weights(out, weights, self.count)?;
        let kinds = [RootKind::Stack, RootKind::Dict, RootKind::Mail];
        put_cuts(out, at.index, self.pid, &kinds)?;
        Ok(DONE)
    }
}

// Refuses an address that no cell of the heap has.
fn or_no_address(found: Option<Weights>, addr: u64) -> Result<Weights, Stop>
    ensures judges { Judges (address_cause addr (is_some found)) result }
    ensures found { IfOk result (λ weights. found ≡ Some weights) }
{
    match found {
        Some(weights) => Ok(weights),
        None => Err(Stop::Refused(Refusal::NoAddress { addr })),
    }
}

impl Report for WeighCell<'_> {
    type Loaded = Weights;

    ghost means = { λ c. weigh_cell_row c.pid.now c.count c.addr };

    ghost seen = { λ _ index weights. record { index = index; seen = Some weights } };

    fn read<D: Dumps>(&self, at: &Opened<'_>, dumps: &mut D) -> Result<Weights, Stop> {
        find_process(at, self.pid)?;
        let most = self.count as usize;
        let found = Weights::of_cell(at.alloc, dumps, at.index, self.pid, self.addr, most)?;
        or_no_address(found, self.addr)
    }

    fn put<K: Sink>(&self, at: &Opened<'_>, weights: &Weights, out: &mut K) -> Result<u8, Stop> {
        put_weights(out, weights, self.count)?;
        put_cuts(out, at.index, self.pid, &[])?;
        Ok(DONE)
    }
}

/// Runs `weigh` of a process, and returns its status.
pub fn run_weigh<D: Dumps, K: Sink>(
    dump: &Unopened<'_>,
    pid: &[u8],
    count: u32,
    dumps: &mut D,
    out: &mut K,
) -> Result<u8, Stop>
    ensures { Runs (question dump.now.file.now (weigh_row pid.now count)) dump.now.limits.now
        (D.state dumps.old) (D.state dumps.new) (K.state out.old) (K.state out.new) result }
{
    run_report(dump, &Weigh { pid, count }, dumps, out)
}

/// Runs `weigh` of the cell at an address, and returns its status.
pub fn run_weigh_cell<D: Dumps, K: Sink>(
    dump: &Unopened<'_>,
    pid: &[u8],
    count: u32,
    addr: u64,
    dumps: &mut D,
    out: &mut K,
) -> Result<u8, Stop>
    ensures { Runs (question dump.now.file.now (weigh_cell_row pid.now count addr)) dump.now.limits.now
        (D.state dumps.old) (D.state dumps.new) (K.state out.old) (K.state out.new) result }
{
    run_report(dump, &WeighCell { pid, count, addr }, dumps, out)
}
