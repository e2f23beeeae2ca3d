// `holders`: which processes hold a binary.
ghost use Rattle.stream_commands.specs.Inner.Loads.{seen_held, AreNamed};
ghost use Rattle.stream_commands.specs.Rows.{holders_row};
ghost use Rattle.dump_questions.specs.Runs.{Runs};
ghost use Rattle.dump_questions.specs.Tasks.{question};

use binary_holders::{Holding, holders};
use dump_io::{Dumps, Sink};
use dump_questions::status::DONE;
use dump_questions::{Opened, Report, Stop, Unopened, run_report};
use glance_text::put_holders;
use process_table::Procs;

#[derive(Clone, Copy)]
pub(crate) struct Holders {
    pub addr: u64,
}

/// The processes, and those that hold the binary with the address.
#[derive(Drop)]
pub struct ProcsAndHoldings {
    procs: Procs,
    held: Vec<Holding>,
}

impl Report for Holders {
    type Loaded = ProcsAndHoldings;

    ghost means = { λ c. holders_row c.addr };

    ghost seen = { λ _ index loaded. seen_held index loaded.procs loaded.held.items };

    ghost fits = { λ _ index loaded. AreNamed index loaded.procs loaded.held.items };

    fn read<D: Dumps>(&self, at: &Opened<'_>, dumps: &mut D) -> Result<ProcsAndHoldings, Stop> {
        let procs = Procs::load(at.alloc, dumps, at.index, at.limits)?;
        let held = holders(at.alloc, dumps, at.index, &procs, self.addr)?;
        Ok(ProcsAndHoldings { procs, held })
    }

    fn put<K: Sink>(
        &self,
        at: &Opened<'_>,
        loaded: &ProcsAndHoldings,
        out: &mut K,
    ) -> Result<u8, Stop> {
        put_holders(out, at.index, &loaded.procs, loaded.held.as_slice())?;
        Ok(DONE)
    }
}

/// Runs `holders`, and returns its status.
pub fn run_holders<D: Dumps, K: Sink>(
    dump: &Unopened<'_>,
    addr: u64,
    dumps: &mut D,
    out: &mut K,
) -> Result<u8, Stop>
    ensures { Runs (question dump.now.file.now (holders_row addr)) dump.now.limits.now
        (D.state dumps.old) (D.state dumps.new) (K.state out.old) (K.state out.new) result }
{
    run_report(dump, &Holders { addr }, dumps, out)
}
