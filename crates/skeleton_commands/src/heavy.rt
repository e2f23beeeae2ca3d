// `heavy`: from the roots of a process down to where most of its memory hangs.
ghost use Rattle.std.specs.Prelude.{◌≤◌};
ghost use Rattle.dump_questions.specs.Runs.{Runs};
ghost use Rattle.dump_questions.specs.Tasks.{question};
ghost use Rattle.skeleton_commands.specs.Rows.{heavy_row};

use crate::heavy_report::put_heavy;
use dump_io::{Dumps, Sink};
use dump_questions::status::DONE;
use dump_questions::{Opened, Report, Stop, Unopened, find_process, run_report};
use heap_levels::Levels;
use root_views::RootKind;
use term_text::put_cuts;

#[derive(Clone, Copy)]
pub(crate) struct Heavy<'a> {
    pub pid: &'a [u8],
    pub count: u32,
}

impl Report for Heavy<'_> {
    type Loaded = Levels;

    ghost means = { λ c. heavy_row c.pid.now c.count };

    ghost seen = { λ _ index levels. record { index = index; seen = levels } };

    ghost asked = { λ c. (1 ≤ c.count) × (c.count ≤ 1000) };

    fn read<D: Dumps>(&self, at: &Opened<'_>, dumps: &mut D) -> Result<Levels, Stop> {
        find_process(at, self.pid)?;
        let levels = Levels::load(at.alloc, dumps, at.index, self.pid, self.count as usize)?;
        Ok(levels)
    }

    fn put<K: Sink>(&self, at: &Opened<'_>, levels: &Levels, out: &mut K) -> Result<u8, Stop> {
        put_heavy(out, levels)?;
        let kinds = [RootKind::Stack, RootKind::Dict, RootKind::Mail];
        put_cuts(out, at.index, self.pid, &kinds)?;
        Ok(DONE)
    }
}

/// Runs `heavy`, and returns its status.
pub fn run_heavy<D: Dumps, K: Sink>(
    dump: &Unopened<'_>,
    pid: &[u8],
    count: u32,
    dumps: &mut D,
    out: &mut K,
) -> Result<u8, Stop>
    requires { (1 ≤ count) × (count ≤ 1000) }
    ensures { Runs (question dump.now.file.now (heavy_row pid.now count)) dump.now.limits.now
        (D.state dumps.old) (D.state dumps.new) (K.state out.old) (K.state out.new) result }
{
    run_report(dump, &Heavy { pid, count }, dumps, out)
}
