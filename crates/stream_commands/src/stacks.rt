// `stacks`: which processes stand at the same place.
ghost use Rattle.std.specs.Prelude.{length};
ghost use Rattle.process_stacks.specs.Groups.{FitsStacks};
ghost use Rattle.stream_commands.specs.Rows.{stacks_row};
ghost use Rattle.dump_questions.specs.Runs.{Runs};
ghost use Rattle.dump_questions.specs.Tasks.{question};

use crate::put_stacks;
use dump_io::{Dumps, Sink};
use dump_questions::status::DONE;
use dump_questions::{Opened, Report, Stop, Unopened, run_report};
use process_stacks::{StackProcs, Stacks};

#[derive(Clone, Copy)]
pub(crate) struct StackGroups {
    pub count: u32,
}

/// The processes, and their groups by the places at which they stand.
#[derive(Drop)]
pub struct ProcsAndStacks {
    procs: StackProcs,
    stacks: Stacks,
}

impl Report for StackGroups {
    type Loaded = ProcsAndStacks;

    ghost means = { λ c. stacks_row c.count };

    ghost seen = { λ _ _ loaded. record { rows = loaded.procs; found = loaded.stacks } };

    ghost fits = { λ _ _ loaded. FitsStacks (length loaded.procs) loaded.stacks };

    fn read<D: Dumps>(&self, at: &Opened<'_>, dumps: &mut D) -> Result<ProcsAndStacks, Stop> {
        let procs = StackProcs::load(at.alloc, dumps, at.index, at.limits)?;
        let stacks = Stacks::gather(at.alloc, dumps, at.index, &procs)?;
        Ok(ProcsAndStacks { procs, stacks })
    }

    fn put<K: Sink>(
        &self,
        _at: &Opened<'_>,
        loaded: &ProcsAndStacks,
        out: &mut K,
    ) -> Result<u8, Stop> {
        put_stacks(out, &loaded.procs, &loaded.stacks, u64::from(self.count))?;
        Ok(DONE)
    }
}

/// Runs `stacks`, and returns its status.
pub fn run_stacks<D: Dumps, K: Sink>(
    dump: &Unopened<'_>,
    count: u32,
    dumps: &mut D,
    out: &mut K,
) -> Result<u8, Stop>
    ensures { Runs (question dump.now.file.now (stacks_row count)) dump.now.limits.now
        (D.state dumps.old) (D.state dumps.new) (K.state out.old) (K.state out.new) result }
{
    run_report(dump, &StackGroups { count }, dumps, out)
}
