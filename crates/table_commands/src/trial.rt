// `trial`: how much there is in a made dump, and what is bad or one-sided in it. No file is opened.
ghost use Rattle.std.specs.Prelude.{◌≤◌};
ghost use Rattle.dump_questions.specs.Runs.{RunsAlone};
ghost use Rattle.table_commands.specs.Rows.{trial_task};

use dump_io::Sink;
use dump_questions::Stop;
use dump_questions::status::DONE;
use dump_trial::{put_trial, trial};
use std::alloc::Global;

/// Runs `trial`, and returns its status.
pub fn run_trial<K: Sink>(alloc: Global, seed: u64, count: u32, out: &mut K) -> Result<u8, Stop>
    requires some { 1 ≤ count }
    requires few { count ≤ 200000 }
    ensures { RunsAlone (trial_task seed count) (K.state out.old) (K.state out.new) result }
{
    let summary = trial(alloc, seed, count)?;
    put_trial(out, &summary)?;
    Ok(DONE)
}
