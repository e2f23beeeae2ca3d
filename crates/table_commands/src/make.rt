// `make`: a made dump. No file is opened.
ghost use Rattle.std.specs.Prelude.{◌≤◌};
ghost use Rattle.dump_questions.specs.Runs.{RunsAlone};
ghost use Rattle.table_commands.specs.Rows.{make_task};

use dump_io::{Sink, write_all};
use dump_questions::Stop;
use dump_questions::status::DONE;
use dump_write::make;
use std::alloc::Global;

/// Runs `make`, and returns its status.
pub fn run_make<K: Sink>(alloc: Global, seed: u64, count: u32, out: &mut K) -> Result<u8, Stop>
    requires some { 1 ≤ count }
    requires few { count ≤ 200000 }
    ensures { RunsAlone (make_task seed count) (K.state out.old) (K.state out.new) result }
{
    let dump = make(alloc, seed, count)?;
    write_all(out, dump.as_slice())?;
    Ok(DONE)
}
