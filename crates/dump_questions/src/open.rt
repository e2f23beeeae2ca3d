// Opening a dump for a question.
ghost use Rattle.std.specs.Prelude.{MatchResult};
ghost use Rattle.dump_questions.specs.Reading.{HasOpened, IsUnopened};

use crate::stop::Stop;
use dump_io::{Dumps, Limits};
use dump_sections::Index;
use section_index::build;
use std::alloc::Global;

/// A dump that isn't open yet: its name, the limits within which it is read, and the memory for it.
#[derive(Clone, Copy)]
pub struct Unopened<'a> {
    pub alloc: Global,
    pub file: &'a str,
    pub limits: &'a Limits,
}

/// Opens a dump and returns its index.
pub fn open_dump<D: Dumps>(dump: &Unopened<'_>, dumps: &mut D) -> Result<Index, Stop>
    ensures { let name = dump.now.file.now in let limits = dump.now.limits.now in
        MatchResult result (HasOpened name limits (D.state dumps.old) (D.state dumps.new))
        (IsUnopened name limits (D.state dumps.old) (D.state dumps.new)) }
{
    Ok(build(dump.alloc, dumps, dump.file, dump.limits)?)
}

/// An open dump: its index, the limits within which it is read, and the memory for it.
#[derive(Clone, Copy)]
pub struct Opened<'a> {
    pub alloc: Global,
    pub index: &'a Index,
    pub limits: &'a Limits,
}
