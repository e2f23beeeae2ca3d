// A question to a dump: what it reads, what it writes, and its run.
ghost use Rattle.std.specs.Prelude.{◌≤◌, length, IfOk};
ghost use Rattle.dump_sections.specs.Index.{Contents, IsBuiltOver};
ghost use Rattle.dump_questions.specs.Meaning.{Meaning};
ghost use Rattle.dump_questions.specs.Tasks.{question};
ghost use Rattle.dump_questions.specs.Runs.{Runs};
ghost use Rattle.dump_questions.specs.Reading.{ReadsFor, TellsOf};

use crate::open::{Opened, Unopened, open_dump};
use crate::stop::Stop;
use dump_io::{Dumps, Sink};

/// A question to a dump: it reads all that its report needs, and then writes the report.
pub trait Report {
    /// What the question reads of the dump besides the index.
    type Loaded: Drop;

    /// What the question means.
    ghost means: { Self → Meaning };

    /// What the question saw of the dump, of which its meaning says how it is reported.
    ghost seen: { (c : Self) → Contents → Self.Loaded → (means c).What };

    /// What the question requires of its words.
    ghost asked: { Self → Type 0 } = { λ _. Unit {0} };

    /// What the report requires of what was read.
    ghost fits: { Self → Contents → Self.Loaded → Type 0 } = { λ _ _ _. Unit {0} };

    /// Reads what the report needs, or returns why it didn't.
    fn read<D: Dumps>(&self, at: &Opened<'_>, dumps: &mut D) -> Result<Self::Loaded, Stop>
        requires asked { asked self.now }
        requires over { IsBuiltOver (D.state dumps.old).now at.now.index.now }
        requires some { 1 ≤ length at.now.index.now.headers }
        ensures reads { let index = at.now.index.now in ReadsFor (means self.now) at.now.limits.now index
            (D.state dumps.old) (D.state dumps.new) (seen self.now index) result }
        ensures fits { IfOk result (fits self.now at.now.index.now) };

    /// Writes the report, and returns the status.
    fn put<K: Sink>(&self, at: &Opened<'_>, loaded: &Self::Loaded, out: &mut K) -> Result<u8, Stop>
        requires asked { asked self.now }
        requires fits { fits self.now at.now.index.now loaded.now }
        ensures { TellsOf (means self.now) (seen self.now at.now.index.now loaded.now)
            (K.state out.old) (K.state out.new) result };
}

/// Runs a question from a device to the sink of its report, and returns its status.
pub fn run_report<R: Report, D: Dumps, K: Sink>(
    dump: &Unopened<'_>,
    report: &R,
    dumps: &mut D,
    out: &mut K,
) -> Result<u8, Stop>
    requires { R.asked report.now }
    ensures { Runs (question dump.now.file.now (R.means report.now)) dump.now.limits.now
        (D.state dumps.old) (D.state dumps.new) (K.state out.old) (K.state out.new) result }
{
    let index = open_dump(dump, dumps)?;
    let at = Opened {
        alloc: dump.alloc,
        index: &index,
        limits: dump.limits,
    };
    let loaded = report.read(&at, dumps)?;
    report.put(&at, &loaded, out)
}
