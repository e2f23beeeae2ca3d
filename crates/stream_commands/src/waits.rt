// `waits`: who waits for whom.
ghost use Rattle.std.specs.Prelude.{◌≡◌, length, IfErr, IfOk};
ghost use Rattle.dump_io.specs.Dumps.{IfTold, ReadsAtMost};
ghost use Rattle.dump_io.specs.Faults.{IsReadCauseOf};
ghost use Rattle.dump_questions.specs.Runs.{Runs};
ghost use Rattle.dump_questions.specs.Tasks.{question};
ghost use Rattle.dump_sections.specs.Index.{sections_in, IsBuiltOver};
ghost use Rattle.dump_sections.specs.Loading.{LoadsBodies};
ghost use Rattle.process_table.specs.Processes.{process_table, AreProcessesOver};
ghost use Rattle.process_table.specs.Records.{record_sections};
ghost use Rattle.process_table.specs.Stands.{stand_rows};
ghost use Rattle.wait_requests.specs.Waits.{targets_of, waits_length};
ghost use Rattle.stream_commands.specs.Rows.{waits_row};
ghost use Rattle.stream_commands.specs.Inner.Waits.{FitsWaits, seen_waits};

use crate::wait_report::{Told, put_waits};
use dump_io::{Dumps, ReadFault, Sink};
use dump_questions::status::DONE;
use dump_questions::{Opened, Report, Stop, Unopened, run_report};
use dump_sections::BodyFault;
use link_graph::Graph;
use process_table::{ProcSections, Procs, Stands};
use wait_circles::WaitGraph;
use wait_requests::{Waiters, Waits};

#[derive(Clone, Copy)]
pub(crate) struct WaitsFor {
    pub count: u32,
}

/// The processes, where they stand, and for whom they wait.
#[derive(Drop)]
pub struct ProcsAndWaits {
    procs: Procs,
    stands: Stands,
    waits: Waits,
}

// Reads the processes, and where they stand.
fn load_standing<D: Dumps>(at: &Opened<'_>, dumps: &mut D) -> Result<(Procs, Stands), BodyFault>
    requires { IsBuiltOver (D.state dumps.old).now at.now.index.now }
    ensures loads { LoadsBodies D.state (record_sections (sections_in at.now.index.now))
        at.now.limits.now.section dumps.old dumps.new result }
    ensures table { IfOk result (λ read. IfTold (D.state dumps.old).now
        (λ bytes. read.0 ≡ process_table bytes)) }
    ensures over { IfOk result (λ read. AreProcessesOver at.now.index.now read.0) }
    ensures stands { IfOk result (λ read. IfTold (D.state dumps.old).now
        (λ bytes. read.1 ≡ stand_rows bytes)) }
    ensures count { IfOk result (λ read. length read.1 ≡ length read.0.processes) }
{
    let Ok(found) = ProcSections::find(at.alloc, at.index) else {
        return Err(BodyFault::Memory);
    };
    Procs::read_standing(at.alloc, dumps, at.index, found, at.limits)
}

// Reads for whom each process waits.
fn find_waits<D: Dumps>(at: &Opened<'_>, dumps: &mut D, procs: &Procs) -> Result<Waits, ReadFault>
    requires { IsBuiltOver (D.state dumps.old).now at.now.index.now }
    ensures reads { ReadsAtMost (D.state dumps.old) (D.state dumps.new)
        (waits_length at.now.index.now procs.now.processes) }
    ensures fault { IfErr result (IsReadCauseOf (D.state dumps.old) (D.state dumps.new)) }
    ensures waits { IfOk result (λ waits. IfTold (D.state dumps.old).now
        (λ bytes. waits ≡ targets_of bytes at.now.index.now procs.now.processes)) }
    ensures count { IfOk result (λ waits. length waits ≡ length procs.now.processes) }
{
    let graph = Graph::build(at.alloc, procs)?;
    Waits::find(at.alloc, dumps, at.index, procs, &graph)
}

impl Report for WaitsFor {
    type Loaded = ProcsAndWaits;

    ghost means = { λ c. waits_row c.count };

    ghost seen = { λ _ index loaded. seen_waits index loaded.procs loaded.stands loaded.waits };

    ghost fits = { λ _ index loaded. FitsWaits index loaded.procs loaded.stands loaded.waits };

    fn read<D: Dumps>(&self, at: &Opened<'_>, dumps: &mut D) -> Result<ProcsAndWaits, Stop> {
        let (procs, stands) = load_standing(at, dumps)?;
        let waits = find_waits(at, dumps, &procs)?;
        Ok(ProcsAndWaits {
            procs,
            stands,
            waits,
        })
    }

    fn put<K: Sink>(
        &self,
        at: &Opened<'_>,
        loaded: &ProcsAndWaits,
        out: &mut K,
    ) -> Result<u8, Stop> {
        let told = Told {
            index: at.index,
            procs: &loaded.procs,
            stands: &loaded.stands,
            waiters: Waiters::of(&loaded.procs, &loaded.waits),
        };
        let found = WaitGraph::of(at.alloc, &told.waiters)?;
        put_waits(out, &told, &found, self.count)?;
        Ok(DONE)
    }
}

/// Runs `waits`, and returns its status.
pub fn run_waits<D: Dumps, K: Sink>(
    dump: &Unopened<'_>,
    count: u32,
    dumps: &mut D,
    out: &mut K,
) -> Result<u8, Stop>
    ensures { Runs (question dump.now.file.now (waits_row count)) dump.now.limits.now
        (D.state dumps.old) (D.state dumps.new) (K.state out.old) (K.state out.new) result }
{
    run_report(dump, &WaitsFor { count }, dumps, out)
}
