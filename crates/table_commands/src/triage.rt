// `triage`: what to read first of a dump.
ghost use Rattle.std.specs.Prelude.{◌≡◌, ◌≤◌, length, None, IfOk};
ghost use Rattle.dump_io.specs.Dumps.{IfTold};
ghost use Rattle.dump_sections.specs.Index.{sections_in, IsBuiltOver};
ghost use Rattle.dump_sections.specs.Loading.{large_fault, LoadsBodies};
ghost use Rattle.table_commands.specs.Rows.{triage_row, triage_sections};
ghost use Rattle.table_commands.specs.Inner.Loads.{sections_found, seen_triage, AreFound, AreTablesOf, Fits};
ghost use Rattle.dump_questions.specs.Bodies.{ReadsBodies};
ghost use Rattle.dump_questions.specs.Runs.{Runs};
ghost use Rattle.dump_questions.specs.Tasks.{question};

use dump_io::{Dumps, Sink};
use dump_questions::status::DONE;
use dump_questions::{Body, Opened, Report, Stop, Unopened, or_stop, read_found, run_report};
use dump_sections::{BodyFault, LargeSection, large_body};
use dump_triage::Triage as Found;
use glance_text::put_triage;
use process_table::{ProcSections, Procs, Stands};
use std::alloc::AllocError;
use table_sections::{Rows, TableKind, TableSections};

#[derive(Clone, Copy)]
pub(crate) struct Triage {
    pub count: u32,
}

// The places of the sections that a triage loads after the first one.
#[derive(Drop)]
struct Places {
    memory: Option<usize>,
    procs: ProcSections,
    tables: TableSections,
    ports: TableSections,
}

/// The bodies of the first section and of the first one on memory, the processes and where they
/// stand, the ETS tables, and what the ports are.
#[derive(Drop)]
pub struct NodeTables {
    first: Body,
    memory: Body,
    procs: Procs,
    stands: Stands,
    tables: Rows,
    ports: Rows,
}

// Finds the sections that a triage loads after the first one.
fn find_places(at: &Opened<'_>) -> Result<Places, AllocError>
    ensures { IfOk result (AreFound at.now.index.now) }
{
    let memory = at.index.first_tag(b"memory");
    let procs = ProcSections::find(at.alloc, at.index)?;
    let tables = TableSections::find(at.alloc, at.index, TableKind::Ets)?;
    let ports = TableSections::find(at.alloc, at.index, TableKind::PortUses)?;
    Ok(Places {
        memory,
        procs,
        tables,
        ports,
    })
}

// Returns the first of the sections of a triage whose body has more bytes than the limit.
fn large_section(at: &Opened<'_>, places: &Places) -> Option<LargeSection>
    requires some { 1 ≤ length at.now.index.now.headers }
    requires places { AreFound at.now.index.now places.now }
    ensures { let sections = sections_found at.now.index.now places.now in
        result ≡ large_fault at.now.limits.now.section sections }
{
    let first = large_body(at.index, Some(0), at.limits);
    let memory = large_body(at.index, places.memory, at.limits);
    let procs = places.procs.large(at.index, at.limits);
    let tables = places.tables.large(at.index, at.limits);
    let ports = places.ports.large(at.index, at.limits);
    first.or(memory).or(procs).or(tables).or(ports)
}

// Reads the bodies of a triage, none of which is too large, one after another.
fn read_bodies<D: Dumps>(
    at: &Opened<'_>,
    dumps: &mut D,
    places: Places,
) -> Result<NodeTables, BodyFault>
    requires over { IsBuiltOver (D.state dumps.old).now at.now.index.now }
    requires some { 1 ≤ length at.now.index.now.headers }
    requires places { AreFound at.now.index.now places }
    requires small { let sections = sections_found at.now.index.now places in
        large_fault at.now.limits.now.section sections ≡ None }
    ensures reads { let sections = sections_found at.now.index.now places in
        ReadsBodies sections (D.state dumps.old) (D.state dumps.new) result }
    ensures bodies { IfOk result (λ loaded. IfTold (D.state dumps.old).now
        (λ bytes. AreTablesOf at.now.index.now bytes loaded)) }
    ensures fits { IfOk result (Fits at.now.index.now) }
{
    let first = read_found(at, dumps, Some(0))?;
    let memory = read_found(at, dumps, places.memory)?;
    let (procs, stands) = Procs::read_standing(at.alloc, dumps, at.index, places.procs, at.limits)?;
    let tables = Rows::read(at.alloc, dumps, at.index, places.tables, at.limits)?;
    let ports = Rows::read(at.alloc, dumps, at.index, places.ports, at.limits)?;
    Ok(NodeTables {
        first,
        memory,
        procs,
        stands,
        tables,
        ports,
    })
}

// Loads the bodies of a triage: all are judged before one is read.
fn load_bodies<D: Dumps>(at: &Opened<'_>, dumps: &mut D) -> Result<NodeTables, BodyFault>
    requires over { IsBuiltOver (D.state dumps.old).now at.now.index.now }
    requires some { 1 ≤ length at.now.index.now.headers }
    ensures loads { let sections = triage_sections (sections_in at.now.index.now) in
        LoadsBodies D.state sections at.now.limits.now.section dumps.old dumps.new result }
    ensures bodies { IfOk result (λ loaded. IfTold (D.state dumps.old).now
        (λ bytes. AreTablesOf at.now.index.now bytes loaded)) }
    ensures fits { IfOk result (Fits at.now.index.now) }
{
    let Ok(places) = find_places(at) else {
        return Err(BodyFault::Memory);
    };
    if let Some(large) = large_section(at, &places) {
        return Err(BodyFault::from(large));
    }
    read_bodies(at, dumps, places)
}

impl Report for Triage {
    type Loaded = NodeTables;

    ghost means = { λ c. triage_row c.count };

    ghost seen = { λ _ index loaded. seen_triage index loaded };

    ghost fits = { λ _ index loaded. Fits index loaded };

    fn read<D: Dumps>(&self, at: &Opened<'_>, dumps: &mut D) -> Result<NodeTables, Stop> {
        or_stop(load_bodies(at, dumps))
    }

    fn put<K: Sink>(&self, at: &Opened<'_>, loaded: &NodeTables, out: &mut K) -> Result<u8, Stop> {
        let NodeTables {
            first,
            memory,
            procs,
            stands,
            tables,
            ports,
        } = loaded;
        let found = Found::of(
            at.alloc,
            at.index,
            procs,
            stands,
            tables,
            ports,
            u64::from(self.count),
        )?;
        put_triage(
            out,
            at.index,
            first.bytes.as_slice(),
            memory.bytes.as_slice(),
            procs,
            stands,
            tables,
            ports,
            &found,
        )?;
        Ok(DONE)
    }
}

/// Runs `triage`, and returns its status.
pub fn run_triage<D: Dumps, K: Sink>(
    dump: &Unopened<'_>,
    count: u32,
    dumps: &mut D,
    out: &mut K,
) -> Result<u8, Stop>
    ensures { Runs (question dump.now.file.now (triage_row count)) dump.now.limits.now
        (D.state dumps.old) (D.state dumps.new) (K.state out.old) (K.state out.new) result }
{
    run_report(dump, &Triage { count }, dumps, out)
}
