// What stands out in a dump.
ghost use Rattle.std.specs.Prelude.{◌≡◌, length, All, IfOk};
ghost use Rattle.process_table.specs.Processes.{IsProcessIn};
ghost use Rattle.table_sections.specs.Tables.{IsTableOver};
ghost use Rattle.table_sections.specs.declared.kinds.TableKind.TheVariants.{Ets, PortUses};
ghost use Rattle.dump_audit.specs.Flight.{in_flight};
ghost use Rattle.dump_triage.specs.FindingCounts.{counts_of};
ghost use Rattle.dump_triage.specs.Triage.{found_in, FitsTriage, triage_of};

use crate::finding_counts::{FindingCounts, counts_of};
use crate::groups::{largest_groups, largest_ports};
use crate::numbers::{largest_processes, largest_tables, longest_queues, most_binaries};
use crate::ranked::Ranked;
use crate::states::commonest_states;
use dump_audit::{audit, part};
use dump_sections::Index;
use link_graph::Graph;
use process_table::{Procs, Stands};
use std::alloc::{AllocError, Global};
use std::marker::Model;
use table_sections::Rows;
use text_groups::TextGroup;

/// What stands out in a dump. Each list has the largest number
/// first; of equal ones, the first in the dump comes first.
#[derive(Drop)]
pub struct Triage {
    states: Vec<Ranked>,
    groups: Vec<TextGroup>,
    queues: Vec<Ranked>,
    memory: Vec<Ranked>,
    binaries: Vec<Ranked>,
    tables: Vec<Ranked>,
    ports: Vec<TextGroup>,
    findings: Counted,
}

// How many findings of each kind there are, and how many of these are in flight.
#[derive(Clone, Copy, Drop)]
struct Counted {
    all: FindingCounts,
    in_flight: FindingCounts,
}

impl Model for Triage {
    ghost use Rattle.dump_triage.specs.Triage.{Triaged};

    ghost Value = { Triaged };

    ghost view = { λ t. record {
      states = t.states.items;
      groups = t.groups.items;
      queues = t.queues.items;
      memory = t.memory.items;
      binaries = t.binaries.items;
      tables = t.tables.items;
      ports = t.ports.items;
      findings = t.findings.all;
      in_flight = t.findings.in_flight;
    } };
}

// How many findings of each kind there are in an audit that isn't full and in which
// no message queue is too long, and how many of these are in flight.
fn count_findings(
    alloc: Global,
    index: &Index,
    procs: &Procs,
    signalled: &[bool],
) -> Result<Counted, AllocError>
    requires { All (IsProcessIn index.now) procs.now.processes }
    ensures all { IfOk result (λ counted. counted.all
        ≡ counts_of (found_in index.now procs.now.processes)) }
    ensures in_flight { IfOk result (λ counted. counted.in_flight
        ≡ counts_of (in_flight signalled.now (found_in index.now procs.now.processes))) }
{
    let graph = Graph::build(alloc, procs)?;
    let findings = audit(alloc, index, procs, &graph, u64::MAX)?;
    let parted = part(alloc, signalled, &findings)?;
    Ok(Counted {
        all: counts_of(&findings),
        in_flight: counts_of(&parted.in_flight),
    })
}

impl Triage {
    /// What stands out in a dump with these processes, of which it is known where they stand, these ETS tables and these
    /// ports, which are those of its index: at most `most` states, groups of processes, message queues, processes by
    /// memory and by binaries, tables and groups of ports, and the numbers of findings.
    ///
    /// A process without a `State` is in the state `-`. Processes are a group if they stand at the same place and were
    /// spawned as the same, of which at most the first 255 bytes count and an absent one is `-`; only a group of two or more
    /// is told. A message queue, a memory or the words of a table count if they are decimal numbers below 2^64 and not 0. The
    /// binaries of a process are the sum of its `BinVHeap` and its `OldBinVHeap`, each of which counts 0 if it isn't such a
    /// number; a word has eight bytes. Ports are a group if the lines that say what they are have the same first 255 bytes;
    /// a port without such a line isn't counted. Findings are those of [`audit`](dump_audit::audit) with the limit 2^64 - 1,
    /// which no message queue exceeds; those in flight are those of [`part`](dump_audit::part). `AllocError` may come
    /// from any allocation.
    pub fn of(
        alloc: Global,
        index: &Index,
        procs: &Procs,
        stands: &Stands,
        tables: &Rows,
        ports: &Rows,
        most: u64,
    ) -> Result<Triage, AllocError>
        requires sections { All (IsProcessIn index.now) procs.now.processes }
        requires stands { length stands.now ≡ length procs.now.processes }
        requires tables { IsTableOver Ets index.now tables.now }
        requires ports { IsTableOver PortUses index.now ports.now }
        ensures value { IfOk result (λ triage. triage
            ≡ triage_of index.now procs.now.processes stands.now tables.now.rows ports.now.rows most) }
        ensures fits { IfOk result (FitsTriage procs.now.processes tables.now.rows ports.now.rows) }
    {
        let signalled = stands.signalled(alloc)?;
        Ok(Triage {
            states: commonest_states(alloc, procs, most)?,
            groups: largest_groups(alloc, procs, stands, most)?,
            queues: longest_queues(alloc, procs, most)?,
            memory: largest_processes(alloc, procs, most)?,
            binaries: most_binaries(alloc, procs, most)?,
            tables: largest_tables(alloc, tables, most)?,
            ports: largest_ports(alloc, ports, most)?,
            findings: count_findings(alloc, index, procs, &signalled)?,
        })
    }

    /// The states of processes, by how many processes are in them;
    /// the place of a state is that of the first process in it.
    pub fn states(&self) -> &[Ranked]
        ensures { result.now ≡ self.now.states }
    {
        self.states.as_slice()
    }

    /// The groups of processes that stand at the same place and were spawned as the same, by how many
    /// processes they have; their weight is the memory of these together, in bytes.
    pub fn groups(&self) -> &[TextGroup]
        ensures { result.now ≡ self.now.groups }
    {
        self.groups.as_slice()
    }

    /// The processes by the lengths of their message queues.
    pub fn queues(&self) -> &[Ranked]
        ensures { result.now ≡ self.now.queues }
    {
        self.queues.as_slice()
    }

    /// The processes by their memory, in bytes.
    pub fn memory(&self) -> &[Ranked]
        ensures { result.now ≡ self.now.memory }
    {
        self.memory.as_slice()
    }

    /// The processes by the bytes of the binaries to which they refer, as they count them.
    pub fn binaries(&self) -> &[Ranked]
        ensures { result.now ≡ self.now.binaries }
    {
        self.binaries.as_slice()
    }

    /// The ETS tables by their bytes.
    pub fn tables(&self) -> &[Ranked]
        ensures { result.now ≡ self.now.tables }
    {
        self.tables.as_slice()
    }

    /// The groups of ports that are the same, by how many ports they have.
    pub fn ports(&self) -> &[TextGroup]
        ensures { result.now ≡ self.now.ports }
    {
        self.ports.as_slice()
    }

    /// How many findings of each kind there are.
    pub fn findings(&self) -> FindingCounts
        ensures { result ≡ self.now.findings }
    {
        self.findings.all
    }

    /// How many of the findings of each kind are in flight.
    pub fn in_flight(&self) -> FindingCounts
        ensures { result ≡ self.now.in_flight }
    {
        self.findings.in_flight
    }
}
