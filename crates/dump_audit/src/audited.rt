// What is audited: the sections, the processes and their links, together with what is asked of many of them.
ghost use Rattle.std.specs.Prelude.{◌≡◌, ◌<◌, length};
ghost use Rattle.process_table.specs.Processes.{process_at};
ghost use Rattle.dump_audit.specs.Findings.{section_offset};
ghost use Rattle.dump_audit.specs.Inner.Audited.{IsHolder, IsPartner};

use dump_sections::{Index, State};
use link_graph::{Graph, is_local};
use process_table::Procs;
use std::marker::Model;

// A process whose link list and message queue are judged: its place among the processes, and its pid.
#[derive(Clone, Copy)]
pub(crate) struct Holder<'a> {
    pub p: usize,
    pub pid: &'a [u8],
}

// What the process that an entry speaks of is to the audit.
#[derive(Clone, Copy)]
pub(crate) enum Partner {
    // A process that is judged, at this place.
    At(usize),
    // None of the dump's processes; this is to be reported.
    Gone,
    // Any other case, of which nothing is reported.
    Passed,
}

#[derive(Drop)]
pub(crate) struct Audited<'a> {
    pub index: &'a Index,
    pub procs: &'a Procs,
    pub graph: &'a Graph<'a>,
    pub limit: u64,
    pub mails: Option<&'a [Option<u64>]>,
    pub state: State,
    // Which processes are judged.
    pub judged: &'a [bool],
    pub names_gone: bool,
}

impl<'a> Model for Audited<'a> {
    ghost use Rattle.std.specs.Option.{option_copied};
    ghost use Rattle.dump_audit.specs.Findings.{audit_of, Audit};
    ghost use Rattle.dump_audit.specs.Inner.Audited.{IsKept};

    ghost Value = { Audit };

    ghost view = { λ a.
        audit_of a.index.now a.procs.now.processes a.limit (option_copied a.mails) };

    ghost invariant = { λ a.
        IsKept (audit_of a.index.now a.procs.now.processes a.limit (option_copied a.mails))
        a.graph.now a.state a.judged.now a.names_gone };
}

impl<'a> Audited<'a> {
    // The offset of the section of the process at a place.
    pub fn offset(&self, p: usize) -> u64
        requires { p < length self.now.processes }
        ensures { result ≡ section_offset self.now.index (process_at self.now.processes p) }
    {
        self.index.section(self.procs.section(p)).at
    }

    // The process at a place, as a holder.
    pub fn holder(&self, p: usize) -> Holder<'a>
        requires { p < length self.now.processes }
        ensures holder { IsHolder self.now result }
        ensures place { result.p ≡ p }
    {
        Holder {
            p,
            pid: self.procs.pid(p),
        }
    }

    // What the process with this pid is to an entry that speaks of it.
    pub fn partner(&self, pid: &[u8]) -> Partner
        ensures { IsPartner self.now pid.now result }
    {
        match self.procs.get(pid) {
            Some(q) => {
                if self.judged[q] {
                    Partner::At(q)
                } else {
                    Partner::Passed
                }
            }
            None => {
                if self.names_gone && is_local(pid) {
                    Partner::Gone
                } else {
                    Partner::Passed
                }
            }
        }
    }
}
