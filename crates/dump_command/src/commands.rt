// Which question each command is, and its run.
ghost use Rattle.command_words.specs.Command.{shown_command, shown_query, IsAskInRange, IsInRange};
ghost use Rattle.dump_questions.specs.Runs.{Runs};
ghost use Rattle.dump_questions.specs.Tasks.{question};
ghost use Rattle.dump_command.specs.Meaning.{meaning};
ghost use Rattle.dump_command.specs.Inner.Runs.{RunsOn};

use command_words::{Cmd, Query};
use dump_io::{Dumps, Limits, Sink};
use dump_questions::{Stop, Unopened};
use heap_commands::{
    run_binary, run_cells, run_ext, run_peek_roots, run_peek_term, run_reach, run_roots, run_term,
};
use skeleton_commands::{run_heavy, run_path, run_shapes, run_weigh, run_weigh_cell};
use std::alloc::Global;
use stream_commands::{run_binaries, run_holders, run_redact, run_stacks, run_waits};
use table_commands::{
    run_audit, run_audit_json, run_audit_settled, run_field, run_fields, run_index, run_info,
    run_links, run_make, run_memory, run_proc, run_procs, run_table, run_triage, run_trial,
};

/// Runs a command from a device to the sink of its report, and returns its status.
pub(crate) fn run_command<D: Dumps, K: Sink>(
    alloc: Global,
    cmd: Cmd<'_>,
    limits: &Limits,
    dumps: &mut D,
    out: &mut K,
) -> Result<u8, Stop>
    requires { IsInRange (shown_command cmd) }
    ensures { RunsOn D.state (shown_command cmd.entry) limits.now
        dumps.old dumps.new (K.state out.old) (K.state out.new) result }
{
    match cmd {
        Cmd::On { file, query } => {
            let dump = Unopened {
                alloc,
                file,
                limits,
            };
            run_query(&dump, query, dumps, out)
        }
        Cmd::Make { seed, count } => run_make(alloc, seed, count, out),
        Cmd::Trial { seed, count } => run_trial(alloc, seed, count, out),
    }
}

// Runs what a command asks of the dump in a file, and returns the status.
fn run_query<D: Dumps, K: Sink>(
    dump: &Unopened<'_>,
    query: Query<'_>,
    dumps: &mut D,
    out: &mut K,
) -> Result<u8, Stop>
    requires { IsAskInRange (shown_query query) }
    ensures { Runs (question dump.now.file.now (meaning (shown_query query.entry))) dump.now.limits.now
        (D.state dumps.old) (D.state dumps.new) (K.state out.old) (K.state out.new) result }
{
    match query {
        Query::Index => run_index(dump, dumps, out),
        Query::Info => run_info(dump, dumps, out),
        Query::Procs => run_procs(dump, dumps, out),
        Query::Proc { pid } => run_proc(dump, pid.as_bytes(), dumps, out),
        Query::Memory => run_memory(dump, dumps, out),
        Query::Field { key } => run_field(dump, key.as_bytes(), dumps, out),
        Query::Fields { tag, key } => run_fields(dump, tag.as_bytes(), key.as_bytes(), dumps, out),
        Query::Table { kind } => run_table(dump, kind, dumps, out),
        Query::Roots {
            kind,
            pid,
            nodes,
            marked,
        } => run_roots(dump, kind, pid.as_bytes(), nodes, marked, dumps, out),
        Query::Term {
            pid,
            addr,
            nodes,
            marked,
        } => run_term(dump, pid.as_bytes(), addr, nodes, marked, dumps, out),
        Query::PeekTerm {
            pid,
            addr,
            nodes,
            marked,
        } => run_peek_term(dump, pid.as_bytes(), addr, nodes, marked, dumps, out),
        Query::PeekRoots {
            kind,
            pid,
            first,
            count,
            nodes,
            marked,
        } => run_peek_roots(
            dump,
            kind,
            pid.as_bytes(),
            first,
            count,
            nodes,
            marked,
            dumps,
            out,
        ),
        Query::Ext { pid, addr } => run_ext(dump, pid.as_bytes(), addr, dumps, out),
        Query::Path { pid, addr } => run_path(dump, pid.as_bytes(), addr, dumps, out),
        Query::Reach { pid } => run_reach(dump, pid.as_bytes(), dumps, out),
        Query::Shapes { pid, count, pids } => {
            run_shapes(dump, pid.as_bytes(), count, pids, dumps, out)
        }
        Query::Weigh { pid, count } => run_weigh(dump, pid.as_bytes(), count, dumps, out),
        Query::WeighCell { pid, count, addr } => run_weigh_cell(
            dump,
            pid.as_bytes(),
            count,
            addr,
            dumps,
            out,
        ),
        Query::Heavy { pid, count } => run_heavy(dump, pid.as_bytes(), count, dumps, out),
        Query::Cells { pid } => run_cells(dump, pid.as_bytes(), dumps, out),
        Query::Binary { addr } => run_binary(dump, addr, dumps, out),
        Query::Binaries => run_binaries(dump, dumps, out),
        Query::Holders { addr } => run_holders(dump, addr, dumps, out),
        Query::Triage { count } => run_triage(dump, count, dumps, out),
        Query::Stacks { count } => run_stacks(dump, count, dumps, out),
        Query::Waits { count } => run_waits(dump, count, dumps, out),
        Query::Links => run_links(dump, dumps, out),
        Query::Redact => run_redact(dump, dumps, out),
        Query::Audit { limit, full } => run_audit(dump, limit, full, dumps, out),
        Query::AuditJson { limit, full } => run_audit_json(dump, limit, full, dumps, out),
        Query::AuditSettled { limit, full } => run_audit_settled(dump, limit, full, dumps, out),
    }
}
