// Counting the roots of processes, and those that are bad.
ghost use Rattle.std.specs.Prelude.{◌≡◌, ◌+◌, ◌<◌, ◌^◌, IfOk};
ghost use Rattle.dump_sections.specs.Index.{IsIndexOf};
ghost use Rattle.root_views.specs.Kinds.{roots_in};
ghost use Rattle.dump_trial.specs.Trial.{root_body, process_roots, tally_in, process_tally, tally_of};
ghost use Rattle.dump_trial.specs.Inner.Tallies.{plus, AreAtMost};

use crate::finder::Finder;
use crate::good_dump::GoodDump;
use crate::tally::{Tally, count_roots};
use process_table::Procs;
use root_views::RootKind;
use std::alloc::{AllocError, Global};
use term_unfold::Walker;

// How many of the nodes of a root are judged.
const JUDGED_NODES: u32 = 1_000;

fn plus(a: Tally, b: Tally) -> Tally
    requires roots { a.roots + b.roots < 2 ^ 64 }
    requires bad { a.bad + b.bad < 2 ^ 64 }
    ensures { result ≡ plus a b }
{
    Tally {
        roots: a.roots + b.roots,
        bad: a.bad + b.bad,
    }
}

// Counts the roots of one kind. A body has at most 512 MiB, and so at most 1,073,741,824 roots.
fn count_kind(
    alloc: Global,
    held: &mut GoodDump,
    finder: &Finder<'_>,
    pid: &[u8],
    kind: RootKind,
    walker: &mut Walker<'_>,
) -> Result<Tally, AllocError>
    requires { IsIndexOf held.old finder.now }
    ensures tally { let roots = roots_in kind (root_body held.old kind pid.now) in
        IfOk result (λ tally. tally ≡ tally_in walker.old.heap.cells roots) }
    ensures few { IfOk result (AreAtMost 1073741824) }
    ensures walker { walker.new ≡ walker.old }
    ensures held { held.new ≡ held.old }
{
    let body = held.root_body(alloc, finder, kind, pid)?;
    Ok(count_roots(walker, kind, body.as_slice(), JUDGED_NODES))
}

// Counts the roots of one process over its heap, which the walker judges.
fn count_bodies(
    alloc: Global,
    held: &mut GoodDump,
    finder: &Finder<'_>,
    pid: &[u8],
    walker: &mut Walker<'_>,
) -> Result<Tally, AllocError>
    requires { IsIndexOf held.old finder.now }
    ensures tally { IfOk result (λ tally.
        tally ≡ tally_in walker.old.heap.cells (process_roots held.old pid.now)) }
    ensures few { IfOk result (AreAtMost 3221225472) }
    ensures held { held.new ≡ held.old }
{
    let stack = count_kind(alloc, held, finder, pid, RootKind::Stack, walker)?;
    let dict = count_kind(alloc, held, finder, pid, RootKind::Dict, walker)?;
    let mail = count_kind(alloc, held, finder, pid, RootKind::Mail, walker)?;
    Ok(plus(stack, plus(dict, mail)))
}

// Counts the roots of one process.
fn count_process(
    alloc: Global,
    held: &mut GoodDump,
    finder: &Finder<'_>,
    pid: &[u8],
) -> Result<Tally, AllocError>
    requires { IsIndexOf held.old finder.now }
    ensures tally { IfOk result (λ tally. tally ≡ process_tally held.old pid.now) }
    ensures few { IfOk result (AreAtMost 3221225472) }
    ensures held { held.new ≡ held.old }
{
    let heap = held.heap(alloc, finder, pid)?;
    let previews = held.previews(alloc, finder, &heap)?;
    let mut walker = Walker::new(alloc, &heap, &previews)?;
    count_bodies(alloc, held, finder, pid, &mut walker)
}

/// Counts the roots of all processes.
pub(crate) fn count_processes(
    alloc: Global,
    held: &mut GoodDump,
    finder: &Finder<'_>,
    procs: &Procs,
) -> Result<Tally, AllocError>
    requires { IsIndexOf held.old finder.now }
    ensures tally { IfOk result (λ tally. tally ≡ tally_of held.old procs.now.processes) }
    ensures held { held.new ≡ held.old }
{
    let mut all = Tally { roots: 0, bad: 0 };
    for p in 0..procs.len() {
        let one = count_process(alloc, held, finder, procs.at(p).pid)?;
        all = plus(all, one);
    }
    Ok(all)
}
