// How many roots a body has, and how many of them are bad.
ghost use Rattle.std.specs.Prelude.{◌≡◌, ◌<◌, ◌≤◌, ◌*◌, length};
ghost use Rattle.root_views.specs.Kinds.{roots_in};
ghost use Rattle.root_views.specs.Seen.{content};
ghost use Rattle.dump_trial.specs.Tallies.{one_if_bad, bad_content, bad_roots};

use root_views::{RootKind, What};
use term_unfold::{Verdict, Walker};

/// How many roots a body has, and how many of them are terms with a bad address within a budget.
#[derive(Clone, Copy)]
pub struct Tally {
    /// The number of roots.
    pub roots: u64,
    /// How many of the roots are bad.
    pub bad: u64,
}

fn one_if_bad(verdict: Verdict) -> u64
    ensures { result ≡ one_if_bad verdict }
{
    match verdict {
        Verdict::Clean => 0,
        Verdict::Bad(_, _) => 1,
    }
}

fn bad_content(walker: &mut Walker<'_>, what: &What<'_>, budget: u32) -> u64
    requires budget { 0 < budget }
    ensures value { result ≡ bad_content walker.old.heap.cells budget (content what.now) }
    ensures few { result ≤ 1 }
    ensures same { walker.new ≡ walker.old }
{
    match what {
        What::Term(e) => one_if_bad(walker.judge(*e, budget)),
        _ => 0,
    }
}

/// Counts the roots of a body, and those that are bad within
/// as many nodes as the budget allows. Takes no memory.
pub(crate) fn count_roots(
    walker: &mut Walker<'_>,
    kind: RootKind,
    body: &[u8],
    budget: u32,
) -> Tally
    requires budget { 0 < budget }
    ensures roots { result.roots ≡ length (roots_in kind body.now) }
    ensures few { result.roots ≤ 2 * length body.now }
    ensures bad { result.bad ≡ bad_roots walker.old.heap.cells budget (roots_in kind body.now) }
    ensures among { result.bad ≤ result.roots }
    ensures same { walker.new ≡ walker.old }
{
    let mut roots = 0;
    let mut bad = 0;
    for found in kind.roots(body) {
        bad += bad_content(walker, &found.what, budget);
        roots += 1;
    }
    Tally { roots, bad }
}
