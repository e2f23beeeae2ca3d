// How many processes are in which state. The texts of states are looked up by
// their order, since whoever writes a dump could give all of them one hash.
ghost use Rattle.std.specs.Prelude.{◌≡◌, ◌+◌, ◌<◌, ◌^◌, codes, length, take, unwrap_or, IfOk, OnOk};
ghost use Rattle.section_rows.specs.Rows.{text_in};
ghost use Rattle.section_rows.specs.Shown.{shown_cell};
ghost use Rattle.process_table.specs.Processes.{process_at};
ghost use Rattle.dump_triage.specs.Triage.{commonest_states, count_at_first, process_state_text, state_texts};
ghost use Rattle.dump_triage.specs.Inner.States.{AreCounted, AreLeft, counted};

use crate::ranked::{Ranked, first_rows, push_row};
use process_table::{Kept, Procs};
use std::alloc::{AllocError, Global};
use std::collections::BTreeMap;

// The text of a state, or `-`.
fn state_text<'a>(state: &Option<Kept<'a>>) -> &'a [u8]
    ensures { result.now ≡ unwrap_or (text_in (shown_cell state.now)) (codes "-") }
{
    match state {
        Some(kept) => kept.text,
        None => b"-",
    }
}

// The state of the process at a place.
fn state_at(procs: &Procs, p: usize) -> &[u8]
    requires { p < length procs.now.processes }
    ensures { result.now ≡ process_state_text (process_at procs.now.processes p) }
{
    let process = procs.at(p);
    state_text(&process.state)
}

// How often a text has been counted.
fn count_in(counts: &BTreeMap<&[u8], u64>, text: &[u8]) -> u64
    ensures { result ≡ unwrap_or (counted counts.now text.now) 0 }
{
    counts.get(text).copied().unwrap_or(0)
}

// Counts the state of the process at a place, after those before it.
fn count_state<'a>(
    counts: &mut BTreeMap<&'a [u8], u64>,
    procs: &'a Procs,
    p: usize,
) -> Result<(), AllocError>
    requires place { p < length procs.now.processes }
    requires fits { p + 1 < 2 ^ 64 }
    requires before { AreCounted counts.old (take p (state_texts procs.now.processes)) }
    ensures { OnOk result (AreCounted counts.new (take (p + 1) (state_texts procs.now.processes))) }
{
    let text = state_at(procs, p);
    let before = count_in(counts, text);
    counts.insert(text, before + 1)?;
    Ok(())
}

// How many processes are in each state.
fn count_states<'a>(alloc: Global, procs: &'a Procs) -> Result<BTreeMap<&'a [u8], u64>, AllocError>
    ensures { IfOk result (λ counts. AreCounted counts (state_texts procs.now.processes)) }
{
    let mut counts = BTreeMap::new(alloc);
    for p in 0..procs.len() {
        count_state(&mut counts, procs, p)?;
    }
    Ok(counts)
}

// How many processes are in the state of the process at a place, if that is the first
// of them. The number is taken from the tree, so that the next of them doesn't find it.
fn take_count<'a>(counts: &mut BTreeMap<&'a [u8], u64>, procs: &'a Procs, p: usize) -> Option<u64>
    requires place { p < length procs.now.processes }
    requires left { AreLeft counts.old (state_texts procs.now.processes) p }
    ensures count { let text = process_state_text (process_at procs.now.processes p) in
        result ≡ count_at_first (state_texts procs.now.processes) (p, text) }
    ensures left { AreLeft counts.new (state_texts procs.now.processes) (p + 1) }
{
    counts.remove(state_at(procs, p))
}

// The states that most processes are in, at most `most`.
pub(crate) fn commonest_states(
    alloc: Global,
    procs: &Procs,
    most: u64,
) -> Result<Vec<Ranked>, AllocError>
    ensures { IfOk result (λ rows. rows.items ≡ commonest_states most procs.now.processes) }
{
    let mut counts = count_states(alloc, procs)?;
    let mut rows = Vec::new(alloc);
    for p in 0..procs.len() {
        push_row(&mut rows, p, take_count(&mut counts, procs, p))?;
    }
    first_rows(rows, most)
}
