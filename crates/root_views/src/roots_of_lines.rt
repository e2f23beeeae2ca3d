// Hearing the roots of lines.
ghost use Rattle.std.specs.Prelude.{◌≡◌, ◌+◌, ◌-◌, ◌<◌, ◌^◌, ◌||◌, nat_le, length, OnOk};
ghost use Rattle.body_lines.specs.Lines.{lines_at};
ghost use Rattle.root_views.specs.Placed.{placed_roots};
ghost use Rattle.root_views.specs.Inner.Hearing.{roots_of_lines, IsReady, Takes};

use crate::root_count::root_count;
use crate::root_sink::RootSink;
use crate::root_texts::keep_line;
use dump_io::{bytes_from, line_len};
use std::alloc::AllocError;

// How many of the next roots are passed over before one is kept.
fn still_to_pass(sink: &RootSink) -> u64
    ensures { result ≡ sink.now.first - sink.now.count }
{
    sink.first.saturating_sub(sink.count)
}

// How many more may be kept.
fn still_to_keep(sink: &RootSink) -> u64
    ensures { result ≡ sink.now.most - length sink.now.kept.roots.items }
{
    sink.most.saturating_sub(sink.kept.roots.len() as u64)
}

// Whether none of the next so many roots is kept.
fn are_passed(sink: &RootSink, count: usize) -> bool
    ensures { result ≡ (nat_le count (sink.now.first - sink.now.count)
        || nat_le (sink.now.most - length sink.now.kept.roots.items) 0) }
{
    count as u64 <= still_to_pass(sink) || still_to_keep(sink) == 0
}

// Counts so many roots more. What no count of 64 bits can hold is answered as a lack of memory; no file has as many.
fn add_count(sink: &mut RootSink, count: usize) -> Result<(), AllocError>
    ensures { OnOk result (sink.new ≡ record sink.old { count = sink.old.count + count }) }
{
    let Some(sum) = sink.count.checked_add(count as u64) else {
        return Err(AllocError);
    };
    sink.count = sum;
    Ok(())
}

// Hears a line that begins at the offset `at`.
fn hear_line(sink: &mut RootSink, at: u64, raw: &[u8]) -> Result<(), AllocError>
    requires ready { IsReady sink.old }
    requires fits { at + length raw.now < 2 ^ 64 }
    ensures ready { OnOk result (IsReady sink.new) }
    ensures takes { OnOk result (Takes sink.old sink.new
        (placed_roots sink.old.kept.kind at raw.now)) }
{
    let count = root_count(sink.kept.kind, raw);
    if are_passed(sink, count) {
        return add_count(sink, count);
    }
    let skip = still_to_pass(sink);
    let most = still_to_keep(sink);
    keep_line(&mut sink.kept, at, raw, skip, most)?;
    add_count(sink, count)
}

// Hears the lines of a run one by one.
fn hear_lines(sink: &mut RootSink, at: u64, run: &[u8]) -> Result<(), AllocError>
    requires ready { IsReady sink.old }
    requires fits { at + length run.now < 2 ^ 64 }
    ensures ready { OnOk result (IsReady sink.new) }
    ensures takes { OnOk result (Takes sink.old sink.new
        (roots_of_lines sink.old.kept.kind (lines_at at run.now))) }
{
    let mut line = at;
    let mut rest = run;
    while !rest.is_empty() {
        let size = line_len(rest);
        hear_line(sink, line, &rest[..size])?;
        line += size as u64;
        rest = bytes_from(rest, size);
    }
    Ok(())
}

/// Hears a run of lines, the first of which begins at the offset `at`. A
/// run in which no root is kept is passed over without a look at its lines.
pub(crate) fn hear_run(sink: &mut RootSink, at: u64, run: &[u8]) -> Result<(), AllocError>
    requires ready { IsReady sink.old }
    requires fits { at + length run.now < 2 ^ 64 }
    ensures ready { OnOk result (IsReady sink.new) }
    ensures takes { OnOk result (Takes sink.old sink.new
        (roots_of_lines sink.old.kept.kind (lines_at at run.now))) }
{
    let count = root_count(sink.kept.kind, run);
    if are_passed(sink, count) {
        return add_count(sink, count);
    }
    hear_lines(sink, at, run)
}
