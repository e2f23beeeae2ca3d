// The report of `waits`.
ghost use Rattle.std.specs.Prelude.{◌≡◌, ◌∷◌, ◌<◌, [], All, cond, filter, is_some, length, nat_le, option_map, take, unwrap_or, if◌then◌else◌};
ghost use Rattle.std.specs.List.{count_by, flat_map, range_with_len};
ghost use Rattle.dump_io.specs.Pieces.{piece_text};
ghost use Rattle.dump_io.specs.Sinks.{Puts};
ghost use Rattle.process_table.specs.Stands.{where_in};
ghost use Rattle.report_lines.specs.Lines.{text_or_dash};
ghost use Rattle.section_rows.specs.Rows.{row_at};
ghost use Rattle.text_groups.specs.Cut.{cut_text};
ghost use Rattle.wait_circles.specs.Waiters.{target_at};
ghost use Rattle.stream_commands.specs.Waits.{blocker_line, circle_line, process_parts, target_parts, wait_line, wait_lines_at, waits_line, waits_with};
ghost use Rattle.stream_commands.specs.Inner.Waits.{AreAmong, IsTold, awaiting, told_count};

use dump_io::{Failed, Piece, Sink, put_pieces};
use dump_sections::Index;
use process_table::{Procs, Stands};
use report_lines::put_line;
use report_text::process_end;
use text_groups::cut_text;
use wait_circles::{Blocker, OnCircle, WaitGraph, Waiting};
use wait_requests::Waiters;

/// The processes of a dump, where each stands, and for whom each waits.
#[derive(Drop)]
pub(crate) struct Told<'a> {
    pub index: &'a Index,
    pub procs: &'a Procs,
    pub stands: &'a Stands,
    pub waiters: Waiters<'a>,
}

// Where the process at a place stands, or `-`.
fn place_text(stands: &Stands, p: usize) -> &[u8]
    requires { p < length stands.now }
    ensures { result.now ≡ text_or_dash (option_map cut_text (where_in (row_at stands.now p))) }
{
    match stands.place(p) {
        Some(text) => cut_text(text),
        None => b"-",
    }
}

// What is told of the process at a place: its pid, its name, its offset, and where it stands.
fn process_parts<'x>(told: &'x Told<'_>, p: usize) -> (Piece<'x>, Piece<'x>, Piece<'x>, Piece<'x>)
    requires told { IsTold told.now }
    requires place { p < told_count told.now }
    ensures { piece_text result.0 ∷ piece_text result.1 ∷ piece_text result.2 ∷ piece_text result.3 ∷ []
        ≡ process_parts (awaiting told.now) p }
{
    let (pid, name, at) = process_end(told.index, told.procs, p);
    (pid, name, at, Piece::Bytes(place_text(told.stands, p)))
}

// What is told of a target: the same, or `-` each where no process has it as its pid.
fn target_parts<'x>(
    told: &'x Told<'_>,
    target: &'x [u8],
) -> (Piece<'x>, Piece<'x>, Piece<'x>, Piece<'x>)
    requires { IsTold told.now }
    ensures { piece_text result.0 ∷ piece_text result.1 ∷ piece_text result.2 ∷ piece_text result.3 ∷ []
        ≡ target_parts (awaiting told.now) target.now }
{
    match told.waiters.find(target) {
        Some(p) => process_parts(told, p),
        None => {
            let none = Piece::Bytes(b"-");
            (Piece::Bytes(target), none, none, none)
        }
    }
}

// Writes the line of a process that waits. It has nine parts, more than `put_line` takes.
fn put_wait<K: Sink>(sink: &mut K, told: &Told<'_>, p: usize, target: &[u8]) -> Result<(), Failed>
    requires told { IsTold told.now }
    requires place { p < told_count told.now }
    ensures { Puts (K.state sink.old) (K.state sink.new)
        (wait_line (awaiting told.now) p target.now) result }
{
    let (pid, name, at, place) = process_parts(told, p);
    let (whom, whom_name, whom_at, whom_place) = target_parts(told, target);
    let tab = Piece::Bytes(b"\t");
    put_pieces(
        sink,
        &[
            Piece::Bytes(b"wait"),
            tab,
            pid,
            tab,
            name,
            tab,
            at,
            tab,
            place,
            tab,
            whom,
            tab,
            whom_name,
            tab,
            whom_at,
            tab,
            whom_place,
            Piece::Bytes(b"\n"),
        ],
    )
}

// Writes that line, if the process at a place waits.
fn put_wait_at<K: Sink>(sink: &mut K, told: &Told<'_>, p: usize) -> Result<(), Failed>
    requires told { IsTold told.now }
    requires place { p < told_count told.now }
    ensures { Puts (K.state sink.old) (K.state sink.new)
        (wait_lines_at (awaiting told.now) p) result }
{
    match told.waiters.target(p) {
        Some(target) => put_wait(sink, told, p, target),
        None => Ok(()),
    }
}

// Writes the line of each process that waits.
fn put_waiting<K: Sink>(sink: &mut K, told: &Told<'_>) -> Result<(), Failed>
    requires { IsTold told.now }
    ensures { Puts (K.state sink.old) (K.state sink.new)
        (flat_map (wait_lines_at (awaiting told.now)) (range_with_len 0 (told_count told.now)))
        result }
{
    for p in 0..told.procs.len() {
        put_wait_at(sink, told, p)?;
    }
    Ok(())
}

// For what the first process waits that waits for a target.
fn first_target<'x>(told: &'x Told<'_>, blocker: &Blocker) -> &'x [u8]
    requires { blocker.now.first < length told.now.waiters }
    ensures { result.now ≡ unwrap_or (target_at told.now.waiters blocker.now.first) [] }
{
    told.waiters.target(blocker.first as usize).unwrap_or(b"")
}

// Writes the line of a target, which is that of the first process that waits for it.
fn put_blocker<K: Sink>(sink: &mut K, told: &Told<'_>, blocker: &Blocker) -> Result<(), Failed>
    requires told { IsTold told.now }
    requires first { blocker.now.first < told_count told.now }
    ensures { Puts (K.state sink.old) (K.state sink.new)
        (blocker_line (awaiting told.now) blocker.now) result }
{
    let (whom, name, at, place) = target_parts(told, first_target(told, blocker));
    put_line(
        sink,
        b"\t",
        &[
            Piece::Bytes(b"blocker"),
            Piece::Dec(u64::from(blocker.all)),
            Piece::Dec(u64::from(blocker.direct)),
            whom,
            name,
            at,
            place,
        ],
    )
}

// The first targets, at most `most`.
fn first_blockers(blockers: &[Blocker], most: u32) -> &[Blocker]
    ensures { result.now ≡ take most blockers.now }
{
    match blockers.get(..most as usize) {
        Some(first) => first,
        None => blockers,
    }
}

// Writes the lines of targets.
fn put_blockers<K: Sink>(sink: &mut K, told: &Told<'_>, blockers: &[Blocker]) -> Result<(), Failed>
    requires told { IsTold told.now }
    requires firsts { All (λ blocker. blocker.first < told_count told.now) blockers.now }
    ensures { Puts (K.state sink.old) (K.state sink.new)
        (flat_map (blocker_line (awaiting told.now)) blockers.now) result }
{
    for blocker in blockers {
        put_blocker(sink, told, blocker)?;
    }
    Ok(())
}

// Writes the line of a process on a circle.
fn put_on_circle<K: Sink>(sink: &mut K, told: &Told<'_>, on: &OnCircle) -> Result<(), Failed>
    requires told { IsTold told.now }
    requires place { on.now.process < told_count told.now }
    ensures { Puts (K.state sink.old) (K.state sink.new)
        (circle_line (awaiting told.now) on.now) result }
{
    let (pid, name, at) = process_end(told.index, told.procs, on.process as usize);
    put_line(
        sink,
        b"\t",
        &[
            Piece::Bytes(b"circle"),
            Piece::Dec(u64::from(on.circle)),
            pid,
            name,
            at,
        ],
    )
}

// Writes that line, if the circle is one of the first `most`.
fn put_if_first<K: Sink>(
    sink: &mut K,
    told: &Told<'_>,
    on: &OnCircle,
    most: u32,
) -> Result<(), Failed>
    requires told { IsTold told.now }
    requires place { on.now.process < told_count told.now }
    ensures { Puts (K.state sink.old) (K.state sink.new)
        (if nat_le on.now.circle most then circle_line (awaiting told.now) on.now else []) result }
{
    if on.circle <= most {
        put_on_circle(sink, told, on)
    } else {
        Ok(())
    }
}

// Writes the lines of the processes on the first `most` circles.
fn put_circles<K: Sink>(
    sink: &mut K,
    told: &Told<'_>,
    on_circles: &[OnCircle],
    most: u32,
) -> Result<(), Failed>
    requires told { IsTold told.now }
    requires places { All (λ on. on.process < told_count told.now) on_circles.now }
    ensures { Puts (K.state sink.old) (K.state sink.new) (flat_map (circle_line (awaiting told.now))
        (filter (λ on. nat_le on.circle most) on_circles.now)) result }
{
    for on in on_circles {
        put_if_first(sink, told, on, most)?;
    }
    Ok(())
}

// Counts the process at a place, if it waits.
fn waiting_at(waiters: &Waiters<'_>, p: usize) -> u64
    requires { p < length waiters.now }
    ensures { result ≡ cond (is_some (target_at waiters.now p)) 1 0 }
{
    match waiters.target(p) {
        Some(_) => 1,
        None => 0,
    }
}

// How many processes wait.
fn count_waiting(waiters: &Waiters<'_>) -> u64
    ensures { result ≡ count_by (λ w. is_some w.target) waiters.now }
{
    let mut waiting = 0;
    for p in 0..waiters.len() {
        waiting += waiting_at(waiters, p);
    }
    waiting
}

// Writes the last line.
fn put_total<K: Sink>(sink: &mut K, told: &Told<'_>, found: &WaitGraph) -> Result<(), Failed>
    ensures { Puts (K.state sink.old) (K.state sink.new)
        (waits_line (awaiting told.now) found.now) result }
{
    put_line(
        sink,
        b" ",
        &[
            Piece::Bytes(b"waits"),
            Piece::Dec(count_waiting(&told.waiters)),
            Piece::Bytes(b"targets"),
            Piece::Dec(found.blockers().len() as u64),
            Piece::Bytes(b"circles"),
            Piece::Dec(u64::from(found.circles())),
            Piece::Bytes(b"processes"),
            Piece::Dec(told.procs.len() as u64),
        ],
    )
}

/// Writes a line for each process that waits, then at most `most` targets, those to which most come first, then the
/// processes on at most `most` circles, and how many of each there are.
pub(crate) fn put_waits<K: Sink>(
    sink: &mut K,
    told: &Told<'_>,
    found: &WaitGraph,
    most: u32,
) -> Result<(), Failed>
    requires told { IsTold told.now }
    requires among { AreAmong (told_count told.now) found.now }
    ensures { Puts (K.state sink.old) (K.state sink.new)
        (waits_with most (awaiting told.now) found.now) result }
{
    put_waiting(sink, told)?;
    put_blockers(sink, told, first_blockers(found.blockers(), most))?;
    put_circles(sink, told, found.on_circles(), most)?;
    put_total(sink, told, found)
}
