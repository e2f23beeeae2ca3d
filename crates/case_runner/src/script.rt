// A file of cases.
ghost use Rattle.std.specs.Prelude.{◌≡◌, ◌↔◌, IfSome, IsNone, IsTrue};

use crate::case::Case;
use crate::outcome::{Failure, Fault, Hindrance, Outcome};
use crate::passing::check;
use std::io;

fn tell_text(rt: &HostRuntime, what: &str, text: &[u8]) -> io::Result<()> {
    match std::str::from_utf8(text) {
        Ok(text) => println!(rt; "{what}:\n{text}"),
        Err(_) => println!(rt; "{what}: no text"),
    }
}

// Reports how a run was hindered.
fn tell_hindrance(rt: &HostRuntime, hindrance: Hindrance) -> io::Result<()> {
    let (cut, step) = (hindrance.cut, hindrance.step);
    println!(rt; "with reads of {cut} and writes of {step} bytes (0: of any size)")?;
    let (call, out, err) = (
        hindrance.failing_call,
        hindrance.failing_out,
        hindrance.failing_err,
    );
    println!(rt;
        "failing (0: none): call {call}, write {out} to the output, write {err} to standard error"
    )
}

// Reports what a run left.
fn tell_end(rt: &HostRuntime, end: &Outcome) -> io::Result<()> {
    let (status, taken) = (end.status, end.taken);
    println!(rt; "status {status}, {taken} bytes taken")?;
    tell_text(rt, "output", end.out.written())?;
    tell_text(rt, "standard error", end.err.written())
}

// Reports what a case expects.
fn tell_expected(rt: &HostRuntime, case: &Case) -> io::Result<()> {
    let (status, taken) = (case.status, case.taken);
    println!(rt; "the case expects status {status}, at most {taken} bytes taken")?;
    tell_text(rt, "output", &case.out)?;
    tell_text(rt, "standard error", &case.err)
}

// Reports a case that did not pass: how its run was hindered,
// how it had to end, what it left, and what the case expects.
fn tell_failed(rt: &HostRuntime, case: &Case, failed: &Failure) -> io::Result<()> {
    let name = case.name.as_str();
    let (wanted, length) = (failed.wanted, failed.length);
    println!(rt; "not passed: {name}, which had to end {wanted}, on {length} bytes")?;
    tell_hindrance(rt, failed.hindrance)?;
    tell_end(rt, &failed.end)?;
    tell_expected(rt, case)
}

// Whether a case passes as it stands; if it doesn't, that is reported.
fn passes(rt: &HostRuntime, case: &Case) -> io::Result<bool> {
    match check(rt.alloc(), case) {
        Ok(()) => Ok(true),
        Err(Fault::Memory(fault)) => Err(io::Error::from(fault)),
        Err(Fault::Failed(failed)) => {
            tell_failed(rt, case, &failed)?;
            Ok(false)
        }
    }
}

// Whether the case with this name is to run: each is, unless one name is asked for.
fn is_asked_for(name: &str, only: Option<&str>) -> bool
    ensures each { IsNone only.entry → IsTrue result }
    ensures one { IfSome only.entry (λ asked. IsTrue result ↔ (name.now ≡ asked.now)) }
{
    match only {
        Some(asked) => name == asked,
        None => true,
    }
}

// How many cases an ended case makes that passed: the case itself, and the same
// through `peek`, if that shows it too; none, if it isn't asked for or none has begun.
fn end_case(rt: &HostRuntime, case: &mut Case, only: Option<&str>) -> io::Result<u64> {
    if case.name.is_empty() || !is_asked_for(case.name.as_str(), only) {
        return Ok(0);
    }
    let mut passed = 0u64;
    if passes(rt, case)? {
        passed += 1;
    }
    if case.turn_to_peek(rt.alloc())? && passes(rt, case)? {
        passed += 1;
    }
    Ok(passed)
}

// Takes a line of a file of cases, and returns how many passed of the case that it ends.
fn take_line(rt: &HostRuntime, case: &mut Case, line: &str, only: Option<&str>) -> io::Result<u64> {
    if line.is_empty() || line.starts_with('#') {
        return Ok(0);
    }
    if let Some(name) = line.strip_prefix("case ") {
        let passed = end_case(rt, case, only)?;
        case.begin(rt.alloc(), name)?;
        return Ok(passed);
    }
    if !case.take(rt.alloc(), line)? {
        println!(rt; "not understood: {line}")?;
    }
    Ok(0)
}

/// Runs the cases of a file, or those alone that have the name asked for, reports each that
/// does not pass, and returns how many passed.
pub fn run_file(rt: &HostRuntime, text: &str, only: Option<&str>) -> io::Result<u64> {
    let mut case = Case::new(rt.alloc());
    let mut passed = 0u64;
    for line in text.lines() {
        passed = passed.saturating_add(take_line(rt, &mut case, line, only)?);
    }
    Ok(passed.saturating_add(end_case(rt, &mut case, only)?))
}
