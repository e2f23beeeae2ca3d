// Whether a case ends as it must, however it is hindered.
use crate::case::Case;
use crate::fronts::cut_report;
use crate::outcome::{Failure, Fault, Hindrance, NONE, Outcome, run_case, run_on};
use dump_command::status::{DONE, FOUND, UNREAD, UNWRITTEN};
use std::alloc::{AllocError, Global};

// To how many bytes reads and writes are cut; 0 cuts nothing.
const CUTS: [usize; 5] = [0, 1, 2, 3, 7];

// How many of the first calls fail in turn when each read gives one byte.
const FIRST_CALLS: u64 = 8;

// The most calls and writes that fail in turn.
const MOST: usize = 1_000;

// How a run must end that nothing hinders.
const AS_EXPECTED: &str = "as the case says";

// A run of the whole case that had to end in another way.
fn failed(
    case: &Case,
    hindrance: Hindrance,
    end: Outcome,
    wanted: &'static str,
) -> Result<(), Fault> {
    Err(Fault::Failed(Failure {
        hindrance,
        length: case.dump.len(),
        end,
        wanted,
    }))
}

// Whether a run ended as the case says, and took no more bytes than it may.
fn is_expected(case: &Case, end: &Outcome) -> bool {
    end.is(case.status, &case.out, &case.err) && end.taken <= case.taken
}

// The run with this hindrance has to end as the case says.
fn check_run(alloc: Global, case: &Case, hindrance: Hindrance) -> Result<(), Fault> {
    let end = run_case(alloc, case, &hindrance)?;
    if is_expected(case, &end) {
        return Ok(());
    }
    failed(case, hindrance, end, AS_EXPECTED)
}

// The run with reads and writes of a size has to end as the case says.
fn check_cut(alloc: Global, case: &Case, cut: usize) -> Result<(), Fault> {
    let cutting = Hindrance {
        cut,
        step: cut,
        ..NONE
    };
    check_run(alloc, case, cutting)
}

// The runs with reads and writes of several sizes, and of all up
// to the one that the case names, have to end as the case says.
fn check_cuts(alloc: Global, case: &Case) -> Result<(), Fault> {
    for cut in CUTS {
        check_cut(alloc, case, cut)?;
    }
    for cut in 1..case.cuts {
        check_cut(alloc, case, cut)?;
    }
    Ok(())
}

// Whether the case opens its dump and reads all that it asks for.
fn reads_all(case: &Case) -> bool {
    let is_done = case.status == u64::from(DONE) || case.status == u64::from(FOUND);
    is_done && case.taken > 0
}

// Lets one call of the device fail after another. Each must end the case with a read fault, until the
// case ends alike since it makes fewer calls; one that reads all that it asks for makes at least two.
fn check_calls_cut(alloc: Global, case: &Case, cut: usize) -> Result<(), Fault> {
    for failing_call in 1..MOST as u64 {
        let failing = Hindrance {
            cut,
            failing_call,
            ..NONE
        };
        let end = run_case(alloc, case, &failing)?;
        if !end.is_unread(case) {
            let is_behind = failing_call > 2 || !reads_all(case);
            if is_behind && end.is(case.status, &case.out, &case.err) {
                return Ok(());
            }
            return failed(
                case,
                failing,
                end,
                "with a read fault, or as the case says behind its last call",
            );
        }
    }
    let end = run_case(alloc, case, &NONE)?;
    failed(case, NONE, end, "after fewer calls of the device")
}

// Lets one call of the device fail after another, with reads as long as they come and with
// some forty reads of the dump. A case that isn't done may end before its first read.
fn check_calls(alloc: Global, case: &Case) -> Result<(), Fault> {
    if case.status == u64::from(UNREAD) {
        return Ok(());
    }
    check_calls_cut(alloc, case, 0)?;
    check_calls_cut(alloc, case, case.dump.len() / 40 + 1)
}

// Lets one of the first calls of the device fail after another,
// with reads of one byte. If no call fails, the case ends alike.
fn check_first_calls(alloc: Global, case: &Case) -> Result<(), Fault> {
    for failing_call in 1..=FIRST_CALLS {
        let failing = Hindrance {
            cut: 1,
            failing_call,
            ..NONE
        };
        let end = run_case(alloc, case, &failing)?;
        if !end.is_unread(case) && (reads_all(case) || !end.is(case.status, &case.out, &case.err)) {
            return failed(case, failing, end, "with a read fault");
        }
    }
    Ok(())
}

// The first `count` bytes of a text, if it has that many.
fn front(text: &[u8], count: usize) -> &[u8] {
    text.get(..count).unwrap_or(text)
}

// A run in which a write fails has to end with the bytes before that write.
fn check_write(
    alloc: Global,
    case: &Case,
    failing: Hindrance,
    out: &[u8],
    err: &[u8],
) -> Result<(), Fault> {
    let end = run_case(alloc, case, &failing)?;
    if end.is(u64::from(UNWRITTEN), out, err) {
        return Ok(());
    }
    failed(
        case,
        failing,
        end,
        "with the bytes before the write that failed",
    )
}

// Each write of a byte to `out` and to `err` fails once.
fn check_writes(alloc: Global, case: &Case) -> Result<(), Fault> {
    for written in 0..case.out.len().min(MOST) {
        let failing = Hindrance {
            step: 1,
            failing_out: written as u64 + 1,
            ..NONE
        };
        check_write(alloc, case, failing, front(&case.out, written), b"")?;
    }
    for written in 0..case.err.len().min(MOST) {
        let failing = Hindrance {
            step: 1,
            failing_err: written as u64 + 1,
            ..NONE
        };
        check_write(alloc, case, failing, b"", front(&case.err, written))?;
    }
    Ok(())
}

// What the case has to write on a prefix of its dump: what it expects, or if
// that is the report of `index` on the whole, what that says of the prefix.
fn wanted_on(alloc: Global, case: &Case, length: usize) -> Result<String, AllocError> {
    match std::str::from_utf8(&case.out) {
        Ok(report) => cut_report(alloc, report, length as u64),
        Err(_) => Ok(String::new(alloc)),
    }
}

// The run on a prefix of the dump has to end as the case says of it.
fn check_front(alloc: Global, case: &Case, length: usize) -> Result<(), Fault> {
    let wanted = wanted_on(alloc, case, length)?;
    let end = run_on(alloc, case, front(&case.dump, length), &NONE)?;
    if end.is(case.status, wanted.as_bytes(), &case.err) {
        return Ok(());
    }
    Err(Fault::Failed(Failure {
        hindrance: NONE,
        length,
        end,
        wanted: "with what the case says of the prefix",
    }))
}

/// Runs the case in every way in which it must end as it says. Returns
/// the first run that didn't end so, or that there was no memory for one.
pub fn check(alloc: Global, case: &Case) -> Result<(), Fault> {
    if case.is_once {
        return check_run(alloc, case, NONE);
    }
    if let Some((from, upto)) = case.fronts {
        for length in from..upto {
            check_front(alloc, case, length)?;
        }
        return Ok(());
    }
    check_cuts(alloc, case)?;
    check_calls(alloc, case)?;
    check_first_calls(alloc, case)?;
    check_writes(alloc, case)
}
