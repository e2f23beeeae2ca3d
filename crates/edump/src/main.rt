//! `edump COMMAND [WORDS]`: reports on an Erlang crash dump.
#![tactic(auto)]

use dump_command::run;
use dump_command::status::{NO_MEMORY, UNREAD, UNWRITTEN};
use dump_io::Limits;
use host_devices::{FileDumps, StdSink};
use std::alloc::AllocError;
use std::env;
use std::io::{ErrorKind, Stderr, Stdout};
use std::process::ExitCode;

// The words after the program's name. A word that isn't UTF-8 makes no command, as no words do.
fn words(rt: &HostRuntime) -> Result<Vec<String>, AllocError> {
    let mut words = Vec::new(rt.alloc());
    match env::args(rt) {
        Ok(args) => {
            for word in args.skip(1) {
                words.push(word)?;
            }
        }
        Err(error) => {
            if error.kind() == ErrorKind::OutOfMemory {
                return Err(AllocError);
            }
        }
    }
    Ok(words)
}

// Runs the words over the machine's files and streams. A failed flush is a failed write.
fn status(rt: &HostRuntime) -> Result<u8, AllocError> {
    let words = words(rt)?;
    let mut out: StdSink<Stdout> = StdSink::new(rt.alloc(), rt.stdout())?;
    let mut err: StdSink<Stderr> = StdSink::new(rt.alloc(), rt.stderr())?;
    let mut dumps = FileDumps::new(rt);
    let limits = Limits::usual();
    let status = run(
        rt.alloc(),
        words.as_slice(),
        &limits,
        &mut dumps,
        &mut out,
        &mut err,
    );
    let flushed = (out.flush(), err.flush());
    match flushed {
        (Ok(()), Ok(())) => Ok(status),
        _ => Ok(UNWRITTEN),
    }
}

fn main(rt: HostRuntime) -> ExitCode {
    let status = status(&rt).unwrap_or(NO_MEMORY);
    let _ = match status {
        UNREAD => eprintln!(rt; "fault: read"),
        UNWRITTEN => eprintln!(rt; "fault: write"),
        NO_MEMORY => eprintln!(rt; "fault: memory"),
        _ => Ok(()),
    };
    ExitCode::from(status)
}
