// A run of a case, and what it leaves.
use crate::case::Case;
use dump_command::run;
use dump_command::status::UNREAD;
use dump_io::{Limits, MemDumps, MemSink};
use std::alloc::{AllocError, Global};

/// How a run is hindered: to how many bytes its reads are cut, which call of the device fails, how many
/// bytes a write to either sink takes, and which write to each of them fails. A 0 hinders nothing.
#[derive(Clone, Copy)]
pub struct Hindrance {
    pub cut: usize,
    pub failing_call: u64,
    pub step: usize,
    pub failing_out: u64,
    pub failing_err: u64,
}

/// Nothing hinders the run.
pub const NONE: Hindrance = Hindrance {
    cut: 0,
    failing_call: 0,
    step: 0,
    failing_out: 0,
    failing_err: 0,
};

#[derive(Drop)]
pub struct Outcome {
    pub status: u64,
    pub out: MemSink,
    pub err: MemSink,
    pub taken: u64,
}

impl Outcome {
    /// Whether the run ended with this status, and left these bytes.
    pub fn is(&self, status: u64, out: &[u8], err: &[u8]) -> bool {
        self.status == status && self.out.written() == out && self.err.written() == err
    }

    /// Whether the run ended with a read fault. Nothing was written then, or, if the command
    /// of the case writes while it reads, a prefix of the report that the case expects.
    pub fn is_unread(&self, case: &Case) -> bool {
        let out = self.out.written();
        let is_front = case.streams() && out.len() < case.out.len() && case.out.starts_with(out);
        self.is(u64::from(UNREAD), out, b"") && (out.is_empty() || is_front)
    }
}

/// A run that didn't end as it must.
#[derive(Drop)]
pub struct Failure {
    pub hindrance: Hindrance,
    /// How many bytes of the case's dump it ran on.
    pub length: usize,
    pub end: Outcome,
    /// How the run had to end.
    pub wanted: &'static str,
}

/// Why a case doesn't pass.
#[derive(Drop)]
pub enum Fault {
    /// A run didn't end as it must.
    Failed(Failure),
    /// There was no memory for a run.
    Memory(AllocError),
}

impl From<AllocError> for Fault {
    fn from(fault: AllocError) -> Fault {
        Fault::Memory(fault)
    }
}

fn dumps_of(alloc: Global, dump: &[u8], hindrance: &Hindrance) -> Result<MemDumps, AllocError> {
    let fails = [hindrance.failing_call];
    match hindrance.cut {
        0 => MemDumps::holding(alloc, "F", dump, &[], &fails),
        cut => MemDumps::holding(alloc, "F", dump, &[cut], &fails),
    }
}

/// Runs a case with this hindrance.
pub fn run_case(alloc: Global, case: &Case, hindrance: &Hindrance) -> Result<Outcome, AllocError> {
    run_on(alloc, case, case.dump.as_slice(), hindrance)
}

/// Runs a case on another dump.
pub fn run_on(
    alloc: Global,
    case: &Case,
    dump: &[u8],
    hindrance: &Hindrance,
) -> Result<Outcome, AllocError> {
    let mut dumps = dumps_of(alloc, dump, hindrance)?;
    let failing_out = vec![in alloc; hindrance.failing_out]?;
    let failing_err = vec![in alloc; hindrance.failing_err]?;
    let mut out = MemSink::new(alloc, hindrance.step, failing_out);
    let mut err = MemSink::new(alloc, hindrance.step, failing_err);
    // A case has no bounds that are no limits.
    let limits = case.bounds.limits().unwrap_or(Limits::usual());
    let status = run(
        alloc,
        case.words.as_slice(),
        &limits,
        &mut dumps,
        &mut out,
        &mut err,
    );
    let taken = dumps.taken();
    Ok(Outcome {
        status: u64::from(status),
        out,
        err,
        taken,
    })
}
