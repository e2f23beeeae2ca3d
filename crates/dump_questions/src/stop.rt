// Why a question ended without its whole report.
ghost use Rattle.std.specs.Prelude.{◌≡◌};
ghost use Rattle.dump_questions.specs.Stops.{or_stop, stop_of_body, stop_of_heap, stop_of_large};
ghost use Rattle.dump_questions.specs.Stops.{stop_of_opening, stop_of_previews, stop_of_reading};

use binary_refs::PreviewFault;
use dump_io::{Failed, ReadFault};
use dump_sections::{BodyFault, LargeSection};
use heap_cells::HeapFault;
use report_text::Refusal;
use section_index::OpenFault;
use std::alloc::AllocError;

/// Why a question ended without its whole report; the faults of all layers are converted to this.
#[derive(Drop)]
pub enum Stop {
    /// The question is refused.
    Refused(Refusal),
    /// The device failed, or has no such file.
    NotRead,
    /// The sink of the report failed.
    NotWritten,
    /// There was no memory.
    NoMemory,
}

impl From<OpenFault> for Stop {
    ghost from_gives = { λ fault stop. stop ≡ stop_of_opening fault };

    fn from(fault: OpenFault) -> Stop {
        match fault {
            OpenFault::Read => Stop::NotRead,
            OpenFault::Memory => Stop::NoMemory,
            fault => Stop::Refused(Refusal::Open(fault)),
        }
    }
}

impl From<BodyFault> for Stop {
    ghost from_gives = { λ fault stop. stop ≡ stop_of_body fault };

    fn from(fault: BodyFault) -> Stop {
        match fault {
            BodyFault::Read => Stop::NotRead,
            BodyFault::Memory => Stop::NoMemory,
            BodyFault::SectionTooLarge { at, len } => {
                Stop::Refused(Refusal::SectionTooLarge { at, len })
            }
        }
    }
}

impl From<LargeSection> for Stop {
    ghost from_gives = { λ large stop. stop ≡ stop_of_large large };

    fn from(large: LargeSection) -> Stop {
        let LargeSection { at, len } = large;
        Stop::Refused(Refusal::SectionTooLarge { at, len })
    }
}

/// Returns what was loaded, or the stop of the question that a fault of a body is.
pub fn or_stop<T>(loaded: Result<T, BodyFault>) -> Result<T, Stop>
    ensures { result ≡ or_stop loaded }
{
    Ok(loaded?)
}

impl From<HeapFault> for Stop {
    ghost from_gives = { λ fault stop. stop ≡ stop_of_heap fault };

    fn from(fault: HeapFault) -> Stop {
        match fault {
            HeapFault::Read => Stop::NotRead,
            HeapFault::Memory => Stop::NoMemory,
            HeapFault::SectionTooLarge { at, len } => {
                Stop::Refused(Refusal::SectionTooLarge { at, len })
            }
            HeapFault::TooDense { count } => Stop::Refused(Refusal::TooDense { count }),
        }
    }
}

impl From<PreviewFault> for Stop {
    ghost from_gives = { λ fault stop. stop ≡ stop_of_previews fault };

    fn from(fault: PreviewFault) -> Stop {
        match fault {
            PreviewFault::Read => Stop::NotRead,
            PreviewFault::Memory => Stop::NoMemory,
        }
    }
}

impl From<ReadFault> for Stop {
    ghost from_gives = { λ fault stop. stop ≡ stop_of_reading fault };

    fn from(fault: ReadFault) -> Stop {
        match fault {
            ReadFault::Read => Stop::NotRead,
            ReadFault::Memory => Stop::NoMemory,
        }
    }
}

impl From<AllocError> for Stop {
    ghost use Rattle.dump_questions.specs.declared.stop.Stop.TheVariants.{NoMemory};

    ghost from_gives = { λ _ stop. stop ≡ NoMemory };

    fn from(_fault: AllocError) -> Stop {
        Stop::NoMemory
    }
}

impl From<Failed> for Stop {
    ghost use Rattle.dump_questions.specs.declared.stop.Stop.TheVariants.{NotWritten};

    ghost from_gives = { λ _ stop. stop ≡ NotWritten };

    fn from(_fault: Failed) -> Stop {
        Stop::NotWritten
    }
}
