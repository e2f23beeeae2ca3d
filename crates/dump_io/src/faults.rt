// Why a call that reads isn't done.
use std::alloc::AllocError;

/// Why a call isn't done that reads a dump and refuses nothing that a dump holds.
#[derive(Debug, Drop)]
pub enum ReadFault {
    /// The device failed.
    Read,
    /// There was no memory, or more is needed than a call can hold, such as a heap of more
    /// than 2^32 - 2 cells and elements. The calls for which the second can be so say it.
    Memory,
}

impl From<AllocError> for ReadFault {
    ghost use Rattle.std.specs.Prelude.{◌≡◌};
    ghost use Rattle.dump_io.specs.declared.faults.ReadFault.TheVariants.{Memory};

    ghost from_gives = { λ _ fault. fault ≡ Memory };

    fn from(_: AllocError) -> ReadFault {
        ReadFault::Memory
    }
}
