// Why a heap isn't loaded.
ghost use Rattle.std.specs.Prelude.{◌≡◌};

use dump_sections::BodyFault;
use std::alloc::AllocError;
use thiserror::Error;

/// Why a heap isn't loaded.
#[derive(Debug, Drop, Error)]
pub enum HeapFault {
    /// A body has more bytes than the limit on a section's body; `at` is the offset
    /// of its section in the file, and `len` the number of bytes of the body.
    #[error("the section at {at} is too large: {len} bytes")]
    SectionTooLarge { at: u64, len: u64 },
    /// The heap has more lines and elements than the limit; `count` is their number.
    #[error("the heap is too dense: {count} lines and elements")]
    TooDense { count: u64 },
    /// The device failed.
    #[error("the dump can't be read")]
    Read,
    /// There was no memory for the heap.
    #[error("out of memory")]
    Memory,
}

impl From<AllocError> for HeapFault {
    ghost use Rattle.heap_cells.specs.declared.faults.HeapFault.TheVariants.{Memory};

    ghost from_gives = { λ _ fault. fault ≡ Memory };

    fn from(_: AllocError) -> HeapFault {
        HeapFault::Memory
    }
}

impl From<BodyFault> for HeapFault {
    ghost use Rattle.heap_cells.specs.Loading.{heap_fault_of};

    ghost from_gives = { λ body fault. fault ≡ heap_fault_of body };

    fn from(fault: BodyFault) -> HeapFault {
        match fault {
            BodyFault::SectionTooLarge { at, len } => HeapFault::SectionTooLarge { at, len },
            BodyFault::Read => HeapFault::Read,
            BodyFault::Memory => HeapFault::Memory,
        }
    }
}
