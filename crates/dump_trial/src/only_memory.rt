// Only a lack of memory stops the reading of a good dump that is held in memory.
ghost use Rattle.std.specs.Prelude.{◌≡◌};

use binary_refs::PreviewFault;
use dump_sections::BodyFault;
use heap_cells::HeapFault;
use section_index::OpenFault;
use std::alloc::AllocError;

pub(crate) fn of_opening(fault: OpenFault) -> AllocError
    requires { fault ≡ OpenFault.Memory }
{
    match fault {
        OpenFault::Memory => AllocError,
        _ => unreachable!(),
    }
}

pub(crate) fn of_body(fault: BodyFault) -> AllocError
    requires { fault ≡ BodyFault.Memory }
{
    match fault {
        BodyFault::Memory => AllocError,
        _ => unreachable!(),
    }
}

pub(crate) fn of_heap(fault: HeapFault) -> AllocError
    requires { fault ≡ HeapFault.Memory }
{
    match fault {
        HeapFault::Memory => AllocError,
        _ => unreachable!(),
    }
}

pub(crate) fn of_previews(fault: PreviewFault) -> AllocError
    requires { fault ≡ PreviewFault.Memory }
{
    match fault {
        PreviewFault::Memory => AllocError,
        PreviewFault::Read => unreachable!(),
    }
}
