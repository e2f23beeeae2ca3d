// Numbers that the sections of processes state.
ghost use Rattle.std.specs.Prelude.{◌≡◌, ◌<◌, ◌^◌};
ghost use Rattle.section_rows.specs.Shown.{shown_cell};
ghost use Rattle.process_table.specs.Numbers.{binary_bytes, binary_words, stated_number};
ghost use Rattle.process_table.specs.Shown.{shown_process};

use crate::procs::Proc;
use dump_io::dec_u64;
use section_rows::Kept;

/// The number that the text of a field writes. Returns `None` exactly when there
/// is no field, or its text is no decimal number below 2^64.
pub fn stated_number(cell: &Option<Kept<'_>>) -> Option<u64>
    ensures { result ≡ stated_number (shown_cell cell.now) }
{
    let Some(kept) = cell else {
        return None;
    };
    dec_u64(kept.text)
}

/// How many words the binaries take to which a process refers, by its own counts: the
/// sum of its fields `BinVHeap` and `OldBinVHeap`, each of which counts 0 if it isn't a number.
pub fn binary_words(process: &Proc<'_>) -> u128
    ensures value { result ≡ binary_words (shown_process process.now) }
    ensures small { result < 2 ^ 65 }
{
    let young = stated_number(&process.virtual_heap).unwrap_or(0);
    let old = stated_number(&process.old_virtual_heap).unwrap_or(0);
    u128::from(young) + u128::from(old)
}

/// How many bytes these binaries take, where a word has 8, as on a node of 64 bits.
pub fn binary_bytes(process: &Proc<'_>) -> u128
    ensures { result ≡ binary_bytes (shown_process process.now) }
{
    8 * binary_words(process)
}
