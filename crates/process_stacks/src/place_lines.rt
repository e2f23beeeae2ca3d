// The lines of a place.
ghost use Rattle.std.specs.Prelude.{◌≡◌, ℕ, List, ◌<◌, ◌++◌, length, option_map, All, IfOk, OnOk};
ghost use Rattle.std.specs.Option.{option_copied};
ghost use Rattle.dump_sections.specs.Index.{Contents};
ghost use Rattle.section_rows.specs.Rows.{row_at};
ghost use Rattle.text_groups.specs.Cut.{cut_text};
ghost use Rattle.process_stacks.specs.Places.{part_line, place_line, IsTold};
ghost use Rattle.process_stacks.specs.Rows.{stack_rows};
ghost use Rattle.process_stacks.specs.Inner.Reading.{first_lines};

use crate::procs::StackProcs;
use std::alloc::{AllocError, Global};
use text_groups::cut_text;

/// Appends a line with a word and a text, which is cut.
pub(crate) fn push_line(lines: &mut Vec<u8>, word: &[u8], text: &[u8]) -> Result<(), AllocError>
    ensures { OnOk result (lines.new.items
        ≡ lines.old.items ++ place_line word.now (cut_text text.now)) }
{
    lines.extend_from_slice(word)?;
    lines.push(b'\t')?;
    lines.extend_from_slice(cut_text(text))?;
    lines.push(b'\n')?;
    Ok(())
}

// Appends that line if there is a text.
fn push_some(lines: &mut Vec<u8>, word: &[u8], text: Option<&[u8]>) -> Result<(), AllocError>
    ensures { OnOk result (lines.new.items ≡ lines.old.items
        ++ part_line word.now (option_map cut_text (option_copied text.entry))) }
{
    match text {
        Some(text) => push_line(lines, word, text),
        None => Ok(()),
    }
}

/// The lines of the place of a process that stand before those of its frames.
pub(crate) fn first_lines(
    alloc: Global,
    procs: &StackProcs,
    i: usize,
) -> Result<Vec<u8>, AllocError>
    requires { i < length procs.now }
    ensures { IfOk result (λ lines. lines.items ≡ first_lines (row_at procs.now i)) }
{
    let mut lines = Vec::new(alloc);
    push_some(&mut lines, b"at", procs.counter(i))?;
    push_some(&mut lines, b"call", procs.call(i))?;
    Ok(lines)
}

/// The lines of a place tell it: two processes of a dump whose places have the same
/// lines stand at the same place, since no text that these lines show has an LF.
pub fn lines_tell_places()
    ensures { (dump : List ℕ) (index : Contents)
        → All (λ one. All (IsTold dump index one) (stack_rows dump)) (stack_rows dump) }
{}
