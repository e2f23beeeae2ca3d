// Gathering heap lines one by one.
ghost use Rattle.std.specs.Prelude.{◌≡◌, ◌+◌, ◌<◌, ◌^◌, ◌∷◌, [], length, OnOk, IfOk};
ghost use Rattle.dump_io.specs.Lines.{lines_from};
ghost use Rattle.body_lines.specs.Lines.{lines_at};
ghost use Rattle.heap_graph.specs.Cells.{elements_in};
ghost use Rattle.heap_graph.specs.Held.{chosen, heap_line_with, heap_lines, Gains, IsSmall};
ghost use Rattle.term_forms.specs.ReadingForms.{form_of};

use crate::elements::Elements;
use crate::forms::push_form;
use crate::held::{CellPart, Held};
use dump_io::{bytes_from, line_len, line_text};
use std::alloc::AllocError;
use term_forms::{Enc, heap_line};

// Where a cell is found, and what is kept as its size, given both of either kind.
#[inline(always)]
fn place_and_size(elements: &Elements, line: (u64, u64), text: (u64, u64)) -> (u64, u64)
    ensures { result ≡ chosen elements.now line text }
{
    match elements {
        Elements::Leads(_) => line,
        Elements::Slots(_) => text,
    }
}

/// Gathers the cell of a heap line, given its address, the text of its form, and how many bytes stand before the
/// line and before this text. Returns the number of elements of its form.
#[inline(always)]
pub fn gather_cell(
    held: &mut Held,
    enc: Enc,
    address: u64,
    text: &[u8],
    at: u64,
    from: u64,
) -> Result<u64, AllocError>
    requires small { IsSmall held.old }
    requires fits { from + length text.now < 2 ^ 64 }
    ensures small { OnOk result (IsSmall held.new) }
    ensures gains { OnOk result (Gains held.old held.new
        (heap_line_with enc at from (address, text.now) ∷ [])) }
    ensures count { IfOk result (λ n. n ≡ length (elements_in (form_of enc text.now))) }
{
    let first = held.elements.len() as u32;
    let read = push_form(&mut held.elements, text, enc, from)?;
    let (place, size) = place_and_size(&held.elements, (at, read.words), (from, text.len() as u64));
    let Ok(size) = u32::try_from(size) else {
        return Err(AllocError);
    };
    let part = CellPart {
        address,
        at: place,
        first,
        size,
    };
    held.push(part, read.kind)?;
    Ok(read.count)
}

// Gathers a raw line, before which so many bytes stand, if it is a heap line.
fn gather_line(held: &mut Held, enc: Enc, at: u64, raw: &[u8]) -> Result<(), AllocError>
    requires small { IsSmall held.old }
    requires fits { at + length raw.now < 2 ^ 64 }
    ensures small { OnOk result (IsSmall held.new) }
    ensures gains { OnOk result (Gains held.old held.new
        (heap_lines enc (lines_from at (raw.now ∷ [])))) }
{
    let line = line_text(raw);
    let Some((address, text)) = heap_line(line) else {
        return Ok(());
    };
    let from = at + (line.len() - text.len()) as u64;
    gather_cell(held, enc, address, text, at, from)?;
    Ok(())
}

/// Gathers the heap lines of a run of lines, the first of which begins at an offset.
pub fn gather_run(held: &mut Held, enc: Enc, at: u64, run: &[u8]) -> Result<(), AllocError>
    requires small { IsSmall held.old }
    requires fits { at + length run.now < 2 ^ 64 }
    ensures small { OnOk result (IsSmall held.new) }
    ensures gains { OnOk result (Gains held.old held.new (heap_lines enc (lines_at at run.now))) }
{
    let mut line = at;
    let mut rest = run;
    while !rest.is_empty() {
        let size = line_len(rest);
        gather_line(held, enc, line, &rest[..size])?;
        line += size as u64;
        rest = bytes_from(rest, size);
    }
    Ok(())
}
