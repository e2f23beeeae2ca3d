// Keeping the first of the heap lines with each address.
ghost use Rattle.std.specs.Prelude.{◌≡◌, ◌<◌, ◌≤◌, List, length, OnOk, IfOk};
ghost use Rattle.cell_records.specs.Firsts.{AreFirsts};
ghost use Rattle.heap_graph.specs.Elements.{IsAlike};
ghost use Rattle.heap_graph.specs.Held.{HeapLine, addresses_of, kept_references, line_at, IsHeld, IsSmall};
ghost use Rattle.heap_graph.specs.Keeping.{HoldsLines, IsSpanAt, KeepsLine, KeepsNext, IsKeeping, AreLeft, AreKept};

use crate::held::{CellPart, Held, start_at};
use crate::settling::Settled;
use std::alloc::{AllocError, Global};

// Where the elements of a cell begin and end among those of all cells.
fn span_at(held: &Held, i: usize) -> (usize, usize)
    requires place { i < length held.now.parts.items }
    requires holds { HoldsLines held.now }
    ensures { IsSpanAt held.now i result }
{
    let total = held.elements.len();
    let from = start_at(&held.parts, i, total);
    let upto = start_at(&held.parts, i + 1, total);
    (from, upto)
}

// How many addresses are kept beside the elements of a cell.
fn addresses_at(held: &Held, i: usize) -> usize
    requires place { i < length held.now.parts.items }
    requires holds { HoldsLines held.now }
    ensures { (lines : List HeapLine) → IsHeld lines held.now
        → result ≡ length (kept_references held.now.elements (line_at lines i)) }
{
    let (from, upto) = span_at(held, i);
    held.elements.addresses_between(from, upto)
}

// Appends a cell of other heap lines, whose elements have these addresses.
fn keep_cell(held: &Held, i: usize, references: &[u64], kept: &mut Held) -> Result<(), AllocError>
    requires place { i < length held.now.parts.items }
    requires holds { HoldsLines held.now }
    requires small { IsSmall kept.old }
    requires alike { IsAlike held.now.elements kept.old.elements }
    ensures small { OnOk result (IsSmall kept.new) }
    ensures alike { OnOk result (IsAlike held.now.elements kept.new.elements) }
    ensures keeps { OnOk result (KeepsLine held.now i references.now kept.old kept.new) }
{
    let first = kept.elements.len() as u32;
    let (from, upto) = span_at(held, i);
    kept.elements
        .extend(&held.elements, from, upto, references)?;
    let part = CellPart {
        first,
        ..held.parts[i]
    };
    kept.push(part, held.kinds[i])
}

// Keeps the next cell, whose elements have these addresses, if it is the first with its address.
fn keep_next(
    held: &Held,
    firsts: &[bool],
    i: usize,
    references: &[u64],
    kept: &mut Held,
) -> Result<(), AllocError>
    requires place { i < length held.now.parts.items }
    requires holds { HoldsLines held.now }
    requires firsts { AreFirsts (addresses_of held.now.parts.items) firsts.now }
    requires small { IsSmall kept.old }
    requires alike { IsAlike held.now.elements kept.old.elements }
    ensures small { OnOk result (IsSmall kept.new) }
    ensures alike { OnOk result (IsAlike held.now.elements kept.new.elements) }
    ensures keeps { OnOk result (KeepsNext held.now i references.now kept.old kept.new) }
{
    if !firsts[i] {
        return Ok(());
    }
    keep_cell(held, i, references, kept)
}

// Keeps those of the cells in a range of numbers that are the first with their address. The addresses of
// the elements from the first cell of the range on are given, and those that are left are returned.
fn keep_part<'a>(
    held: &Held,
    firsts: &[bool],
    from: usize,
    upto: usize,
    references: &'a [u64],
    kept: &mut Held,
) -> Result<&'a [u64], AllocError>
    requires holds { HoldsLines held.now }
    requires firsts { AreFirsts (addresses_of held.now.parts.items) firsts.now }
    requires part { from ≤ upto }
    requires within { upto ≤ length held.now.parts.items }
    requires small { IsSmall kept.old }
    requires alike { IsAlike held.now.elements kept.old.elements }
    requires left { AreLeft held.now references.now from }
    ensures small { OnOk result (IsSmall kept.new) }
    ensures alike { OnOk result (IsAlike held.now.elements kept.new.elements) }
    ensures left { IfOk result (λ rest. AreLeft held.now rest.now upto) }
    ensures kept { OnOk result (IsKeeping held.now kept.old from → IsKeeping held.now kept.new upto) }
{
    let mut rest = references;
    for i in from..upto {
        let (own, behind) = rest.split_at(addresses_at(held, i));
        keep_next(held, firsts, i, own, kept)?;
        rest = behind;
    }
    Ok(rest)
}

// Keeps the cells that are the first with their address. The first `own` of all cells are the process's own.
pub(crate) fn keep_firsts(
    alloc: Global,
    held: &Held,
    firsts: &[bool],
    own: usize,
) -> Result<Settled, AllocError>
    requires holds { HoldsLines held.now }
    requires firsts { AreFirsts (addresses_of held.now.parts.items) firsts.now }
    requires own { own ≤ length held.now.parts.items }
    ensures small { IfOk result (λ kept. IsSmall kept.held) }
    ensures kept { IfOk result (AreKept held.now own) }
{
    let mut kept = Held::new(alloc, held.elements.none_like(alloc));
    let rest = keep_part(held, firsts, 0, own, held.elements.addresses(), &mut kept)?;
    let kept_own = kept.parts.len() as u32;
    keep_part(held, firsts, own, held.parts.len(), rest, &mut kept)?;
    Ok(Settled {
        held: kept,
        own: kept_own,
    })
}
