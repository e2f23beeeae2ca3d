// Gathering the heap lines of the bodies one by one.
ghost use Rattle.std.specs.Prelude.{◌≡◌, ◌+◌, ◌^◌, ◌<◌, ◌≤◌, ◌*◌, ◌∷◌, [], length, OnOk, IfOk, IfErr};
ghost use Rattle.std.specs.List.{filter_map};
ghost use Rattle.dump_io.specs.Limits.{usual};
ghost use Rattle.field_lines.specs.Shown.{shown_line};
ghost use Rattle.heap_cells.specs.Cells.{cell_of, line_cells};
ghost use Rattle.heap_cells.specs.Inner.Gathering.{AreAll, Gathers, HoldsTexts, IsBodyAt, IsLineAt, IsNothing};
ghost use Rattle.heap_cells.specs.Inner.Faults.{IsOfTheTexts};
ghost use Rattle.heap_cells.specs.Inner.Texts.{text_of, seam_of, weight_in};
ghost use Rattle.heap_graph.specs.Held.{IsSmall};

use crate::faults::HeapFault;
use crate::texts::Texts;
use field_lines::Line;
use field_lines::reading::lines;
use heap_graph::{Elements, Held, gather_cell};
use std::alloc::{AllocError, Global};
use term_forms::{form_is_read, heap_line};

// What is held of the lines so far, and how many lines and elements there are so
// far. Once these are more than the limit, nothing is held any more.
#[derive(Drop)]
pub(crate) struct Gathering {
    pub held: Held,
    pub weight: u64,
    pub dense: u32,
}

// Adds the weight of a cell that was gathered. If all together are more than the limit, nothing is held any more.
fn add_weight(g: &mut Gathering, elements: u64)
    requires room { g.old.weight + (1 + elements) < 2 ^ 64 }
    requires small { IsSmall g.old.held }
    ensures limit { g.new.dense ≡ g.old.dense }
    ensures weight { g.new.weight ≡ g.old.weight + (1 + elements) }
    ensures small { IsSmall g.new.held }
    ensures held { g.new.weight ≤ g.old.dense → g.new.held ≡ g.old.held }
{
    g.weight += 1 + elements;
    if g.weight > u64::from(g.dense) {
        g.held.clear();
    }
}

// Gathers the cell of a line of a body that stands at a place of the text, if the line is a heap line.
fn gather_line(
    texts: &Texts,
    base: usize,
    line: &Line<'_>,
    g: &mut Gathering,
) -> Result<(), AllocError>
    requires line { IsLineAt (text_of texts.now) (seam_of texts.now) base (shown_line line.now) }
    requires size { length (text_of texts.now) ≤ 2 * usual.section }
    requires room { g.old.weight + length line.now.text.now < 2 ^ 64 }
    requires small { IsSmall g.old.held }
    ensures limit { g.new.dense ≡ g.old.dense }
    ensures weight { g.new.weight ≤ g.old.weight + length line.now.text.now }
    ensures small { OnOk result (IsSmall g.new.held) }
    ensures gathers { OnOk result (Gathers texts.now g.old g.new
        (filter_map (cell_of texts.now.enc) (shown_line line.now ∷ []))) }
{
    form_is_read(texts.enc);
    let Some((address, spelled)) = heap_line(line.text) else {
        return Ok(());
    };
    let at = base + line.at;
    let from = at + (line.text.len() - spelled.len());
    let count = gather_cell(
        &mut g.held,
        texts.enc,
        address,
        spelled,
        at as u64,
        from as u64,
    )?;
    add_weight(g, count);
    Ok(())
}

// Gathers the cells of all lines of a body that stands at a place of the text.
fn gather_lines(
    texts: &Texts,
    base: usize,
    body: &[u8],
    g: &mut Gathering,
) -> Result<(), AllocError>
    requires body { IsBodyAt (text_of texts.now) (seam_of texts.now) base body.now }
    requires size { length (text_of texts.now) ≤ 2 * usual.section }
    requires few { length body.now ≤ usual.section }
    requires room { g.old.weight ≤ 2 ^ 62 }
    requires small { IsSmall g.old.held }
    ensures limit { g.new.dense ≡ g.old.dense }
    ensures weight { g.new.weight ≤ g.old.weight + 2 ^ 58 }
    ensures small { OnOk result (IsSmall g.new.held) }
    ensures gathers { OnOk result (Gathers texts.now g.old g.new
        (line_cells texts.now.enc body.now)) }
{
    for line in lines(body) {
        gather_line(texts, base, &line, g)?;
    }
    Ok(())
}

// Gathers the heap lines of both bodies, and returns how many
// of the cells are those of the process's own heap.
fn gather_all(texts: &Texts, g: &mut Gathering) -> Result<u32, AllocError>
    requires heap { length texts.now.heap.items ≤ usual.section }
    requires literals { length texts.now.literals.items ≤ usual.section }
    requires none { IsNothing g.old }
    ensures limit { g.new.dense ≡ g.old.dense }
    ensures small { OnOk result (IsSmall g.new.held) }
    ensures all { IfOk result (AreAll texts.now g.new) }
{
    gather_lines(texts, 0, &texts.heap, g)?;
    let own = g.held.parts.len() as u32;
    gather_lines(texts, texts.heap.len(), &texts.literals, g)?;
    Ok(own)
}

// What is held of both bodies, and how many of the cells are those of the process's own heap.
pub(crate) fn gather_texts(
    alloc: Global,
    texts: &Texts,
    dense: u32,
) -> Result<(Held, u32), HeapFault>
    requires heap { length texts.now.heap.items ≤ usual.section }
    requires literals { length texts.now.literals.items ≤ usual.section }
    requires limit { dense ≤ usual.dense }
    ensures small { IfOk result (λ found. IsSmall found.0) }
    ensures holds { IfOk result (λ found. HoldsTexts texts.now found.0 found.1) }
    ensures weight { OnOk result (weight_in texts.now ≤ dense) }
    ensures fault { IfErr result (IsOfTheTexts texts.now dense) }
{
    let mut g = Gathering {
        held: Held::new(alloc, Elements::slots(alloc)),
        weight: 0,
        dense,
    };
    let own = gather_all(texts, &mut g)?;
    if g.weight > u64::from(dense) {
        return Err(HeapFault::TooDense { count: g.weight });
    }
    Ok((g.held, own))
}
