// Level 0: what the kinds of roots alone hold.
ghost use Rattle.std.specs.Prelude.{◌≡◌, ◌<◌, ◌++◌, length, slice_get, Some, IfOk, OnOk};
ghost use Rattle.cell_parts.specs.Over.{IsOver};
ghost use Rattle.heap_levels.specs.Levels.{kind_weighing};
ghost use Rattle.heap_levels.specs.Inner.Kinds.{row_if, rows_of, sorted_rows};
ghost use Rattle.heap_levels.specs.Shown.{shown_level};

use crate::kind_graph::weigh_kinds;
use cell_parts::Parts;
use heap_skeleton::Skeleton;
use heap_weights::{Shares, Weight};
use root_views::RootKind;
use std::alloc::{AllocError, Global};
use text_groups::{Measured, sort_most_first};

/// A kind of roots that alone holds a cell.
#[derive(Clone, Copy)]
pub struct KindRow {
    /// The kind of the roots.
    pub kind: RootKind,
    /// What it alone holds.
    pub weight: Weight,
}

impl Measured for KindRow {
    ghost size = { λ row. row.weight.words };

    fn size(&self) -> u128 {
        self.weight.words
    }
}

/// Level 0: the kinds that alone hold a cell, the most words first; what two or more of them reach, and what any reaches.
#[derive(Drop)]
pub struct KindLevel {
    pub rows: Vec<KindRow>,
    pub shared: Weight,
    pub reached: Weight,
}

// Appends a kind, if it alone holds a cell.
fn push_kind(rows: &mut Vec<KindRow>, kind: RootKind, weight: Weight) -> Result<(), AllocError>
    ensures { OnOk result (rows.new.items ≡ rows.old.items ++ row_if kind weight) }
{
    if weight.cells > 0 {
        rows.push(KindRow { kind, weight })?;
    }
    Ok(())
}

// The kinds that alone hold a cell, of which this is what each alone holds.
fn rows_of(
    alloc: Global,
    stack: Weight,
    dict: Weight,
    mail: Weight,
) -> Result<Vec<KindRow>, AllocError>
    ensures { IfOk result (λ rows. rows.items ≡ rows_of stack dict mail) }
{
    let mut rows = Vec::new(alloc);
    push_kind(&mut rows, RootKind::Stack, stack)?;
    push_kind(&mut rows, RootKind::Dict, dict)?;
    push_kind(&mut rows, RootKind::Mail, mail)?;
    Ok(rows)
}

// The same with the most words first.
fn sorted_rows(
    alloc: Global,
    stack: Weight,
    dict: Weight,
    mail: Weight,
) -> Result<Vec<KindRow>, AllocError>
    ensures { IfOk result (λ rows. rows.items ≡ sorted_rows stack dict mail) }
{
    let mut rows = rows_of(alloc, stack, dict, mail)?;
    sort_most_first(&mut rows)?;
    Ok(rows)
}

// The weight at a place.
fn weight_at(alone: &[Weight], i: usize) -> Weight
    requires { i < length alone.now }
    ensures { slice_get alone.now i ≡ Some result }
{
    alone[i]
}

/// What the kinds of roots alone hold that make these parts.
pub(crate) fn level_zero(
    alloc: Global,
    skeleton: &Skeleton,
    stack: &Parts,
    dict: &Parts,
    mail: &Parts,
) -> Result<KindLevel, AllocError>
    requires stack { IsOver skeleton.now stack.now }
    requires dict { IsOver skeleton.now dict.now }
    requires mail { IsOver skeleton.now mail.now }
    ensures { IfOk result (λ level. shown_level level
        ≡ kind_weighing skeleton.now stack.now.parts dict.now.parts mail.now.parts) }
{
    let Shares {
        alone,
        shared,
        reached,
        ..
    } = weigh_kinds(alloc, skeleton, stack, dict, mail)?;
    let on_stack = weight_at(&alone, 0);
    let in_dict = weight_at(&alone, 1);
    let in_mail = weight_at(&alone, 2);
    let rows = sorted_rows(alloc, on_stack, in_dict, in_mail)?;
    Ok(KindLevel {
        rows,
        shared,
        reached,
    })
}
