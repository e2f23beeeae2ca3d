// The levels before texts are read.
ghost use Rattle.std.specs.Prelude.{◌≡◌, ◌<◌, ◌≤◌, ◌++◌, List, length, slice_get, IfErr, IfOk, OnOk, Some};
ghost use Rattle.std.specs.List.{flat_map};
ghost use Rattle.cell_parts.specs.Parts.{ArePartsOf, PartElement};
ghost use Rattle.dump_io.specs.Dumps.{IfTold, ReadsAtMost};
ghost use Rattle.dump_io.specs.Faults.{IsReadCauseOf};
ghost use Rattle.dump_sections.specs.Index.{sections_in, IsBuiltOver};
ghost use Rattle.dump_sections.specs.Loading.{bodies_length};
ghost use Rattle.heap_skeleton.specs.Skeletons.{SkeletonMap};
ghost use Rattle.cell_parts.specs.Over.{IsOver};
ghost use Rattle.root_views.specs.Sections.{root_bodies};
ghost use Rattle.root_views.specs.declared.kinds.RootKind.{RootKind};
ghost use Rattle.heap_levels.specs.Levels.{heaviest_kind};
ghost use Rattle.heap_levels.specs.Shown.{shown_level};
ghost use Rattle.heap_levels.specs.Inner.Plain.{below_kinds, levels_with};
ghost use Rattle.heap_levels.specs.Inner.Descent.{IsDescent, IsDescentWithin};
ghost use Rattle.heap_levels.specs.Inner.Reading.{level_keys, roots_in, shown_found, AreKinds, AreOver};

use crate::descending::{Descent, descend, is_most, no_levels};
use crate::kinds::{KindLevel, KindRow, level_zero};
use crate::levels::KeyedLevel;
use cell_parts::{Parts, read_kind_parts};
use dump_io::{Dumps, ReadFault};
use dump_sections::Index;
use heap_skeleton::Skeleton;
use part_keys::KeyPlace;
use root_views::RootKind;
use std::alloc::{AllocError, Global};

/// Level 0, and those below it.
#[derive(Drop)]
pub(crate) struct FoundLevels {
    pub zero: KindLevel,
    pub below: Descent,
}

/// The parts that the roots of each kind make.
#[derive(Drop)]
pub(crate) struct KindParts {
    stack: Parts,
    dict: Parts,
    mail: Parts,
}

// The row at a place.
fn kind_at(rows: &[KindRow], i: usize) -> KindRow
    requires { i < length rows.now }
    ensures { slice_get rows.now i ≡ Some result }
{
    rows[i]
}

// The kind that alone holds the most words, if these are more than half of a total.
fn heaviest_kind(rows: &[KindRow], total: u128) -> Option<RootKind>
    ensures { result ≡ heaviest_kind total rows.now }
{
    if rows.len() == 0 {
        return None;
    }
    let row = kind_at(rows, 0);
    if is_most(row.weight.words, total) {
        Some(row.kind)
    } else {
        None
    }
}

// The parts that the roots of a kind make.
fn kind_parts(kinds: KindParts, kind: RootKind) -> Parts
    ensures over { (heap : SkeletonMap) → AreOver heap kinds → IsOver heap result }
    ensures parts { (roots : RootKind → List PartElement) → AreKinds roots kinds → ArePartsOf (roots kind) result }
{
    let KindParts { stack, dict, mail } = kinds;
    match kind {
        RootKind::Stack => stack,
        RootKind::Dict => dict,
        RootKind::Mail => mail,
    }
}

// The levels below level 0, each with at most `most` rows.
fn levels_below(
    alloc: Global,
    skeleton: &Skeleton,
    kinds: KindParts,
    zero: &KindLevel,
    most: usize,
) -> Result<Descent, AllocError>
    requires over { AreOver skeleton.now kinds }
    requires some { 1 ≤ most }
    ensures within { IfOk result (IsDescentWithin (length skeleton.now.leads)) }
    ensures levels { IfOk result (λ found. (roots : RootKind → List PartElement) → AreKinds roots kinds
        → IsDescent most skeleton.now (below_kinds skeleton.now roots (shown_level zero.now)) found) }
{
    let total = zero.reached.words;
    let Some(kind) = heaviest_kind(&zero.rows, total) else {
        return Ok(no_levels(alloc));
    };
    let first = kind_parts(kinds, kind);
    descend(alloc, skeleton, kind, first, total, most)
}

/// Reads the roots of a process, and returns the parts that those of each kind make.
pub(crate) fn read_kinds<D: Dumps>(
    alloc: Global,
    dumps: &mut D,
    index: &Index,
    pid: &[u8],
    skeleton: &Skeleton,
) -> Result<KindParts, ReadFault>
    requires { IsBuiltOver (D.state dumps.old).now index.now }
    ensures reads { ReadsAtMost (D.state dumps.old) (D.state dumps.new)
        (bodies_length (root_bodies pid.now (sections_in index.now))) }
    ensures fault { IfErr result (IsReadCauseOf (D.state dumps.old) (D.state dumps.new)) }
    ensures over { IfOk result (AreOver skeleton.now) }
    ensures kinds { IfOk result (λ kinds. IfTold (D.state dumps.old).now (λ dump.
        AreKinds (roots_in skeleton.now.addresses dump (sections_in index.now) pid.now) kinds)) }
{
    let stack = read_kind_parts(alloc, dumps, index, pid, RootKind::Stack, skeleton)?;
    let dict = read_kind_parts(alloc, dumps, index, pid, RootKind::Dict, skeleton)?;
    let mail = read_kind_parts(alloc, dumps, index, pid, RootKind::Mail, skeleton)?;
    Ok(KindParts { stack, dict, mail })
}

/// The levels of a process whose roots make these parts, each with at most `most` rows.
pub(crate) fn levels_of(
    alloc: Global,
    skeleton: &Skeleton,
    kinds: KindParts,
    most: usize,
) -> Result<FoundLevels, AllocError>
    requires over { AreOver skeleton.now kinds }
    requires some { 1 ≤ most }
    ensures within { IfOk result (λ found. IsDescentWithin (length skeleton.now.leads) found.below) }
    ensures levels { IfOk result (λ found. (roots : RootKind → List PartElement) → AreKinds roots kinds
        → shown_found found ≡ levels_with most skeleton.now roots) }
{
    let zero = level_zero(alloc, skeleton, &kinds.stack, &kinds.dict, &kinds.mail)?;
    let below = levels_below(alloc, skeleton, kinds, &zero, most)?;
    Ok(FoundLevels { zero, below })
}

// Appends where the keys of a level stand.
fn add_keys(keys: &mut Vec<KeyPlace>, level: &KeyedLevel) -> Result<(), AllocError>
    ensures { OnOk result (keys.new.items ≡ keys.old.items ++ level_keys level.now) }
{
    keys.extend_from_slice(&level.keys)
}

/// Where the keys of all levels stand.
pub(crate) fn keys_of_all(alloc: Global, levels: &[KeyedLevel]) -> Result<Vec<KeyPlace>, AllocError>
    ensures { IfOk result (λ keys. keys.items ≡ flat_map level_keys levels.now) }
{
    let mut keys = Vec::new(alloc);
    for level in levels {
        add_keys(&mut keys, level)?;
    }
    Ok(keys)
}
