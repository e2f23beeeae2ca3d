// The cells that are read for the shapes of keys and of parts.
ghost use Rattle.std.specs.Prelude.{◌≡◌, ℕ, ◌++◌, ◌<◌, ◌≤◌, [], All, Contains, length, IfOk, IfSome, OnOk};
ghost use Rattle.std.specs.List.Sorted.{IsStrictlyIncreasing};
ghost use Rattle.std.specs.Option.{option_map_or};
ghost use Rattle.cell_graphs.specs.Graphs.{LeadsWithin};
ghost use Rattle.tuple_fronts.specs.Tuples.{needed_at};
ghost use Rattle.part_keys.specs.KeyPlaces.{AreKeysWithin, IsKeyWithin};
ghost use Rattle.part_keys.specs.PartShapes.{AreShapedWithin, IsShapedWithin};
ghost use Rattle.part_keys.specs.Inner.KeyTexts.{all_key_cells, all_key_tuples, key_cells, key_tuples, lead_at, AreAmong, IsAmong};
ghost use Rattle.part_keys.specs.Inner.PartTexts.{all_part_tuples, all_tuples, part_tuples, read_places, value_place};

use crate::key_places::KeyPlace;
use crate::shaped::ShapedPart;
use cell_graphs::CellGraph;
use heap_skeleton::Skeleton;
use std::alloc::{AllocError, Global};
use tuple_fronts::{CellSet, add_lead, add_needed};

/// The cells whose first elements are read, and how many of these.
#[derive(Drop)]
pub(crate) struct Wanted {
    pub cells: CellSet,
    pub most: usize,
}

// Appends the cell in which a key stands.
fn add_cell(cells: &mut Vec<u32>, key: KeyPlace) -> Result<(), AllocError>
    ensures { OnOk result (cells.new.items ≡ cells.old.items ++ key_cells key) }
{
    if let KeyPlace::At(cell, _) = key {
        cells.push(cell)?;
    }
    Ok(())
}

// The cells in which keys stand.
fn cells_of(alloc: Global, keys: &[KeyPlace]) -> Result<CellSet, AllocError>
    ensures all { IfOk result (λ cells. (n : ℕ) → Contains (all_key_cells keys.now) n → Contains cells n) }
    ensures ascending { IfOk result IsStrictlyIncreasing }
    ensures within { (size : ℕ) → AreKeysWithin size keys.now → IfOk result (λ cells. All (λ n. n < size) cells) }
{
    let mut cells = Vec::new(alloc);
    for key in keys {
        add_cell(&mut cells, *key)?;
    }
    Ok(CellSet::of(cells))
}

// The cell to which a place of a cell leads, if the cell has so many places and this one leads to a cell.
fn lead_at(skeleton: &Skeleton, cell: u32, place: usize) -> Option<u32>
    requires { cell < length skeleton.now.leads }
    ensures value { result ≡ lead_at skeleton.now cell place }
    ensures within { LeadsWithin skeleton.now.leads → IfSome result (λ n. n < length skeleton.now.leads) }
{
    if place < skeleton.places(cell) {
        skeleton.lead(cell, place)
    } else {
        None
    }
}

// Appends the tuple to which a key refers, if it refers to one.
fn add_tuple(skeleton: &Skeleton, cells: &mut Vec<u32>, key: KeyPlace) -> Result<(), AllocError>
    requires within { LeadsWithin skeleton.now.leads }
    requires key { IsKeyWithin (length skeleton.now.leads) key }
    ensures { OnOk result (cells.new.items ≡ cells.old.items ++ key_tuples skeleton.now key) }
{
    match key {
        KeyPlace::At(cell, place) => add_lead(skeleton, cells, lead_at(skeleton, cell, place)),
        KeyPlace::NoKey | KeyPlace::Unknown => Ok(()),
    }
}

// Appends the tuples to which keys refer.
fn add_tuples(
    skeleton: &Skeleton,
    cells: &mut Vec<u32>,
    keys: &[KeyPlace],
) -> Result<(), AllocError>
    requires within { LeadsWithin skeleton.now.leads }
    requires keys { AreKeysWithin (length skeleton.now.leads) keys.now }
    ensures { OnOk result (cells.new.items ≡ cells.old.items ++ all_key_tuples skeleton.now keys.now) }
{
    for key in keys {
        add_tuple(skeleton, cells, *key)?;
    }
    Ok(())
}

// Appends the tuples that the shape of the cell needs to which a place leads.
fn add_led(skeleton: &Skeleton, cells: &mut Vec<u32>, lead: Option<u32>) -> Result<(), AllocError>
    requires within { LeadsWithin skeleton.now.leads }
    requires lead { IfSome lead (λ n. n < length skeleton.now.leads) }
    ensures { OnOk result (cells.new.items ≡ cells.old.items ++ option_map_or (needed_at skeleton.now) lead []) }
{
    match lead {
        Some(cell) => add_needed(skeleton, cells, cell),
        None => Ok(()),
    }
}

// Appends the tuples that the shape of a part needs.
fn add_part(skeleton: &Skeleton, cells: &mut Vec<u32>, part: ShapedPart) -> Result<(), AllocError>
    requires within { LeadsWithin skeleton.now.leads }
    requires part { IsShapedWithin (length skeleton.now.leads) part }
    ensures { OnOk result (cells.new.items ≡ cells.old.items ++ part_tuples skeleton.now part) }
{
    match part {
        ShapedPart::Cell(cell) => add_needed(skeleton, cells, cell),
        ShapedPart::Value(pair) => add_led(skeleton, cells, lead_at(skeleton, pair, 1)),
    }
}

// Appends the tuples that the shapes of parts need.
fn add_parts(
    skeleton: &Skeleton,
    cells: &mut Vec<u32>,
    parts: &[ShapedPart],
) -> Result<(), AllocError>
    requires within { LeadsWithin skeleton.now.leads }
    requires parts { AreShapedWithin (length skeleton.now.leads) parts.now }
    ensures { OnOk result (cells.new.items ≡ cells.old.items ++ all_part_tuples skeleton.now parts.now) }
{
    for part in parts {
        add_part(skeleton, cells, *part)?;
    }
    Ok(())
}

/// The tuples to which keys refer, and those that the shapes of parts need.
pub(crate) fn tuples_of(
    alloc: Global,
    skeleton: &Skeleton,
    keys: &[KeyPlace],
    parts: &[ShapedPart],
) -> Result<CellSet, AllocError>
    requires within { LeadsWithin skeleton.now.leads }
    requires keys { AreKeysWithin (length skeleton.now.leads) keys.now }
    requires parts { AreShapedWithin (length skeleton.now.leads) parts.now }
    ensures all { IfOk result (λ cells. (n : ℕ) → Contains (all_tuples skeleton.now keys.now parts.now) n → Contains cells n) }
    ensures ascending { IfOk result IsStrictlyIncreasing }
    ensures within { IfOk result (λ cells. All (λ n. n < length skeleton.now.leads) cells) }
{
    let mut cells = Vec::new(alloc);
    add_tuples(skeleton, &mut cells, keys)?;
    add_parts(skeleton, &mut cells, parts)?;
    Ok(CellSet::of(cells))
}

// The larger of a number of elements and that up to a key.
fn with_key(most: usize, key: KeyPlace) -> Result<usize, AllocError>
    ensures among { IfOk result (λ more. IsAmong more key) }
    ensures more { IfOk result (λ more. most ≤ more) }
{
    let KeyPlace::At(_, place) = key else {
        return Ok(most);
    };
    if place < most {
        return Ok(most);
    }
    match place.checked_add(1) {
        Some(more) => Ok(more),
        None => Err(AllocError),
    }
}

// How many of the first elements of their cells are looked at for keys.
fn most_of(keys: &[KeyPlace]) -> Result<usize, AllocError>
    ensures { IfOk result (λ most. AreAmong most keys.now) }
{
    let mut most = 0;
    for key in keys {
        most = with_key(most, *key)?;
    }
    Ok(most)
}

// Where the value stands that is read for the shape of a part, as the second element of a list.
fn value_place(part: ShapedPart) -> KeyPlace
    ensures { result ≡ value_place part }
{
    match part {
        ShapedPart::Cell(_) => KeyPlace::NoKey,
        ShapedPart::Value(pair) => KeyPlace::At(pair, 1),
    }
}

// Where the elements stand that are read for keys and for parts.
fn read_places(
    alloc: Global,
    keys: &[KeyPlace],
    parts: &[ShapedPart],
) -> Result<Vec<KeyPlace>, AllocError>
    ensures { IfOk result (λ places. places.items ≡ read_places keys.now parts.now) }
{
    let mut places = Vec::new(alloc);
    places.extend_from_slice(keys)?;
    for part in parts {
        places.push(value_place(*part))?;
    }
    Ok(places)
}

/// What is read of the cells in which keys stand and of those that are pairs, for the shapes of their values.
pub(crate) fn wanted_of(
    alloc: Global,
    keys: &[KeyPlace],
    parts: &[ShapedPart],
) -> Result<Wanted, AllocError>
    ensures all { IfOk result (λ wanted. (n : ℕ) → Contains (all_key_cells (read_places keys.now parts.now)) n → Contains wanted.cells n) }
    ensures ascending { IfOk result (λ wanted. IsStrictlyIncreasing wanted.cells) }
    ensures within { (size : ℕ) → AreKeysWithin size keys.now → AreShapedWithin size parts.now
        → IfOk result (λ wanted. All (λ n. n < size) wanted.cells) }
    ensures most { IfOk result (λ wanted. AreAmong wanted.most (read_places keys.now parts.now)) }
{
    let places = read_places(alloc, keys, parts)?;
    let cells = cells_of(alloc, &places)?;
    let most = most_of(&places)?;
    Ok(Wanted { cells, most })
}
