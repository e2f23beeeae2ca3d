// Where the keys of maps stand.
ghost use Rattle.std.specs.Prelude.{◌≡◌, ◌<◌, length, IfSome};
ghost use Rattle.cell_graphs.specs.Graphs.{places_at};
ghost use Rattle.part_keys.specs.KeyPlaces.{first_lead, key_of, key_place, pair_key, value_key, IsKeyWithin};

use cell_graphs::CellGraph;
use heap_skeleton::{Kind, Skeleton};

/// A part of a cell, as it stands among the weighed elements of that cell.
#[derive(Clone, Copy)]
pub struct PartPlace {
    /// The number of the cell whose elements are weighed.
    pub cell: u32,
    /// The place of the first of these that leads to the part.
    pub at: u64,
    /// The number of the part's cell.
    pub part: u32,
}

/// Where the key stands under which a part of a map does.
#[derive(Clone, Copy)]
pub enum KeyPlace {
    /// The part stands under no key.
    NoKey,
    /// There is no such key.
    Unknown,
    /// It is the element with a number, from 0, of the tuple or the list with this number. The head of a list is its
    /// element 0.
    At(u32, usize),
}

// The cell to which the first place of a cell leads.
fn first_lead(skeleton: &Skeleton, cell: u32) -> Option<u32>
    requires { cell < length skeleton.now.leads }
    ensures value { result ≡ first_lead (places_at skeleton.now.leads cell) }
    ensures within { IfSome result (λ n. n < length skeleton.now.leads) }
{
    skeleton.leads_are_cells();
    if skeleton.places(cell) == 0 {
        return None;
    }
    skeleton.lead(cell, 0)
}

// Where the key with a number, from 0, stands among the keys of a flat map, whose first place leads here.
fn key_of(skeleton: &Skeleton, keys: Option<u32>, i: u64) -> KeyPlace
    requires { IfSome keys (λ n. n < length skeleton.now.leads) }
    ensures value { result ≡ key_of skeleton.now keys i }
    ensures within { IsKeyWithin (length skeleton.now.leads) result }
{
    let Some(keys) = keys else {
        return KeyPlace::Unknown;
    };
    if skeleton.is_tuple(keys) && i < skeleton.places(keys) as u64 {
        KeyPlace::At(keys, i as usize)
    } else {
        KeyPlace::Unknown
    }
}

// Where the key of what stands at a place of a flat map does.
fn value_key(skeleton: &Skeleton, cell: u32, at: u64) -> KeyPlace
    requires { cell < length skeleton.now.leads }
    ensures value { result ≡ value_key skeleton.now cell at }
    ensures within { IsKeyWithin (length skeleton.now.leads) result }
{
    if at == 0 {
        return KeyPlace::NoKey;
    }
    key_of(skeleton, first_lead(skeleton, cell), at - 1)
}

// Where the key of a child of a hash map does, if the child is a pair.
fn pair_key(skeleton: &Skeleton, part: u32) -> KeyPlace
    requires { part < length skeleton.now.leads }
    ensures value { result ≡ pair_key skeleton.now part }
    ensures within { IsKeyWithin (length skeleton.now.leads) result }
{
    if matches!(skeleton.kind(part), Some(Kind::List)) {
        KeyPlace::At(part, 0)
    } else {
        KeyPlace::NoKey
    }
}

/// Where the key stands under which a part of a cell does. Of a value of a flat map it is an element of the tuple to which
/// the first element of the map refers, and of a child of a hash map, or of one of its nodes, which is a list, the head of
/// that. No other parts stand under a key.
pub fn key_place(skeleton: &Skeleton, part: PartPlace) -> KeyPlace
    requires cell { part.cell < length skeleton.now.leads }
    requires part { part.part < length skeleton.now.leads }
    ensures value { result ≡ key_place skeleton.now part }
    ensures within { IsKeyWithin (length skeleton.now.leads) result }
{
    match skeleton.kind(part.cell) {
        Some(Kind::Flat) => value_key(skeleton, part.cell, part.at),
        Some(Kind::Hash | Kind::Node) => pair_key(skeleton, part.part),
        _ => KeyPlace::NoKey,
    }
}
