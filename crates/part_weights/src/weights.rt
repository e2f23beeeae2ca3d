// What the parts of a heap alone hold.
ghost use Rattle.std.specs.Prelude.{◌≡◌, ◌*◌, ◌+◌, ◌<◌, List, [], All, length, map, slice_get, slice_index_or, Some, IfErr, IfOk};
ghost use Rattle.dump_io.specs.Dumps.{IfTold, ReadsAtMost};
ghost use Rattle.dump_io.specs.Faults.{IsReadCauseOf};
ghost use Rattle.dump_sections.specs.Index.{sections_in, IsBuiltOver};
ghost use Rattle.dump_sections.specs.Loading.{bodies_length};
ghost use Rattle.heap_cells.specs.Loading.{heap_bodies};
ghost use Rattle.heap_weights.specs.Parts.{reached_at};
ghost use Rattle.heap_weights.specs.Shares.{weight_below};
ghost use Rattle.heap_weights.specs.declared.shares.Weight.{Weight};
ghost use Rattle.root_views.specs.Sections.{root_bodies};
ghost use Rattle.cell_parts.specs.Elements.{cell_elements};
ghost use Rattle.heap_graph.specs.Binaries.{binaries_among};
ghost use Rattle.cell_parts.specs.Parts.{ArePartsOf, PartElement};
ghost use Rattle.part_weights.specs.Weights.{address_weighing, cell_weighing, root_weighing, weighing};
ghost use Rattle.part_weights.specs.Shown.{row};
ghost use Rattle.cell_parts.specs.Over.{IsOver};
ghost use Rattle.tuple_fronts.specs.Fronts.{cells_for};
ghost use Rattle.part_keys.specs.KeyPlaces.{AreKeysWithin, IsKeyWithin, key_place};
ghost use Rattle.heap_skeleton.specs.Skeletons.{skeleton_for};
ghost use Rattle.part_weights.specs.Held.{held_place, no_part, part_place, row_at};
ghost use Rattle.part_weights.specs.Inner.Shown.{label_at, AreParts};

use crate::held_parts::{HeldPart, first_held, sorted_parts};
use crate::part_rows::PartRow;
use cell_parts::{Parts, add_elements, read_parts};
use dump_io::{Dumps, ReadFault};
use dump_sections::Index;
use heap_skeleton::Skeleton;
use heap_weights::{Shares, Weight, weigh};
use part_keys::{KeyPlace, PartPlace, key_place, key_shapes};
use std::alloc::{AllocError, Global};
use std::marker::Model;
use tuple_fronts::Texts;

/// What the parts of a process's heap alone hold.
#[derive(Drop)]
pub struct Weights {
    skeleton: Skeleton,
    parts: Parts,
    held: Vec<HeldPart>,
    // The labels of the rows, if they aren't those of their parts.
    labels: Option<Texts>,
    within: Option<Weight>,
    shared: Weight,
    reached: Weight,
    own: Weight,
}

impl Model for Weights {
    ghost use Rattle.part_weights.specs.Weights.{Weighing};
    ghost use Rattle.part_weights.specs.Inner.Shown.{weighing_with, IsSound};

    ghost Value = { Weighing };

    ghost view = { λ w. weighing_with w.skeleton w.parts w.held.items w.labels w.within w.shared w.reached w.own };

    ghost invariant = { λ w. IsSound w.skeleton w.parts w.held.items };
}

// What the cells alone hold that are those of parts, and what they reach.
fn weigh_parts(alloc: Global, skeleton: &Skeleton, parts: &Parts) -> Result<Shares, AllocError>
    requires { IsOver skeleton.now parts.now }
    ensures { IfOk result (AreParts skeleton.now parts.now.parts) }
{
    weigh(alloc, skeleton, parts.cells())
}

// What the parts of a heap with this skeleton alone hold.
fn weights_of(
    alloc: Global,
    skeleton: Skeleton,
    parts: Parts,
    within: Option<Weight>,
) -> Result<Weights, AllocError>
    requires { IsOver skeleton parts }
    ensures { IfOk result (λ weights. (elements : List PartElement)
        → ArePartsOf elements parts → weights ≡ weighing skeleton within elements) }
{
    let Shares {
        alone,
        shared,
        reached,
        own,
    } = weigh_parts(alloc, &skeleton, &parts)?;
    let held = sorted_parts(alloc, &alone)?;
    Ok(Weights {
        skeleton,
        parts,
        held,
        labels: None,
        within,
        shared,
        reached,
        own,
    })
}

// The own cells that a cell reaches.
fn weigh_cell(alloc: Global, skeleton: &Skeleton, cell: u32) -> Result<Weight, AllocError>
    requires { cell < length skeleton.now.leads }
    ensures { IfOk result (λ weight. weight
        ≡ weight_below skeleton.now.words (binaries_among skeleton.now.kinds) (reached_at skeleton.now.leads cell) skeleton.now.own) }
{
    let shares = weigh(alloc, skeleton, &[cell])?;
    Ok(shares.reached)
}

// The parts that the elements of a cell make.
fn parts_of_cell(alloc: Global, skeleton: &Skeleton, cell: u32) -> Result<Parts, AllocError>
    requires { cell < length skeleton.now.leads }
    ensures over { IfOk result (IsOver skeleton.now) }
    ensures parts { IfOk result (ArePartsOf
        (cell_elements skeleton.now.kinds skeleton.now.leads cell)) }
{
    let mut parts = Parts::new(alloc, skeleton.cells() as usize)?;
    add_elements(alloc, &mut parts, skeleton, cell)?;
    Ok(parts)
}

// The part at a place.
fn held_at(held: &[HeldPart], i: usize) -> HeldPart
    requires { i < length held.now }
    ensures { slice_get held.now i ≡ Some result }
{
    held[i]
}

// Where a part stands among the elements of a cell.
fn part_place(parts: &Parts, part: usize, cell: u32) -> PartPlace
    requires { part < length parts.now.parts }
    ensures place { result ≡ part_place cell (slice_index_or parts.now.parts part no_part) }
    ensures within { result.part < parts.now.cells }
{
    PartPlace {
        cell,
        at: parts.at(part),
        part: parts.cells()[part],
    }
}

// Where the key stands under which a part of a cell does.
fn held_key(skeleton: &Skeleton, parts: &Parts, held: HeldPart, cell: u32) -> KeyPlace
    requires cell { cell < length skeleton.now.leads }
    requires over { IsOver skeleton.now parts.now }
    requires part { held.part < length parts.now.parts }
    ensures key { result ≡ key_place skeleton.now (held_place cell parts.now.parts held) }
    ensures within { IsKeyWithin (length skeleton.now.leads) result }
{
    key_place(skeleton, part_place(parts, held.part, cell))
}

/// Where the keys stand under which some parts of a cell do.
pub fn held_keys(
    alloc: Global,
    skeleton: &Skeleton,
    parts: &Parts,
    held: &[HeldPart],
    cell: u32,
) -> Result<Vec<KeyPlace>, AllocError>
    requires cell { cell < length skeleton.now.leads }
    requires over { IsOver skeleton.now parts.now }
    requires held { All (λ h. h.part < length parts.now.parts) held.now }
    ensures keys { IfOk result (λ keys. keys.items
        ≡ map (λ h. key_place skeleton.now (held_place cell parts.now.parts h)) held.now) }
    ensures within { IfOk result (λ keys. AreKeysWithin (length skeleton.now.leads) keys.items) }
{
    let mut keys = Vec::new(alloc);
    for i in 0..held.len() {
        let h = held_at(held, i);
        keys.push(held_key(skeleton, parts, h, cell))?;
    }
    Ok(keys)
}

// What the parts that the elements of a cell make alone hold, with at most `most` of them. Reads the heap twice more.
fn cell_weights<D: Dumps>(
    alloc: Global,
    dumps: &mut D,
    index: &Index,
    pid: &[u8],
    skeleton: Skeleton,
    cell: u32,
    most: usize,
) -> Result<Weights, ReadFault>
    requires over { IsBuiltOver (D.state dumps.old).now index.now }
    requires cell { cell < length skeleton.leads }
    requires skeleton { IfTold (D.state dumps.old).now
        (λ dump. skeleton ≡ skeleton_for dump index.now pid.now) }
    ensures reads { ReadsAtMost (D.state dumps.old) (D.state dumps.new)
        (2 * bodies_length (heap_bodies pid.now (sections_in index.now))) }
    ensures fault { IfErr result (IsReadCauseOf (D.state dumps.old) (D.state dumps.new)) }
    ensures weights { IfOk result (λ weights. IfTold (D.state dumps.old).now (λ dump.
        weights ≡ cell_weighing skeleton (cells_for dump index.now pid.now) most cell)) }
{
    let within = weigh_cell(alloc, &skeleton, cell)?;
    let parts = parts_of_cell(alloc, &skeleton, cell)?;
    let Shares {
        alone,
        shared,
        reached,
        own,
    } = weigh_parts(alloc, &skeleton, &parts)?;
    let held = first_held(alloc, &alone, most)?;
    let keys = held_keys(alloc, &skeleton, &parts, &held, cell)?;
    let labels = key_shapes(alloc, dumps, index, pid, &skeleton, &keys)?;
    Ok(Weights {
        skeleton,
        parts,
        held,
        labels: Some(labels),
        within: Some(within),
        shared,
        reached,
        own,
    })
}

// The label at a place.
fn label_of(labels: &Texts, i: usize) -> &[u8]
    ensures { result.now ≡ slice_index_or labels.now i [] }
{
    if i < labels.len() { labels.get(i) } else { b"" }
}

// The label of the row at a place.
fn label_at<'a>(labels: &'a Option<Texts>, i: usize, parts: &'a Parts, part: usize) -> &'a [u8]
    requires { part < length parts.now.parts }
    ensures { result.now ≡ label_at labels.now i (slice_index_or parts.now.parts part no_part) }
{
    match labels {
        Some(texts) => label_of(texts, i),
        None => parts.label(part),
    }
}

/// What a report says of a part that alone holds cells, with this label.
pub fn part_row<'a>(
    skeleton: &Skeleton,
    parts: &Parts,
    held: HeldPart,
    label: &'a [u8],
) -> PartRow<'a>
    requires over { IsOver skeleton.now parts.now }
    requires part { held.part < length parts.now.parts }
    ensures { row result ≡ record (row_at skeleton.now parts.now.parts held) { label = label.now } }
{
    let HeldPart { part, weight } = held;
    let cell = parts.cells()[part];
    PartRow {
        words: weight.words,
        cells: weight.cells,
        binaries: weight.binaries,
        kind: skeleton.kind(cell),
        address: skeleton.addr(cell),
        elements: parts.elements(part),
        at: parts.at(part),
        label,
    }
}

impl Weights {
    /// Weighs the parts that the terms among the roots of a process make: those of its stack, of its dictionary and of
    /// its mailbox, in this order. The process need not be there; a missing section counts as empty. The index was built
    /// over the open file, which stays open.
    ///
    /// Nothing that the sections hold is refused. Returns `Read` only if the device's count of faults rose; `Memory` may
    /// come from any allocation, and comes where a [`Skeleton`] can't hold the heap, or where the labels of the parts have
    /// more than 4 GiB together. Whatever it returns, at most as many bytes are read as these bodies, that of the heap and
    /// that of the literals have.
    pub fn of_roots<D: Dumps>(
        alloc: Global,
        dumps: &mut D,
        index: &Index,
        pid: &[u8],
    ) -> Result<Weights, ReadFault>
        requires { IsBuiltOver (D.state dumps.old).now index.now }
        ensures reads { let sections = sections_in index.now in
            ReadsAtMost (D.state dumps.old) (D.state dumps.new)
            (bodies_length (heap_bodies pid.now sections) + bodies_length (root_bodies pid.now sections)) }
        ensures fault { IfErr result (IsReadCauseOf (D.state dumps.old) (D.state dumps.new)) }
        ensures weights { IfOk result (λ weights. IfTold (D.state dumps.old).now
            (λ dump. weights ≡ root_weighing dump index.now pid.now)) }
    {
        let skeleton = Skeleton::load(alloc, dumps, index, pid)?;
        let parts = read_parts(alloc, dumps, index, pid, &skeleton)?;
        let weights = weights_of(alloc, skeleton, parts, None)?;
        Ok(weights)
    }

    /// Weighs the parts that the elements of one cell make, and keeps at most `most` of those that alone hold a cell.
    /// Returns `None` exactly when neither the heap of the process nor the literals have a cell with this address.
    ///
    /// The elements of a list are the heads along its tails and its last tail; those of a hash map or of an inner node
    /// are what stands below its inner nodes. If the cell is a map, the label of a part is the shape of the key under which
    /// its first element stands, and `?` if there is no such key. The index was built over the open file, which stays open.
    /// The faults are those of [`Weights::of_roots`]. Whatever it returns, at most three times as many bytes are read as the
    /// heap and the literals have: twice for the keys. Beside what is kept of the heap it needs the texts of the keys that
    /// are shown, as [`key_shapes`] does.
    pub fn of_cell<D: Dumps>(
        alloc: Global,
        dumps: &mut D,
        index: &Index,
        pid: &[u8],
        address: u64,
        most: usize,
    ) -> Result<Option<Weights>, ReadFault>
        requires { IsBuiltOver (D.state dumps.old).now index.now }
        ensures reads { ReadsAtMost (D.state dumps.old) (D.state dumps.new)
            (3 * bodies_length (heap_bodies pid.now (sections_in index.now))) }
        ensures fault { IfErr result (IsReadCauseOf (D.state dumps.old) (D.state dumps.new)) }
        ensures weights { IfOk result (λ found. IfTold (D.state dumps.old).now (λ dump.
            found ≡ address_weighing dump index.now pid.now most address)) }
    {
        let skeleton = Skeleton::load(alloc, dumps, index, pid)?;
        match skeleton.find(address) {
            None => Ok(None),
            Some(cell) => {
                let weights = cell_weights(alloc, dumps, index, pid, skeleton, cell, most)?;
                Ok(Some(weights))
            }
        }
    }

    /// How many parts alone hold a cell.
    pub fn rows(&self) -> usize
        ensures { result ≡ length self.now.rows }
    {
        self.held.len()
    }

    /// A part that alone holds a cell, by its place among these. The one that holds the most
    /// words comes first; of equal ones that to which an element leads first.
    pub fn row(&self, i: usize) -> PartRow<'_>
        requires { i < length self.now.rows }
        ensures { slice_get self.now.rows i ≡ Some (row result) }
    {
        let held = held_at(&self.held, i);
        let label = label_at(&self.labels, i, &self.parts, held.part);
        part_row(&self.skeleton, &self.parts, held, label)
    }

    /// The own cells that the cell reaches whose elements are weighed, if they are those of one.
    pub fn within(&self) -> Option<Weight>
        ensures { result ≡ self.now.within }
    {
        self.within
    }

    /// The own cells that two or more parts reach.
    pub fn shared(&self) -> Weight
        ensures { result ≡ self.now.shared }
    {
        self.shared
    }

    /// The own cells that any part reaches.
    pub fn reached(&self) -> Weight
        ensures { result ≡ self.now.reached }
    {
        self.reached
    }

    /// All own cells of the heap.
    pub fn own(&self) -> Weight
        ensures { result ≡ self.now.own }
    {
        self.own
    }

    /// How many elements are weighed, including those that lead nowhere.
    pub fn elements(&self) -> u64
        ensures { result ≡ self.now.elements }
    {
        self.parts.total()
    }

    /// How many parts the weighed elements make.
    pub fn parts(&self) -> usize
        ensures { result ≡ self.now.parts }
    {
        self.parts.len()
    }
}
