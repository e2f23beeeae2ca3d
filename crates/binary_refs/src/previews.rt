// The previews of a heap's references to binaries.
ghost use Rattle.std.specs.Prelude.{◌≡◌, ◌<◌, ◌≤◌, ◌++◌, [], List, length, map, false, Some, IsSome, OnOk, OnErr, IfOk, IfErr, IfSome};
ghost use Rattle.std.specs.Option.{option_map, option_to_list};
ghost use Rattle.std.specs.List.Sorted.{IsNonDecreasingBy};
ghost use Rattle.dump_io.specs.Dumps.{told, DeviceFailed, ReadsAtMost, IfTold};
ghost use Rattle.dump_sections.specs.Index.{IsBuiltOver};
ghost use Rattle.binary_payloads.specs.Payload.{IsPayloadOf};
ghost use Rattle.term_forms.specs.Seen.{number_rest};
ghost use Rattle.term_forms.specs.SeenForms.{heap_form};
ghost use Rattle.heap_cells.specs.Targets.{number};
ghost use Rattle.binary_refs.specs.Loading.{IsPreviewCauseOf, ReadsPreview, ReadsPreviews};
ghost use Rattle.binary_refs.specs.Previews.{own_binary, heap_binary, in_heap, entry, stated, stating, binaries, entry_at, AreFor, IsFew, told_entry, preview_at, stated_at, ArePreviewsOf};
ghost use Rattle.binary_refs.specs.Inner.Kinds.{is_own, refers};
ghost use Rattle.binary_refs.specs.Inner.Shown.{part_shown, preview_of, IsEntryOf, IsPointOf};

use crate::entries::{Entry, Preview};
use crate::faults::PreviewFault;
use crate::{BinaryPlaces, FewBytes, Range, read_range};
use dump_io::{Dumps, Failed};
use dump_sections::Index;
use heap_cells::{CellIx, Heap, Kind, Seat};
use std::alloc::Global;
use std::marker::Model;
use term_forms::shapes::Form;
use term_forms::{Enc, payload_part};

// The length and the characters of a heap binary.
fn own_binary<'a>(form: &Form<'a>) -> Option<(u64, &'a [u8])>
    ensures { option_map number_rest result ≡ own_binary (heap_form form.now) }
{
    match form {
        Form::HeapBin(size, chars) => Some((*size, *chars)),
        _ => None,
    }
}

// Whether a cell of this kind is a heap binary.
fn is_own(kind: Option<Kind>) -> bool
    ensures { result ≡ is_own kind }
{
    matches!(kind, Some(Kind::HeapBin))
}

// The length and the characters of the heap binary with this address.
// The kind is checked first, so that no more is read of any other cell.
fn heap_binary(heap: &Heap, address: u64) -> Option<(u64, &[u8])>
    ensures found { option_map number_rest result ≡ heap_binary heap.now.cells address }
    ensures payload { IfSome result (λ binary. IsPayloadOf heap.now.enc binary.1.now binary.0) }
{
    let Seat::Cell(ix) = heap.at(address) else {
        return None;
    };
    if !is_own(heap.kind(ix)) {
        return None;
    }
    let form = heap.form(ix)?;
    own_binary(&form)
}

// What is shown of a range of a binary with this payload.
fn shown_in(chars: &[u8], enc: Enc, size: u64, range: &Range) -> Option<FewBytes>
    requires { IsPayloadOf enc chars.now size }
    ensures { result ≡ in_heap enc range.now.offset range.now.size (size, chars.now) }
{
    if !range.is_within(size) {
        return None;
    }
    let mut buffer = [0; 32];
    let bytes = &mut buffer[..range.size.min(32) as usize];
    payload_part(chars, enc, size, range.offset, bytes);
    Some(FewBytes::new(bytes))
}

// What is shown of a sub binary: from the heap binary if there is one, and otherwise from the dump.
fn read_shown_part<D: Dumps>(
    dumps: &mut D,
    places: &BinaryPlaces<'_>,
    heap: &Heap,
    range: &Range,
) -> Result<Option<FewBytes>, Failed>
    requires over { IsBuiltOver (D.state dumps.old).now places.now }
    ensures reads { ReadsAtMost (D.state dumps.old) (D.state dumps.new) 128 }
    ensures failed { OnErr result (DeviceFailed (D.state dumps.old) (D.state dumps.new)) }
    ensures bytes { IfOk result (λ bytes. IfTold (D.state dumps.old).now
        (λ dump. bytes ≡ part_shown dump places.now heap.now range.now)) }
{
    match heap_binary(heap, range.address) {
        Some((size, chars)) => Ok(shown_in(chars, heap.enc(), size, range)),
        None => read_range(dumps, places, heap.enc(), range),
    }
}

fn new_entry(cell: u32, size: u64, bytes: Option<FewBytes>) -> Entry
    ensures { result ≡ entry cell size bytes }
{
    Entry { cell, size, bytes }
}

// The entry of the cell with this number and form, if it refers to a binary.
fn read_form<D: Dumps>(
    dumps: &mut D,
    places: &BinaryPlaces<'_>,
    heap: &Heap,
    n: u32,
    form: &Form<'_>,
) -> Result<Option<Entry>, Failed>
    requires over { IsBuiltOver (D.state dumps.old).now places.now }
    ensures reads { ReadsPreview (D.state dumps.old) (D.state dumps.new)
        (stated n (heap_form form.now)) }
    ensures failed { OnErr result (DeviceFailed (D.state dumps.old) (D.state dumps.new)) }
    ensures stated { IfOk result (IsEntryOf (stated n (heap_form form.now))) }
    ensures entry { IfOk result (λ entry. IfTold (D.state dumps.old).now
        (λ dump. entry ≡ preview_of dump places.now heap.now n (heap_form form.now))) }
{
    match form {
        Form::RefBin(address, offset, size) => {
            let range = Range::new(*address, *offset, *size);
            let bytes = read_range(dumps, places, heap.enc(), &range)?;
            Ok(Some(new_entry(n, *size, bytes)))
        }
        Form::SubBin(address, offset, size) => {
            let range = Range::new(*address, *offset, *size);
            let bytes = read_shown_part(dumps, places, heap, &range)?;
            Ok(Some(new_entry(n, *size, bytes)))
        }
        _ => Ok(None),
    }
}

// Whether a cell of this kind refers to a binary.
fn refers(kind: Option<Kind>) -> bool
    ensures { result ≡ refers kind }
{
    matches!(kind, Some(Kind::RefBin | Kind::SubBin))
}

// The entry of the cell with a number, if it refers to a binary.
fn read_entry<D: Dumps>(
    dumps: &mut D,
    places: &BinaryPlaces<'_>,
    heap: &Heap,
    n: u32,
) -> Result<Option<Entry>, Failed>
    requires over { IsBuiltOver (D.state dumps.old).now places.now }
    requires cell { n < length heap.now.cells }
    ensures reads { ReadsPreview (D.state dumps.old) (D.state dumps.new) (stated_at heap.now.cells n) }
    ensures failed { OnErr result (DeviceFailed (D.state dumps.old) (D.state dumps.new)) }
    ensures stated { IfOk result (IsEntryOf (stated_at heap.now.cells n)) }
    ensures entry { IfOk result (λ entry. IfTold (D.state dumps.old).now
        (λ dump. entry ≡ preview_at dump places.now heap.now n)) }
{
    let ix = heap.cell(n);
    if !refers(heap.kind(ix)) {
        return Ok(None);
    }
    match heap.form(ix) {
        Some(form) => read_form(dumps, places, heap, n, &form),
        None => Ok(None),
    }
}

// Appends an entry, if the cell with a number refers to a binary.
fn push_entry<D: Dumps>(
    entries: &mut Vec<Entry>,
    dumps: &mut D,
    places: &BinaryPlaces<'_>,
    heap: &Heap,
    n: u32,
) -> Result<(), PreviewFault>
    requires over { IsBuiltOver (D.state dumps.old).now places.now }
    requires cell { n < length heap.now.cells }
    ensures reads { ReadsPreview (D.state dumps.old) (D.state dumps.new) (stated_at heap.now.cells n) }
    ensures fault { IfErr result (IsPreviewCauseOf (D.state dumps.old) (D.state dumps.new)) }
    ensures stated { OnOk result (map stating entries.new.items
        ≡ map stating entries.old.items ++ option_to_list (stated_at heap.now.cells n)) }
    ensures entry { OnOk result (IfTold (D.state dumps.old).now (λ dump. entries.new.items
        ≡ entries.old.items ++ option_to_list (preview_at dump places.now heap.now n))) }
{
    let Ok(entry) = read_entry(dumps, places, heap, n) else {
        return Err(PreviewFault::Read);
    };
    if let Some(entry) = entry {
        if entries.push(entry).is_err() {
            return Err(PreviewFault::Memory);
        }
    }
    Ok(())
}

// The entries of all cells that refer to a binary, in the order of the cells.
fn read_entries<D: Dumps>(
    alloc: Global,
    dumps: &mut D,
    places: &BinaryPlaces<'_>,
    heap: &Heap,
) -> Result<Vec<Entry>, PreviewFault>
    requires over { IsBuiltOver (D.state dumps.old).now places.now }
    ensures reads { ReadsPreviews (D.state dumps.old) (D.state dumps.new) (binaries heap.now.cells) }
    ensures fault { IfErr result (IsPreviewCauseOf (D.state dumps.old) (D.state dumps.new)) }
    ensures stated { IfOk result (λ entries. map stating entries.items ≡ binaries heap.now.cells) }
    ensures entries { IfOk result (λ entries.
        ArePreviewsOf (D.state dumps.old).now places.now heap.now entries.items) }
{
    let mut entries = Vec::new(alloc);
    for n in 0..heap.cells() {
        push_entry(&mut entries, dumps, places, heap, n)?;
    }
    Ok(entries)
}

// Whether a cell of the heap refers to a binary.
fn has_reference(heap: &Heap) -> bool
    ensures { result ≡ false → binaries heap.now.cells ≡ [] }
{
    for n in 0..heap.cells() {
        if refers(heap.kind(heap.cell(n))) {
            return true;
        }
    }
    false
}

// How many of the entries are those of cells with lower numbers: these come first.
fn count_below(entries: &[Entry], n: u32) -> usize
    requires { IsNonDecreasingBy (λ e. e.cell) entries.now }
    ensures within { result ≤ length entries.now }
    ensures point { IsPointOf entries.now n result }
{
    entries.partition_point(|e| e.cell < n)
}

// The entry of the cell with a number.
fn entry_with(entries: &[Entry], n: u32) -> &Entry
    requires sorted { IsNonDecreasingBy (λ e. e.cell) entries.now }
    requires some { IsSome (entry_at entries.now n) }
    ensures entry { entry_at entries.now n ≡ Some result.now }
    ensures cell { result.now.cell ≡ n }
{
    &entries[count_below(entries, n)]
}

// What an entry shows.
fn shown(entry: &Entry) -> Preview<'_>
    ensures told { told_entry entry.now.cell result ≡ entry.now }
    ensures few { IsFew result }
{
    match &entry.bytes {
        Some(bytes) => Preview::Bytes(bytes.bytes(), entry.size),
        None => Preview::Unknown(entry.size),
    }
}

/// The previews of a heap: for each cell that refers to a binary the first
/// bytes of the range to which it refers, at most 32, or that they are unknown.
///
/// The bytes are unknown exactly when the dump doesn't have the binary, when the range extends past
/// its end, or when the characters that write the bytes are cut off or are none of the encoding.
#[derive(Drop)]
pub struct Previews {
    entries: Vec<Entry>,
}

impl Model for Previews {
    ghost use Rattle.std.specs.Prelude.{List};
    ghost use Rattle.std.specs.List.Sorted.{IsNonDecreasingBy};
    ghost use Rattle.binary_refs.specs.declared.entries.Entry.{Entry};

    ghost Value = { List Entry };

    ghost view = { λ previews. previews.entries.items };

    ghost invariant = { λ previews. IsNonDecreasingBy (λ e. e.cell) previews.entries.items };
}

impl Previews {
    /// Reads the previews of a heap. The index was built over the open file, which stays open.
    ///
    /// Returns `Read` only if the device's count of faults rose; `Memory` may come from allocating
    /// the previews. At most 128 bytes are read for each cell that refers to a binary, even if the
    /// previews aren't loaded. The `binary` sections are sorted only if there is such a cell.
    pub fn load<D: Dumps>(
        alloc: Global,
        dumps: &mut D,
        index: &Index,
        heap: &Heap,
    ) -> Result<Previews, PreviewFault>
        requires { IsBuiltOver (D.state dumps.old).now index.now }
        ensures reads { ReadsPreviews (D.state dumps.old) (D.state dumps.new) (binaries heap.now.cells) }
        ensures previews { IfOk result (ArePreviewsOf (D.state dumps.old).now index.now heap.now) }
        ensures stated { IfOk result (λ previews. map stating previews ≡ binaries heap.now.cells) }
        ensures each { IfOk result (AreFor heap.now.cells) }
        ensures fault { IfErr result (IsPreviewCauseOf (D.state dumps.old) (D.state dumps.new)) }
    {
        // A heap without a reference to a binary needs no order of the sections.
        if !has_reference(heap) {
            return Ok(Previews {
                entries: Vec::new(alloc),
            });
        }
        let Ok(places) = BinaryPlaces::find(alloc, index) else {
            return Err(PreviewFault::Memory);
        };
        Previews::load_with(alloc, dumps, &places, heap)
    }

    /// Loads the previews of a heap as [`Previews::load`] does, with the `binary`
    /// sections already sorted, for a caller that loads the previews of many heaps.
    pub fn load_with<D: Dumps>(
        alloc: Global,
        dumps: &mut D,
        places: &BinaryPlaces<'_>,
        heap: &Heap,
    ) -> Result<Previews, PreviewFault>
        requires { IsBuiltOver (D.state dumps.old).now places.now }
        ensures reads { ReadsPreviews (D.state dumps.old) (D.state dumps.new) (binaries heap.now.cells) }
        ensures previews { IfOk result (ArePreviewsOf (D.state dumps.old).now places.now heap.now) }
        ensures stated { IfOk result (λ previews. map stating previews ≡ binaries heap.now.cells) }
        ensures each { IfOk result (AreFor heap.now.cells) }
        ensures fault { IfErr result (IsPreviewCauseOf (D.state dumps.old) (D.state dumps.new)) }
    {
        let entries = read_entries(alloc, dumps, places, heap)?;
        Ok(Previews { entries })
    }

    /// The preview of a cell that has one.
    pub fn get(&self, ix: CellIx) -> Preview<'_>
        requires { IsSome (entry_at self.now (number ix)) }
        ensures told { Some (told_entry (number ix) result) ≡ entry_at self.now (number ix) }
        ensures few { IsFew result }
    {
        shown(entry_with(&self.entries, ix.number()))
    }
}
