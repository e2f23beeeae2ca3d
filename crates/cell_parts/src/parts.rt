// The different cells to which elements lead.
ghost use Rattle.std.specs.Prelude.{◌≡◌, ℕ, ◌+◌, ◌<◌, ◌^◌, ◌++◌, [], ◌∷◌, List, Some, All, length, map, nat_eq, slice_get, IfNone, IfOk, IfSome, OnOk, false, if◌then◌else◌};
ghost use Rattle.std.specs.Result.{is_ok};
ghost use Rattle.std.specs.List.{list_any, IsDistinct};
ghost use Rattle.std.specs.Option.{option_map};
ghost use Rattle.cell_parts.specs.Parts.{ArePartsOf, PartElement};
ghost use Rattle.cell_parts.specs.Inner.Joining.{cell_at, counted, is_of, joined, part_alone};

use dump_io::items_between;
use std::alloc::{AllocError, Global};
use std::marker::Model;

// With so many parts no further one is kept, so that the number of each and 1 has 32 bits.
const MOST: usize = 4_294_967_294;

// What is kept of a part besides its cell.
#[derive(Clone, Copy)]
pub(crate) struct Kept {
    // How many elements lead to it.
    pub elements: u64,
    // What the first element that leads to it says of its place.
    pub at: u64,
    // Where the label of that first element begins among those of all parts, and how many bytes it has.
    pub from: u32,
    pub size: u32,
}

/// The different cells to which elements lead, in the order of the first element that leads to
/// each. They are numbered from 0. Contracts see them with the number of elements.
#[derive(Drop)]
pub struct Parts {
    // For each cell the number of its part and 1, or 0 if it is no part.
    places: Vec<u32>,
    cells: Vec<u32>,
    kept: Vec<Kept>,
    labels: Vec<u8>,
    elements: u64,
}

impl Model for Parts {
    ghost use Rattle.std.specs.Prelude.{length};
    ghost use Rattle.cell_parts.specs.Parts.{CellParts};
    ghost use Rattle.cell_parts.specs.Inner.Keeping.{AreKept, parts_in};

    ghost Value = { CellParts };

    ghost view = { λ p. record {
      cells = length p.places.items;
      elements = p.elements;
      parts = parts_in p.labels.items p.cells.items p.kept.items;
    } };

    ghost invariant = { λ p. AreKept p.places.items p.cells.items p.kept.items p.labels.items };
}

// One more than a count, if that has 64 bits.
fn one_more(count: u64) -> Result<u64, AllocError>
    ensures { IfOk result (λ more. more ≡ count + 1) }
{
    match count.checked_add(1) {
        Some(more) => Ok(more),
        None => Err(AllocError),
    }
}

// A number of bytes, if it is kept in so few bits.
fn small(size: usize) -> Result<u32, AllocError>
    ensures { IfOk result (λ small. small ≡ size) }
{
    match u32::try_from(size) {
        Ok(small) => Ok(small),
        Err(_) => Err(AllocError),
    }
}

// Appends a label to those of all parts. Returns where it begins, and its size.
fn push_label(labels: &mut Vec<u8>, label: &[u8]) -> Result<(u32, u32), AllocError>
    ensures grown { labels.new.items ≡ (if is_ok result then labels.old.items ++ label.now else labels.old.items) }
    ensures from { IfOk result (λ span. span.0 ≡ length labels.old.items) }
    ensures size { IfOk result (λ span. span.1 ≡ length label.now) }
{
    let from = small(labels.len())?;
    let size = small(label.len())?;
    labels.extend_from_slice(label)?;
    Ok((from, size))
}

impl Parts {
    /// No parts, of `cells` cells. Takes four bytes for each cell.
    pub fn new(alloc: Global, cells: usize) -> Result<Parts, AllocError>
        ensures cells { IfOk result (λ parts. parts.cells ≡ cells) }
        ensures none { IfOk result (ArePartsOf []) }
    {
        Ok(Parts {
            places: vec![in alloc; 0; cells]?,
            cells: Vec::new(alloc),
            kept: Vec::new(alloc),
            labels: Vec::new(alloc),
            elements: 0,
        })
    }

    /// How many parts there are.
    pub fn len(&self) -> usize
        ensures { result ≡ length self.now.parts }
    {
        self.cells.len()
    }

    /// How many elements there are, including those that lead to no cell.
    pub fn total(&self) -> u64
        ensures { result ≡ self.now.elements }
    {
        self.elements
    }

    /// The cells of all parts, in order.
    pub fn cells(&self) -> &[u32]
        ensures value { result.now ≡ map (λ part. part.cell) self.now.parts }
        ensures within { All (λ cell. cell < self.now.cells) result.now }
        ensures distinct { IsDistinct nat_eq result.now }
        ensures few { length result.now + 1 < 2 ^ 32 }
    {
        &self.cells
    }

    /// The cell of a part.
    pub fn cell(&self, part: usize) -> u32
        requires { part < length self.now.parts }
        ensures { Some result ≡ option_map (λ p. p.cell) (slice_get self.now.parts part) }
    {
        self.cells[part]
    }

    /// How many elements lead to a part.
    pub fn elements(&self, part: usize) -> u64
        requires { part < length self.now.parts }
        ensures { Some result ≡ option_map (λ p. p.elements) (slice_get self.now.parts part) }
    {
        self.kept[part].elements
    }

    /// What the first element that leads to a part says of its place.
    pub fn at(&self, part: usize) -> u64
        requires { part < length self.now.parts }
        ensures { Some result ≡ option_map (λ p. p.at) (slice_get self.now.parts part) }
    {
        self.kept[part].at
    }

    /// The label of the first element that leads to a part.
    pub fn label(&self, part: usize) -> &[u8]
        requires { part < length self.now.parts }
        ensures { Some result.now ≡ option_map (λ p. p.label) (slice_get self.now.parts part) }
    {
        let kept = self.kept[part];
        let from = kept.from as usize;
        items_between(&self.labels, from, from + kept.size as usize)
    }

    // An element leads to a cell that is no part yet.
    fn push_part(&mut self, cell: u32, at: u64, label: &[u8]) -> Result<(), AllocError>
        requires within { cell < self.old.cells }
        requires other { list_any (is_of cell) self.old.parts ≡ false }
        ensures cells { self.new.cells ≡ self.old.cells }
        ensures parts { OnOk result (self.new
            ≡ record self.old { parts = self.old.parts ++ part_alone cell at label.now ∷ [] }) }
    {
        if self.cells.len() >= MOST {
            return Err(AllocError);
        }
        self.cells.reserve(1)?;
        self.kept.reserve(1)?;
        let (from, size) = push_label(&mut self.labels, label)?;
        self.cells.push_reserved(cell);
        self.kept.push_reserved(Kept {
            elements: 1,
            at,
            from,
            size,
        });
        self.places[cell as usize] = self.cells.len() as u32;
        Ok(())
    }

    // Counts one more element that leads to the cell of a part.
    fn count_one(&mut self, part: usize) -> Result<(), AllocError>
        requires { part < length self.old.parts }
        ensures cells { self.new.cells ≡ self.old.cells }
        ensures parts { (cell : ℕ) → cell_at self.old.parts part ≡ Some cell → OnOk result
            (self.new ≡ record self.old { parts = map (counted cell) self.old.parts }) }
    {
        let kept = self.kept[part];
        self.kept[part] = Kept {
            elements: one_more(kept.elements)?,
            ..kept
        };
        Ok(())
    }

    // The number of the part with this cell.
    fn part_with(&self, cell: u32) -> Option<usize>
        requires { cell < self.now.cells }
        ensures none { IfNone result (list_any (is_of cell) self.now.parts ≡ false) }
        ensures found { IfSome result (λ part. cell_at self.now.parts part ≡ Some cell) }
    {
        match self.places[cell as usize] {
            0 => None,
            place => Some(place as usize - 1),
        }
    }

    // Adds one more element, which leads to a cell.
    fn add_lead(&mut self, cell: u32, at: u64, label: &[u8]) -> Result<(), AllocError>
        requires { cell < self.old.cells }
        ensures cells { self.new.cells ≡ self.old.cells }
        ensures parts { OnOk result (self.new ≡ record self.old { parts = joined cell at label.now self.old.parts }) }
    {
        match self.part_with(cell) {
            Some(part) => self.count_one(part),
            None => self.push_part(cell, at, label),
        }
    }

    /// One more element, by the cell to which it leads, if to one, and where it stands.
    ///
    /// Takes 28 bytes for a part, and its label. More elements than 2^64 - 1, more parts than
    /// 2^32 - 2 and more than 4 GiB of labels are answered as want of memory.
    pub fn add(&mut self, lead: Option<u32>, at: u64, label: &[u8]) -> Result<(), AllocError>
        requires { IfSome lead (λ cell. cell < self.old.cells) }
        ensures cells { self.new.cells ≡ self.old.cells }
        ensures total { OnOk result (self.new.elements ≡ self.old.elements + 1) }
        ensures parts { (elements : List PartElement) → ArePartsOf elements self.old → OnOk result
            (ArePartsOf (elements ++ record { lead = lead; at = at; label = label.now } ∷ []) self.new) }
    {
        let elements = one_more(self.elements)?;
        if let Some(cell) = lead {
            self.add_lead(cell, at, label)?;
        }
        self.elements = elements;
        Ok(())
    }
}
