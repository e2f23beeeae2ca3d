// Rows of cells, stored with their texts in one pool.
ghost use Rattle.std.specs.Prelude.{◌≡◌, ◌+◌, ◌<◌, ◌≤◌, [], ◌∷◌, ◌^◌, length, map, All, Some, OnOk, slice_get};
ghost use Rattle.dump_io.specs.Limits.{usual};
ghost use Rattle.section_rows.specs.Shown.{shown_kept, shown_cell, shown_column};
ghost use Rattle.section_rows.specs.Rows.{IsBoundedCell, kept as kept_text, row_of, row_with, row_at};
ghost use Rattle.section_rows.specs.Inner.Lent.{IsLent, shown_section};
ghost use Rattle.section_rows.specs.Inner.Places.{Gained, HasGained, HasRoom, AreWithin, rows_in, cell_in, cells_in, place_len, text_len};

use crate::columns::{Column, Kept};
use crate::one_pass::cells_of;
use dump_sections::Section;
use std::alloc::{AllocError, Global};

// Where the text of a cell stands: the offsets of its line and of the text itself, relative
// to its section, and the number of its bytes. A table has many cells, so each is kept small.
#[derive(Clone, Copy)]
pub(crate) struct Place {
    at: u32,
    value: u32,
    len: u32,
}

// The offset of a row's section in the file, the place in the pool where
// the texts of its cells begin, and where the places of its cells begin.
#[derive(Clone, Copy)]
pub(crate) struct Head {
    at: u64,
    texts: usize,
    places: usize,
}

// Rows, each with a cell for each of the columns, whose number is fixed.
#[derive(Drop)]
pub(crate) struct Store {
    width: usize,
    heads: Vec<Head>,
    places: Vec<Option<Place>>,
    pool: Vec<u8>,
}

// How far an offset lies after another.
fn distance(from: u64, at: u64) -> u32
    requires behind { from ≤ at }
    requires near { at < from + 2 ^ 32 }
    ensures { from + result ≡ at }
{
    (at - from) as u32
}

// The place of a text, relative to its section.
fn place_of(base: u64, found: &Kept<'_>) -> Place
    requires { HasRoom base (Some (shown_kept found.now)) }
    ensures shown { kept_text (base + result.at) (base + result.value) found.now.text.now
        ≡ shown_kept found.now }
    ensures len { result.len ≡ length found.now.text.now }
{
    Place {
        at: distance(base, found.at),
        value: distance(base, found.value_at),
        len: found.text.len() as u32,
    }
}

// Appends the place of a cell to the places, and its text to the pool.
fn push_cell(
    places: &mut Vec<Option<Place>>,
    pool: &mut Vec<u8>,
    base: u64,
    cell: Option<Kept<'_>>,
) -> Result<(), AllocError>
    requires { HasRoom base (shown_cell cell) }
    ensures { OnOk result (Gained base places.old.items places.new.items pool.old.items
        pool.new.items (shown_cell cell.entry ∷ [])) }
{
    let Some(found) = cell else {
        places.push(None)?;
        return Ok(());
    };
    let place = place_of(base, &found);
    pool.extend_from_slice(found.text)?;
    places.push(Some(place))?;
    Ok(())
}

// Appends cells to the places.
fn push_cells(
    places: &mut Vec<Option<Place>>,
    pool: &mut Vec<u8>,
    base: u64,
    cells: &[Option<Kept<'_>>],
) -> Result<(), AllocError>
    requires { All (λ cell. HasRoom base (shown_cell cell)) cells.now }
    ensures { OnOk result (Gained base places.old.items places.new.items pool.old.items
        pool.new.items (map shown_cell cells.now)) }
{
    for cell in cells {
        push_cell(places, pool, base, *cell)?;
    }
    Ok(())
}

fn place_len(place: &Option<Place>) -> usize
    ensures { result ≡ place_len place.now }
{
    place.map_or(0, |place| place.len as usize)
}

// How many bytes the texts of these cells have together.
fn text_len(places: &[Option<Place>]) -> usize
    requires { text_len places.now < 2 ^ 64 }
    ensures { result ≡ text_len places.now }
{
    places.iter().map(|place| place_len(place)).sum()
}

// The cell whose text these bytes begin with.
fn kept<'a>(base: u64, place: Place, texts: &'a [u8]) -> Kept<'a>
    requires within { place.len ≤ length texts.now }
    requires bounded { IsBoundedCell (cell_in base texts.now (Some place)) }
    ensures { Some (shown_kept result) ≡ cell_in base texts.now (Some place) }
{
    Kept {
        at: base + u64::from(place.at),
        value_at: base + u64::from(place.value),
        text: &texts[..place.len as usize],
    }
}

// The cell at a place among those whose texts these bytes begin with.
fn kept_at<'a>(base: u64, places: &[Option<Place>], texts: &'a [u8], c: usize) -> Option<Kept<'a>>
    requires place { c < length places.now }
    requires texts { text_len places.now ≤ length texts.now }
    requires bounded { All IsBoundedCell (cells_in base texts.now places.now) }
    ensures { slice_get (cells_in base texts.now places.now) c ≡ Some (shown_cell result) }
{
    let place = places[c]?;
    let from = text_len(&places[..c]);
    Some(kept(base, place, &texts[from..]))
}

impl Store {
    pub fn new(alloc: Global, width: usize) -> Store
        ensures width { result.width ≡ width }
        ensures rows { rows_in result ≡ [] }
        ensures within { AreWithin result }
    {
        Store {
            width,
            heads: Vec::new(alloc),
            places: Vec::new(alloc),
            pool: Vec::new(alloc),
        }
    }

    // Appends the row of a section to the rows.
    pub fn push(
        &mut self,
        alloc: Global,
        section: &Section<'_>,
        body: &[u8],
        columns: &[Column<'_>],
    ) -> Result<(), AllocError>
        requires lent { IsLent section.now }
        requires body { section.now.body + length body.now ≤ section.now.end }
        requires small { length body.now ≤ usual.section }
        requires width { self.old.width ≡ length columns.now }
        requires within { AreWithin self.old }
        ensures { OnOk result (HasGained self.old self.new
            (row_of (map shown_column columns.now) (shown_section section.now) body.now)) }
    {
        let cells = cells_of(alloc, section, body, columns)?;
        self.push_row(section.at, &cells)
    }

    // Appends a row of these cells to the rows, that of a section at this offset.
    pub fn push_row(&mut self, at: u64, cells: &[Option<Kept<'_>>]) -> Result<(), AllocError>
        requires width { self.old.width ≡ length cells.now }
        requires room { All (λ cell. HasRoom at (shown_cell cell)) cells.now }
        requires within { AreWithin self.old }
        ensures { OnOk result (HasGained self.old self.new (row_with at (map shown_cell cells.now))) }
    {
        let head = Head {
            at,
            texts: self.pool.len(),
            places: self.places.len(),
        };
        push_cells(&mut self.places, &mut self.pool, at, cells)?;
        self.heads.push(head)?;
        Ok(())
    }

    pub fn len(&self) -> usize
        ensures { result ≡ length (rows_in self.now) }
    {
        self.heads.len()
    }

    pub fn width(&self) -> usize
        ensures { result ≡ self.now.width }
    {
        self.width
    }

    // The offset of the row at a place.
    pub fn at(&self, i: usize) -> u64
        requires { i < length (rows_in self.now) }
        ensures { result ≡ (row_at (rows_in self.now) i).at }
    {
        self.heads[i].at
    }

    // The cell in row `i` and column `c`.
    pub fn cell(&self, i: usize, c: usize) -> Option<Kept<'_>>
        requires within { AreWithin self.now }
        requires row { i < length (rows_in self.now) }
        requires column { c < self.now.width }
        ensures { slice_get (row_at (rows_in self.now) i).cells c ≡ Some (shown_cell result) }
    {
        let head = self.heads[i];
        let places = &self.places[head.places..head.places + self.width];
        kept_at(head.at, places, &self.pool[head.texts..], c)
    }
}
