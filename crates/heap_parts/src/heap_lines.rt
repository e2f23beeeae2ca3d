// The heap lines of a process and of the literals, which stay in the file.
ghost use Rattle.std.specs.Prelude.{◌≡◌, ◌+◌, ◌-◌, ◌*◌, ◌<◌, ◌≤◌, List, length, min, IfErr, IfOk, OnOk};
ghost use Rattle.dump_io.specs.Dumps.{Now, size_of, ReadsAtMost, IfTold};
ghost use Rattle.dump_io.specs.Faults.{IsReadCauseOf};
ghost use Rattle.dump_sections.specs.Bodies.{body_size, section_in, IsPlaceIn};
ghost use Rattle.dump_sections.specs.Index.{IsBuiltOver, sections_in};
ghost use Rattle.heap_cells.specs.Cells.{Cell};
ghost use Rattle.heap_cells.specs.Loading.{enc_of, heap_section, literals_section};
ghost use Rattle.heap_parts.specs.Wholes.{cells_in, is_known, known_of, text_size, HasLines, ServesLines};
ghost use Rattle.heap_parts.specs.Inner.Bodies.{AreBodyLines, span_of};
ghost use Rattle.heap_parts.specs.Inner.Growing.{IsPushed, MayGrow, ReadsLines};
ghost use Rattle.heap_parts.specs.Parts.{IsLawful};

use crate::line_table::LineTable;
use crate::line_text::push_text;
use dump_io::{Dumps, ReadFault};
use dump_sections::Index;
use heap_cells::enc_of;
use std::alloc::Global;
use term_forms::Enc;
use term_unfold::Addresses;

// The heap lines of a body, and the offsets between which it lies.
#[derive(Drop)]
struct BodyLines {
    table: LineTable,
    from: u64,
    end: u64,
}

/// Where the heap lines of a process and those of the literals begin, which stay in the file. Of equal addresses the
/// first line counts, and the lines of the heap come before those of the literals.
#[derive(Drop)]
pub struct HeapLines {
    heap: BodyLines,
    literals: BodyLines,
    pub(crate) enc: Enc,
}

// The lines of the section at a place. A missing section counts as empty.
fn body_lines<D: Dumps>(
    alloc: Global,
    dumps: &mut D,
    index: &Index,
    place: Option<usize>,
) -> Result<BodyLines, ReadFault>
    requires over { IsBuiltOver (D.state dumps.old).now index.now }
    requires place { IsPlaceIn index.now place }
    ensures reads { ReadsAtMost (D.state dumps.old) (D.state dumps.new)
        (body_size (section_in index.now place)) }
    ensures fault { IfErr result (IsReadCauseOf (D.state dumps.old) (D.state dumps.new)) }
    ensures lines { IfOk result
        (AreBodyLines (D.state dumps.old).now (section_in index.now place)) }
{
    let (from, end) = index.body_at(place);
    let table = LineTable::read(alloc, dumps, from, end)?;
    Ok(BodyLines { table, from, end })
}

// A place, or the end if it is past that.
fn within(place: u64, end: u64) -> u64
    ensures { result ≡ min place end }
{
    if place < end { place } else { end }
}

// How many bytes a body has.
fn body_len(lines: &BodyLines) -> u64
    ensures { result ≡ lines.now.end - lines.now.from }
{
    lines.end.saturating_sub(lines.from)
}

// Where the first line with an address begins, and where its body ends. If no line has it, both are the same.
fn span(lines: &HeapLines, address: u64) -> (u64, u64)
    ensures span { result ≡ span_of lines.now address }
    ensures ordered { result.0 ≤ result.1 }
    ensures inside { (now : Now) → ServesLines lines.now now → result.1 ≤ size_of now }
{
    if let Some(place) = lines.heap.table.find(address) {
        return (within(place, lines.heap.end), lines.heap.end);
    }
    let end = lines.literals.end;
    match lines.literals.table.find(address) {
        Some(place) => (within(place, end), end),
        None => (end, end),
    }
}

impl HeapLines {
    /// Reads the heap of a process and the literals once, in pieces of at most 65,536 bytes, whatever their
    /// lengths: the first `proc_heap` section with exactly the pid as its id, and the first `literals`
    /// section. A missing section counts as empty. The index was built over the open file, which stays open.
    ///
    /// If the device tells the dump, these are the lines of which `heap_map` has the cells, and an address is
    /// known exactly if that has a cell there. `Read` is returned only if the device's count of faults rose,
    /// and `Memory` may come from any allocation. Whatever it returns, at most as many bytes are read as the
    /// two bodies have. The texts of all lines, each with an end of line, have at most as many bytes as these
    /// and two for each line.
    pub fn load<D: Dumps>(
        alloc: Global,
        dumps: &mut D,
        index: &Index,
        pid: &[u8],
    ) -> Result<HeapLines, ReadFault>
        requires over { IsBuiltOver (D.state dumps.old).now index.now }
        ensures reads { ReadsAtMost (D.state dumps.old) (D.state dumps.new)
            (body_size (heap_section pid.now (sections_in index.now))
            + body_size (literals_section (sections_in index.now))) }
        ensures fault { IfErr result (IsReadCauseOf (D.state dumps.old) (D.state dumps.new)) }
        ensures serves { IfOk result (λ lines. ServesLines lines (D.state dumps.old).now) }
        ensures enc { IfOk result (λ lines. lines.enc ≡ enc_of index.now.version) }
        ensures lines { IfOk result (λ lines. IfTold (D.state dumps.old).now (λ dump.
            HasLines lines (D.state dumps.old).now (cells_in pid.now dump))) }
        ensures size { IfOk result (λ lines. (all : List Cell) → HasLines lines (D.state dumps.old).now all
            → text_size lines ≤ (body_size (heap_section pid.now (sections_in index.now))
            + body_size (literals_section (sections_in index.now))) + 2 * length all) }
        ensures known { IfOk result (λ lines. IfTold (D.state dumps.old).now (λ dump.
            IsLawful (is_known lines) (cells_in pid.now dump))) }
    {
        let heap_at = index.first(b"proc_heap", Some(pid));
        let literals_at = index.first_tag(b"literals");
        let heap = body_lines(alloc, dumps, index, heap_at)?;
        let literals = body_lines(alloc, dumps, index, literals_at)?;
        Ok(HeapLines {
            heap,
            literals,
            enc: enc_of(index.version()),
        })
    }

    /// How many bytes the texts of all lines have, each with two for an end of line, at most, or
    /// this many if that is less.
    pub(crate) fn size_within(&self, most: u32) -> u32
        ensures { result ≡ min most (text_size self.now) }
    {
        let bodies = body_len(&self.heap).saturating_add(body_len(&self.literals));
        let heap = self.heap.table.count() as u64;
        let count = heap.saturating_add(self.literals.table.count() as u64);
        let size = bodies.saturating_add(count).saturating_add(count);
        size.min(u64::from(most)) as u32
    }

    /// Reads the first line with an address, and appends its text and an end of line. Each
    /// line of the text that it appends to has its own. Returns `Memory` if there would be more
    /// bytes than the limit, and from any allocation, and `Read` only if the device's count of
    /// faults rose.
    pub(crate) fn push_line<D: Dumps>(
        &self,
        dumps: &mut D,
        addr: u64,
        limit: usize,
        text: &mut Vec<u8>,
    ) -> Result<(), ReadFault>
        requires over { ServesLines self.now (D.state dumps.old).now }
        requires room { MayGrow limit text.old.items }
        ensures reads { ReadsLines (D.state dumps.old) (D.state dumps.new) limit text.old.items }
        ensures fault { IfErr result (IsReadCauseOf (D.state dumps.old) (D.state dumps.new)) }
        ensures spent { OnOk result (ReadsAtMost (D.state dumps.old) (D.state dumps.new)
            (16 * (length text.new.items - length text.old.items))) }
        ensures room { OnOk result (MayGrow limit text.new.items) }
        ensures longer { OnOk result (length text.old.items < length text.new.items) }
        ensures pushed { OnOk result ((all : List Cell) → HasLines self.now (D.state dumps.old).now all
            → IsPushed self.now.enc all addr text.old.items text.new.items) }
    {
        let (from, upto) = span(self, addr);
        push_text(dumps, from, upto, limit, text)
    }
}

impl Addresses for HeapLines {
    ghost known = { known_of };

    fn has(&self, addr: u64) -> bool {
        self.heap.table.find(addr).is_some() || self.literals.table.find(addr).is_some()
    }

    fn has_binary(&self, addr: u64) -> bool {
        self.heap.table.may_be_binary(addr) || self.literals.table.may_be_binary(addr)
    }
}
