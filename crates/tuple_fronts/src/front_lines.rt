// Reading the lines of cells.
ghost use Rattle.std.specs.Prelude.{◌+◌, ◌≤◌, None, length, map, OnOk, IfOk, IfErr};
ghost use Rattle.dump_io.specs.Dumps.{ReadsAtMost};
ghost use Rattle.dump_io.specs.Faults.{IsReadCauseOf};
ghost use Rattle.dump_sections.specs.Bodies.{body_size, section_in, IsPlaceIn};
ghost use Rattle.dump_sections.specs.Index.{IsBuiltOver};
ghost use Rattle.heap_cells.specs.Loading.{enc_of};
ghost use Rattle.tuple_fronts.specs.Inner.Kept.{Keeps};
ghost use Rattle.std.specs.List.Sorted.{IsStrictlyIncreasing};
ghost use Rattle.tuple_fronts.specs.Inner.Hearing.{HasCells, HearsSection, IsSplitAt, KeepsSection, KeepsSections};

use crate::front_sink::FrontSink;
use crate::kept::Kept;
use crate::runs::cells_behind;
use body_lines::hear_whole_lines;
use cell_graphs::Weighed;
use dump_io::{Dumps, ReadFault};
use dump_sections::Index;
use heap_cells::enc_of;
use heap_skeleton::Skeleton;
use std::alloc::{AllocError, Global};

// Hears the lines of the section at a place. A missing section counts as empty.
fn hear_section<D: Dumps>(
    dumps: &mut D,
    index: &Index,
    place: Option<usize>,
    buffer: &mut Vec<u8>,
    sink: &mut FrontSink<'_>,
) -> Result<(), ReadFault>
    requires over { IsBuiltOver (D.state dumps.old).now index.now }
    requires place { IsPlaceIn index.now place }
    requires cells { HasCells sink.old.skeleton.now sink.old.cells.now }
    ensures reads { ReadsAtMost (D.state dumps.old) (D.state dumps.new)
        (body_size (section_in index.now place)) }
    ensures fault { IfErr result (IsReadCauseOf (D.state dumps.old) (D.state dumps.new)) }
    ensures hears { OnOk result (HearsSection sink.old sink.new
        (D.state dumps.old).now (section_in index.now place)) }
{
    let (from, upto) = index.body_at(place);
    hear_whole_lines(dumps, from, upto, buffer, sink)?;
    Ok(())
}

// Keeps empty fronts of cells whose lines weren't found.
fn keep_none(kept: &mut Kept, cells: &[u32]) -> Result<(), AllocError>
    ensures { OnOk result (Keeps kept.old kept.new (map (λ cell. None) cells.now)) }
{
    for _cell in cells {
        kept.end_front()?;
    }
    Ok(())
}

// Keeps the fronts of cells whose lines are in the section at a place.
pub(crate) fn keep_section<D: Dumps>(
    dumps: &mut D,
    index: &Index,
    place: Option<usize>,
    skeleton: &Skeleton,
    cells: &[u32],
    buffer: &mut Vec<u8>,
    kept: Kept,
) -> Result<Kept, ReadFault>
    requires over { IsBuiltOver (D.state dumps.old).now index.now }
    requires place { IsPlaceIn index.now place }
    requires cells { HasCells skeleton.now cells.now }
    ensures reads { ReadsAtMost (D.state dumps.old) (D.state dumps.new)
        (body_size (section_in index.now place)) }
    ensures fault { IfErr result (IsReadCauseOf (D.state dumps.old) (D.state dumps.new)) }
    ensures keeps { IfOk result (KeepsSection skeleton.now (enc_of index.now.version)
        (D.state dumps.old).now (section_in index.now place) cells.now kept) }
{
    let mut sink = FrontSink {
        skeleton,
        cells,
        enc: enc_of(index.version()),
        kept,
    };
    hear_section(dumps, index, place, buffer, &mut sink)?;
    let FrontSink {
        cells: left,
        mut kept,
        ..
    } = sink;
    keep_none(&mut kept, left)?;
    Ok(kept)
}

// How many of these cells are a process's own, which come first.
fn own_count(cells: &[u32], own: u32) -> usize
    requires { IsStrictlyIncreasing cells.now }
    ensures split { IsSplitAt own cells.now result }
    ensures within { result ≤ length cells.now }
{
    cells.partition_point(|n| *n < own)
}

// The fronts of cells, each of at most `most` elements, whose lines are in the sections with a heap and with the literals.
pub(crate) fn keep_fronts<D: Dumps>(
    alloc: Global,
    dumps: &mut D,
    index: &Index,
    heap: Option<usize>,
    literals: Option<usize>,
    skeleton: &Skeleton,
    cells: &[u32],
    most: usize,
) -> Result<Kept, ReadFault>
    requires over { IsBuiltOver (D.state dumps.old).now index.now }
    requires heap { IsPlaceIn index.now heap }
    requires literals { IsPlaceIn index.now literals }
    requires cells { HasCells skeleton.now cells.now }
    requires ascending { IsStrictlyIncreasing cells.now }
    ensures reads { ReadsAtMost (D.state dumps.old) (D.state dumps.new)
        (body_size (section_in index.now heap) + body_size (section_in index.now literals)) }
    ensures fault { IfErr result (IsReadCauseOf (D.state dumps.old) (D.state dumps.new)) }
    ensures keeps { IfOk result (KeepsSections most skeleton.now (enc_of index.now.version)
        (D.state dumps.old).now (section_in index.now heap) (section_in index.now literals) cells.now) }
{
    let count = own_count(cells, skeleton.own());
    let own = &cells[..count];
    let others = cells_behind(cells, count);
    let mut buffer = Vec::new(alloc);
    let none = Kept::new(alloc, most);
    let kept = keep_section(dumps, index, heap, skeleton, own, &mut buffer, none)?;
    let mut kept = keep_section(dumps, index, literals, skeleton, others, &mut buffer, kept)?;
    kept.shrink();
    Ok(kept)
}
