// Reading the lines of a heap.
ghost use Rattle.std.specs.Prelude.{◌+◌, OnOk, IfOk, IfErr};
ghost use Rattle.dump_io.specs.Dumps.{ReadsAtMost};
ghost use Rattle.dump_io.specs.Faults.{IsReadCauseOf};
ghost use Rattle.dump_sections.specs.Bodies.{body_size, section_in, IsPlaceIn};
ghost use Rattle.dump_sections.specs.Index.{IsBuiltOver};
ghost use Rattle.heap_cells.specs.Loading.{enc_of};
ghost use Rattle.heap_graph.specs.Elements.{IsOfLeads};
ghost use Rattle.heap_graph.specs.Held.{IsSmall};
ghost use Rattle.heap_skeleton.specs.Inner.Hearing.{HearsSection, HoldsSections};

use crate::heap_sink::HeapSink;
use body_lines::hear_whole_lines;
use dump_io::{Dumps, ReadFault};
use dump_sections::Index;
use heap_cells::enc_of;
use heap_graph::{Elements, Held};
use std::alloc::Global;

// Gathers the heap lines of the section at a place. A missing section counts as empty.
fn hear_section<D: Dumps>(
    dumps: &mut D,
    index: &Index,
    place: Option<usize>,
    buffer: &mut Vec<u8>,
    sink: &mut HeapSink,
) -> Result<(), ReadFault>
    requires over { IsBuiltOver (D.state dumps.old).now index.now }
    requires place { IsPlaceIn index.now place }
    requires small { IsSmall sink.old.held }
    ensures reads { ReadsAtMost (D.state dumps.old) (D.state dumps.new)
        (body_size (section_in index.now place)) }
    ensures fault { IfErr result (IsReadCauseOf (D.state dumps.old) (D.state dumps.new)) }
    ensures small { OnOk result (IsSmall sink.new.held) }
    ensures hears { OnOk result (HearsSection sink.old sink.new
        (D.state dumps.old).now (section_in index.now place)) }
{
    let (from, upto) = index.body_at(place);
    hear_whole_lines(dumps, from, upto, buffer, sink)?;
    Ok(())
}

// The heap lines of the sections with a heap and with the literals, and how many of them are those of the heap.
pub(crate) fn read_lines<D: Dumps>(
    alloc: Global,
    dumps: &mut D,
    index: &Index,
    heap: Option<usize>,
    literals: Option<usize>,
) -> Result<(Held, u32), ReadFault>
    requires over { IsBuiltOver (D.state dumps.old).now index.now }
    requires heap { IsPlaceIn index.now heap }
    requires literals { IsPlaceIn index.now literals }
    ensures reads { ReadsAtMost (D.state dumps.old) (D.state dumps.new)
        (body_size (section_in index.now heap) + body_size (section_in index.now literals)) }
    ensures fault { IfErr result (IsReadCauseOf (D.state dumps.old) (D.state dumps.new)) }
    ensures small { IfOk result (λ found. IsSmall found.0) }
    ensures leads { IfOk result (λ found. IsOfLeads found.0.elements) }
    ensures holds { IfOk result (λ found. HoldsSections (enc_of index.now.version)
        (D.state dumps.old).now (section_in index.now heap) (section_in index.now literals)
        found.0 found.1) }
{
    let mut buffer = Vec::new(alloc);
    let mut sink = HeapSink {
        held: Held::new(alloc, Elements::leads(alloc)),
        enc: enc_of(index.version()),
    };
    hear_section(dumps, index, heap, &mut buffer, &mut sink)?;
    let own = sink.held.parts.len() as u32;
    hear_section(dumps, index, literals, &mut buffer, &mut sink)?;
    Ok((sink.held, own))
}
