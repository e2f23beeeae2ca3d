// The graph of a heap that is in memory.
ghost use Rattle.std.specs.Prelude.{◌≡◌, ℕ, ◌<◌, length, Some};
ghost use Rattle.term_forms.specs.Forms.{SubBin};
ghost use Rattle.heap_cells.specs.HeapMap.{form_at};
ghost use Rattle.heap_cells.specs.Targets.{number, slot_target};
ghost use Rattle.cell_graphs.specs.Graphs.{bin_at, cell_in, graph_of};

use crate::cell_graph::CellGraph;
use heap_cells::{CellIx, Heap, Kind, Seat, Slot};
use term_forms::shapes::Form;

// The cell to which an element refers.
fn cell_in(slot: Slot) -> Option<u32>
    ensures { result ≡ cell_in (slot_target slot) }
{
    match slot {
        Slot::Cell(ix) => Some(ix.number()),
        _ => None,
    }
}

// The heap binary at an address.
fn bin_at(heap: &Heap, addr: u64) -> Option<u32>
    ensures { result ≡ bin_at heap.now.cells addr }
{
    let Seat::Cell(bin) = heap.at(addr) else {
        return None;
    };
    match heap.kind(bin) {
        Some(Kind::HeapBin) => Some(bin.number()),
        _ => None,
    }
}

// The heap binary of which a sub binary is a part.
fn whole_of(heap: &Heap, ix: CellIx) -> Option<u32>
    requires { number ix < length heap.now.cells }
    ensures { (address offset size : ℕ)
        → form_at heap.now.cells (number ix) ≡ Some (SubBin address offset size)
        → result ≡ bin_at heap.now.cells address }
{
    match heap.form(ix) {
        Some(Form::SubBin(addr, _, _)) => bin_at(heap, addr),
        _ => None,
    }
}

impl CellGraph for Heap {
    ghost graph = { λ h. graph_of h.cells };

    fn cells(&self) -> u32 {
        Heap::cells(self)
    }

    fn places(&self, cell: u32) -> usize {
        let ix = self.cell(cell);
        // The address of a sub binary is no element, so that a sub binary has no slot.
        if let Some(Kind::SubBin) = self.kind(ix) {
            return 1;
        }
        self.slots(ix).len()
    }

    fn lead(&self, cell: u32, place: usize) -> Option<u32> {
        let ix = self.cell(cell);
        match self.slots(ix).get(place) {
            Some(slot) => cell_in(*slot),
            None => whole_of(self, ix),
        }
    }
}
