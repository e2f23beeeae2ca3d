// Cells of which only is asked where they lead.
ghost use Rattle.std.specs.Prelude.{◌≡◌, ◌<◌, length, Some, slice_get};
ghost use Rattle.cell_graphs.specs.Graphs.{Graph, LeadsWithin, places_at};

/// Cells that lead to each other. They are numbered from 0. A cell has *places*, as
/// many as it has elements, or more; each place leads to one cell, or to none.
pub trait CellGraph {
    /// For each cell, in order, the cells to which its places lead.
    ghost graph: { Self → Graph };

    /// The number of cells.
    fn cells(&self) -> u32
        ensures value { result ≡ length (graph self.now) }
        ensures within { LeadsWithin (graph self.now) };

    /// The number of places of a cell.
    fn places(&self, cell: u32) -> usize
        requires { cell < length (graph self.now) }
        ensures { result ≡ length (places_at (graph self.now) cell) };

    /// The cell to which a place of a cell leads, by its place from 0.
    /// Returns `None` exactly when the place leads to none.
    fn lead(&self, cell: u32, place: usize) -> Option<u32>
        requires cell { cell < length (graph self.now) }
        requires place { place < length (places_at (graph self.now) cell) }
        ensures { slice_get (places_at (graph self.now) cell) place ≡ Some result };
}
