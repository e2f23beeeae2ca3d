// Cells that have words.
ghost use Rattle.std.specs.Prelude.{◌≡◌, ℕ, ◌<◌, ◌≤◌, Bool, List, length};
ghost use Rattle.heap_graph.specs.Binaries.{binary_at};
ghost use Rattle.heap_graph.specs.Words.{words_at};

use crate::cell_graph::CellGraph;

/// Cells that lead to each other and have words, of which some are a heap's own.
pub trait Weighed: CellGraph {
    /// For each cell, in order, how many words it has.
    ghost words: { Self → List ℕ };

    /// For each cell, in order, whether it refers to a binary: whether it is a RefBin or a SubBin.
    ghost binaries: { Self → List Bool };

    /// How many of the cells are the heap's own.
    ghost own: { Self → ℕ };

    /// The number of words of a cell.
    fn words(&self, cell: u32) -> u64
        requires { cell < length (Self.graph self.now) }
        ensures { result ≡ words_at (words self.now) cell };

    /// Whether a cell refers to a binary: whether it is a RefBin or a SubBin.
    fn is_binary(&self, cell: u32) -> bool
        requires { cell < length (Self.graph self.now) }
        ensures { result ≡ binary_at (binaries self.now) cell };

    /// How many of the cells are the heap's own. They come first.
    fn own(&self) -> u32
        ensures value { result ≡ own self.now }
        ensures within { result ≤ length (Self.graph self.now) };
}
