// The laws of the definition. Each is the contract of a function that does nothing.
ghost use Rattle.cell_graphs.specs.Laws.{AreFound, IsClosedSet, IsLeast, IsSameAtOnce, AreWithinHeaps};

/// The reached cells are the least set that contains the roots and, for each cell in it, those
/// to which that cell leads; and roots taken one after another reach what they reach together.
pub fn reached_is_least()
    ensures closed { IsClosedSet }
    ensures least { IsLeast }
    ensures at_once { IsSameAtOnce }
{}

/// As many rounds as there are cells, each of which adds the cells to which a cell of the set leads, find
/// exactly what a set reaches. The cells of a heap lead to none but cells of the heap.
pub fn rounds_find_the_reached()
    ensures found { AreFound }
    ensures heaps { AreWithinHeaps }
{}
