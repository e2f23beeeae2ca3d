// The laws of the definitions. Each is the contract of a function that does nothing.
ghost use Rattle.cell_ways.specs.Laws.{AWayLeads, DepthIsLeast};

/// The depth of a cell is the least number of steps in which roots lead to it, and a cell that isn't reached has none.
pub fn depth_is_least()
    ensures { DepthIsLeast }
{}

/// The way to a cell begins with a root, each of its cells leads to the next, and it has as many steps as the cell's
/// depth. It comes to each of its cells from the one with the least number of those from which such a way can come.
pub fn a_way_leads()
    ensures { AWayLeads }
{}
