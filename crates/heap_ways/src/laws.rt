// The law of the definition of steps. It is the contract of a function that does nothing.
ghost use Rattle.heap_ways.specs.Laws.{StepsAreTheWay};

/// The steps of a way, where those of lists that follow on each other are written out by their tails, are its cells.
pub fn steps_are_the_way()
    ensures { StepsAreTheWay }
{}
