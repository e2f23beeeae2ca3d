// The laws of the definitions. Each is the contract of a function that does nothing.
ghost use Rattle.wait_circles.specs.Laws.{AreAllCircles, AreCircles, AreFound, AreInOrder, HaveSameAll};

/// To look at as many processes as there are finds exactly those that come to a target: the
/// least set that has those that wait for it, and with a process each whose next it is.
pub fn comes_is_least()
    ensures { AreFound }
{}

/// Each of the circles is one, told from its least process on, and they are in the order of these. A
/// process stands on one of them exactly if it comes to its own pid.
pub fn circles_are_all()
    ensures circles { AreCircles }
    ensures in_order { AreInOrder }
    ensures all { AreAllCircles }
{}

/// As many processes come to the pid of one process of a circle as to that of another.
pub fn all_on_a_circle()
    ensures { HaveSameAll }
{}
