// The laws of the definition. Each is the contract of a function that does nothing.
ghost use Rattle.heap_weights.specs.Laws.{PartsHold, SharesAddUp};

/// A part alone holds exactly the cells that it reaches and no other part
/// does; several hold exactly those that two parts reach, and nobody the others.
pub fn parts_hold()
    ensures { PartsHold }
{}

/// The cells that each part alone holds and those that several
/// hold are together all of the own cells that parts reach.
pub fn shares_add_up()
    ensures { SharesAddUp }
{}
