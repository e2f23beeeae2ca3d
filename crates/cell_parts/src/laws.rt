// The laws of the definitions. Each is the contract of a function that does nothing.
ghost use Rattle.cell_parts.specs.Laws.{HasPartIfLedTo, IsNoneCutOff};

/// The bound on how many spots open cuts no element off, whatever the cells lead to.
pub fn none_is_cut_off()
    ensures { IsNoneCutOff }
{}

/// A cell has a part exactly if an element leads to it.
pub fn what_is_led_to_has_a_part()
    ensures { HasPartIfLedTo }
{}
