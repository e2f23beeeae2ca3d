// A number for each cell, or none.
ghost use Rattle.std.specs.Prelude.{◌≡◌, ◌<◌, ◌-◌, ◌^◌, is_none, length, nat_eq};
ghost use Rattle.cell_ways.specs.Ways.{at_cell};
ghost use Rattle.cell_ways.specs.Inner.Search.{Gives};

/// Stands for none.
pub(crate) const NOWHERE: u32 = u32::MAX;

/// The number of a cell, if it has one.
pub(crate) fn number_at(numbers: &[u32], cell: u32) -> Option<u32>
    ensures { result ≡ at_cell numbers.now cell }
{
    match numbers.get(cell as usize) {
        None | Some(&NOWHERE) => None,
        Some(number) => Some(*number),
    }
}

/// Gives a cell a number, unless it has one. Returns whether it had none.
pub(crate) fn give(numbers: &mut [u32], cell: u32, number: u32) -> bool
    requires cell { cell < length numbers.old }
    requires number { number < 2 ^ 32 - 1 }
    ensures had { result ≡ is_none (at_cell numbers.old cell) }
    ensures gives { Gives numbers.old numbers.new number (nat_eq cell) }
{
    let place = cell as usize;
    if numbers[place] != NOWHERE {
        return false;
    }
    numbers[place] = number;
    true
}
