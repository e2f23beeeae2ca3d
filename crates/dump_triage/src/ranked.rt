// Places with a number each, the largest number first.
ghost use Rattle.std.specs.Prelude.{◌≡◌, ◌++◌, IfOk, OnOk, Some};
ghost use Rattle.std.specs.Option.{option_map, option_to_list};
ghost use Rattle.dump_triage.specs.Ranking.{first_rows, ranked_row};
ghost use Rattle.dump_triage.specs.Triage.{bytes_of};

use std::alloc::AllocError;
use text_groups::{Measured, sort_most_first};

/// A process or a table, with one of its numbers.
#[derive(Clone, Copy, Drop)]
pub struct Ranked {
    /// The place of the process in the process table, or of the table among the rows of its kind, from 0.
    pub place: usize,
    /// The number, such as that of bytes or of messages, which isn't 0. It may be a sum above 2^64 - 1.
    pub number: u128,
}

impl Measured for Ranked {
    ghost size = { λ row. row.number };

    fn size(&self) -> u128 {
        self.number
    }
}

// Appends the row of a place, if its number is known and isn't 0.
pub(crate) fn push_row(
    rows: &mut Vec<Ranked>,
    place: usize,
    number: Option<u64>,
) -> Result<(), AllocError>
    ensures { OnOk result (rows.new.items
        ≡ rows.old.items ++ option_to_list (ranked_row place number)) }
{
    match number {
        None => Ok(()),
        Some(number) => push_sum(rows, place, u128::from(number)),
    }
}

// Appends the row of a place, if its sum isn't 0.
pub(crate) fn push_sum(rows: &mut Vec<Ranked>, place: usize, sum: u128) -> Result<(), AllocError>
    ensures { OnOk result (rows.new.items
        ≡ rows.old.items ++ option_to_list (ranked_row place (Some sum))) }
{
    if sum == 0 {
        return Ok(());
    }
    rows.push(Ranked { place, number: sum })?;
    Ok(())
}

// Appends the row of a place with the bytes of its words, if these are known and aren't 0.
pub(crate) fn push_words(
    rows: &mut Vec<Ranked>,
    place: usize,
    words: Option<u64>,
) -> Result<(), AllocError>
    ensures { OnOk result (rows.new.items
        ≡ rows.old.items ++ option_to_list (ranked_row place (option_map bytes_of words))) }
{
    match words {
        None => Ok(()),
        Some(words) => push_sum(rows, place, 8 * u128::from(words)),
    }
}

// The first of these rows, at most `most`, with the largest first.
pub(crate) fn first_rows(mut rows: Vec<Ranked>, most: u64) -> Result<Vec<Ranked>, AllocError>
    ensures { IfOk result (λ first. first.items ≡ first_rows most rows.items) }
{
    sort_most_first(&mut rows)?;
    rows.truncate(most as usize);
    Ok(rows)
}
