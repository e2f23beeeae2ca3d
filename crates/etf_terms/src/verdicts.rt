// Which bytes are a term, and how far other bytes begin one.
ghost use Rattle.std.specs.Prelude.{◌≤◌, length, IfErr};
ghost use Rattle.etf_terms.specs.Walks.{bad_place, left_of, walk_terms};
ghost use Rattle.etf_terms.specs.Inner.Walks.{Stopped};
ghost use Rattle.etf_terms.specs.Place.{Reports};

use crate::heads::read_head;

// Passes over one term. Returns what follows it, or how many
// bytes are left from the first that isn't allowed there.
fn over_term(bytes: &[u8]) -> Result<&[u8], usize>
    ensures { Stopped result (walk_terms 1 bytes.now) }
{
    let mut pending: u128 = 1;
    let mut rest = bytes;
    while pending > 0 {
        let (head, behind) = match read_head(rest) {
            Ok(found) => found,
            Err(left) => return Err(left),
        };
        pending = pending - 1 + head.kids() as u128;
        rest = behind;
    }
    Ok(rest)
}

// Whether the bytes are one term. The error is how many of
// them are left from the first that isn't allowed there.
fn one_term(bytes: &[u8]) -> Result<(), usize>
    ensures left { Reports (left_of (walk_terms 1 bytes.now)) result }
    ensures within { IfErr result (λ left. left ≤ length bytes.now) }
{
    match over_term(bytes) {
        Ok(behind) => {
            if behind.len() == 0 {
                return Ok(());
            }
            Err(behind.len())
        }
        Err(left) => Err(left),
    }
}

/// Whether the bytes are 131 and one term. The error is the length of their longest prefix that begins
/// some 131 and term, by the law [`bad_place_is_longest`](crate::bad_place_is_longest). Takes no memory.
pub fn judge(bytes: &[u8]) -> Result<(), u64>
    ensures { Reports (bad_place bytes.now) result }
{
    let Some((first, rest)) = bytes.split_first() else {
        return Err(0);
    };
    if *first != 131 {
        return Err(0);
    }
    match one_term(rest) {
        Ok(()) => Ok(()),
        Err(left) => Err((bytes.len() - left) as u64),
    }
}
