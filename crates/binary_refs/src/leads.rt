// What the body of a binary begins with: the number of its bytes.
ghost use Rattle.std.specs.Prelude.{◌≡◌, ℕ, ◌+◌, ◌≤◌, ◌<◌, List, length, take, drop, OnOk, OnErr, IfOk};
ghost use Rattle.dump_io.specs.Dumps.{DeviceFailed, ReadsAtMost, IfTold};
ghost use Rattle.dump_io.specs.Limits.{usual};
ghost use Rattle.dump_sections.specs.Bodies.{section_at, body_length};
ghost use Rattle.dump_sections.specs.Index.{IsBuiltOver};
ghost use Rattle.binary_refs.specs.StoredBinaries.{size_stated, body_at};
ghost use Rattle.binary_refs.specs.Inner.Leads.{IsLeadOf, IsLeadWithin};

use dump_io::{Dumps, Failed, read_full};
use dump_sections::Index;
use term_forms::{heap_line, number_is_in_front};

/// The number of bytes with which a body begins, and the place in the body at which the characters begin.
#[derive(Clone, Copy)]
pub(crate) struct Lead {
    pub length: u64,
    pub chars: u64,
}

/// Where the body of a section begins in the file, and how many bytes it has.
pub(crate) fn body_of(index: &Index, place: usize) -> (u64, u64)
    requires { place < length index.now.headers }
    ensures begins { result.0 ≡ (section_at index.now place).body }
    ensures len { result.1 ≡ body_length (section_at index.now place) }
    ensures ends { result.0 + result.1 ≡ (section_at index.now place).end }
    ensures within { result.0 + result.1 ≤ index.now.size }
    ensures small { result.0 + result.1 ≤ usual.dump }
{
    let section = index.extent(place);
    (section.body, section.end - section.body)
}

/// Reads bytes of a section's body, from a place in the body on.
pub(crate) fn read_part<D: Dumps>(
    dumps: &mut D,
    index: &Index,
    place: usize,
    from: u64,
    into: &mut [u8],
) -> Result<(), Failed>
    requires over { IsBuiltOver (D.state dumps.old).now index.now }
    requires place { place < length index.now.headers }
    requires within { from + length into.old ≤ body_length (section_at index.now place) }
    ensures reads { ReadsAtMost (D.state dumps.old) (D.state dumps.new) (length into.old) }
    ensures failed { OnErr result (DeviceFailed (D.state dumps.old) (D.state dumps.new)) }
    ensures part { OnOk result (IfTold (D.state dumps.old).now
        (λ dump. into.new ≡ take (length into.old) (drop from (body_at dump index.now place)))) }
{
    let (body, _) = body_of(index, place);
    read_full(dumps, body + from, into)
}

// The number of bytes with which a body begins, from the first 17 bytes of the body, or fewer: 16 digits and a colon.
fn lead_of(front: &[u8]) -> Option<Lead>
    ensures within { IsLeadWithin (length front.now) result }
    ensures lead { (body : List ℕ) → front.now ≡ take 17 body → IsLeadOf body result }
{
    number_is_in_front();
    let (length, rest) = heap_line(front)?;
    Some(Lead {
        length,
        chars: (front.len() - rest.len()) as u64,
    })
}

/// Reads what a section's body begins with.
pub(crate) fn read_lead<D: Dumps>(
    dumps: &mut D,
    index: &Index,
    place: usize,
) -> Result<Option<Lead>, Failed>
    requires over { IsBuiltOver (D.state dumps.old).now index.now }
    requires place { place < length index.now.headers }
    ensures reads { ReadsAtMost (D.state dumps.old) (D.state dumps.new) 17 }
    ensures failed { OnErr result (DeviceFailed (D.state dumps.old) (D.state dumps.new)) }
    ensures within { IfOk result (IsLeadWithin (body_length (section_at index.now place))) }
    ensures lead { IfOk result (λ lead. IfTold (D.state dumps.old).now
        (λ dump. IsLeadOf (body_at dump index.now place) lead)) }
{
    let (_, len) = body_of(index, place);
    let mut buffer = [0; 17];
    let front = &mut buffer[..len.min(17) as usize];
    read_part(dumps, index, place, 0, front)?;
    Ok(lead_of(front))
}

// The size that a body states, by what it begins with.
fn size_of(lead: Option<Lead>) -> u64
    ensures { (body : List ℕ) → IsLeadOf body lead → result ≡ size_stated body }
{
    match lead {
        Some(lead) => lead.length,
        None => 0,
    }
}

/// Reads the size that the body of the section at a place of the index states: the number before the `:` with
/// which it begins, or 0 if it doesn't begin so. The index was built over the open file, which stays open.
///
/// Returns `Failed` only if the device's count of faults rose. At most 17 bytes are read.
pub fn read_size<D: Dumps>(dumps: &mut D, index: &Index, i: usize) -> Result<u64, Failed>
    requires over { IsBuiltOver (D.state dumps.old).now index.now }
    requires place { i < length index.now.headers }
    ensures reads { ReadsAtMost (D.state dumps.old) (D.state dumps.new) 17 }
    ensures failed { OnErr result (DeviceFailed (D.state dumps.old) (D.state dumps.new)) }
    ensures size { IfOk result (λ size. IfTold (D.state dumps.old).now
        (λ dump. size ≡ size_stated (body_at dump index.now i))) }
{
    let lead = read_lead(dumps, index, i)?;
    Ok(size_of(lead))
}
