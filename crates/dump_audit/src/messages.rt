// Counting the messages of processes, one mailbox after another.
ghost use Rattle.std.specs.Prelude.{◌≡◌, [], ◌∷◌, ◌<◌, ◌≤◌, length, map, Some, All, IfOk, IfErr};
ghost use Rattle.dump_io.specs.Dumps.{IfTold, ReadsAtMost};
ghost use Rattle.dump_sections.specs.Bodies.{section_at, body_length, IsPlaceIn};
ghost use Rattle.dump_sections.specs.Index.{IsBuiltOver};
ghost use Rattle.dump_sections.specs.Loading.{IsUnloaded};
ghost use Rattle.dump_audit.specs.Mailboxes.{mail_of};
ghost use Rattle.dump_audit.specs.Inner.Mailboxes.{IsSmall, mails_length};

use crate::is_cut;
use dump_io::{Dumps, Limits};
use dump_sections::{BodyFault, Index, read_body};
use root_views::messages;
use std::alloc::Global;

// Loads the mailbox at a place, counts its messages, and
// frees it. If the dump is truncated in it, it isn't counted.
fn count_at<D: Dumps>(
    alloc: Global,
    dumps: &mut D,
    index: &Index,
    i: usize,
    limits: &Limits,
) -> Result<Option<u64>, BodyFault>
    requires over { IsBuiltOver (D.state dumps.old).now index.now }
    requires place { i < length index.now.headers }
    requires small { body_length (section_at index.now i) ≤ limits.now.section }
    ensures reads { ReadsAtMost (D.state dumps.old) (D.state dumps.new)
        (body_length (section_at index.now i)) }
    ensures count { IfOk result (λ count. IfTold (D.state dumps.old).now
        (λ bytes. count ≡ mail_of bytes index.now (Some i))) }
    ensures fault { IfErr result (IsUnloaded (D.state dumps.old) (D.state dumps.new)) }
{
    if is_cut(index.state(), i) {
        return Ok(None);
    }
    let body = read_body(alloc, dumps, index, i, limits)?;
    Ok(Some(messages(body.as_slice())))
}

// Counts the messages of a process, which may have no mailbox.
fn count_in<D: Dumps>(
    alloc: Global,
    dumps: &mut D,
    index: &Index,
    place: Option<usize>,
    limits: &Limits,
) -> Result<Option<u64>, BodyFault>
    requires over { IsBuiltOver (D.state dumps.old).now index.now }
    requires within { IsPlaceIn index.now place }
    requires small { IsSmall index.now limits.now.section place }
    ensures reads { ReadsAtMost (D.state dumps.old) (D.state dumps.new)
        (mails_length index.now (place ∷ [])) }
    ensures count { IfOk result (λ count. IfTold (D.state dumps.old).now
        (λ bytes. count ≡ mail_of bytes index.now place)) }
    ensures fault { IfErr result (IsUnloaded (D.state dumps.old) (D.state dumps.new)) }
{
    match place {
        None => Ok(None),
        Some(i) => count_at(alloc, dumps, index, i, limits),
    }
}

/// Counts the messages of the mailboxes at these places, none of
/// which is too large. Each is loaded, counted and freed in turn.
pub(crate) fn count_messages<D: Dumps>(
    alloc: Global,
    dumps: &mut D,
    index: &Index,
    places: &[Option<usize>],
    limits: &Limits,
) -> Result<Vec<Option<u64>>, BodyFault>
    requires over { IsBuiltOver (D.state dumps.old).now index.now }
    requires within { All (IsPlaceIn index.now) places.now }
    requires small { All (IsSmall index.now limits.now.section) places.now }
    ensures reads { ReadsAtMost (D.state dumps.old) (D.state dumps.new)
        (mails_length index.now places.now) }
    ensures counts { IfOk result (λ counts. IfTold (D.state dumps.old).now
        (λ bytes. counts.items ≡ map (mail_of bytes index.now) places.now)) }
    ensures all { IfOk result (λ counts. length counts.items ≡ length places.now) }
    ensures fault { IfErr result (IsUnloaded (D.state dumps.old) (D.state dumps.new)) }
{
    let mut counts = Vec::new(alloc);
    for place in places {
        let count = count_in(alloc, dumps, index, *place, limits)?;
        if counts.push(count).is_err() {
            return Err(BodyFault::Memory);
        }
    }
    Ok(counts)
}
