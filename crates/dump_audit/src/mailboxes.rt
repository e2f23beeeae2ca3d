// The mailboxes of processes: the first of the sections with messages of each pid.
ghost use Rattle.std.specs.Prelude.{◌≡◌, ◌<◌, length, map, All, IfOk};
ghost use Rattle.dump_sections.specs.Index.{sections_in};
ghost use Rattle.dump_sections.specs.Loading.{sections_at};
ghost use Rattle.dump_audit.specs.Mailboxes.{mailbox_place, mailboxes_at};
ghost use Rattle.dump_sections.specs.Bodies.{IsPlaceIn};

use dump_sections::{FirstSections, Index};
use process_table::ProcSections;
use std::alloc::{AllocError, Global};

/// The place of the mailbox of each process, in the order of the processes.
pub(crate) fn mailboxes(
    alloc: Global,
    index: &Index,
    found: &ProcSections,
) -> Result<Vec<Option<usize>>, AllocError>
    ensures places { IfOk result (λ places. places.items
        ≡ map (mailbox_place (sections_in index.now)) (map (λ p. p.0) found.now.places)) }
    ensures within { IfOk result (λ places. All (IsPlaceIn index.now) places.items) }
{
    let firsts = FirstSections::find(alloc, index, b"proc_messages".as_slice())?;
    let mut places = Vec::new(alloc);
    for p in 0..found.len() {
        let (pid, _section) = found.at(p);
        let place = firsts.get(pid);
        places.push(place)?;
    }
    Ok(places)
}

/// The mailboxes that are there, in the same order.
pub(crate) fn present(
    alloc: Global,
    index: &Index,
    places: &[Option<usize>],
) -> Result<Vec<usize>, AllocError>
    requires { All (IsPlaceIn index.now) places.now }
    ensures sections { IfOk result (λ present. sections_at index.now present.items
        ≡ mailboxes_at (sections_in index.now) places.now) }
    ensures within { IfOk result (λ present.
        All (λ i. i < length index.now.headers) present.items) }
{
    let mut present = Vec::new(alloc);
    for place in places {
        if let Some(i) = place {
            present.push(*i)?;
        }
    }
    Ok(present)
}
