// The bodies of an audit: all of them are judged on the index before one is read.
ghost use Rattle.std.specs.Prelude.{◌≡◌, [], length, All, Some, None, ◌<◌, IfOk, IfErr, if◌then◌else◌};
ghost use Rattle.dump_io.specs.Dumps.{IfTold, ReadsAtMost};
ghost use Rattle.dump_sections.specs.Index.{IsBuiltOver, sections_in};
ghost use Rattle.dump_sections.specs.Loading.{bodies_length, large_fault, sections_at, IsUnloaded, LoadsBodies};
ghost use Rattle.process_table.specs.Records.{proc_places};
ghost use Rattle.dump_audit.specs.Mailboxes.{audited_sections, mailbox_places, mailboxes_at};
ghost use Rattle.dump_audit.specs.Bodies.{AreBodiesOf, IsAuditable};
ghost use Rattle.dump_audit.specs.Inner.Places.{AreBodyPlaces, sections_found};
ghost use Rattle.dump_sections.specs.Bodies.{IsPlaceIn};

use crate::mailboxes::{mailboxes, present};
use crate::messages::count_messages;
use dump_io::{Dumps, Limits};
use dump_sections::{BodyFault, Index, LargeSection, large};
use process_table::{ProcSections, Procs, signalled};
use section_rows::Column;
use std::alloc::{AllocError, Global};

// The bodies of an audit, from the index: the sections of the processes; for a
// full audit, the mailbox of each process; and those mailboxes that are there.
#[derive(Drop)]
struct BodyPlaces {
    found: ProcSections,
    mailboxes: Vec<Option<usize>>,
    present: Vec<usize>,
}

/// What an audit takes from its bodies: the processes, for which of
/// them signals wait, and in a full audit how many messages each has.
#[derive(Drop)]
pub struct AuditBodies {
    /// The process table.
    pub procs: Procs,
    /// In a full audit, for each process of the table the number of messages in its mailbox, which is
    /// unknown if there is no mailbox, or if the dump is truncated in it. In any other audit `None`.
    pub mails: Option<Vec<Option<u64>>>,
    /// For each process of the table whether signals wait for it, as [`signalled`] says.
    pub signalled: Vec<bool>,
}

// The mailboxes of the processes, for a full audit. Any other audit counts none.
fn find_mailboxes(
    alloc: Global,
    index: &Index,
    found: &ProcSections,
    full: bool,
) -> Result<Vec<Option<usize>>, AllocError>
    requires { found.now ≡ proc_places (sections_in index.now) }
    ensures places { IfOk result (λ places. places.items
        ≡ (if full then mailbox_places (sections_in index.now) else [])) }
    ensures within { IfOk result (λ places. All (IsPlaceIn index.now) places.items) }
{
    if !full {
        return Ok(Vec::new(alloc));
    }
    mailboxes(alloc, index, found)
}

// Finds the bodies of an audit.
fn find_places(alloc: Global, index: &Index, full: bool) -> Result<BodyPlaces, AllocError>
    ensures { IfOk result (AreBodyPlaces full index.now) }
{
    let found = ProcSections::find(alloc, index)?;
    let mailboxes = find_mailboxes(alloc, index, &found, full)?;
    let present = present(alloc, index, mailboxes.as_slice())?;
    Ok(BodyPlaces {
        found,
        mailboxes,
        present,
    })
}

// The first body that is too large. The sections of all processes come before their mailboxes.
fn large_body(index: &Index, places: &BodyPlaces, limits: &Limits) -> Option<LargeSection>
    requires found { places.now.found ≡ proc_places (sections_in index.now) }
    requires present { sections_at index.now places.now.present.items
        ≡ mailboxes_at (sections_in index.now) places.now.mailboxes.items }
    requires within { All (λ i. i < length index.now.headers) places.now.present.items }
    ensures { result ≡ large_fault limits.now.section (sections_found index.now places.now) }
{
    let first = places.found.large(index, limits);
    if first.is_some() {
        return first;
    }
    large(index, places.present.as_slice(), limits)
}

// Reads the bodies of an audit, none of which is too large, one after another.
fn read_bodies<D: Dumps>(
    alloc: Global,
    dumps: &mut D,
    index: &Index,
    places: BodyPlaces,
    full: bool,
    limits: &Limits,
) -> Result<AuditBodies, BodyFault>
    requires over { IsBuiltOver (D.state dumps.old).now index.now }
    requires places { AreBodyPlaces full index.now places }
    requires small { large_fault limits.now.section (sections_found index.now places) ≡ None }
    ensures reads { ReadsAtMost (D.state dumps.old) (D.state dumps.new)
        (bodies_length (sections_found index.now places)) }
    ensures bodies { IfOk result (λ read. IfTold (D.state dumps.old).now
        (λ bytes. AreBodiesOf full index.now bytes read)) }
    ensures auditable { IfOk result (IsAuditable index.now) }
    ensures fault { IfErr result (IsUnloaded (D.state dumps.old) (D.state dumps.new)) }
{
    let columns = [Column::Field(b"Internal State")];
    let (procs, states) = Procs::read_with(alloc, dumps, index, places.found, &columns, limits)?;
    let Ok(signalled) = signalled(alloc, &states) else {
        return Err(BodyFault::Memory);
    };
    let counts = count_messages(alloc, dumps, index, places.mailboxes.as_slice(), limits)?;
    Ok(AuditBodies {
        procs,
        mails: full.then_some(counts),
        signalled,
    })
}

impl AuditBodies {
    /// Finds the bodies of an audit on an index, judges them all, and then reads them
    /// one after another; in a full audit the mailboxes of the processes come after the
    /// processes' sections. The index was built over the open file, which stays open.
    ///
    /// Returns `SectionTooLarge` exactly when one of these bodies has more bytes than the limit
    /// on a section's body, unless it returns `Memory`; it names the first such body, and
    /// nothing is read then. Returns `Read` only if the device's count of faults rose; `Memory`
    /// may come from any allocation. At most as many bytes are read as the bodies have together.
    pub fn load<D: Dumps>(
        alloc: Global,
        dumps: &mut D,
        index: &Index,
        full: bool,
        limits: &Limits,
    ) -> Result<AuditBodies, BodyFault>
        requires { IsBuiltOver (D.state dumps.old).now index.now }
        ensures loads { LoadsBodies D.state (audited_sections full (sections_in index.now))
            limits.now.section dumps.old dumps.new result }
        ensures bodies { IfOk result (λ read. IfTold (D.state dumps.old).now
            (λ bytes. AreBodiesOf full index.now bytes read)) }
        ensures auditable { IfOk result (IsAuditable index.now) }
    {
        let Ok(places) = find_places(alloc, index, full) else {
            return Err(BodyFault::Memory);
        };
        if let Some(large) = large_body(index, &places, limits) {
            return Err(BodyFault::from(large));
        }
        read_bodies(alloc, dumps, index, places, full, limits)
    }
}
