// Counting what the lines of a heap refer to.
ghost use Rattle.std.specs.Prelude.{◌≡◌, ◌+◌, ◌-◌, ◌<◌, ◌≤◌, ◌++◌, length, take, OnOk, OnErr};
ghost use Rattle.std.specs.List.{between};
ghost use Rattle.std.specs.Option.{option_to_list};
ghost use Rattle.dump_io.specs.Dumps.{size_of, IsOpen, IfTold, DeviceFailed, ReadsAtMost};
ghost use Rattle.binary_holders.specs.HeapReferences.{references};
ghost use Rattle.binary_holders.specs.declared.heap_sink.TheConstants.{KEPT};
ghost use Rattle.binary_holders.specs.Inner.Lines.{line_references};
ghost use Rattle.binary_holders.specs.Inner.HeapSinks.{IsReady, KeepsTargets};
ghost use Rattle.binary_holders.specs.Inner.Counting.{HasRoom, Adds, KeepsRoom};

use crate::counts::Counts;
use crate::heap_sink::HeapSink;
use crate::lines::next_reference;
use crate::targets::Targets;
use crate::texts::Reference;
use body_lines::{LinesFault, hear_body};
use dump_io::{Dumps, Failed};
use term_forms::{Enc, form_is_read, number_is_read};

// A reference that stands for none yet.
const NO_REFERENCE: Reference = Reference {
    address: 0,
    number: 0,
    whole: false,
};

// Puts a reference, if there is one, behind those that are gathered, and returns how many these are then.
fn put_reference(references: &mut [Reference], count: usize, reference: Option<Reference>) -> usize
    requires { count < length references.old }
    ensures few { result ≤ count + 1 }
    ensures size { length references.new ≡ length references.old }
    ensures put { take result references.new
        ≡ take count references.old ++ option_to_list reference }
{
    match reference {
        Some(reference) => {
            references[count] = reference;
            count + 1
        }
        None => count,
    }
}

// Gathers the references of the first lines of these bytes, as many as
// there is room for, and returns how many, and the lines that are left.
fn gather<'a>(bytes: &'a [u8], enc: Enc, references: &mut [Reference]) -> (usize, &'a [u8])
    requires some { 0 < length bytes.now }
    requires room { 0 < length references.old }
    ensures few { result.0 ≤ length references.new }
    ensures size { length references.new ≡ length references.old }
    ensures found { line_references enc bytes.now
        ≡ take result.0 references.new ++ line_references enc result.1.now }
    ensures shorter { length result.1.now < length bytes.now }
{
    let mut count = 0;
    let mut rest = bytes;
    while count < references.len() {
        let Some((reference, behind)) = next_reference(rest, enc) else {
            return (count, b"");
        };
        count = put_reference(references, count, reference);
        rest = behind;
    }
    (count, rest)
}

// Counts references. One look-up after another lets the
// processor wait for several of them at once.
fn count_references(references: &[Reference], targets: &Targets, counts: &mut Counts)
    requires { HasRoom (length targets.now) counts.old }
    ensures room { KeepsRoom counts.old counts.new }
    ensures adds { Adds targets.now counts.old counts.new references.now }
{
    for reference in references {
        counts.add(targets, *reference);
    }
}

/// Counts the references of the lines of these bytes.
pub(crate) fn count_lines(bytes: &[u8], enc: Enc, targets: &Targets, counts: &mut Counts)
    requires { HasRoom (length targets.now) counts.old }
    ensures room { KeepsRoom counts.old counts.new }
    ensures adds { Adds targets.now counts.old counts.new (line_references enc bytes.now) }
{
    let mut references = [NO_REFERENCE; 32];
    let mut rest = bytes;
    while !rest.is_empty() {
        let (count, behind) = gather(rest, enc, &mut references);
        count_references(&references[..count], targets, counts);
        rest = behind;
    }
}

/// Counts the references of the lines of a heap whose body lies between two offsets.
pub(crate) fn count_heap<D: Dumps>(
    dumps: &mut D,
    from: u64,
    upto: u64,
    buffer: &mut [u8],
    sink: &mut HeapSink<'_>,
) -> Result<(), Failed>
    requires open { IsOpen (D.state dumps.old).now }
    requires within { upto ≤ size_of (D.state dumps.old).now }
    requires ordered { from ≤ upto }
    requires buffer { KEPT < length buffer.old }
    requires room { IsReady sink.old }
    ensures reads { ReadsAtMost (D.state dumps.old) (D.state dumps.new) (upto - from) }
    ensures failed { OnErr result (DeviceFailed (D.state dumps.old) (D.state dumps.new)) }
    ensures keeps { OnOk result (KeepsTargets sink.old sink.new) }
    ensures adds { OnOk result (IfTold (D.state dumps.old).now
        (λ dump. Adds sink.old.targets.now sink.old.counts sink.new.counts
        (references sink.old.enc (between from upto dump)))) }
{
    number_is_read();
    form_is_read(sink.enc);
    match hear_body(dumps, from, upto, buffer, sink) {
        Ok(()) => Ok(()),
        Err(LinesFault::Read) => Err(Failed),
        Err(LinesFault::Stopped(never)) => match never {},
    }
}
