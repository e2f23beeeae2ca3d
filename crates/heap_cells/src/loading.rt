// Judging and reading the bodies of a heap.
ghost use Rattle.std.specs.Prelude.{◌≡◌, ◌+◌, ◌<◌, ◌≤◌, length, None, IfOk, IfErr, IfSome};
ghost use Rattle.dump_io.specs.Dumps.{ReadsAtMost};
ghost use Rattle.dump_sections.specs.Index.{IsBuiltOver};
ghost use Rattle.dump_sections.specs.Loading.{large_fault};
ghost use Rattle.heap_cells.specs.Loading.{enc_of, bodies_at};
ghost use Rattle.heap_cells.specs.Inner.Faults.{IsReadFault};
ghost use Rattle.heap_cells.specs.Inner.Bodies.{size_at, IsBodyFrom};

use crate::faults::HeapFault;
use crate::texts::Texts;
use dump_io::{Dumps, Limits};
use dump_sections::{Index, LargeSection, Version, large_body, read_body};
use std::alloc::Global;
use term_forms::Enc;

/// How a dump of this version writes payloads: in hex in the versions 0.3 and 0.4, and in base64 in 0.5.
pub fn enc_of(version: Version) -> Enc
    ensures { result ≡ enc_of version }
{
    match version {
        Version::V03 | Version::V04 => Enc::Hex,
        Version::V05 => Enc::Base64,
    }
}

// The first of two bodies that has more bytes than the limit. A missing section counts as empty.
pub(crate) fn large_bodies(
    index: &Index,
    heap: Option<usize>,
    literals: Option<usize>,
    limits: &Limits,
) -> Option<LargeSection>
    requires heap { IfSome heap (λ i. i < length index.now.headers) }
    requires literals { IfSome literals (λ i. i < length index.now.headers) }
    ensures fault { result ≡ large_fault limits.now.section (bodies_at index.now heap literals) }
    ensures small_heap { result ≡ None → size_at index.now heap ≤ limits.now.section }
    ensures small_literals { result ≡ None → size_at index.now literals ≤ limits.now.section }
{
    let first = large_body(index, heap, limits);
    if first.is_some() {
        return first;
    }
    large_body(index, literals, limits)
}

// The body of a section, which is within the limit. A missing section counts as empty.
fn read_or_empty<D: Dumps>(
    alloc: Global,
    dumps: &mut D,
    index: &Index,
    place: Option<usize>,
    limits: &Limits,
) -> Result<Vec<u8>, HeapFault>
    requires over { IsBuiltOver (D.state dumps.old).now index.now }
    requires place { IfSome place (λ i. i < length index.now.headers) }
    requires small { size_at index.now place ≤ limits.now.section }
    ensures reads { ReadsAtMost (D.state dumps.old) (D.state dumps.new) (size_at index.now place) }
    ensures body { IfOk result (λ body. IsBodyFrom (D.state dumps.old).now index.now place body.items) }
    ensures size { IfOk result (λ body. length body.items ≡ size_at index.now place) }
    ensures fault { IfErr result (IsReadFault (D.state dumps.old) (D.state dumps.new)) }
{
    let Some(i) = place else {
        return Ok(Vec::new(alloc));
    };
    let body = read_body(alloc, dumps, index, i, limits)?;
    Ok(body)
}

// The bodies of two sections, which are within the limit.
pub(crate) fn read_texts<D: Dumps>(
    alloc: Global,
    dumps: &mut D,
    index: &Index,
    heap: Option<usize>,
    literals: Option<usize>,
    limits: &Limits,
) -> Result<Texts, HeapFault>
    requires over { IsBuiltOver (D.state dumps.old).now index.now }
    requires heap { IfSome heap (λ i. i < length index.now.headers) }
    requires literals { IfSome literals (λ i. i < length index.now.headers) }
    requires small_heap { size_at index.now heap ≤ limits.now.section }
    requires small_literals { size_at index.now literals ≤ limits.now.section }
    ensures reads { ReadsAtMost (D.state dumps.old) (D.state dumps.new)
        (size_at index.now heap + size_at index.now literals) }
    ensures heap { IfOk result (λ texts.
        IsBodyFrom (D.state dumps.old).now index.now heap texts.heap.items) }
    ensures literals { IfOk result (λ texts.
        IsBodyFrom (D.state dumps.old).now index.now literals texts.literals.items) }
    ensures heap_size { IfOk result (λ texts. length texts.heap.items ≡ size_at index.now heap) }
    ensures literals_size { IfOk result (λ texts.
        length texts.literals.items ≡ size_at index.now literals) }
    ensures enc { IfOk result (λ texts. texts.enc ≡ enc_of index.now.version) }
    ensures fault { IfErr result (IsReadFault (D.state dumps.old) (D.state dumps.new)) }
{
    let heap = read_or_empty(alloc, dumps, index, heap, limits)?;
    let literals = read_or_empty(alloc, dumps, index, literals, limits)?;
    Ok(Texts {
        heap,
        literals,
        enc: enc_of(index.version()),
    })
}
