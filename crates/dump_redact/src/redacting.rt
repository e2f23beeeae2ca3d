// Writing a dump with its payloads made zero.
ghost use Rattle.std.specs.Prelude.{◌≡◌, ◌+◌, ◌<◌, ◌≤◌, ◌⊎◌, length, IsSome};
ghost use Rattle.dump_io.specs.Dumps.{IfTold};
ghost use Rattle.dump_io.specs.Sinks.{WritesAll};
ghost use Rattle.dump_sections.specs.Bodies.{section_at};
ghost use Rattle.dump_sections.specs.Index.{IsBuiltOver, sections_in};
ghost use Rattle.dump_redact.specs.Redacted.{redacted};
ghost use Rattle.dump_redact.specs.Refusals.{large_heap, LoadsDump, RefusesLarge};
ghost use Rattle.dump_redact.specs.Inner.Copying.{Copies};
ghost use Rattle.dump_redact.specs.Inner.Places.{length_between, HasRoom, fault_at};
ghost use Rattle.dump_redact.specs.Inner.Writing.{CopiesSections};

use crate::blanks::Stretch;
use crate::bodies::put_binary;
use crate::copying::{copy, make_buffer, make_room, put_bytes, read_piece};
use crate::faults::RedactFault;
use crate::parts::{Part, is_heap_tag, part_of};
use crate::spans::{next_place, offset, redact_sections};
use dump_io::{Dumps, Limits, Sink};
use dump_sections::Index;
use heap_cells::enc_of;
use std::alloc::Global;

// The refusal of the section at a place, if it is a heap or literals and its body has more
// bytes than the limit. Most bodies have fewer, and the tags of their sections aren't read.
fn judge(index: &Index, i: usize, limits: &Limits) -> Option<RedactFault>
    requires { i < length index.now.headers }
    ensures { result ≡ fault_at limits.now.section (section_at index.now i) }
{
    let extent = index.extent(i);
    let len = extent.end - extent.body;
    if len > u64::from(limits.section()) && is_heap_tag(index.section(i).tag) {
        return Some(RedactFault::SectionTooLarge { at: extent.at, len });
    }
    None
}

// The refusal of the first section that has one.
fn large(index: &Index, limits: &Limits) -> Option<RedactFault>
    ensures refusal { result ≡ large_heap limits.now.section (sections_in index.now) }
    ensures some { 0 < index.now.size }
{
    for i in 0..index.len() {
        if let Some(fault) = judge(index, i, limits) {
            return Some(fault);
        }
    }
    None
}

// Copies the sections from one place up to another, redacted; together they fit into the buffer.
fn put_sections<D: Dumps, K: Sink>(
    dumps: &mut D,
    index: &Index,
    i: usize,
    next: usize,
    buffer: &mut [u8],
    sink: &mut K,
) -> Result<(), RedactFault>
    requires over { IsBuiltOver (D.state dumps.old).now index.now }
    requires some { i < next }
    requires within { next ≤ length index.now.headers }
    requires room { length_between index.now i next ≤ length buffer.old }
    ensures { CopiesSections (D.state dumps.old) (D.state dumps.new)
        (K.state sink.old) (K.state sink.new) index.now i next result }
{
    let from = offset(index, i);
    let upto = offset(index, next);
    let count = read_piece(dumps, from, upto, buffer)?;
    let piece = &mut buffer[..count];
    redact_sections(piece, index, i, next);
    put_bytes(sink, piece)
}

// Loads a heap with the line of its header, and writes it redacted. The
// buffer stays as large as the largest heap so far, and serves the next ones.
fn put_heap<D: Dumps, K: Sink>(
    alloc: Global,
    dumps: &mut D,
    index: &Index,
    i: usize,
    heap: &mut Vec<u8>,
    sink: &mut K,
) -> Result<(), RedactFault>
    requires over { IsBuiltOver (D.state dumps.old).now index.now }
    requires place { i < length index.now.headers }
    ensures { CopiesSections (D.state dumps.old) (D.state dumps.new)
        (K.state sink.old) (K.state sink.new) index.now i (i + 1) result }
{
    let from = offset(index, i);
    let upto = offset(index, i + 1);
    make_room(alloc, heap, upto.saturating_sub(from) as usize)?;
    put_sections(dumps, index, i, i + 1, heap, sink)
}

// Copies the section at a place, redacted; it doesn't fit into the buffer, so its body isn't empty.
fn put_large<D: Dumps, K: Sink>(
    alloc: Global,
    dumps: &mut D,
    index: &Index,
    i: usize,
    buffer: &mut [u8],
    heap: &mut Vec<u8>,
    sink: &mut K,
) -> Result<(), RedactFault>
    requires over { IsBuiltOver (D.state dumps.old).now index.now }
    requires place { i < length index.now.headers }
    requires room { HasRoom buffer.old }
    requires large { length buffer.old < length_between index.now i (i + 1) }
    ensures { CopiesSections (D.state dumps.old) (D.state dumps.new)
        (K.state sink.old) (K.state sink.new) index.now i (i + 1) result }
{
    let section = index.section(i);
    match part_of(section.tag) {
        Part::Heap => put_heap(alloc, dumps, index, i, heap, sink),
        Part::Binary => {
            let enc = enc_of(index.version());
            put_binary(
                dumps,
                section.at,
                section.body,
                section.end,
                enc,
                buffer,
                sink,
            )
        }
        Part::Other => copy(dumps, section.at, section.end, Stretch::Plain, buffer, sink),
    }
}

// Copies the sections from one place up to another, redacted;
// they fit into the buffer together, or there is only one.
fn put_some<D: Dumps, K: Sink>(
    alloc: Global,
    dumps: &mut D,
    index: &Index,
    i: usize,
    next: usize,
    buffer: &mut [u8],
    heap: &mut Vec<u8>,
    sink: &mut K,
) -> Result<(), RedactFault>
    requires over { IsBuiltOver (D.state dumps.old).now index.now }
    requires some { i < next }
    requires within { next ≤ length index.now.headers }
    requires room { HasRoom buffer.old }
    requires fits { (next ≡ i + 1) ⊎ (length_between index.now i next ≤ length buffer.old) }
    ensures { CopiesSections (D.state dumps.old) (D.state dumps.new)
        (K.state sink.old) (K.state sink.new) index.now i next result }
{
    let from = offset(index, i);
    let upto = offset(index, next);
    if upto.saturating_sub(from) <= buffer.len() as u64 {
        put_sections(dumps, index, i, next, buffer, sink)
    } else {
        put_large(alloc, dumps, index, i, buffer, heap, sink)
    }
}

// Writes the whole dump, redacted.
fn put_dump<D: Dumps, K: Sink>(
    alloc: Global,
    dumps: &mut D,
    index: &Index,
    buffer: &mut [u8],
    sink: &mut K,
) -> Result<(), RedactFault>
    requires over { IsBuiltOver (D.state dumps.old).now index.now }
    requires room { HasRoom buffer.old }
    ensures { Copies (D.state dumps.old) (D.state dumps.new)
        (K.state sink.old) (K.state sink.new) index.now.size redacted result }
{
    let mut heap = Vec::new(alloc);
    let mut i = 0;
    while i < index.len() {
        let next = next_place(index, i, buffer.len());
        put_some(alloc, dumps, index, i, next, buffer, &mut heap, sink)?;
        i = next;
    }
    Ok(())
}

/// Writes the open dump with its binary payloads made zero: as many bytes, with
/// the same sections. The index was built over the open file, which stays open.
///
/// Two kinds of characters are replaced: the payload of each heap line of a `proc_heap` or a `literals`
/// section whose form is a heap binary; and, in each `binary` section whose body begins with a hex
/// number of 1 to 16 digits and a `:`, what follows that `:` in the body's first line. There a hex
/// digit becomes `0` in the versions 0.3 and 0.4, and a letter, a digit, `+` or `/` becomes `A` in 0.5;
/// padding and every other byte stay. Atoms, numbers, external terms and messages stay as they are.
///
/// Returns `SectionTooLarge` exactly when the body of a heap or of literals has more bytes than the limit
/// on a section's body; it names the first in the dump, and nothing is read or written then. Returns
/// `Read` only if the device's count of faults rose, and `Write` only if the sink's did; `Memory` may
/// come from allocating room for a heap or for literals that don't fit into a piece, or for the pieces of
/// at most 65,536 bytes in which all other bytes are copied. After any of these three a proper prefix of
/// the redacted dump was written. Whatever it returns, at most as many bytes are read as the file has.
pub fn redact<D: Dumps, K: Sink>(
    alloc: Global,
    dumps: &mut D,
    index: &Index,
    limits: &Limits,
    sink: &mut K,
) -> Result<(), RedactFault>
    requires { IsBuiltOver (D.state dumps.old).now index.now }
    ensures loads { LoadsDump D.state index.now limits.now.section
        (K.state sink.old) (K.state sink.new) dumps.old dumps.new result }
    ensures later { (K.state sink.old).faults ≤ (K.state sink.new).faults }
    ensures writes { IfTold (D.state dumps.old).now (λ bytes.
        WritesAll (K.state sink.old).written (K.state sink.new).written (redacted bytes) result) }

    // A body that is too large is always refused as such, whatever the device and the sink do.
    ensures too_large { RefusesLarge limits.now.section index.now result }
    ensures unwritten { IsSome (large_heap limits.now.section (sections_in index.now))
        → sink.new ≡ sink.old }
{
    if let Some(fault) = large(index, limits) {
        return Err(fault);
    }
    let Ok(mut buffer) = make_buffer(alloc) else {
        return Err(RedactFault::Memory);
    };
    put_dump(alloc, dumps, index, &mut buffer, sink)
}
