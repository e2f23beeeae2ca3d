// The bytes of whole binaries.
ghost use Rattle.std.specs.Prelude.{◌≡◌, ◌<◌, length, Some, IfOk};
ghost use Rattle.std.specs.Option.{option_copied};
ghost use Rattle.dump_io.specs.Dumps.{IfTold};
ghost use Rattle.dump_sections.specs.Bodies.{section_at};
ghost use Rattle.dump_sections.specs.Index.{IsBuiltOver, sections_in};
ghost use Rattle.binary_refs.specs.StoredBinaries.{binary_section};
ghost use Rattle.binary_refs.specs.Payloads.{bytes_in};
ghost use Rattle.binary_refs.specs.Wholes.{first_line_text, bytes_of_body, whole_bytes, bin_fault_of, refused, IsBinAnswerFor, IsRefusedFor, LoadsBinaryOf};
ghost use Rattle.binary_refs.specs.Inner.Wholes.{bytes_at, LoadsBinaryAt};

use crate::faults::BinFault;
use crate::{decode_payload, first_binary};
use dump_io::{Dumps, Limits};
use dump_sections::{BodyFault, Index, read_body};
use field_lines::reading::lines;
use heap_cells::enc_of;
use std::alloc::{AllocError, Global};
use term_forms::{Enc, heap_line};

// The text of a body's first line.
fn first_text(body: &[u8]) -> Option<&[u8]>
    ensures { option_copied result ≡ first_line_text body.now }
{
    let line = lines(body).next()?;
    Some(line.text)
}

/// The bytes that the body of a `binary` section writes. Returns `Ok(None)` exactly when its first line isn't
/// the number of bytes in hex, `:`, and the characters of that many bytes, and an error only if memory is lacking.
pub fn bytes_of_body(alloc: Global, enc: Enc, body: &[u8]) -> Result<Option<Vec<u8>>, AllocError>
    ensures { IfOk result (λ bytes. bytes_in bytes ≡ bytes_of_body enc body.now) }
{
    let Some(text) = first_text(body) else {
        return Ok(None);
    };
    match heap_line(text) {
        Some((count, chars)) => decode_payload(alloc, enc, count, chars),
        None => Ok(None),
    }
}

fn fault_of(fault: BodyFault) -> BinFault
    ensures { result ≡ bin_fault_of fault }
{
    match fault {
        BodyFault::SectionTooLarge { at, len } => BinFault::SectionTooLarge { at, len },
        BodyFault::Read => BinFault::Read,
        BodyFault::Memory => BinFault::Memory,
    }
}

// The bytes of the binary whose section is at a place.
fn whole_at<D: Dumps>(
    alloc: Global,
    dumps: &mut D,
    index: &Index,
    i: usize,
    limits: &Limits,
) -> Result<Vec<u8>, BinFault>
    requires over { IsBuiltOver (D.state dumps.old).now index.now }
    requires place { i < length index.now.headers }
    ensures loads { LoadsBinaryAt D.state index.now i limits.now.section dumps.old dumps.new result }
    ensures answer { IfTold (D.state dumps.old).now
        (λ dump. IsBinAnswerFor (bytes_at dump index.now i) result) }
    ensures refused { IsRefusedFor limits.now.section (Some (section_at index.now i)) result }
{
    let body = match read_body(alloc, dumps, index, i, limits) {
        Ok(body) => body,
        Err(fault) => return Err(fault_of(fault)),
    };
    match bytes_of_body(alloc, enc_of(index.version()), &body) {
        Ok(Some(bytes)) => Ok(bytes),
        Ok(None) => Err(BinFault::BadBinary {
            at: index.section(i).at,
        }),
        Err(_) => Err(BinFault::Memory),
    }
}

/// Reads all bytes of the first `binary` section whose id is an address
/// in hex. The index was built over the open file, which stays open.
///
/// Returns `NoBinary` exactly when there is no such section, and `SectionTooLarge` exactly when its body
/// has more bytes than the limit on a section's body; nothing is read then. Returns `BadBinary` exactly
/// when the body's first line isn't the number of bytes in hex, `:`, and the characters of that many
/// bytes, unless it returns `Read` or `Memory`: `Read` only if the device's count of faults rose, and
/// `Memory` from an allocation. At most as many bytes are read as the body has, even if none are returned.
pub fn whole<D: Dumps>(
    alloc: Global,
    dumps: &mut D,
    index: &Index,
    addr: u64,
    limits: &Limits,
) -> Result<Vec<u8>, BinFault>
    requires { IsBuiltOver (D.state dumps.old).now index.now }
    ensures loads { LoadsBinaryOf D.state index.now addr limits.now.section
        dumps.old dumps.new result }
    ensures answer { IfTold (D.state dumps.old).now
        (λ dump. IsBinAnswerFor (whole_bytes dump index.now addr) result) }

    // `NoBinary` and `SectionTooLarge` come before anything is read, whatever the device does.
    ensures refused { IsRefusedFor limits.now.section
        (binary_section addr (sections_in index.now)) result }
{
    let Some(i) = first_binary(index, addr) else {
        return Err(BinFault::NoBinary);
    };
    whole_at(alloc, dumps, index, i, limits)
}
