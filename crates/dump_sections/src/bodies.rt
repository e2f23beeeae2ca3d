// Judging and reading the bodies of sections.
ghost use Rattle.std.specs.Prelude.{◌≡◌, [], ◌∷◌, ◌+◌, ◌<◌, ◌≤◌, length, None, All, IfSome, IfOk, IfErr, IsErrOf};
ghost use Rattle.std.specs.Option.{option_to_list};
ghost use Rattle.dump_io.specs.Dumps.{IsOpen, size_of, Gives, ReadsAtMost};
ghost use Rattle.dump_io.specs.Limits.{usual};
ghost use Rattle.dump_sections.specs.Bodies.{section_at, section_in, body_length, body_size, IsBodyOf};
ghost use Rattle.dump_sections.specs.Index.{IsBuiltOver};
ghost use Rattle.dump_sections.specs.Loading.{sections_at, body_fault, large_fault, large_section, IsUnloaded, LoadsBodies};

use crate::index::Index;
use dump_io::{Dumps, Limits, read_full};
use std::alloc::Global;
use thiserror::Error;

/// Why a body wasn't loaded.
#[derive(Debug, Drop, Error)]
pub enum BodyFault {
    /// The body has more bytes than the limit on a section's body; `at` is the
    /// offset of the section in the file, and `len` the number of bytes of the body.
    #[error("the section at {at} is too large: {len} bytes")]
    SectionTooLarge { at: u64, len: u64 },
    /// The device failed.
    #[error("the dump can't be read")]
    Read,
    /// There was no memory for the body.
    #[error("out of memory")]
    Memory,
}

/// A section whose body has more bytes than the limit on a section's body.
#[derive(Clone, Copy)]
pub struct LargeSection {
    /// The offset of the section in the file.
    pub at: u64,
    /// The number of bytes of the body.
    pub len: u64,
}

impl From<LargeSection> for BodyFault {
    ghost use Rattle.dump_sections.specs.Loading.{body_fault};

    ghost from_gives = { λ large fault. fault ≡ body_fault large };

    fn from(large: LargeSection) -> BodyFault {
        BodyFault::SectionTooLarge {
            at: large.at,
            len: large.len,
        }
    }
}

/// The section at a place, from 0, if its body has more bytes than the limit
/// on a section's body. A missing section counts as empty. Nothing is read.
pub fn large_body(index: &Index, place: Option<usize>, limits: &Limits) -> Option<LargeSection>
    requires { IfSome place (λ i. i < length index.now.headers) }
    ensures fault { result ≡ large_fault limits.now.section
        (option_to_list (section_in index.now place)) }
    ensures small { result ≡ None → body_size (section_in index.now place) ≤ limits.now.section }
    ensures usual { result ≡ None → body_size (section_in index.now place) ≤ usual.section }
{
    let section = index.extent(place?);
    let len = section.end - section.body;
    if len > u64::from(limits.section()) {
        return Some(LargeSection {
            at: section.at,
            len,
        });
    }
    None
}

/// The first of the sections at these places whose body has more bytes than the limit on a section's
/// body. Returns `None` exactly when each body is within the limit. Nothing is read.
pub fn large(index: &Index, places: &[usize], limits: &Limits) -> Option<LargeSection>
    requires { All (λ i. i < length index.now.headers) places.now }
    ensures { result ≡ large_fault limits.now.section (sections_at index.now places.now) }
{
    for i in places {
        let large = large_body(index, Some(*i), limits);
        if large.is_some() {
            return large;
        }
    }
    None
}

// Reads `len` bytes of the open file from an offset on.
fn read_part<D: Dumps>(
    alloc: Global,
    dumps: &mut D,
    at: u64,
    len: usize,
) -> Result<Vec<u8>, BodyFault>
    requires open { IsOpen (D.state dumps.old).now }
    requires inside { at + len ≤ size_of (D.state dumps.old).now }
    ensures reads { ReadsAtMost (D.state dumps.old) (D.state dumps.new) len }
    ensures bytes { IfOk result (λ bytes. Gives (D.state dumps.old).now at bytes.items) }
    ensures length { IfOk result (λ bytes. length bytes.items ≡ len) }
    ensures fault { IfErr result (IsUnloaded (D.state dumps.old) (D.state dumps.new)) }
{
    let Ok(mut bytes) = vec![in alloc; 0u8; len] else {
        return Err(BodyFault::Memory);
    };
    if read_full(dumps, at, &mut bytes).is_err() {
        return Err(BodyFault::Read);
    }
    Ok(bytes)
}

/// Reads the body of the section at place `i`, from 0. The index
/// is one that was built over the open file, which stays open.
///
/// Returns `SectionTooLarge` exactly when the body has more bytes than the limit on a section's body;
/// nothing is read then. Returns `Read` only if the device's count of faults rose, and `Memory` may come
/// from allocating the body. At most as many bytes are read as the body has, even if it isn't loaded.
pub fn read_body<D: Dumps>(
    alloc: Global,
    dumps: &mut D,
    index: &Index,
    i: usize,
    limits: &Limits,
) -> Result<Vec<u8>, BodyFault>
    requires over { IsBuiltOver (D.state dumps.old).now index.now }
    requires place { i < length index.now.headers }
    ensures loads { LoadsBodies D.state (section_at index.now i ∷ []) limits.now.section
        dumps.old dumps.new result }
    ensures body { IfOk result (λ body. IsBodyOf (D.state dumps.old).now
        (section_at index.now i) body.items) }

    // A body that is too large is always refused as such, whatever the device does.
    ensures too_large { let section = section_at index.now i in
        limits.now.section < body_length section
        → IsErrOf result (body_fault (large_section section)) }
{
    if let Some(large) = large_body(index, Some(i), limits) {
        return Err(BodyFault::from(large));
    }
    let section = index.extent(i);
    let len = (section.end - section.body) as usize;
    read_part(alloc, dumps, section.body, len)
}
