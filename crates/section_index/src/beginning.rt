// How a dump begins.
ghost use Rattle.std.specs.Prelude.{◌≡◌, ◌<◌, ◌≤◌, ◌++◌, ℕ, List, Option, None, Some, IfErr, MatchOption};
ghost use Rattle.std.specs.List.{position};
ghost use Rattle.dump_io.specs.Limits.{usual};
ghost use Rattle.dump_io.specs.Lines.{text_of};
ghost use Rattle.line_source.specs.Streams.{length_before_lf};
ghost use Rattle.dump_sections.specs.Versions.{first_line};
ghost use Rattle.section_index.specs.Inner.Beginning.{is_lf, IsVersionOf, IsJudged, IsAllOrLong, IsOfTheBeginning};

use crate::opening::OpenFault;
use dump_io::{Limits, Text, text_before_lf};
use dump_sections::{Version, tag_and_id, version_of};
use std::alloc::Global;

const SIGNATURE: &[u8] = b"=erl_crash_dump:";

const GZIP_MARK: &[u8] = b"\x1F\x8B";

// The place of the first LF.
fn first_lf(bytes: &[u8]) -> Option<usize>
    ensures { result ≡ position is_lf bytes.now }
{
    bytes.iter().position(|c| *c == b'\n')
}

// The text of the first line, if that has at most `limit` bytes before its LF or the end.
fn first_text(first: &[u8], limit: usize) -> Option<&[u8]>
    requires { limit ≤ usual.header }
    ensures { (more : List ℕ) → IsAllOrLong first.now more
        → let line = first_line (first.now ++ more) in
        MatchOption result (limit < length_before_lf line)
        (λ text. (length_before_lf line ≤ limit) × (text.now ≡ text_of line)) }
{
    match first_lf(first) {
        Some(end) if end <= limit => Some(text_before_lf(&first[..end])),
        None if first.len() <= limit => Some(first),
        _ => None,
    }
}

// The version that a header's id names, or the fault that the id names none.
fn version_in(alloc: Global, text: &[u8]) -> Result<Version, OpenFault>
    ensures { IsVersionOf text.now result }
{
    let (_, id) = tag_and_id(text);
    let id = id.unwrap_or(b"");
    match version_of(id) {
        Some(version) => Ok(version),
        None => match Vec::from_slice(alloc, id) {
            Ok(text) => Err(OpenFault::Version {
                text: Text::new(text),
            }),
            Err(_) => Err(OpenFault::Memory),
        },
    }
}

// The version of a dump from its first bytes, which are all of them, or more than a header may have.
pub(crate) fn judge_beginning(
    alloc: Global,
    first: &[u8],
    limits: &Limits,
) -> Result<Version, OpenFault>
    ensures judged { (more : List ℕ) → IsAllOrLong first.now more
        → IsJudged limits.now (first.now ++ more) result }
    ensures fault { IfErr result IsOfTheBeginning }
{
    if first.starts_with(GZIP_MARK) {
        return Err(OpenFault::Compressed);
    }
    if !first.starts_with(SIGNATURE) {
        return Err(OpenFault::NotADump);
    }
    match first_text(first, limits.header() as usize) {
        Some(text) => version_in(alloc, text),
        None => Err(OpenFault::HeaderTooLong { at: 0 }),
    }
}
