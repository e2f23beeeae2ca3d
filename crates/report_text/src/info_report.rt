// The report of `info`.
ghost use Rattle.std.specs.Prelude.{◌≡◌, length, codes};
ghost use Rattle.std.specs.List.{flat_map};
ghost use Rattle.dump_io.specs.Sinks.{Puts};
ghost use Rattle.field_lines.specs.Fields.{find_value};
ghost use Rattle.report_lines.specs.Lines.{text_or_dash};
ghost use Rattle.report_text.specs.Reports.{version_text, tag_line, info_heading, info_report};

use dump_io::{Failed, Piece, Sink, put_pieces};
use dump_sections::{Index, Tags, Version};
use field_lines::find;
use report_lines::{put_line, put_state};

fn version_text(version: Version) -> &'static [u8]
    ensures { result.now ≡ version_text version }
{
    match version {
        Version::V03 => b"0.3",
        Version::V04 => b"0.4",
        Version::V05 => b"0.5",
    }
}

// The text of the first `Slogan` field, or `-`.
fn slogan_of(first_body: &[u8]) -> &[u8]
    ensures { result.now ≡ text_or_dash (find_value first_body.now (codes "Slogan")) }
{
    match find(first_body, b"Slogan") {
        Some(field) => &first_body[field.from..field.upto],
        None => b"-",
    }
}

/// Writes the version, the size, the number of sections and the slogan, a line each.
///
/// Returns `Failed` only if the sink failed; a proper prefix of the lines was written then.
pub fn put_heading<K: Sink>(sink: &mut K, index: &Index, first_body: &[u8]) -> Result<(), Failed>
    ensures { let version = version_text index.now.version in
        Puts (K.state sink.old) (K.state sink.new)
        (info_heading version index.now.size (length index.now.headers) first_body.now) result }
{
    let newline = Piece::Bytes(b"\n");
    put_pieces(
        sink,
        &[
            Piece::Bytes(b"version "),
            Piece::Bytes(version_text(index.version())),
            newline,
            Piece::Bytes(b"size "),
            Piece::Dec(index.size()),
            newline,
            Piece::Bytes(b"sections "),
            Piece::Dec(index.len() as u64),
            newline,
            Piece::Bytes(b"slogan "),
            Piece::Bytes(slogan_of(first_body)),
            newline,
        ],
    )
}

fn put_tag<K: Sink>(sink: &mut K, tag: &[u8], count: u64) -> Result<(), Failed>
    ensures { Puts (K.state sink.old) (K.state sink.new) (tag_line (tag.now, count)) result }
{
    put_line(
        sink,
        b" ",
        &[Piece::Bytes(b"tag"), Piece::Dec(count), Piece::Bytes(tag)],
    )
}

fn put_tags<K: Sink>(sink: &mut K, tags: &Tags) -> Result<(), Failed>
    ensures { Puts (K.state sink.old) (K.state sink.new) (flat_map tag_line tags.now) result }
{
    for i in 0..tags.len() {
        let (tag, count) = tags.at(i);
        put_tag(sink, tag, count)?;
    }
    Ok(())
}

/// Writes the version, the size in bytes, the number of sections and the slogan,
/// which is the first `Slogan` field of the first section's body, or `-`. Then come a
/// line for each tag, with the number of sections that have it, in the order in which
/// the tags first appear, and the state line, as in [`put_index`](crate::put_index).
pub fn put_info<K: Sink>(
    sink: &mut K,
    index: &Index,
    tags: &Tags,
    first_body: &[u8],
) -> Result<(), Failed>
    ensures { let version = version_text index.now.version in
        Puts (K.state sink.old) (K.state sink.new)
        (info_report version index.now.headers index.now.size tags.now first_body.now) result }
{
    put_heading(sink, index, first_body)?;
    put_tags(sink, tags)?;
    put_state(sink, index)
}
