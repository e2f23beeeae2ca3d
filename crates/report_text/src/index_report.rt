// The report of `index`.
ghost use Rattle.std.specs.Prelude.{◌<◌};
ghost use Rattle.std.specs.List.{flat_map};
ghost use Rattle.dump_io.specs.Sinks.{Puts};
ghost use Rattle.dump_sections.specs.Index.{sections_in};
ghost use Rattle.dump_sections.specs.Sections.{section};
ghost use Rattle.report_text.specs.Reports.{section_line, index_report};

use dump_io::{Failed, Piece, Sink};
use dump_sections::{Extent, Index};
use report_lines::{put_line, put_state};

fn put_section<K: Sink>(sink: &mut K, s: &Extent<'_>) -> Result<(), Failed>
    ensures { Puts (K.state sink.old) (K.state sink.new)
        (section_line (section s.now.at s.now.body s.now.end s.now.text.now)) result }
{
    put_line(
        sink,
        b" ",
        &[
            Piece::Dec(s.at),
            Piece::Dec(s.body),
            Piece::Dec(s.end),
            Piece::Bytes(s.text),
        ],
    )
}

fn put_sections<K: Sink>(sink: &mut K, index: &Index) -> Result<(), Failed>
    ensures { Puts (K.state sink.old) (K.state sink.new)
        (flat_map section_line (sections_in index.now)) result }
{
    for i in 0..index.len() {
        put_section(sink, &index.extent(i))?;
    }
    Ok(())
}

/// Writes a line for each section, `AT BODY END TEXT`: the offsets at which its header and its body
/// begin and at which it ends, and its header's text. Then comes the state line: `whole`, or
/// `truncated` with the offset and the header's text of the section in which the dump is truncated.
pub fn put_index<K: Sink>(sink: &mut K, index: &Index) -> Result<(), Failed>
    ensures { Puts (K.state sink.old) (K.state sink.new)
        (index_report index.now.headers index.now.size) result }
{
    put_sections(sink, index)?;
    put_state(sink, index)
}
