// What `index` reports on the first bytes of a dump, by what it reports on the whole.
use dump_io::dec_u64;
use std::alloc::{AllocError, Global};

// A line on a section: the offsets of its header and of its body, and the header's text.
#[derive(Clone, Copy)]
struct SectionLine<'a> {
    line: &'a str,
    at: u64,
    body: u64,
    text: &'a str,
}

// A line of a report, if it is on a section.
fn section_line(line: &str) -> Option<SectionLine<'_>> {
    let (at, rest) = line.split_once(' ')?;
    let (body, rest) = rest.split_once(' ')?;
    let (_end, text) = rest.split_once(' ')?;
    Some(SectionLine {
        line,
        at: dec_u64(at.as_bytes())?,
        body: dec_u64(body.as_bytes())?,
        text,
    })
}

// The first `count` bytes of a text, if it has that many.
fn front_of(text: &str, count: u64) -> &str {
    match usize::try_from(count) {
        Ok(count) => text.get(..count).unwrap_or(text),
        Err(_) => text,
    }
}

// The line on the last section of which a dump with this length has a byte, and that on its state.
fn put_end(
    alloc: Global,
    into: &mut String,
    last: SectionLine<'_>,
    length: u64,
) -> Result<(), AllocError> {
    let SectionLine { at, body, .. } = last;
    let text = front_of(last.text, length.saturating_sub(at));
    let body = body.min(length);
    into.push_str(format!(in alloc; "{at} {body} {length} {text}\n")?.as_str())?;
    if text == "=end" {
        into.push_str("whole\n")
    } else {
        into.push_str(format!(in alloc; "truncated {at} {text}\n")?.as_str())
    }
}

/// The report of `index` on the first bytes of a dump, on which it reports this.
pub fn cut_report(alloc: Global, report: &str, length: u64) -> Result<String, AllocError> {
    let mut cut = String::new(alloc);
    let mut last = None;
    for section in report.lines().map_while(section_line) {
        if section.at >= length {
            break;
        }
        if let Some(SectionLine { line, .. }) = last {
            cut.push_str(line)?;
            cut.push('\n')?;
        }
        last = Some(section);
    }
    if let Some(last) = last {
        put_end(alloc, &mut cut, last, length)?;
    }
    Ok(cut)
}
