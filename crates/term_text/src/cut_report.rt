// What a truncated dump may lack of what is read of a process.
ghost use Rattle.std.specs.Prelude.{◌≡◌, ◌<◌, false, not, length, is_some, Some};
ghost use Rattle.std.specs.List.{flat_map};
ghost use Rattle.dump_io.specs.Sinks.{Puts};
ghost use Rattle.dump_sections.specs.Bodies.{section_at, section_in, IsPlaceIn};
ghost use Rattle.dump_sections.specs.Index.{sections_in};
ghost use Rattle.dump_sections.specs.Shown.{shown_extent};
ghost use Rattle.heap_cells.specs.Loading.{heap_section};
ghost use Rattle.term_text.specs.Cuts.{absent_line, cut_line, cut_report, loss_line, loss_lines, may_be_cut, root_loss};

use dump_io::{Failed, Piece, Sink};
use dump_sections::{Extent, Index, State};
use report_lines::put_line;
use root_views::RootKind;

// Whether a section may be cut: the dump ends with it, or with an `abort` directly behind it.
fn may_be_cut(index: &Index, section: &Extent<'_>) -> bool
    ensures { result ≡ may_be_cut index.now (shown_extent section.now) }
{
    let last = index.section(index.len() - 1);
    section.end == index.size() || last.tag == b"abort".as_slice() && section.end == last.at
}

fn put_cut<K: Sink>(sink: &mut K, tag: &[u8], at: u64) -> Result<(), Failed>
    ensures { Puts (K.state sink.old) (K.state sink.new) (cut_line tag.now at) result }
{
    put_line(
        sink,
        b"\t",
        &[Piece::Bytes(b"cut"), Piece::Bytes(tag), Piece::Dec(at)],
    )
}

fn put_absent<K: Sink>(sink: &mut K, tag: &[u8]) -> Result<(), Failed>
    ensures { Puts (K.state sink.old) (K.state sink.new) (absent_line tag.now) result }
{
    put_line(sink, b"\t", &[Piece::Bytes(b"absent"), Piece::Bytes(tag)])
}

// Writes the line of a section that is there, if it may be cut.
fn put_there<K: Sink>(sink: &mut K, index: &Index, tag: &[u8], i: usize) -> Result<(), Failed>
    requires { i < length index.now.headers }
    ensures { Puts (K.state sink.old) (K.state sink.new)
        (loss_line index.now tag.now false (Some (section_at index.now i))) result }
{
    let section = index.extent(i);
    if may_be_cut(index, &section) {
        put_cut(sink, tag, section.at)
    } else {
        Ok(())
    }
}

// Writes the line on the section at `place`. A missing one has a line if that is a loss.
fn put_loss<K: Sink>(
    sink: &mut K,
    index: &Index,
    tag: &[u8],
    place: Option<usize>,
    is_loss: bool,
) -> Result<(), Failed>
    requires { IsPlaceIn index.now place }
    ensures { Puts (K.state sink.old) (K.state sink.new)
        (loss_line index.now tag.now is_loss (section_in index.now place)) result }
{
    match place {
        Some(i) => put_there(sink, index, tag, i),
        None if is_loss => put_absent(sink, tag),
        None => Ok(()),
    }
}

// Writes the line on the roots of a kind, given whether it is a loss if they are missing.
fn put_root_loss<K: Sink>(
    sink: &mut K,
    index: &Index,
    pid: &[u8],
    kind: RootKind,
    is_loss: bool,
) -> Result<(), Failed>
    requires { is_loss ≡ not (is_some (heap_section pid.now (sections_in index.now))) }
    ensures { Puts (K.state sink.old) (K.state sink.new) (root_loss index.now pid.now kind) result }
{
    let tag = kind.tag();
    put_loss(sink, index, tag, index.first(tag, Some(pid)), is_loss)
}

fn put_root_losses<K: Sink>(
    sink: &mut K,
    index: &Index,
    pid: &[u8],
    kinds: &[RootKind],
    is_loss: bool,
) -> Result<(), Failed>
    requires { is_loss ≡ not (is_some (heap_section pid.now (sections_in index.now))) }
    ensures { Puts (K.state sink.old) (K.state sink.new)
        (flat_map (root_loss index.now pid.now) kinds.now) result }
{
    for kind in kinds {
        put_root_loss(sink, index, pid, *kind, is_loss)?;
    }
    Ok(())
}

fn put_losses<K: Sink>(
    sink: &mut K,
    index: &Index,
    pid: &[u8],
    kinds: &[RootKind],
) -> Result<(), Failed>
    ensures { Puts (K.state sink.old) (K.state sink.new)
        (loss_lines index.now pid.now kinds.now) result }
{
    let heap = index.first(b"proc_heap", Some(pid));
    put_root_losses(sink, index, pid, kinds, heap.is_none())?;
    put_loss(sink, index, b"proc_heap", heap, true)?;
    put_loss(sink, index, b"literals", index.first_tag(b"literals"), true)
}

/// Writes the end of a report for which the roots of these kinds, the heap of the process and the literals are read: what a
/// truncated dump may lack of them. Of a whole dump nothing is written.
///
/// In the order of `kinds`, of the heap and of the literals a section has a line `cut TAG AT` with tabs between its parts if
/// the dump ends with it, or with an `abort` directly behind it; `AT` is the offset in the file of its header. It has a line
/// `absent TAG` if there is no such section. Roots that are missing have one only if the heap is missing too: a node writes a
/// process's heap behind its roots, and no section for an empty mailbox.
pub fn put_cuts<K: Sink>(
    sink: &mut K,
    index: &Index,
    pid: &[u8],
    kinds: &[RootKind],
) -> Result<(), Failed>
    ensures { Puts (K.state sink.old) (K.state sink.new) (cut_report index.now pid.now kinds.now) result }
{
    match index.state() {
        State::Whole => Ok(()),
        State::TruncatedIn(_) => put_losses(sink, index, pid, kinds),
    }
}
