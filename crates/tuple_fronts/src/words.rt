// The words that shapes are made of.
ghost use Rattle.std.specs.Prelude.{◌≡◌, ◌++◌, OnOk};
ghost use Rattle.term_forms.specs.Seen.{element};
ghost use Rattle.tuple_fronts.specs.Shapes.{atom_shape, tag_text};
ghost use Rattle.tuple_fronts.specs.CellTexts.{comma_behind, end_text, kind_text};
ghost use Rattle.tuple_fronts.specs.Shapes.{or_pid, plain_shape, plain_with};
ghost use Rattle.term_forms.specs.Elements.{Pid};

use crate::first_elements::MOST_ELEMENTS;
use dump_io::{MemSink, put_atom};
use heap_skeleton::Kind;
use std::alloc::{AllocError, Global};
use term_forms::shapes::Elem;
use text_groups::cut_text;

// Appends the text of an atom, which is cut.
fn push_atom(alloc: Global, text: &mut Vec<u8>, name: &[u8]) -> Result<(), AllocError>
    ensures { OnOk result (text.new.items ≡ text.old.items ++ atom_shape name.now) }
{
    let mut sink = MemSink::new(alloc, 0, Vec::new(alloc));
    let Ok(()) = put_atom(&mut sink, name) else {
        return Err(AllocError);
    };
    text.extend_from_slice(cut_text(sink.written()))
}

/// Appends the shape of an element that leads to no cell.
pub fn push_plain(alloc: Global, text: &mut Vec<u8>, e: &Elem<'_>) -> Result<(), AllocError>
    ensures { OnOk result (text.new.items ≡ text.old.items ++ plain_shape (element e.now)) }
{
    match e {
        Elem::Nil => text.extend_from_slice(b"[]"),
        Elem::Small(_) => text.extend_from_slice(b"integer()"),
        Elem::Atom(name) => push_atom(alloc, text, name),
        Elem::Pid(_) => text.extend_from_slice(b"pid()"),
        Elem::Port(_) => text.extend_from_slice(b"port()"),
        Elem::Ref(_) => text.extend_from_slice(b"missing()"),
    }
}

/// Appends at most the first 255 bytes of the text of a pid, if pids are shown, and otherwise `unshown`.
pub(crate) fn push_pid(
    text: &mut Vec<u8>,
    pid: &[u8],
    unshown: &[u8],
    pids: bool,
) -> Result<(), AllocError>
    ensures { OnOk result (text.new.items ≡ text.old.items ++ or_pid pids unshown.now (Pid pid.now)) }
{
    if pids {
        text.extend_from_slice(cut_text(pid))
    } else {
        text.extend_from_slice(unshown)
    }
}

/// Appends the shape of an element that leads to no cell; of a pid at most the first 255 bytes of its text, if pids are shown.
pub fn push_plain_with(
    alloc: Global,
    text: &mut Vec<u8>,
    e: &Elem<'_>,
    pids: bool,
) -> Result<(), AllocError>
    ensures { OnOk result (text.new.items ≡ text.old.items ++ plain_with pids (element e.now)) }
{
    match e {
        Elem::Pid(pid) => push_pid(text, pid, b"pid()", pids),
        _ => push_plain(alloc, text, e),
    }
}

/// Appends the first element of a tuple inside a message, if no pid is shown.
pub(crate) fn push_tag(alloc: Global, text: &mut Vec<u8>, e: &Elem<'_>) -> Result<(), AllocError>
    ensures { OnOk result (text.new.items ≡ text.old.items ++ tag_text (element e.now)) }
{
    match e {
        Elem::Atom(name) => push_atom(alloc, text, name),
        _ => text.extend_from_slice(b"_"),
    }
}

/// The shape of a cell of this kind, which is no tuple.
pub(crate) fn kind_word(kind: Option<Kind>) -> &'static [u8]
    ensures { result.now ≡ kind_text kind }
{
    match kind {
        Some(Kind::List) => b"list()",
        Some(Kind::Float) => b"float()",
        Some(Kind::Long) => b"integer()",
        Some(Kind::Pid) => b"pid()",
        Some(Kind::Port) => b"port()",
        Some(Kind::Ext) => b"external()",
        Some(Kind::HeapBin | Kind::RefBin | Kind::SubBin) => b"binary()",
        Some(Kind::Flat | Kind::Hash) => b"map()",
        _ => b"malformed()",
    }
}

/// Appends a comma, if so many elements stand before.
pub(crate) fn push_comma(text: &mut Vec<u8>, before: usize) -> Result<(), AllocError>
    ensures { OnOk result (text.new.items ≡ text.old.items ++ comma_behind before) }
{
    if before > 0 {
        text.push(b',')?;
    }
    Ok(())
}

/// Appends what stands behind the shown elements of a tuple, given how many are shown and how many it has.
pub(crate) fn push_end(text: &mut Vec<u8>, shown: usize, all: usize) -> Result<(), AllocError>
    ensures { OnOk result (text.new.items ≡ text.old.items ++ end_text shown all) }
{
    if all > MOST_ELEMENTS {
        push_comma(text, shown)?;
        text.extend_from_slice(b"...")?;
    }
    text.push(b'}')?;
    Ok(())
}
