// The texts of leaves and of bad addresses.
ghost use Rattle.std.specs.Prelude.{◌≡◌, ◌≤◌, ◌*◌, ◌++◌, length, codes, true, IsSome, IfSome};
ghost use Rattle.std.specs.List.{flat_map};
ghost use Rattle.std.specs.Option.{option_copied};
ghost use Rattle.dump_io.specs.Sinks.{Puts};
ghost use Rattle.dump_io.specs.Numbers.{hex_byte};
ghost use Rattle.heap_cells.specs.HeapMap.{IsBounded, IsSpelled};
ghost use Rattle.heap_cells.specs.Targets.{number};
ghost use Rattle.binary_payloads.specs.Payload.{IsPayloadOf};
ghost use Rattle.term_forms.specs.Seen.{element};
ghost use Rattle.term_forms.specs.SeenForms.{heap_form};
ghost use Rattle.binary_refs.specs.Previews.{entry_at, stated, AreFor};
ghost use Rattle.term_unfold.specs.Inner.Openings.{is_immediate, is_leaf_form, IsLeafCell};
ghost use Rattle.term_unfold.specs.Leaves.{element_text, port_text, dots, preview_text, preview_of, sized_text, own_preview, form_text};
ghost use Rattle.term_unfold.specs.Text.{reason, bad_text};
ghost use Rattle.term_unfold.specs.Inner.Written.{HasEntryIf, text_of_cell};

use binary_refs::{Preview, Previews};
use dump_io::{Failed, Piece, Sink, put_atom, put_pieces, write_all};
use heap_cells::{CellIx, Heap, Why};
use hex::encode_to_slice;
use term_forms::shapes::{Elem, Form};
use term_forms::{Enc, payload_part};

/// The word for why an address is bad.
pub fn why_text(why: Why) -> &'static [u8]
    ensures { result.now ≡ reason why }
{
    match why {
        Why::Missing => b"missing",
        Why::Malformed => b"malformed",
        Why::OnPath => b"onpath",
    }
}

/// Writes a bad address in its place.
pub(crate) fn put_bad<K: Sink>(sink: &mut K, addr: u64, why: Why) -> Result<(), Failed>
    ensures { Puts (K.state sink.old) (K.state sink.new) (bad_text addr why) result }
{
    put_pieces(
        sink,
        &[
            Piece::Bytes(b"!"),
            Piece::Bytes(why_text(why)),
            Piece::Bytes(b":"),
            Piece::Hex(addr),
        ],
    )
}

fn put_port<K: Sink>(sink: &mut K, port: &[u8]) -> Result<(), Failed>
    ensures { Puts (K.state sink.old) (K.state sink.new) (port_text port.now) result }
{
    put_pieces(sink, &[Piece::Bytes(b"#Port"), Piece::Bytes(port)])
}

/// Writes an immediate.
pub(crate) fn put_element<K: Sink>(sink: &mut K, e: &Elem<'_>) -> Result<(), Failed>
    requires { is_immediate (element e.now) ≡ true }
    ensures { Puts (K.state sink.old) (K.state sink.new) (element_text (element e.now)) result }
{
    match e {
        Elem::Nil => write_all(sink, b"[]"),
        Elem::Small(integer) => write_all(sink, integer),
        Elem::Atom(name) => put_atom(sink, name),
        Elem::Pid(pid) => write_all(sink, pid),
        Elem::Port(port) => put_port(sink, port),
        Elem::Ref(_) => unreachable!(),
    }
}

fn dots_text(size: u64) -> &'static [u8]
    ensures { result.now ≡ dots size }
{
    if size > 32 { b".." } else { b"" }
}

// Writes the digits of bytes in upper-case hex into a buffer.
fn write_digits(bytes: &[u8], into: &mut [u8])
    requires { length into.old ≡ 2 * length bytes.now }
    ensures { into.new ≡ flat_map hex_byte bytes.now }
{
    // It fails only where the buffer has another length.
    let _ = encode_to_slice(bytes, into);
    into.make_ascii_uppercase();
}

// Writes at most 32 bytes in upper-case hex.
fn put_digits<K: Sink>(sink: &mut K, bytes: &[u8]) -> Result<(), Failed>
    requires { length bytes.now ≤ 32 }
    ensures { Puts (K.state sink.old) (K.state sink.new) (flat_map hex_byte bytes.now) result }
{
    let mut buffer = [0; 64];
    let digits = &mut buffer[..2 * bytes.len()];
    write_digits(bytes, digits);
    write_all(sink, digits)
}

fn put_known<K: Sink>(sink: &mut K, size: u64, bytes: &[u8]) -> Result<(), Failed>
    requires { length bytes.now ≤ 32 }
    ensures { Puts (K.state sink.old) (K.state sink.new)
        (flat_map hex_byte bytes.now ++ dots size) result }
{
    put_digits(sink, bytes)?;
    write_all(sink, dots_text(size))
}

fn put_preview<K: Sink>(sink: &mut K, size: u64, preview: Option<&[u8]>) -> Result<(), Failed>
    requires { IfSome preview (λ bytes. length bytes.now ≤ 32) }
    ensures { Puts (K.state sink.old) (K.state sink.new)
        (preview_text size (option_copied preview.entry)) result }
{
    match preview {
        None => write_all(sink, b"?"),
        Some(bytes) => put_known(sink, size, bytes),
    }
}

// Writes a word, the size of a binary, and its preview.
fn put_sized<K: Sink>(
    sink: &mut K,
    word: &[u8],
    size: u64,
    preview: Option<&[u8]>,
) -> Result<(), Failed>
    requires { IfSome preview (λ bytes. length bytes.now ≤ 32) }
    ensures { Puts (K.state sink.old) (K.state sink.new)
        (sized_text word.now size (option_copied preview.entry)) result }
{
    put_pieces(
        sink,
        &[Piece::Bytes(word), Piece::Dec(size), Piece::Bytes(b":")],
    )?;
    put_preview(sink, size, preview)?;
    write_all(sink, b">")
}

// Writes a cell that holds its own payload.
fn put_payload<K: Sink>(
    sink: &mut K,
    word: &[u8],
    enc: Enc,
    size: u64,
    chars: &[u8],
) -> Result<(), Failed>
    requires { IsPayloadOf enc chars.now size }
    ensures { Puts (K.state sink.old) (K.state sink.new)
        (sized_text word.now size (own_preview enc size chars.now)) result }
{
    let mut buffer = [0; 32];
    let first = &mut buffer[..size.min(32) as usize];
    payload_part(chars, enc, size, 0, first);
    put_sized(sink, word, size, Some(first))
}

// The first bytes of what a cell refers to, if they are known.
fn preview_of<'a>(previews: &'a Previews, ix: CellIx) -> Option<&'a [u8]>
    requires { IsSome (entry_at previews.now (number ix)) }
    ensures bytes { option_copied result ≡ preview_of previews.now (number ix) }
    ensures few { IfSome result (λ bytes. length bytes.now ≤ 32) }
{
    match previews.get(ix) {
        Preview::Bytes(bytes, _) => Some(bytes),
        Preview::Unknown(_) => None,
    }
}

// Writes a cell that refers to a binary of this size.
fn put_reference<K: Sink>(
    sink: &mut K,
    previews: &Previews,
    ix: CellIx,
    size: u64,
) -> Result<(), Failed>
    requires { IsSome (entry_at previews.now (number ix)) }
    ensures { Puts (K.state sink.old) (K.state sink.new)
        (sized_text (codes "#Bin<") size (preview_of previews.now (number ix))) result }
{
    put_sized(sink, b"#Bin<", size, preview_of(previews, ix))
}

// Writes a leaf's form. If it refers to a binary, it has a preview.
fn put_form<K: Sink>(
    sink: &mut K,
    enc: Enc,
    form: &Form<'_>,
    previews: &Previews,
    ix: CellIx,
) -> Result<(), Failed>
    requires leaf { is_leaf_form (heap_form form.now) ≡ true }
    requires spelled { IsSpelled enc (heap_form form.now) }
    requires entry { HasEntryIf (stated (number ix) (heap_form form.now)) previews.now (number ix) }
    ensures { Puts (K.state sink.old) (K.state sink.new)
        (form_text enc (preview_of previews.now (number ix)) (heap_form form.now)) result }
{
    match form {
        Form::Float(bytes) => write_all(sink, bytes),
        Form::Long(digits) => write_all(sink, digits),
        Form::Pid(pid) => write_all(sink, pid),
        Form::Port(port) => put_port(sink, port),
        Form::Ext(size, chars) => put_payload(sink, b"#Ext<", enc, *size, chars),
        Form::HeapBin(size, chars) => put_payload(sink, b"#Bin<", enc, *size, chars),
        Form::RefBin(_, _, size) => put_reference(sink, previews, ix, *size),
        Form::SubBin(_, _, size) => put_reference(sink, previews, ix, *size),
        _ => unreachable!(),
    }
}

/// Writes a cell that is a leaf.
pub(crate) fn put_cell<K: Sink>(
    sink: &mut K,
    heap: &Heap,
    previews: &Previews,
    ix: CellIx,
) -> Result<(), Failed>
    requires leaf { IsLeafCell heap.now.cells (number ix) }
    requires bounded { IsBounded heap.now }
    requires previews { AreFor heap.now.cells previews.now }
    ensures { Puts (K.state sink.old) (K.state sink.new)
        (text_of_cell heap.now previews.now (number ix)) result }
{
    match heap.form(ix) {
        Some(form) => put_form(sink, heap.enc(), &form, previews, ix),
        None => unreachable!(),
    }
}
