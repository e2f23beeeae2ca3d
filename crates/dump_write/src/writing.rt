// The lines of a dump.
ghost use Rattle.std.specs.Prelude.{◌≡◌, false, IsTrue};
ghost use Rattle.std.specs.Option.{option_copied};
ghost use Rattle.dump_io.specs.Colons.{colon};
ghost use Rattle.dump_io.specs.Lines.{is_header};
ghost use Rattle.term_forms.specs.Forms.{plain_form};
ghost use Rattle.term_forms.specs.SeenForms.{heap_form};
ghost use Rattle.line_source.specs.Streams.{begins_with_equals};
ghost use Rattle.dump_write.specs.Written.{lacks, is_line_text, line, header_text, heap_text, IsOneLine, IsHeaderOf};
ghost use Rattle.term_forms.specs.Appending.{Appends};

use crate::appending::{append, append_line, append_pieces};
use dump_io::Piece::{Bytes, Hex};
use std::alloc::AllocError;
use term_forms::put_form;
use term_forms::shapes::Form;

fn append_header<'a>(
    into: &mut Vec<u8>,
    tag: &'a [u8],
    id: Option<&'a [u8]>,
) -> Result<(), AllocError>
    ensures { Appends into.old into.new
        (line (header_text tag.now (option_copied id.entry))) result }
{
    match id {
        Some(id) => append_line(into, &[Bytes(b"="), Bytes(tag), Bytes(b":"), Bytes(id)]),
        None => append_line(into, &[Bytes(b"="), Bytes(tag)]),
    }
}

/// Appends a header: `=`, the tag, and, if there is an id, a `:` and the id. The tag
/// has no colon, so that the header is read back with this tag and this id; neither
/// has an LF, and the line doesn't end in CR, which would belong to its end. Returns
/// an error only if memory is lacking; a proper prefix of the line was appended then.
pub fn put_header(into: &mut Vec<u8>, tag: &[u8], id: Option<&[u8]>) -> Result<(), AllocError>
    requires no_colon { IsTrue (lacks colon tag.now) }
    requires text { IsTrue (is_line_text (header_text tag.now (option_copied id))) }
    ensures appends { Appends into.old into.new
        (line (header_text tag.now (option_copied id.entry))) result }
    ensures one { let text = header_text tag.now (option_copied id.entry) in
        IsOneLine text (line text) }
    ensures header { let id = option_copied id.entry in
        IsHeaderOf (line (header_text tag.now id)) tag.now id }
{
    append_header(into, tag, id)
}

/// Appends a line that is no header: its text doesn't begin with `=`, has no LF, and doesn't end in
/// CR. Returns an error only if memory is lacking; a proper prefix of the line was appended then.
pub fn put_line(into: &mut Vec<u8>, text: &[u8]) -> Result<(), AllocError>
    requires line { IsTrue (is_line_text text.now) }
    requires no_header { begins_with_equals text.now ≡ false }
    ensures appends { Appends into.old into.new (line text.now) result }
    ensures one { IsOneLine text.now (line text.now) }
    ensures no_header { is_header (line text.now) ≡ false }
{
    append_line(into, &[Bytes(text)])
}

fn append_cell(into: &mut Vec<u8>, addr: u64, f: &Form<'_>) -> Result<(), AllocError>
    ensures { Appends into.old into.new (line (heap_text addr (heap_form f.now))) result }
{
    append_pieces(into, &[Hex(addr), Bytes(b":")])?;
    put_form(into, f)?;
    append(into, b"\n")
}

/// Appends the line of a heap cell: its address in upper-case hex, `:`, and the
/// form in its plain spelling, which has no LF and doesn't end in CR. Returns an
/// error only if memory is lacking; a proper prefix of the line was appended then.
pub fn put_heap(into: &mut Vec<u8>, addr: u64, f: &Form<'_>) -> Result<(), AllocError>
    requires { IsTrue (is_line_text (plain_form (heap_form f.now))) }
    ensures appends { Appends into.old into.new (line (heap_text addr (heap_form f.now))) result }
    ensures one { let text = heap_text addr (heap_form f.now) in IsOneLine text (line text) }
    ensures no_header { is_header (line (heap_text addr (heap_form f.now))) ≡ false }
{
    append_cell(into, addr, f)
}
