// Writing elements and forms.
ghost use Rattle.std.specs.Prelude.{◌∷◌, ◌++◌, length, codes};
ghost use Rattle.dump_io.specs.Numbers.{hexadecimal};
ghost use Rattle.term_forms.specs.Appending.{Appends};
ghost use Rattle.term_forms.specs.Elements.{plain_elem};
ghost use Rattle.term_forms.specs.Words.{colon, comma};
ghost use Rattle.term_forms.specs.Forms.{plain_form, Cons, Flat, Hash};
ghost use Rattle.term_forms.specs.Joined.{plain_joined};
ghost use Rattle.term_forms.specs.Seen.{element};
ghost use Rattle.term_forms.specs.SeenForms.{heap_form};

use crate::elems::Elems;
use crate::shapes::{Elem, Form};
use dump_io::HexText;
use std::alloc::AllocError;

fn put_text(into: &mut Vec<u8>, text: &[u8]) -> Result<(), AllocError>
    ensures { Appends into.old into.new text.now result }
{
    if text.is_empty() {
        return Ok(());
    }
    into.extend_from_slice(text)
}

fn put_hex(into: &mut Vec<u8>, n: u64) -> Result<(), AllocError>
    ensures { Appends into.old into.new (hexadecimal n) result }
{
    put_text(into, HexText::new(n).bytes())
}

fn put_tagged(into: &mut Vec<u8>, tag: &[u8], text: &[u8]) -> Result<(), AllocError>
    ensures { Appends into.old into.new (tag.now ++ text.now) result }
{
    put_text(into, tag)?;
    put_text(into, text)
}

fn put_address(into: &mut Vec<u8>, address: u64) -> Result<(), AllocError>
    ensures { Appends into.old into.new (codes "H" ++ hexadecimal address) result }
{
    put_text(into, b"H")?;
    put_hex(into, address)
}

// A tag, a length, and that many bytes, or the characters that write that many.
fn put_sized(into: &mut Vec<u8>, tag: &[u8], size: u64, text: &[u8]) -> Result<(), AllocError>
    ensures { Appends into.old into.new (tag.now ++ (hexadecimal size ++ colon ∷ text.now)) result }
{
    put_text(into, tag)?;
    put_hex(into, size)?;
    put_tagged(into, b":", text)
}

/// Appends the plain spelling of an element: numbers in upper-case hex without
/// leading zeros, a port as `p<..>`. An error leaves a part of the spelling appended.
pub fn put_elem(into: &mut Vec<u8>, e: &Elem<'_>) -> Result<(), AllocError>
    ensures { Appends into.old into.new (plain_elem (element e.now)) result }
{
    match e {
        Elem::Nil => put_text(into, b"N"),
        Elem::Small(integer) => put_tagged(into, b"I", integer),
        Elem::Atom(bytes) => put_sized(into, b"A", bytes.len() as u64, bytes),
        Elem::Pid(pid) => put_tagged(into, b"P", pid),
        Elem::Port(port) => put_tagged(into, b"p", port),
        Elem::Ref(address) => put_address(into, *address),
    }
}

// An element after a comma.
fn put_next(into: &mut Vec<u8>, e: &Elem<'_>) -> Result<(), AllocError>
    ensures { Appends into.old into.new (comma ∷ plain_elem (element e.now)) result }
{
    put_text(into, b",")?;
    put_elem(into, e)
}

fn put_joined(into: &mut Vec<u8>, elements: &Elems<'_>) -> Result<(), AllocError>
    ensures { Appends into.old into.new (plain_joined elements.now) result }
{
    let mut rest = elements.again();
    let Some(first) = rest.next() else {
        return Ok(());
    };
    put_elem(into, &first)?;
    for e in rest {
        put_next(into, &e)?;
    }
    Ok(())
}

fn put_count(into: &mut Vec<u8>, elements: &Elems<'_>) -> Result<(), AllocError>
    ensures { Appends into.old into.new (hexadecimal (length elements.now)) result }
{
    put_hex(into, elements.left())
}

// A tag, the number of elements, and the elements.
fn put_counted(into: &mut Vec<u8>, tag: &[u8], elements: &Elems<'_>) -> Result<(), AllocError>
    ensures { Appends into.old into.new
        (tag.now ++ (hexadecimal (length elements.now) ++ colon ∷ plain_joined elements.now)) result }
{
    put_text(into, tag)?;
    put_count(into, elements)?;
    put_text(into, b":")?;
    put_joined(into, elements)
}

// Two numbers with a colon between them.
fn put_pair(into: &mut Vec<u8>, one: u64, other: u64) -> Result<(), AllocError>
    ensures { Appends into.old into.new (hexadecimal one ++ colon ∷ hexadecimal other) result }
{
    put_hex(into, one)?;
    put_text(into, b":")?;
    put_hex(into, other)
}

// A tag, an address, an offset and a size.
fn put_range(
    into: &mut Vec<u8>,
    tag: &[u8],
    address: u64,
    offset: u64,
    size: u64,
) -> Result<(), AllocError>
    ensures { Appends into.old into.new
        (tag.now ++ (hexadecimal address ++ colon ∷ (hexadecimal offset ++ colon ∷ hexadecimal size))) result }
{
    put_text(into, tag)?;
    put_hex(into, address)?;
    put_text(into, b":")?;
    put_pair(into, offset, size)
}

fn put_list(into: &mut Vec<u8>, head: &Elem<'_>, tail: &Elem<'_>) -> Result<(), AllocError>
    ensures { Appends into.old into.new
        (plain_form (Cons (element head.now) (element tail.now))) result }
{
    put_text(into, b"l")?;
    put_elem(into, head)?;
    put_text(into, b"|")?;
    put_elem(into, tail)
}

// The keys element and the values, each after a colon.
fn put_keyed(into: &mut Vec<u8>, keys: &Elem<'_>, values: &Elems<'_>) -> Result<(), AllocError>
    ensures { Appends into.old into.new
        (colon ∷ (plain_elem (element keys.now) ++ colon ∷ plain_joined values.now)) result }
{
    put_text(into, b":")?;
    put_elem(into, keys)?;
    put_text(into, b":")?;
    put_joined(into, values)
}

fn put_flat(into: &mut Vec<u8>, keys: &Elem<'_>, values: &Elems<'_>) -> Result<(), AllocError>
    ensures { Appends into.old into.new (plain_form (Flat (element keys.now) values.now)) result }
{
    put_text(into, b"Mf")?;
    put_count(into, values)?;
    put_keyed(into, keys, values)
}

fn put_hash(into: &mut Vec<u8>, size: u64, children: &Elems<'_>) -> Result<(), AllocError>
    ensures { Appends into.old into.new (plain_form (Hash size children.now)) result }
{
    put_text(into, b"Mh")?;
    put_hex(into, size)?;
    put_counted(into, b":", children)
}

/// Appends the plain spelling of a form: numbers in upper-case hex without leading zeros, a port as
/// `p<..>`, and all that was kept of the text as it was. An error leaves a part of the spelling appended.
pub fn put_form(into: &mut Vec<u8>, f: &Form<'_>) -> Result<(), AllocError>
    ensures { Appends into.old into.new (plain_form (heap_form f.now)) result }
{
    match f {
        Form::List(head, tail) => put_list(into, head, tail),
        Form::Tuple(elements) => put_counted(into, b"t", elements),
        Form::Float(bytes) => put_sized(into, b"F", bytes.len() as u64, bytes),
        Form::Long(number) => put_tagged(into, b"B", number),
        Form::Pid(pid) => put_tagged(into, b"P", pid),
        Form::Port(port) => put_tagged(into, b"p", port),
        Form::Ext(size, chars) => put_sized(into, b"E", *size, chars),
        Form::HeapBin(size, chars) => put_sized(into, b"Yh", *size, chars),
        Form::RefBin(address, offset, size) => put_range(into, b"Yc", *address, *offset, *size),
        Form::SubBin(address, offset, size) => put_range(into, b"Ys", *address, *offset, *size),
        Form::Flat(keys, values) => put_flat(into, keys, values),
        Form::Hash(size, children) => put_hash(into, *size, children),
        Form::Node(children) => put_counted(into, b"Mn", children),
    }
}
