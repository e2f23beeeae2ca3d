// Writing a term.
ghost use Rattle.std.specs.Prelude.{◌≡◌, ℕ, ◌≤◌, ◌<◌, List, [], ◌∷◌, ◌++◌, length, take, reverse, codes, decimal, if◌then◌else◌, nat_lt, ◌==◌};
ghost use Rattle.std.specs.List.{flat_map};
ghost use Rattle.dump_io.specs.Sinks.{Puts};
ghost use Rattle.dump_io.specs.Atoms.{atom_text};
ghost use Rattle.dump_io.specs.Numbers.{hex_byte};
ghost use Rattle.dump_io.specs.Pieces.{pieces_text};
ghost use Rattle.etf_terms.specs.Heads.{kids};
ghost use Rattle.etf_terms.specs.Inner.Parts.{head};
ghost use Rattle.etf_terms.specs.Inner.Serving.{Serves};
ghost use Rattle.etf_terms.specs.Inner.Standing.{entered, ended, Moves, StandsWith, own_of};
ghost use Rattle.etf_terms.specs.Terms.{Term, IsTerm};
ghost use Rattle.etf_terms.specs.Text.{terms_kind, dotted, float_text, bits_text, pid_text, external_port_text, words_text, ref_text, int_text, comma_number, chars_text, fun_text, first_bytes_text, bin_text, digits_text, big_text, opening_text, closing, between, is_end, text, export_text};
ghost use Rattle.etf_terms.specs.Inner.Awaiting.{Falls};

use crate::heads::{HeadRead, number4, read_head};
use crate::stack::{Entry, Kind, Stack};
use dump_io::{
    Failed, Piece, Sink, hex_pair, put_atom, put_dec, put_hex_bytes, put_pieces, write_all,
};

fn closing_text(kind: Kind, kids: u64) -> &'static [u8]
    ensures { result.now ≡ closing kind kids }
{
    match kind {
        Kind::Plain => b"",
        Kind::Tuple => b"}",
        Kind::Fun => b">",
        Kind::Linked => { if kids == 1 { b"" } else { b"]" } }
        Kind::Pairs => b"}",
    }
}

fn between_text(kind: Kind, kids: u64, i: u64) -> &'static [u8]
    requires { i < kids }
    ensures { result.now ≡ between kind kids i }
{
    match kind {
        Kind::Plain => b"",
        Kind::Tuple => { if i == 0 { b"" } else { b"," } }
        Kind::Fun => { if i == 0 { b"" } else { b"," } }
        Kind::Linked => {
            if i == 0 {
                b""
            } else if i + 1 == kids {
                b"|"
            } else {
                b","
            }
        }
        Kind::Pairs => {
            if i == 0 {
                b""
            } else if i % 2 == 1 {
                b"=>"
            } else {
                b","
            }
        }
    }
}

// Whether the term is the end of a list.
fn ends(kind: Kind, kids: u64, i: u64, found: &HeadRead<'_>) -> bool
    requires { i < kids }
    ensures { result ≡ is_end kind kids i (head found.now) }
{
    match (kind, *found) {
        (Kind::Linked, HeadRead::Nil) => 0 < i && i + 1 == kids,
        _ => false,
    }
}

fn kind(found: &HeadRead<'_>) -> Kind
    ensures { result ≡ terms_kind (head found.now) }
{
    match *found {
        HeadRead::Tuple(_) => Kind::Tuple,
        HeadRead::Linked(_) => Kind::Linked,
        HeadRead::Fun(_, _, _, _) => Kind::Fun,
        HeadRead::Pairs(_) => Kind::Pairs,
        _ => Kind::Plain,
    }
}

fn dots(size: usize) -> &'static [u8]
    ensures { result.now ≡ (if nat_lt 32 size then codes ".." else []) }
{
    if size > 32 { b".." } else { b"" }
}

fn first_bytes(bytes: &[u8]) -> &[u8]
    ensures { result.now ≡ take 32 bytes.now }
{
    if bytes.len() > 32 {
        &bytes[..32]
    } else {
        bytes
    }
}

// The first bytes of a binary, and what closes it.
fn put_preview<K: Sink>(sink: &mut K, bytes: &[u8]) -> Result<(), Failed>
    ensures { Puts (K.state sink.old) (K.state sink.new) (first_bytes_text bytes.now) result }
{
    put_hex_bytes(sink, first_bytes(bytes))?;
    write_all(sink, dots(bytes.len()))?;
    write_all(sink, b">")
}

fn put_bin<K: Sink>(sink: &mut K, bytes: &[u8]) -> Result<(), Failed>
    ensures { Puts (K.state sink.old) (K.state sink.new) (bin_text bytes.now) result }
{
    let pieces = [
        Piece::Bytes(b"#Bin<"),
        Piece::Dec(bytes.len() as u64),
        Piece::Bytes(b":"),
    ];
    put_pieces(sink, &pieces)?;
    put_preview(sink, bytes)
}

// The digits from the last to the first.
fn put_digits<K: Sink>(sink: &mut K, digits: &[u8]) -> Result<(), Failed>
    ensures { Puts (K.state sink.old) (K.state sink.new)
        (flat_map hex_byte (reverse digits.now)) result }
{
    let mut left = digits.len();
    while left > 0 {
        left -= 1;
        write_all(sink, &hex_pair(digits[left]))?;
    }
    Ok(())
}

fn minus(sign: u8) -> &'static [u8]
    ensures { result.now ≡ (if sign == 1 then codes "-" else []) }
{
    if sign == 1 { b"-" } else { b"" }
}

fn put_number<K: Sink>(sink: &mut K, digits: &[u8]) -> Result<(), Failed>
    ensures { Puts (K.state sink.old) (K.state sink.new) (digits_text digits.now) result }
{
    if digits.len() == 0 {
        write_all(sink, b"00")
    } else {
        put_digits(sink, digits)
    }
}

fn put_big<K: Sink>(sink: &mut K, sign: u8, digits: &[u8]) -> Result<(), Failed>
    ensures { Puts (K.state sink.old) (K.state sink.new) (big_text sign digits.now) result }
{
    put_pieces(sink, &[Piece::Bytes(minus(sign)), Piece::Bytes(b"16#")])?;
    put_number(sink, digits)
}

fn put_export<K: Sink>(sink: &mut K, name: &[u8], function: &[u8], arity: u8) -> Result<(), Failed>
    ensures { Puts (K.state sink.old) (K.state sink.new)
        (export_text name.now function.now arity) result }
{
    put_named(sink, b"fun ", name, &[Piece::Bytes(b":")])?;
    put_atom(sink, function)?;
    put_led(sink, b"/", arity as u64)
}

// A number behind a text.
fn put_led<K: Sink>(sink: &mut K, front: &[u8], n: u64) -> Result<(), Failed>
    ensures { Puts (K.state sink.old) (K.state sink.new) (front.now ++ decimal n) result }
{
    write_all(sink, front)?;
    put_dec(sink, n)
}

fn put_dotted<K: Sink>(sink: &mut K, n: u64) -> Result<(), Failed>
    ensures { Puts (K.state sink.old) (K.state sink.new) (dotted n) result }
{
    put_led(sink, b".", n)
}

// An atom between a text and some pieces.
fn put_named<K: Sink>(
    sink: &mut K,
    front: &[u8],
    name: &[u8],
    pieces: &[Piece<'_>],
) -> Result<(), Failed>
    ensures { Puts (K.state sink.old) (K.state sink.new)
        (front.now ++ (atom_text name.now ++ pieces_text pieces.now)) result }
{
    write_all(sink, front)?;
    put_atom(sink, name)?;
    put_pieces(sink, pieces)
}

fn put_float<K: Sink>(sink: &mut K, bytes: &[u8]) -> Result<(), Failed>
    ensures { Puts (K.state sink.old) (K.state sink.new) (float_text bytes.now) result }
{
    write_all(sink, b"#Float<")?;
    put_hex_bytes(sink, bytes)?;
    write_all(sink, b">")
}

fn put_bits<K: Sink>(sink: &mut K, bits: u8, bytes: &[u8]) -> Result<(), Failed>
    ensures { Puts (K.state sink.old) (K.state sink.new) (bits_text bits bytes.now) result }
{
    let pieces = [
        Piece::Bytes(b"#Bits<"),
        Piece::Dec(bytes.len() as u64),
        Piece::Bytes(b"/"),
        Piece::Dec(bits as u64),
        Piece::Bytes(b":"),
    ];
    put_pieces(sink, &pieces)?;
    put_preview(sink, bytes)
}

fn put_pid<K: Sink>(
    sink: &mut K,
    name: &[u8],
    id: u32,
    serial: u32,
    creation: u32,
) -> Result<(), Failed>
    ensures { Puts (K.state sink.old) (K.state sink.new)
        (pid_text name.now id serial creation) result }
{
    let pieces = [
        Piece::Bytes(b"."),
        Piece::Dec(id as u64),
        Piece::Bytes(b"."),
        Piece::Dec(serial as u64),
        Piece::Bytes(b"."),
        Piece::Dec(creation as u64),
        Piece::Bytes(b">"),
    ];
    put_named(sink, b"#Pid<", name, &pieces)
}

fn put_port<K: Sink>(sink: &mut K, name: &[u8], id: u64, creation: u32) -> Result<(), Failed>
    ensures { Puts (K.state sink.old) (K.state sink.new)
        (external_port_text name.now id creation) result }
{
    let pieces = [
        Piece::Bytes(b"."),
        Piece::Dec(id),
        Piece::Bytes(b"."),
        Piece::Dec(creation as u64),
        Piece::Bytes(b">"),
    ];
    put_named(sink, b"#Port<", name, &pieces)
}

// Each word of four bytes.
fn put_words<K: Sink>(sink: &mut K, words: &[u8]) -> Result<(), Failed>
    ensures { Puts (K.state sink.old) (K.state sink.new) (words_text words.now) result }
{
    let mut rest = words;
    while let Ok((word, behind)) = number4(rest) {
        put_dotted(sink, word as u64)?;
        rest = behind;
    }
    Ok(())
}

fn put_ref<K: Sink>(sink: &mut K, name: &[u8], creation: u32, words: &[u8]) -> Result<(), Failed>
    ensures { Puts (K.state sink.old) (K.state sink.new)
        (ref_text name.now creation words.now) result }
{
    let pieces = [Piece::Bytes(b"."), Piece::Dec(creation as u64)];
    put_named(sink, b"#Ref<", name, &pieces)?;
    put_words(sink, words)?;
    write_all(sink, b">")
}

fn put_int<K: Sink>(sink: &mut K, n: u32) -> Result<(), Failed>
    ensures { Puts (K.state sink.old) (K.state sink.new) (int_text n) result }
{
    if n < 2147483648 {
        put_dec(sink, n as u64)
    } else {
        put_led(sink, b"-", 4294967296 - n as u64)
    }
}

fn put_comma_number<K: Sink>(sink: &mut K, n: u8) -> Result<(), Failed>
    ensures { Puts (K.state sink.old) (K.state sink.new) (comma_number n) result }
{
    put_led(sink, b",", n as u64)
}

fn put_numbers<K: Sink>(sink: &mut K, bytes: &[u8]) -> Result<(), Failed>
    ensures { Puts (K.state sink.old) (K.state sink.new) (flat_map comma_number bytes.now) result }
{
    for c in bytes {
        put_comma_number(sink, *c)?;
    }
    Ok(())
}

fn put_some<K: Sink>(sink: &mut K, first: u8, others: &[u8]) -> Result<(), Failed>
    ensures { Puts (K.state sink.old) (K.state sink.new) (chars_text (first ∷ others.now)) result }
{
    put_pieces(sink, &[Piece::Bytes(b"["), Piece::Dec(first as u64)])?;
    put_numbers(sink, others)?;
    write_all(sink, b"]")
}

fn put_chars<K: Sink>(sink: &mut K, bytes: &[u8]) -> Result<(), Failed>
    ensures { Puts (K.state sink.old) (K.state sink.new) (chars_text bytes.now) result }
{
    match bytes.split_first() {
        None => write_all(sink, b"[]"),
        Some((first, others)) => put_some(sink, *first, others),
    }
}

fn put_fun<K: Sink>(sink: &mut K, name: &[u8], index: u32, arity: u8) -> Result<(), Failed>
    ensures { Puts (K.state sink.old) (K.state sink.new) (fun_text name.now index arity) result }
{
    let pieces = [
        Piece::Bytes(b"/"),
        Piece::Dec(index as u64),
        Piece::Bytes(b"/"),
        Piece::Dec(arity as u64),
        Piece::Bytes(b":"),
    ];
    put_named(sink, b"#Fun<", name, &pieces)
}

fn bracket(n: u32) -> &'static [u8]
    ensures { result.now ≡ (if n == 0 then [] else codes "[") }
{
    if n == 0 { b"" } else { b"[" }
}

fn put_opening<K: Sink>(sink: &mut K, found: &HeadRead<'_>) -> Result<(), Failed>
    ensures { Puts (K.state sink.old) (K.state sink.new) (opening_text (head found.now)) result }
{
    match *found {
        HeadRead::Float(bytes) => put_float(sink, bytes),
        HeadRead::Bits(bits, bytes) => put_bits(sink, bits, bytes),
        HeadRead::Pid(name, id, serial, creation) => put_pid(sink, name, id, serial, creation),
        HeadRead::Port(name, id, creation) => put_port(sink, name, id, creation),
        HeadRead::Ref(name, creation, words) => put_ref(sink, name, creation, words),
        HeadRead::Int(value) => put_int(sink, value),
        HeadRead::Chars(bytes) => put_chars(sink, bytes),
        HeadRead::Fun(name, index, arity, _) => put_fun(sink, name, index, arity),
        HeadRead::Small(value) => put_dec(sink, value as u64),
        HeadRead::Atom(name) => put_atom(sink, name),
        HeadRead::Tuple(_) => write_all(sink, b"{"),
        HeadRead::Nil => write_all(sink, b"[]"),
        HeadRead::Linked(n) => write_all(sink, bracket(n)),
        HeadRead::Bin(bytes) => put_bin(sink, bytes),
        HeadRead::Big(sign, digits) => put_big(sink, sign, digits),
        HeadRead::Export(name, function, arity) => put_export(sink, name, function, arity),
        HeadRead::Pairs(_) => write_all(sink, b"#{"),
    }
}

fn put_placed<K: Sink>(sink: &mut K, front: &[u8], found: &HeadRead<'_>) -> Result<(), Failed>
    ensures { Puts (K.state sink.old) (K.state sink.new)
        (front.now ++ opening_text (head found.now)) result }
{
    write_all(sink, front)?;
    put_opening(sink, found)
}

// Writes a head as the next of the terms of an entry.
fn put_own<K: Sink>(sink: &mut K, entry: Entry, found: &HeadRead<'_>) -> Result<(), Failed>
    requires { entry.next < entry.kids }
    ensures { Puts (K.state sink.old) (K.state sink.new) (own_of entry (head found.now)) result }
{
    if ends(entry.kind, entry.kids, entry.next, found) {
        return write_all(sink, b"");
    }
    put_placed(
        sink,
        between_text(entry.kind, entry.kids, entry.next),
        found,
    )
}

// What closes a head that has no terms.
fn end_text(found: &HeadRead<'_>) -> &'static [u8]
    ensures { result.now ≡ ended (head found.now) }
{
    let kids = found.kids();
    if kids == 0 {
        closing_text(kind(found), kids)
    } else {
        b""
    }
}

// Writes a head as the next of the terms of an entry, and what closes it if it has no terms.
fn put_begun<K: Sink>(sink: &mut K, entry: Entry, found: &HeadRead<'_>) -> Result<(), Failed>
    requires { entry.next < entry.kids }
    ensures { Puts (K.state sink.old) (K.state sink.new)
        (own_of entry (head found.now) ++ ended (head found.now)) result }
{
    put_own(sink, entry, found)?;
    write_all(sink, end_text(found))
}

// Enters a head that has terms.
fn enter(stack: &mut Stack, found: &HeadRead<'_>)
    requires { 0 < kids (head found.now) → length stack.old.entries < stack.old.room }
    ensures { stack.new ≡ record stack.old {
      entries = entered (head found.now) stack.old.entries;
    } }
{
    let count = found.kids();
    if count > 0 {
        stack.push(Entry {
            kind: kind(found),
            kids: count,
            next: 0,
        });
    }
}

// Goes on with an entry that was taken off the stack.
fn visit<'a, K: Sink>(
    rest: &'a [u8],
    stack: &mut Stack,
    entry: Entry,
    sink: &mut K,
) -> Result<&'a [u8], Failed>
    requires stands { (to_come : List ℕ) × StandsWith entry stack.old rest.now to_come }
    ensures room { stack.new.room ≡ stack.old.room }
    ensures falls { Falls rest.now stack.old.entries stack.new.entries result }
    ensures later { (K.state sink.old).faults ≤ (K.state sink.new).faults }
    ensures moves { (to_come : List ℕ) → StandsWith entry stack.old rest.now to_come
        → Moves (K.state sink.old) (K.state sink.new)
        to_come stack.new.room stack.new.entries result }
{
    if entry.next >= entry.kids {
        return match write_all(sink, closing_text(entry.kind, entry.kids)) {
            Ok(()) => Ok(rest),
            Err(failed) => Err(failed),
        };
    }
    let (found, behind) = match read_head(rest) {
        Ok(found) => found,
        // What is on the stack are the terms of a term.
        Err(_) => return Ok(rest),
    };
    stack.push(Entry {
        kind: entry.kind,
        kids: entry.kids,
        next: entry.next + 1,
    });
    enter(stack, &found);
    match put_begun(sink, entry, &found) {
        Ok(()) => Ok(behind),
        Err(failed) => Err(failed),
    }
}

// Writes the term with these bytes.
pub(crate) fn put_term<K: Sink>(bytes: &[u8], stack: &mut Stack, sink: &mut K) -> Result<(), Failed>
    requires { Serves bytes.now stack.old.room }
    ensures room { stack.new.room ≡ stack.old.room }
    ensures puts { (term : Term) → IsTerm bytes.now term
        → Puts (K.state sink.old) (K.state sink.new) (text term) result }
{
    stack.clear();
    stack.push(Entry {
        kind: Kind::Plain,
        kids: 1,
        next: 0,
    });
    let mut rest = bytes;
    while let Some(entry) = stack.pop() {
        match visit(rest, stack, entry, sink) {
            Ok(behind) => rest = behind,
            Err(failed) => return Err(failed),
        }
    }
    Ok(())
}
