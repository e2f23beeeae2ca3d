// The text of an atom.
ghost use Rattle.std.specs.Prelude.{◌≡◌};
ghost use Rattle.std.specs.List.{flat_map, list_all};
ghost use Rattle.dump_io.specs.Atoms.{atom_text, is_bare, is_small_letter, is_atom_byte, quoted_byte, quoted_text};
ghost use Rattle.dump_io.specs.Sinks.{Puts};

use crate::dumps::Failed;
use crate::hex::hex_pair;
use crate::sink::{Sink, write_all};

fn is_small_letter(c: u8) -> bool
    ensures { result ≡ is_small_letter c }
{
    matches!(c, b'a'..=b'z')
}

fn is_atom_byte(c: u8) -> bool
    ensures { result ≡ is_atom_byte c }
{
    matches!(c, b'a'..=b'z' | b'A'..=b'Z' | b'0'..=b'9' | b'_' | b'@')
}

fn are_atom_bytes(name: &[u8]) -> bool
    ensures { result ≡ list_all is_atom_byte name.now }
{
    name.iter().all(|c| is_atom_byte(*c))
}

// Whether an atom is written without quotes.
fn is_bare(name: &[u8]) -> bool
    ensures { result ≡ is_bare name.now }
{
    match name.first() {
        Some(first) => is_small_letter(*first) && are_atom_bytes(name),
        None => false,
    }
}

// Writes a byte of a quoted atom.
fn put_quoted_byte<K: Sink>(sink: &mut K, c: u8) -> Result<(), Failed>
    ensures { Puts (K.state sink.old) (K.state sink.new) (quoted_byte c) result }
{
    match c {
        b'\'' | b'\\' => write_all(sink, &[b'\\', c]),
        0..=0x1f | 0x7f => {
            let [high, low] = hex_pair(c);
            write_all(sink, &[b'\\', b'x', high, low])
        }
        _ => write_all(sink, &[c]),
    }
}

fn put_quoted_bytes<K: Sink>(sink: &mut K, name: &[u8]) -> Result<(), Failed>
    ensures { Puts (K.state sink.old) (K.state sink.new) (flat_map quoted_byte name.now) result }
{
    for c in name {
        put_quoted_byte(sink, *c)?;
    }
    Ok(())
}

// Writes an atom in quotes.
fn put_quoted<K: Sink>(sink: &mut K, name: &[u8]) -> Result<(), Failed>
    ensures { Puts (K.state sink.old) (K.state sink.new) (quoted_text name.now) result }
{
    write_all(sink, b"'")?;
    put_quoted_bytes(sink, name)?;
    write_all(sink, b"'")
}

/// Writes an atom: its bytes as they are, if the first is one of `a`-`z` and all the others are `a`-`z`, `A`-`Z`,
/// `0`-`9`, `_` or `@`; otherwise between two `'`, with a `\` before `'` and `\`, and a byte below 20 hex, or 7F, as
/// `\x` and two upper-case hex digits. Returns `Failed` when [`write_all`] does, with the same effect on the sink.
pub fn put_atom<K: Sink>(sink: &mut K, name: &[u8]) -> Result<(), Failed>
    ensures { Puts (K.state sink.old) (K.state sink.new) (atom_text name.now) result }
{
    if is_bare(name) {
        write_all(sink, name)
    } else {
        put_quoted(sink, name)
    }
}
