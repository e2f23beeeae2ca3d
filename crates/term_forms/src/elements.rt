// Reading elements.
ghost use Rattle.std.specs.Prelude.{◌≡◌, ℕ, ◌+◌, ◌≤◌, ◌∷◌, length, take, IfSome, IfNone};
ghost use Rattle.std.specs.Option.{option_map};
ghost use Rattle.term_forms.specs.Elements.{Element, IsElem, IsFront};
ghost use Rattle.term_forms.specs.Reading.{front, small_front, atom_front, pid_front, port_front, ref_front};
ghost use Rattle.term_forms.specs.Seen.{element, element_len};

use crate::shapes::Elem;
use crate::words::{bracketed_prefix, integer_prefix, split_number};
use dump_io::hex_front;

#[tactic(auto, unfolding(crate::specs::Reading::small_front))]
fn small(text: &[u8]) -> Option<(Elem<'_>, usize)>
    ensures exact { option_map element_len result ≡ small_front text.now }
    ensures within { IfSome result (λ found. found.1 ≤ length text.now + 1) }
{
    let n = integer_prefix(text)?;
    Some((Elem::Small(&text[..n]), n + 1))
}

#[tactic(auto, unfolding(crate::specs::Reading::atom_front))]
fn atom(text: &[u8]) -> Option<(Elem<'_>, usize)>
    ensures exact { option_map element_len result ≡ atom_front text.now }
    ensures within { IfSome result (λ found. found.1 ≤ length text.now + 1) }
{
    let (len, rest) = split_number(text)?;
    if len > rest.len() as u64 {
        return None;
    }
    let len = len as usize;
    Some((Elem::Atom(&rest[..len]), text.len() - rest.len() + len + 1))
}

#[tactic(auto, unfolding(crate::specs::Reading::pid_front))]
fn pid(text: &[u8]) -> Option<(Elem<'_>, usize)>
    ensures exact { option_map element_len result ≡ pid_front text.now }
    ensures within { IfSome result (λ found. found.1 ≤ length text.now + 1) }
{
    let n = bracketed_prefix(text)?;
    Some((Elem::Pid(&text[..n]), n + 1))
}

#[tactic(auto, unfolding(crate::specs::Reading::port_front))]
fn port(text: &[u8]) -> Option<(Elem<'_>, usize)>
    ensures exact { option_map element_len result ≡ port_front text.now }
    ensures within { IfSome result (λ found. found.1 ≤ length text.now + 1) }
{
    let skip = if text.starts_with(b"#Port") { 5 } else { 0 };
    let number = &text[skip..];
    let n = bracketed_prefix(number)?;
    Some((Elem::Port(&number[..n]), skip + n + 1))
}

#[tactic(auto, unfolding(crate::specs::Reading::ref_front))]
fn reference(text: &[u8]) -> Option<(Elem<'_>, usize)>
    ensures exact { option_map element_len result ≡ ref_front text.now }
    ensures within { IfSome result (λ found. found.1 ≤ length text.now + 1) }
{
    let (n, address) = hex_front(text);
    if n == 0 {
        return None;
    }
    Some((Elem::Ref(address), n + 1))
}

// The element whose first byte is the tag, and its length including the tag.
#[tactic(auto, unfolding(crate::specs::Reading::front))]
fn tagged(tag: u8, text: &[u8]) -> Option<(Elem<'_>, usize)>
    ensures exact { option_map element_len result ≡ front (tag ∷ text.now) }
    ensures within { IfSome result (λ found. found.1 ≤ length text.now + 1) }
{
    match tag {
        b'N' => Some((Elem::Nil, 1)),
        b'I' => small(text),
        b'A' => atom(text),
        b'P' => pid(text),
        b'p' => port(text),
        b'H' => reference(text),
        _ => None,
    }
}

#[tactic(auto, unfolding(crate::specs::Reading::front))]
fn front_elem(text: &[u8]) -> Option<(Elem<'_>, usize)>
    ensures exact { option_map element_len result ≡ front text.now }
    ensures within { IfSome result (λ found. found.1 ≤ length text.now) }
{
    let (tag, rest) = text.split_first()?;
    tagged(*tag, rest)
}

/// The longest prefix of the text that spells an element: that element, and
/// the prefix's length in bytes. Returns `None` if no prefix spells one.
pub fn elem(text: &[u8]) -> Option<(Elem<'_>, usize)>
    // What is found is the longest prefix that spells an element.
    ensures found { IfSome result (λ found. IsFront text.now (element found.0) found.1) }
    // Nothing is found only if no prefix spells an element.
    ensures none { IfNone result ((n : ℕ) (e : Element) → IsElem (take n text.now) e → ⊥) }
    // What is found is the element, with its length, that the definitions compute.
    ensures exact { option_map element_len result ≡ front text.now }
    ensures within { IfSome result (λ found. found.1 ≤ length text.now) }
{
    front_elem(text)
}
