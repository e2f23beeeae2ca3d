// Elements that a text is known to spell. Of most of them the text is only split.
ghost use Rattle.std.specs.Prelude.{◌≡◌, ◌∷◌, IfSome, IsSome, Some};
ghost use Rattle.term_forms.specs.Reading.{whole_of};
ghost use Rattle.term_forms.specs.Seen.{element};

use term_forms::shapes::Elem;
use term_forms::{heap_line, number_is_read, whole_elem, whole_is_read};

// An element, which is read.
fn read_whole(text: &[u8]) -> Elem<'_>
    requires { IsSome (whole_of text.now) }
    ensures { Some (element result) ≡ whole_of text.now }
{
    let Some(found) = whole_elem(text) else {
        unreachable!()
    };
    found
}

// An atom, given what stands after its tag. Its length leads it as an address leads a heap line.
fn atom(rest: &[u8]) -> Option<Elem<'_>>
    requires { IsSome (whole_of (65 ∷ rest.now)) }
    ensures { IfSome result (λ e. Some (element e) ≡ whole_of (65 ∷ rest.now)) }
{
    whole_is_read();
    number_is_read();
    let (_, name) = heap_line(rest)?;
    Some(Elem::Atom(name))
}

// An element, given its tag and what stands after that, unless it is a port or a reference.
fn split(tag: u8, rest: &[u8]) -> Option<Elem<'_>>
    requires { IsSome (whole_of (tag ∷ rest.now)) }
    ensures { IfSome result (λ e. Some (element e) ≡ whole_of (tag ∷ rest.now)) }
{
    whole_is_read();
    match tag {
        b'N' => Some(Elem::Nil),
        b'I' => Some(Elem::Small(rest)),
        b'A' => atom(rest),
        b'P' => Some(Elem::Pid(rest)),
        _ => None,
    }
}

// The element that the whole text is known to spell.
pub(crate) fn spelled_elem(text: &[u8]) -> Elem<'_>
    requires { IsSome (whole_of text.now) }
    ensures { Some (element result) ≡ whole_of text.now }
{
    if let Some((tag, rest)) = text.split_first() {
        if let Some(found) = split(*tag, rest) {
            return found;
        }
    }
    read_whole(text)
}
