//! The laws of elements and forms. Each is the contract of a function that does nothing.
ghost use Rattle.std.specs.Prelude.{◌≡◌, ◌↔◌, ℕ, ◌-◌, List, ◌++◌, length, take, drop, None, Some};
ghost use Rattle.term_forms.specs.Elements.{Element, IsElem, IsFront, EndsElement, plain_elem};
ghost use Rattle.term_forms.specs.Forms.{HeapForm, IsForm, plain_form};
ghost use Rattle.term_forms.specs.Words.{led_of, IsLed};
ghost use Rattle.term_forms.specs.Reading.{front, whole_of};
ghost use Rattle.term_forms.specs.ReadingForms.{form_of};

use binary_payloads::{Enc, payload_bytes_are_read};

/// A text spells at most one element.
pub fn unique_reading_of_elements()
    ensures { (text : List ℕ) (one other : Element)
        → IsElem text one → IsElem text other → one ≡ other }
{}

/// If a text spells an element, the plain spelling of that
/// element spells it too, and is read as that element again.
pub fn plain_spelling_of_elements()
    ensures spells { (text : List ℕ) (e : Element) → IsElem text e → IsElem (plain_elem e) e }
    ensures again { (text : List ℕ) (e : Element) → IsElem text e
        → front (plain_elem e) ≡ Some (e, length (plain_elem e)) }
{}

/// If an element's spelling is followed by `|`, `,` or `:`, or
/// by nothing, it is the longest prefix that spells an element.
pub fn front_of_element()
    ensures { (text rest : List ℕ) (e : Element) → IsElem text e → EndsElement rest
        → IsFront (text ++ rest) e (length text) }
{}

/// What `front` computes is the longest prefix that spells an element.
pub fn front_is_longest()
    ensures found { (text : List ℕ) (e : Element) (n : ℕ)
        → (front text ≡ Some (e, n)) ↔ IsFront text e n }
    ensures none { (text : List ℕ)
        → (front text ≡ None) ↔ ((n : ℕ) (e : Element) → IsElem (take n text) e → ⊥) }
{}

/// What `whole_of` computes is the element that the whole text spells.
pub fn whole_is_read()
    ensures found { (text : List ℕ) (e : Element) → (whole_of text ≡ Some e) ↔ IsElem text e }
    ensures none { (text : List ℕ) → (whole_of text ≡ None) ↔ ((e : Element) → IsElem text e → ⊥) }
{}

/// Under one encoding a text spells at most one form.
pub fn unique_reading_of_forms(enc: Enc)
    ensures { (text : List ℕ) (one other : HeapForm)
        → IsForm enc text one → IsForm enc text other → one ≡ other }
{
    payload_bytes_are_read(enc);
}

/// If a text spells a form under an encoding, the plain spelling of that
/// form spells it too under that encoding, and is read as that form again.
pub fn plain_spelling_of_forms(enc: Enc)
    ensures spells { (text : List ℕ) (f : HeapForm)
        → IsForm enc text f → IsForm enc (plain_form f) f }
    ensures again { (text : List ℕ) (f : HeapForm)
        → IsForm enc text f → form_of enc (plain_form f) ≡ Some f }
{
    payload_bytes_are_read(enc);
}

/// What `form_of` computes is the form that the text spells.
pub fn form_is_read(enc: Enc)
    ensures found { (text : List ℕ) (f : HeapForm)
        → (form_of enc text ≡ Some f) ↔ IsForm enc text f }
    ensures none { (text : List ℕ)
        → (form_of enc text ≡ None) ↔ ((f : HeapForm) → IsForm enc text f → ⊥) }
{
    payload_bytes_are_read(enc);
}

/// What `led_of` computes is the number that leads the text and what stands after its colon.
pub fn number_is_read()
    ensures { (text : List ℕ) (n : ℕ) (rest : List ℕ)
        → (led_of text ≡ Some (n, rest)) ↔ IsLed text n rest }
{}

/// Whether a number leads a text, and which, is seen from the text's
/// first 17 bytes: of these it takes at most 16, and its colon one.
pub fn number_is_in_front()
    ensures found { (text rest : List ℕ) (n : ℕ) → led_of (take 17 text) ≡ Some (n, rest)
        → led_of text ≡ Some (n, drop (length (take 17 text) - length rest) text) }
    ensures none { (text : List ℕ) → led_of (take 17 text) ≡ None → led_of text ≡ None }
{}
