// Reading forms.
ghost use Rattle.std.specs.Prelude.{◌≡◌, true, Some, IsSome, IfSome, IfNone};
ghost use Rattle.std.specs.Option.{option_map};
ghost use Rattle.term_forms.specs.Forms.{HeapForm, IsForm};
ghost use Rattle.term_forms.specs.ReadingForms.{form_of};
ghost use Rattle.term_forms.specs.SeenForms.{heap_form};
ghost use Rattle.term_forms.specs.SeenOpened.{opened_form};

use crate::opening::open_known;
use crate::shapes::{Form, Opened};
use binary_payloads::{Enc, payload_bytes_are_read};

// The form that was opened, with its elements, which aren't checked if `spelled` says that the text spells them.
fn with_elements(opened: Opened<'_>, spelled: bool) -> Option<Form<'_>>
    requires { spelled ≡ true → IsSome (opened_form opened) }
    ensures { option_map heap_form result ≡ opened_form opened.entry }
{
    match opened {
        Opened::List(head, tail) => Some(Form::List(head.elem, tail.elem)),
        Opened::Tuple(elements) => Some(Form::Tuple(elements.all(spelled)?)),
        Opened::Flat(keys, values) => Some(Form::Flat(keys.elem, values.all(spelled)?)),
        Opened::Hash(size, children) => Some(Form::Hash(size, children.all(spelled)?)),
        Opened::Node(children) => Some(Form::Node(children.all(spelled)?)),
        Opened::Plain(form) => Some(form),
    }
}

// The form of a text. If the text is known to spell one, its elements and payload aren't checked.
fn read_form(text: &[u8], enc: Enc, spelled: bool) -> Option<Form<'_>>
    requires { spelled ≡ true → IsSome (form_of enc text.now) }
    ensures { option_map heap_form result ≡ form_of enc text.now }
{
    let opened = open_known(text, enc, spelled)?;
    with_elements(opened, spelled)
}

/// The form that the whole text spells, with payloads in the encoding. Returns `None` if it spells no form.
pub fn form(text: &[u8], enc: Enc) -> Option<Form<'_>>
    // What is found is a form that the text spells.
    ensures found { IfSome result (λ f. IsForm enc text.now (heap_form f)) }
    // Nothing is found only if the text spells no form.
    ensures none { IfNone result ((f : HeapForm) → IsForm enc text.now f → ⊥) }
    // What is found is the form that the definitions compute.
    ensures exact { option_map heap_form result ≡ form_of enc text.now }
{
    payload_bytes_are_read(enc);
    read_form(text, enc, false)
}

/// The form of a text that is known to spell one, with payloads in the encoding. The text is only split: its
/// elements and the characters of its payload were checked when that became known, and aren't checked again.
pub fn spelled_form(text: &[u8], enc: Enc) -> Form<'_>
    requires { IsSome (form_of enc text.now) }
    ensures form { Some (heap_form result) ≡ form_of enc text.now }
    ensures spelled { IsForm enc text.now (heap_form result) }
{
    payload_bytes_are_read(enc);
    let Some(found) = read_form(text, enc, true) else {
        unreachable!()
    };
    found
}
