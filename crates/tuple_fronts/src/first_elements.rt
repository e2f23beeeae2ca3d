// Reading the first elements of a tuple or a list.
ghost use Rattle.std.specs.Prelude.{◌≡◌, ◌∷◌, [], Some, OnOk, IfSome, IfNone};
ghost use Rattle.term_forms.specs.Places.{StandsAt};
ghost use Rattle.term_forms.specs.Reading.{whole_of};
ghost use Rattle.term_forms.specs.Seen.{element};
ghost use Rattle.term_forms.specs.ReadingForms.{form_of};
ghost use Rattle.term_forms.specs.Unread.{IsFirstOf};
ghost use Rattle.term_forms.specs.SeenPlaces.{placed};
ghost use Rattle.tuple_fronts.specs.Inner.Kept.{Begins, Keeps};
ghost use Rattle.tuple_fronts.specs.Inner.Hearing.{known_elements, listed_elements};

use crate::kept::Kept;
use dump_io::line_text;
use std::alloc::AllocError;
use term_forms::shapes::Opened;
use term_forms::{Enc, Joined, PlacedElem, front_is_longest, heap_line, open_form, whole_is_read};

/// The most elements of a tuple that its shape shows.
pub const MOST_ELEMENTS: usize = 8;

// The next element, unless all were read, or the text doesn't spell as many.
fn next_of<'a>(elements: &mut Joined<'a>) -> Option<PlacedElem<'a>>
    ensures first { IfSome result (λ found.
        IsFirstOf elements.old elements.new (placed found)) }
    ensures none { IfNone result (IfSome elements.old.elements (λ es. es ≡ [])) }
{
    if elements.left() == 0 {
        return None;
    }
    elements.next_elem()
}

// The spelling of an element that stands in a text.
fn spelling_of<'a>(text: &'a [u8], found: &PlacedElem<'_>) -> &'a [u8]
    requires { StandsAt text.now (placed found.now) }
    ensures { whole_of result.now ≡ Some (element found.now.elem) }
{
    front_is_longest();
    whole_is_read();
    &text[found.at..found.at + found.len]
}

// Appends the first of the elements that a text spells.
fn keep_elements(kept: &mut Kept, text: &[u8], mut elements: Joined<'_>) -> Result<(), AllocError>
    requires { elements.text ≡ text.now }
    ensures { OnOk result (Begins kept.old kept.new elements.entry.elements) }
{
    for _place in 0..kept.most {
        let Some(found) = next_of(&mut elements) else {
            return Ok(());
        };
        kept.push(spelling_of(text, &found))?;
    }
    Ok(())
}

// Appends the head and the tail of a list, which stand in a text, or the first of them.
fn keep_pair(
    kept: &mut Kept,
    text: &[u8],
    head: &PlacedElem<'_>,
    tail: &PlacedElem<'_>,
) -> Result<(), AllocError>
    requires head { StandsAt text.now (placed head.now) }
    requires tail { StandsAt text.now (placed tail.now) }
    ensures { OnOk result (Begins kept.old kept.new
        (Some (element head.now.elem ∷ element tail.now.elem ∷ []))) }
{
    if kept.most == 0 {
        return Ok(());
    }
    kept.push(spelling_of(text, head))?;
    if kept.most == 1 {
        return Ok(());
    }
    kept.push(spelling_of(text, tail))
}

// Appends the first of the elements of the tuple or the list that a text spells, if it spells one.
fn keep_listed(kept: &mut Kept, text: &[u8], enc: Enc) -> Result<(), AllocError>
    ensures { OnOk result (Begins kept.old kept.new (listed_elements (form_of enc text.now))) }
{
    match open_form(text, enc) {
        Some(Opened::Tuple(elements)) => keep_elements(kept, text, elements),
        Some(Opened::List(head, tail)) => keep_pair(kept, text, &head, &tail),
        _ => Ok(()),
    }
}

// Appends the first elements of the cell of a raw line, which is read only if the cell is a tuple or a list.
fn begin_front(kept: &mut Kept, raw: &[u8], enc: Enc, is_listed: bool) -> Result<(), AllocError>
    ensures { OnOk result (Begins kept.old kept.new (known_elements enc is_listed raw.now)) }
{
    if !is_listed {
        return Ok(());
    }
    match heap_line(line_text(raw)) {
        Some((_address, text)) => keep_listed(kept, text, enc),
        None => Ok(()),
    }
}

// Keeps the front of the cell of a raw line.
pub(crate) fn keep_line(
    kept: &mut Kept,
    raw: &[u8],
    enc: Enc,
    is_listed: bool,
) -> Result<(), AllocError>
    ensures { OnOk result (Keeps kept.old kept.new (known_elements enc is_listed raw.now ∷ [])) }
{
    begin_front(kept, raw, enc, is_listed)?;
    kept.end_front()
}
