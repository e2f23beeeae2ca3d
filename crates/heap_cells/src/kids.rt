// What the slots of a heap stand for.
ghost use Rattle.std.specs.Prelude.{◌≡◌, IfSome, IsSome, Some};
ghost use Rattle.heap_cells.specs.Targets.{slot_target, kid_target, KeepsElement};
ghost use Rattle.heap_cells.specs.Inner.Records.{element_at, spelled_by, IsSpan, IsReadable};
ghost use Rattle.heap_cells.specs.Inner.Texts.{text_of, seam_of};
ghost use Rattle.term_forms.specs.Seen.{element};

use crate::cells::Kid;
use crate::spelled::spelled_elem;
use crate::texts::{Texts, part};
use cell_records::{Slot, Span};
use term_forms::shapes::Elem;

// The element that a part of the text is known to spell.
fn elem_in(texts: &Texts, span: Span) -> Elem<'_>
    requires part { IsSpan (text_of texts.now) (seam_of texts.now) span }
    requires some { IsSome (element_at (text_of texts.now) span) }
    ensures { Some (element result) ≡ element_at (text_of texts.now) span }
{
    let from = span.at as usize;
    let upto = from + span.len as usize;
    spelled_elem(part(texts, from, upto))
}

// What a slot stands for.
pub(crate) fn kid_of(texts: &Texts, slot: Slot) -> Kid<'_>
    requires { IsReadable (text_of texts.now) (seam_of texts.now) slot }
    ensures target { kid_target result ≡ slot_target slot }
    ensures element { IfSome (spelled_by (text_of texts.now) slot) (KeepsElement result) }
{
    match slot {
        Slot::Imm(span) => Kid::Imm(elem_in(texts, span)),
        Slot::Cell(ix) => Kid::Cell(ix),
        Slot::Gone(address) => Kid::Gone(address),
    }
}
