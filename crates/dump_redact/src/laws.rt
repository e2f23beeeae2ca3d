// The laws of a redacted dump. Each is the contract of a function that does nothing.
ghost use Rattle.dump_redact.specs.Payloads.{KeepsPayloads, KeepsBinaries};
ghost use Rattle.dump_redact.specs.Laws.{KeepsLength, KeepsSections, KeepsState, KeepsIndex, StaysRedacted, RedactsSections, RedactsLines, KeepsOthers};

use term_forms::{Enc, form_is_read, number_is_read};

/// States a law and does no work: a redacted dump has the same length, sections, state and index.
pub fn sections_stay()
    ensures length { KeepsLength }
    ensures sections { KeepsSections }
    ensures state { KeepsState }
    ensures index { KeepsIndex }
{}

/// States a law and does no work: redacting a redacted dump again leaves it as it is.
pub fn redacted_stays()
    ensures { StaysRedacted }
{
    number_is_read();
    form_is_read(Enc::Hex);
    form_is_read(Enc::Base64);
}

/// States a law and does no work: of each section the header's line stays, and the body
/// is redacted by itself. The lines of the result are those of the body, redacted: all
/// lines of a heap, the first line of a binary, and none of any other section.
pub fn bodies_are_redacted()
    ensures sections { RedactsSections }
    ensures lines { RedactsLines }
    ensures others { KeepsOthers }
{}

/// States a law and does no work: a payload made blank is a payload of the same number of bytes.
pub fn payloads_stay()
    ensures hex { KeepsPayloads Enc.Hex }
    ensures base64 { KeepsPayloads Enc.Base64 }
{}

/// States a law and does no work: a redacted heap line with a heap
/// binary has the same address, and a heap binary of the same size.
pub fn binaries_stay()
    ensures hex { KeepsBinaries Enc.Hex }
    ensures base64 { KeepsBinaries Enc.Base64 }
{
    number_is_read();
    form_is_read(Enc::Hex);
    form_is_read(Enc::Base64);
}
