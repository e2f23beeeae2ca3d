// Texts as they are shown.
ghost use Rattle.std.specs.Prelude.{◌≡◌};
ghost use Rattle.std.specs.Option.{option_copied};
ghost use Rattle.dump_triage.specs.Triage.{shown_text};

use text_groups::cut_text;

/// A text as it is shown, at most its first 255 bytes, or `-` if there is none.
pub fn shown_text<'a>(text: Option<&'a [u8]>) -> &'a [u8]
    ensures { result.now ≡ shown_text (option_copied text.entry) }
{
    match text {
        Some(text) => cut_text(text),
        None => b"-",
    }
}
