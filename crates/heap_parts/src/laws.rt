// A law of the definitions: the contract of a function that does nothing.
ghost use Rattle.std.specs.Prelude.{◌≡◌, List, ℕ, ◌++◌};
ghost use Rattle.std.specs.Option.{option_to_list};
ghost use Rattle.binary_payloads.specs.declared.enc.Enc.{Enc};
ghost use Rattle.body_lines.specs.Lines.{AreWhole, HasNoLf};
ghost use Rattle.heap_cells.specs.Cells.{line_cells};
ghost use Rattle.heap_parts.specs.Places.{ended_text, text_cell};

/// A text without an LF, with CR and LF behind it, gives one cell more if it is a heap line. Whatever
/// the text ends in, even in a CR, it stays as it is; and a further line may be appended.
pub fn one_line_is_one_cell()
    ensures cell { (enc : Enc) (lines text : List ℕ) → AreWhole lines → HasNoLf text
        → line_cells enc (lines ++ ended_text text)
        ≡ line_cells enc lines ++ option_to_list (text_cell enc text) }
    ensures whole { (lines text : List ℕ) → AreWhole lines → AreWhole (lines ++ ended_text text) }
{}
