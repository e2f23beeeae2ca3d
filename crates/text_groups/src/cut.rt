// How much of a text is shown.
ghost use Rattle.std.specs.Prelude.{◌≡◌, take};
ghost use Rattle.text_groups.specs.Cut.{cut_text};

// The most bytes of a text that are shown.
const SHOWN: usize = 255;

// The first bytes of a text, at most `most`.
fn front(text: &[u8], most: usize) -> &[u8]
    ensures { result.now ≡ take most text.now }
{
    match text.get(..most) {
        Some(front) => front,
        None => text,
    }
}

/// As much of a text as is shown and compared: at most its first 255 bytes.
pub fn cut_text(text: &[u8]) -> &[u8]
    ensures { result.now ≡ cut_text text.now }
{
    front(text, SHOWN)
}
