// Lines: their texts and their law.
ghost use Rattle.std.specs.Prelude.{◌≡◌, ◌<◌, ◌≤◌, ◌++◌, ◌∷◌, [], ℕ, List, length, take, drop};
ghost use Rattle.dump_io.specs.Lines.{AreLines, HasLfLast, IsEnded, raw_lines, lf, text_of};

use memchr::memchr;

/// The text of the line that consists of these bytes and an LF: the bytes without one CR at their end.
pub fn text_before_lf(line: &[u8]) -> &[u8]
    ensures { result.now ≡ text_of (line.now ++ lf ∷ []) }
{
    match line {
        [text @ .., b'\r'] => text,
        _ => line,
    }
}

/// The text of a raw line: without its LF, and without one CR directly before that LF.
pub fn line_text(raw: &[u8]) -> &[u8]
    ensures { result.now ≡ text_of raw.now }
{
    if let Some(text) = raw.strip_suffix(b"\r\n") {
        return text;
    }
    raw.strip_suffix(b"\n").unwrap_or(raw)
}

/// How many bytes the first raw line has, its LF among them. There is at least one byte.
pub fn line_len(bytes: &[u8]) -> usize
    requires { 0 < length bytes.now }
    ensures some { 0 < result }
    ensures within { result ≤ length bytes.now }
    ensures first { raw_lines bytes.now ≡ take result bytes.now ∷ raw_lines
        (drop result bytes.now) }
{
    match memchr(b'\n', bytes) {
        Some(lf) => lf + 1,
        None => bytes.len(),
    }
}

/// States a law and does no work: the lines of any bytes are the only list that satisfies
/// the rule of lines. Together the lines are the bytes, none is empty, LF stands only at
/// the end of a line, and only the last line may lack it. So a line with its LF, followed
/// by any bytes, is the first of their lines, and a line by itself is its own only line.
pub fn lines_are_one()
    ensures divides { (bytes : List ℕ) → AreLines bytes (raw_lines bytes) }
    ensures only { (bytes : List ℕ) (lines : List (List ℕ)) → AreLines bytes lines
        → lines ≡ raw_lines bytes }
    ensures first { (line more : List ℕ) → 0 < length line → HasLfLast line → IsEnded line
        → raw_lines (line ++ more) ≡ line ∷ raw_lines more }
    ensures alone { (line : List ℕ) → 0 < length line → HasLfLast line
        → raw_lines line ≡ line ∷ [] }
{}
