// Which processes have signals that wait.
ghost use Rattle.std.specs.Prelude.{◌≡◌, ◌∷◌, ◌<◌, ◌≤◌, drop, length, map, take, IfOk};
ghost use Rattle.section_rows.specs.Rows.{row_at};
ghost use Rattle.process_table.specs.Signals.{has_signal, is_signal, is_signalled, state_words};
ghost use Rattle.process_table.specs.Inner.Words.{words_left};

use dump_io::bytes_from;
use section_rows::SectionRows;
use std::alloc::{AllocError, Global};

// Whether a word says that signals wait.
fn is_signal(word: &[u8]) -> bool
    ensures { result ≡ is_signal word.now }
{
    word == b"SIG_Q".as_slice()
        || word == b"SIG_IN_Q".as_slice()
        || word == b"NMSG_SIG_IN_Q".as_slice()
}

// How many bytes the first word of an internal state has.
fn word_len(state: &[u8]) -> usize
    ensures within { result ≤ length state.now }
    ensures words { state_words state.now ≡ take result state.now ∷ words_left (drop result state.now) }
{
    for i in 0..state.len() {
        if bytes_from(state, i).starts_with(b" | ") {
            return i;
        }
    }
    state.len()
}

// The bytes from a place on, which may be past the last one.
fn bytes_behind(bytes: &[u8], from: usize) -> &[u8]
    ensures { result.now ≡ drop from bytes.now }
{
    match bytes.get(from..) {
        Some(rest) => rest,
        None => &[],
    }
}

// Whether an internal state says that signals wait.
fn has_signal(state: &[u8]) -> bool
    ensures { result ≡ has_signal state.now }
{
    let mut rest = state;
    let mut size = word_len(rest);
    while size < rest.len() {
        if is_signal(&rest[..size]) {
            return true;
        }
        rest = bytes_behind(bytes_from(rest, size), 3);
        size = word_len(rest);
    }
    is_signal(rest)
}

// Whether signals wait for the process of a row.
fn is_signalled(rows: &SectionRows, i: usize) -> bool
    requires row { i < length rows.now.rows }
    requires column { 0 < rows.now.width }
    ensures { result ≡ is_signalled (row_at rows.now.rows i) }
{
    match rows.cell(i, 0) {
        Some(state) => has_signal(state.text),
        None => false,
    }
}

/// For which processes signals wait, in the order of their rows, whose first column is the field `Internal State`: one
/// of its words, between which ` | ` stands, is `SIG_Q`, `SIG_IN_Q` or `NMSG_SIG_IN_Q`. Returns `AllocError` only for a
/// lack of memory. The time is linear in the length of these fields.
pub fn signalled(alloc: Global, rows: &SectionRows) -> Result<Vec<bool>, AllocError>
    requires { 0 < rows.now.width }
    ensures { IfOk result (λ marks. marks.items ≡ map is_signalled rows.now.rows) }
{
    let mut marks = Vec::new(alloc);
    for i in 0..rows.len() {
        marks.push(is_signalled(rows, i))?;
    }
    Ok(marks)
}
