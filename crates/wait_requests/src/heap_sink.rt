// Hearing which references a heap holds.
ghost use Rattle.std.specs.Prelude.{◌≡◌, ◌<◌, ◌≤◌, length, IfOk, OnOk};
ghost use Rattle.wait_requests.specs.Inner.Hearing.{text_words, HearsFirst, LooksUp, TakesLines};

use crate::asked::Asked;
use crate::externals::{MOST, before_external, external_line};
use body_lines::LineSink;
use dump_io::{line_len, line_text};
use dump_sections::FirstPlaces;
use std::alloc::AllocError;
use term_forms::{Enc, form_is_read};

// A line that has the words of a reference has at most 4,133 bytes: 16 of its address and 16 of its length, two
// colons and a tag, at most 4,096 characters that write 2,048 bytes, and CR and LF.
const KEPT: u16 = 4_134;

/// Looks up the references in a heap to which slots refer among the requests of a process.
#[derive(Drop)]
pub(crate) struct HeapSink<'a, 'b> {
    pub enc: Enc,
    /// The addresses to which the slots refer.
    pub slots: &'b FirstPlaces<u64>,
    pub asked: &'b Asked<'a>,
    /// How many requests stand before the first that was found, or how many there are if none was.
    pub first: usize,
    /// What was looked up last.
    pub text: Vec<u8>,
}

// Looks up the reference in the line with a text, if a slot refers to it.
fn hear_text(sink: &mut HeapSink<'_, '_>, text: &[u8]) -> Result<(), AllocError>
    ensures { OnOk result (LooksUp sink.old sink.new
        (text_words sink.old.enc sink.old.slots.now text.now)) }
{
    form_is_read(sink.enc);
    let Some(line) = external_line(text) else {
        return Ok(());
    };
    if line.size > MOST as u64 || sink.slots.get(line.address).is_none() {
        return Ok(());
    }
    let place = before_external(sink.asked, sink.enc, line.size, line.chars, &mut sink.text)?;
    if let Some(place) = place {
        sink.first = sink.first.min(place);
    }
    Ok(())
}

// Looks up the reference in the first line of a run, and returns how many bytes the line has.
fn hear_first(sink: &mut HeapSink<'_, '_>, run: &[u8]) -> Result<usize, AllocError>
    requires { 0 < length run.now }
    ensures within { IfOk result (λ n. (0 < n) × (n ≤ length run.now)) }
    ensures heard { IfOk result (HearsFirst sink.old sink.new run.now) }
{
    let size = line_len(run);
    let front = size.min(KEPT as usize);
    hear_text(sink, line_text(&run[..front]))?;
    Ok(size)
}

impl<'a, 'b> LineSink for HeapSink<'a, 'b> {
    type Stop = AllocError;

    ghost kept = { 4134 };

    ghost ready = { λ _. Unit {0} };

    ghost hears = { TakesLines };

    ghost stops = { λ _ _ _ _. Unit {0} };

    fn kept() -> u16
        ensures { result ≡ 4134 }
    {
        KEPT
    }

    fn lines(&mut self, at: u64, run: &[u8]) -> Result<(), AllocError> {
        let mut done = 0;
        while done < run.len() {
            done += hear_first(self, &run[done..])?;
        }
        Ok(())
    }

    fn long_line(&mut self, at: u64, front: &[u8], size: u64) -> Result<(), AllocError> {
        hear_text(self, line_text(front))
    }
}
