// Hearing where the heap lines of a body begin.
ghost use Rattle.std.specs.Prelude.{◌≡◌, ℕ, [], ◌∷◌, ◌+◌, ◌++◌, ◌<◌, ◌≤◌, length, drop, if◌then◌else◌, OnOk, IfOk};
ghost use Rattle.body_lines.specs.Lines.{cut_lines, one_line};
ghost use Rattle.heap_parts.specs.Inner.Hearing.{heard_binaries, heard_places, may_begin_binary, TakesPlaces};

use body_lines::LineSink;
use dump_io::line_len;
use std::alloc::AllocError;
use term_forms::heap_line;

// The number that leads a line and its colon are among its first 17 bytes.
const KEPT: u16 = 17;

/// Takes the address of each heap line, with the offset at which the
/// line begins, and those of the lines that may be heap binaries once more.
#[derive(Drop)]
pub(crate) struct AddressSink {
    pub lines: Vec<(u64, usize)>,
    pub binaries: Vec<(u64, usize)>,
}

// Whether a form whose text begins with these bytes may be a heap binary. Of a line with the longest of addresses none is heard.
fn may_begin_binary(spelled: &[u8]) -> bool
    ensures { result ≡ may_begin_binary spelled.now }
{
    match spelled {
        [] => true,
        [first, ..] => *first == b'Y',
    }
}

// Appends an address and an offset, if this is so.
fn push_if(
    is: bool,
    address: u64,
    at: usize,
    places: &mut Vec<(u64, usize)>,
) -> Result<(), AllocError>
    ensures { OnOk result (places.new.items ≡ places.old.items ++ (if is then (address, at) ∷ [] else [])) }
{
    if is {
        places.push((address, at))?;
    }
    Ok(())
}

impl AddressSink {
    // Hears a line with these first bytes.
    fn line(&mut self, at: u64, front: &[u8]) -> Result<(), AllocError>
        ensures { OnOk result ((size : ℕ) → TakesPlaces self.old self.new (one_line at front.now size)) }
    {
        if let Some((address, spelled)) = heap_line(front) {
            self.lines.push((address, at as usize))?;
            return push_if(
                may_begin_binary(spelled),
                address,
                at as usize,
                &mut self.binaries,
            );
        }
        Ok(())
    }

    // Hears the first line of a run, and returns how many bytes it has.
    fn first_line(&mut self, at: u64, run: &[u8]) -> Result<usize, AllocError>
        requires { 0 < length run.now }
        ensures within { IfOk result (λ n. (0 < n) × (n ≤ length run.now)) }
        ensures heard { IfOk result (λ n.
            self.new.lines.items ++ heard_places (cut_lines 17 (at + n) (drop n run.now))
            ≡ self.old.lines.items ++ heard_places (cut_lines 17 at run.now)) }
        ensures binaries { IfOk result (λ n.
            self.new.binaries.items ++ heard_binaries (cut_lines 17 (at + n) (drop n run.now))
            ≡ self.old.binaries.items ++ heard_binaries (cut_lines 17 at run.now)) }
    {
        let size = line_len(run);
        let front = size.min(KEPT as usize);
        self.line(at, &run[..front])?;
        Ok(size)
    }
}

impl LineSink for AddressSink {
    type Stop = AllocError;

    ghost kept = { 17 };

    ghost ready = { λ _. Unit {0} };

    ghost hears = { TakesPlaces };

    ghost stops = { λ _ _ _ _. Unit {0} };

    fn kept() -> u16
        ensures { result ≡ 17 }
    {
        KEPT
    }

    fn lines(&mut self, at: u64, run: &[u8]) -> Result<(), AllocError> {
        let mut done = 0;
        while done < run.len() {
            done += self.first_line(at + done as u64, &run[done..])?;
        }
        Ok(())
    }

    fn long_line(&mut self, at: u64, front: &[u8], _size: u64) -> Result<(), AllocError> {
        self.line(at, front)
    }
}
