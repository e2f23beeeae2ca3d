// `binary`: the bytes of a binary.
ghost use Rattle.std.specs.Prelude.{◌≡◌, ◌<◌, length, Some, IfOk};
ghost use Rattle.dump_sections.specs.Bodies.{section_at};
ghost use Rattle.dump_sections.specs.Index.{sections_in};
ghost use Rattle.binary_refs.specs.StoredBinaries.{binary_section};
ghost use Rattle.heap_commands.specs.Terms.{binary_cause};
ghost use Rattle.binary_refs.specs.Wholes.{bytes_of_body};
ghost use Rattle.heap_commands.specs.Terms.{malformed_cause};
ghost use Rattle.dump_questions.specs.Stops.{Judges};
ghost use Rattle.heap_commands.specs.Rows.{binary_row};
ghost use Rattle.dump_questions.specs.Runs.{Runs};
ghost use Rattle.dump_questions.specs.Tasks.{question};

use binary_refs::bytes_of_body;
use dump_io::{Dumps, Sink};
use dump_questions::status::DONE;
use dump_questions::{Body, Opened, Report, Stop, Unopened, read_found, run_report};
use heap_cells::enc_of;
use report_text::Refusal;
use std::alloc::Global;
use term_forms::Enc;
use term_text::put_binary;

#[derive(Clone, Copy)]
pub(crate) struct Binary {
    pub addr: u64,
}

// Finds the section of a binary, and returns its place. Refuses an address without such a section.
fn find_binary(at: &Opened<'_>, addr: u64) -> Result<usize, Stop>
    ensures judges { let found = binary_section addr (sections_in at.now.index.now) in
        Judges (binary_cause addr found) result }
    ensures within { IfOk result (λ i. i < length at.now.index.now.headers) }
    ensures there { let index = at.now.index.now in
        IfOk result (λ i. binary_section addr (sections_in index) ≡ Some (section_at index i)) }
{
    let Some(place) = at.index.first_hex(b"binary", addr) else {
        return Err(Stop::Refused(Refusal::NoBinary { addr }));
    };
    Ok(place)
}

// Decodes the bytes that a body writes. Refuses a malformed body, for the section at the offset `at`.
fn read_bytes(alloc: Global, enc: Enc, body: &Body, at: u64) -> Result<Vec<u8>, Stop>
    ensures judges { Judges (malformed_cause at (bytes_of_body enc body.now.bytes.items)) result }
    ensures bytes { IfOk result (λ bytes.
        bytes_of_body enc body.now.bytes.items ≡ Some bytes.items) }
{
    match bytes_of_body(alloc, enc, &body.bytes)? {
        Some(bytes) => Ok(bytes),
        None => Err(Stop::Refused(Refusal::BadBinary { at })),
    }
}

impl Report for Binary {
    type Loaded = Vec<u8>;

    ghost means = { λ c. binary_row c.addr };

    ghost seen = { λ _ _ bytes. bytes.items };

    fn read<D: Dumps>(&self, at: &Opened<'_>, dumps: &mut D) -> Result<Vec<u8>, Stop> {
        let place = find_binary(at, self.addr)?;
        let body = read_found(at, dumps, Some(place))?;
        let enc = enc_of(at.index.version());
        read_bytes(at.alloc, enc, &body, at.index.section(place).at)
    }

    fn put<K: Sink>(&self, _at: &Opened<'_>, bytes: &Vec<u8>, out: &mut K) -> Result<u8, Stop> {
        put_binary(out, self.addr, bytes.as_slice())?;
        Ok(DONE)
    }
}

/// Runs `binary`, and returns its status.
pub fn run_binary<D: Dumps, K: Sink>(
    dump: &Unopened<'_>,
    addr: u64,
    dumps: &mut D,
    out: &mut K,
) -> Result<u8, Stop>
    ensures { Runs (question dump.now.file.now (binary_row addr)) dump.now.limits.now
        (D.state dumps.old) (D.state dumps.new) (K.state out.old) (K.state out.new) result }
{
    run_report(dump, &Binary { addr }, dumps, out)
}
