// `ext`: an external term of a process.
ghost use Rattle.std.specs.Prelude.{◌≡◌, None, Some, IfOk};
ghost use Rattle.binary_refs.specs.Payloads.{bytes_in};
ghost use Rattle.etf_terms.specs.Walks.{bad_place};
ghost use Rattle.heap_commands.specs.Terms.{external_at, no_external};
ghost use Rattle.dump_questions.specs.Stops.{Judges};
ghost use Rattle.heap_commands.specs.Rows.{ext_row};
ghost use Rattle.dump_questions.specs.Runs.{Runs};
ghost use Rattle.dump_questions.specs.Tasks.{question};

use binary_refs::decode_payload;
use dump_io::{Dumps, Sink};
use dump_questions::status::DONE;
use dump_questions::{Opened, Report, Stop, Unopened, find_cell, load_heap, run_report};
use etf_terms::judge;
use heap_cells::{Heap, Seat};
use report_text::Refusal;
use std::alloc::{AllocError, Global};
use term_forms::shapes::Form;
use term_text::put_ext;

#[derive(Clone, Copy)]
pub(crate) struct Ext<'a> {
    pub pid: &'a [u8],
    pub addr: u64,
}

// Decodes the bytes of the heap's cell at an address, if it is an external term.
fn external_at(alloc: Global, heap: &Heap, addr: u64) -> Result<Option<Vec<u8>>, AllocError>
    ensures { IfOk result (λ bytes. bytes_in bytes ≡ external_at addr heap.now) }
{
    let Seat::Cell(ix) = heap.at(addr) else {
        return Ok(None);
    };
    let Some(Form::Ext(size, chars)) = heap.form(ix) else {
        return Ok(None);
    };
    decode_payload(alloc, heap.enc(), size, chars)
}

// Decodes the bytes of the external term at an address. Refuses an address at which the heap has
// no cell, a cell that isn't an external term, and bytes that aren't 131 and one term.
fn read_external(alloc: Global, heap: &Heap, addr: u64) -> Result<Vec<u8>, Stop>
    ensures judges { Judges (no_external addr heap.now) result }
    ensures bytes { IfOk result (λ bytes. external_at addr heap.now ≡ Some bytes.items) }
    ensures good { IfOk result (λ bytes. bad_place bytes.items ≡ None) }
{
    find_cell(heap, addr)?;
    let Some(bytes) = external_at(alloc, heap, addr)? else {
        return Err(Stop::Refused(Refusal::NotExt { addr }));
    };
    match judge(&bytes) {
        Ok(()) => Ok(bytes),
        Err(at) => Err(Stop::Refused(Refusal::BadExt { addr, at })),
    }
}

impl Report for Ext<'_> {
    type Loaded = Vec<u8>;

    ghost means = { λ c. ext_row c.pid.now c.addr };

    ghost seen = { λ _ _ bytes. bytes.items };

    ghost fits = { λ _ _ bytes. bad_place bytes.items ≡ None };

    fn read<D: Dumps>(&self, at: &Opened<'_>, dumps: &mut D) -> Result<Vec<u8>, Stop> {
        let heap = load_heap(at, dumps, self.pid, None)?;
        read_external(at.alloc, &heap, self.addr)
    }

    fn put<K: Sink>(&self, at: &Opened<'_>, bytes: &Vec<u8>, out: &mut K) -> Result<u8, Stop> {
        let mut ext = etf_terms::Ext::judged(at.alloc, bytes)?;
        put_ext(out, &mut ext)?;
        Ok(DONE)
    }
}

/// Runs `ext`, and returns its status.
pub fn run_ext<D: Dumps, K: Sink>(
    dump: &Unopened<'_>,
    pid: &[u8],
    addr: u64,
    dumps: &mut D,
    out: &mut K,
) -> Result<u8, Stop>
    ensures { Runs (question dump.now.file.now (ext_row pid.now addr)) dump.now.limits.now
        (D.state dumps.old) (D.state dumps.new) (K.state out.old) (K.state out.new) result }
{
    run_report(dump, &Ext { pid, addr }, dumps, out)
}
