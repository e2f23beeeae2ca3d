// The receiver that keeps the headers of a dump, within the limits.
ghost use Rattle.std.specs.Prelude.{◌≡◌, [], None};
ghost use Rattle.section_index.specs.Inner.Receiver.{IsStopCause, KeepsTo};

use dump_io::Limits;
use dump_sections::Headers;
use line_source::{HeaderSink, HeaderStop, RefusedHeader};
use std::alloc::Global;
use std::marker::{Brand, Model, PhantomData};

// Names the limits that a receiver keeps to. They are part of the receiver's type, so
// that they are known to be the same after a call to which the receiver was passed.
pub(crate) trait Bounds {
    ghost use Rattle.dump_io.specs.Limits.{Numbers};

    ghost limits: { Numbers };
}

impl Bounds for Brand {
    ghost use Rattle.dump_io.specs.Limits.{usual};

    ghost limits = { usual };
}

// Keeps the headers that it hears, and the first one that it refuses.
#[derive(Drop)]
pub(crate) struct Receiver<B: Bounds> {
    headers: Headers,
    text_bytes: usize,
    sections: usize,
    pool: usize,
    refused: Option<RefusedHeader>,
    of: PhantomData<B>,
}

impl<B: Bounds> Model for Receiver<B> {
    ghost use Rattle.std.specs.Prelude.{◌≡◌};
    ghost use Rattle.section_index.specs.Opening.{text_bytes as bytes_of_texts};
    ghost use Rattle.section_index.specs.Inner.Receiver.{Hearing, KeepsTo};

    ghost Value = { Hearing };

    ghost view = { λ r. record { heard = r.headers; stop = r.refused } };

    ghost invariant = { λ r. (r.sections ≡ B.limits.sections)
        × (r.pool ≡ B.limits.pool)
        × (r.text_bytes ≡ bytes_of_texts r.headers)
        × KeepsTo B.limits (record { heard = r.headers; stop = r.refused }) };
}

impl<B: Bounds> HeaderSink for Receiver<B> {
    ghost heard = { λ r. r.heard };

    ghost stop = { λ r. r.stop };

    fn header(&mut self, at: u64, body: u64, text: &[u8]) -> Result<(), HeaderStop> {
        if self.headers.len() >= self.sections {
            return self.refuse(HeaderStop::TooMany { at }, at, text.len());
        }
        if text.len() > self.pool - self.text_bytes {
            return self.refuse(HeaderStop::PoolFull { at }, at, text.len());
        }
        if self.headers.push(at, body, text).is_err() {
            return self.refuse(HeaderStop::Memory, at, text.len());
        }
        self.text_bytes += text.len();
        Ok(())
    }
}

impl<B: Bounds> Receiver<B> {
    pub fn new(alloc: Global, limits: &Limits) -> Receiver<B>
        requires { limits.now ≡ B.limits }
        ensures { result ≡ record { heard = []; stop = None } }
    {
        Receiver {
            headers: Headers::new(alloc),
            text_bytes: 0,
            sections: limits.sections() as usize,
            pool: limits.pool() as usize,
            refused: None,
            of: PhantomData,
        }
    }

    // Refuses a header for this cause, which the caller has found to hold.
    fn refuse(&mut self, value: HeaderStop, at: u64, size: usize) -> Result<(), HeaderStop>
        requires { IsStopCause B.limits self.old.heard value at size }
        ensures heard { self.new.heard ≡ self.old.heard }
        ensures refused { (result ≡ Err value)
            × (self.new.stop ≡ Some (record { value = value; at = at; size = size })) }
    {
        self.refused = Some(RefusedHeader { value, at, size });
        Err(value)
    }

    // States a law and does no work: what was heard keeps to the limits, and a refusal has its cause.
    pub fn keeps_to_its_limits(&self)
        ensures { KeepsTo B.limits self.now }
    {
        // What holds of each receiver is known where one of its fields is named.
        let _ = &self.headers;
    }

    pub fn into_headers(self) -> Headers
        ensures { result ≡ self.heard }
    {
        let Receiver { headers, .. } = self;
        headers
    }
}
