// The limits within which a dump is read.
ghost use Rattle.std.specs.Prelude.{◌≡◌};
ghost use Rattle.std.specs.Option.{SomeIff};
ghost use Rattle.dump_io.specs.Limits.{Numbers, AreAllowed, usual};

use std::marker::Model;

const DUMP: u64 = 68_719_476_736;

const HEADER: u16 = 4_096;

const SECTIONS: u32 = 8_000_000;

const POOL: u32 = 268_435_456;

const SECTION: u32 = 536_870_912;

const DENSE: u32 = 100_000_000;

/// Six limits, each at most the usual one. The limit on the length of a header is at least 1.
#[derive(Drop)]
pub struct Limits {
    dump: u64,
    header: u16,
    sections: u32,
    pool: u32,
    section: u32,
    dense: u32,
}

impl Model for Limits {
    ghost Value = { Numbers };

    ghost view = { λ l. record {
      dump = l.dump;
      header = l.header;
      sections = l.sections;
      pool = l.pool;
      section = l.section;
      dense = l.dense;
    } };

    ghost invariant = { λ l. AreAllowed (record {
      dump = l.dump;
      header = l.header;
      sections = l.sections;
      pool = l.pool;
      section = l.section;
      dense = l.dense;
    }) };
}

impl Limits {
    /// The usual limits.
    pub fn usual() -> Limits
        ensures { result ≡ usual }
    {
        Limits {
            dump: DUMP,
            header: HEADER,
            sections: SECTIONS,
            pool: POOL,
            section: SECTION,
            dense: DENSE,
        }
    }

    /// These limits, or `None` if one is above its usual value or the limit on the length of a header is 0.
    pub fn new(
        dump: u64,
        header: u16,
        sections: u32,
        pool: u32,
        section: u32,
        dense: u32,
    ) -> Option<Limits>
        ensures { let numbers : Numbers = record {
          dump = dump;
          header = header;
          sections = sections;
          pool = pool;
          section = section;
          dense = dense;
        } in SomeIff result (AreAllowed numbers) numbers }
    {
        let allowed = dump <= DUMP
            && header <= HEADER
            && 1 <= header
            && sections <= SECTIONS
            && pool <= POOL
            && section <= SECTION
            && dense <= DENSE;
        if !allowed {
            return None;
        }
        Some(Limits {
            dump,
            header,
            sections,
            pool,
            section,
            dense,
        })
    }

    /// The most bytes that the file may have.
    pub fn dump(&self) -> u64
        ensures value { result ≡ self.now.dump }
        ensures allowed { AreAllowed self.now }
    {
        self.dump
    }

    /// The most bytes that a line beginning with `=` may have before its LF; a CR counts.
    pub fn header(&self) -> u16
        ensures value { result ≡ self.now.header }
        ensures allowed { AreAllowed self.now }
    {
        self.header
    }

    /// The most headers.
    pub fn sections(&self) -> u32
        ensures value { result ≡ self.now.sections }
        ensures allowed { AreAllowed self.now }
    {
        self.sections
    }

    /// The most bytes of all header texts together.
    pub fn pool(&self) -> u32
        ensures value { result ≡ self.now.pool }
        ensures allowed { AreAllowed self.now }
    {
        self.pool
    }

    /// The most bytes of a body that is loaded.
    pub fn section(&self) -> u32
        ensures value { result ≡ self.now.section }
        ensures allowed { AreAllowed self.now }
    {
        self.section
    }

    /// The most heap lines and elements of one loaded heap.
    pub fn dense(&self) -> u32
        ensures value { result ≡ self.now.dense }
        ensures allowed { AreAllowed self.now }
    {
        self.dense
    }
}
