// What hears the headers of a stream.
ghost use Rattle.std.specs.Prelude.{◌≡◌, List, Option, None};
ghost use Rattle.dump_io.specs.Lines.{Header};
ghost use Rattle.line_source.specs.declared.header_sink.RefusedHeader.{RefusedHeader};
ghost use Rattle.line_source.specs.Receiver.{Hears};

/// Why a header was refused. `at` is the offset at which its line begins, in bytes from 0.
#[derive(Clone, Copy, Debug, PartialEq, Eq)]
pub enum HeaderStop {
    /// There would be more headers than are allowed.
    TooMany { at: u64 },
    /// The texts of the headers together would be longer than is allowed.
    PoolFull { at: u64 },
    /// There was no memory for the header.
    Memory,
}

/// A header that was refused.
#[derive(Clone, Copy)]
pub struct RefusedHeader {
    /// Why the header was refused.
    pub value: HeaderStop,
    /// The offset at which the header's line begins.
    pub at: u64,
    /// How many bytes the header's text has.
    pub size: usize,
}

/// Hears headers, one after another, until it refuses one.
pub trait HeaderSink {
    /// The headers that were heard, in order.
    ghost heard: { Self → List Header };

    /// The header that was refused, once there is one.
    ghost stop: { Self → Option RefusedHeader };

    /// Hears a header: `at` is the offset at which its line begins, `body` the offset
    /// at which that line ends, after its LF if it has one, and `text` its text,
    /// without the LF and one CR directly before it. Offsets count bytes from 0.
    ///
    /// A refusal leaves what was heard as it is, and is kept
    /// with the offset and the length of the refused header.
    fn header(&mut self, at: u64, body: u64, text: &[u8]) -> Result<(), HeaderStop>
        requires { stop self.old ≡ None }
        ensures { Hears (heard self.old) (heard self.new) (stop self.new) (record {
          at = at;
          body = body;
          text = text.now;
        }) result };
}
