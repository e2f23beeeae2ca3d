// Headers from a stream that comes in pieces.
ghost use Rattle.std.specs.Prelude.{◌≡◌, ◌+◌, ◌-◌, ◌<◌, ◌≤◌, ◌^◌, ◌++◌, ◌∷◌, [], ℕ, true, false, is_err, length, take, List, None, Some, Ok, Err, OnOk, OnErr, IfErr, IsSome, IfSome, IsErrOf, All, ◌↔◌, slice_index, ◌==◌, if◌then◌else◌};
ghost use Rattle.memchr.specs.Find.{Nowhere, Passes, is_byte};
ghost use Rattle.dump_io.specs.Lines.{Header, lf, equals_sign, text_of};
ghost use Rattle.line_source.specs.Streams.{ended, plain, header, too_long, new_headers, open_headers, headers_before};
ghost use Rattle.line_source.specs.Scan.{Scan, StandsFor, most_kept};
ghost use Rattle.line_source.specs.declared.header_sink.RefusedHeader.{RefusedHeader};
ghost use Rattle.line_source.specs.Receiver.{Hears};
ghost use Rattle.line_source.specs.Feeding.{first_too_long, stop_of, StopsAmong};
ghost use Rattle.line_source.specs.Inner.Ends.{Ends};
ghost use Rattle.line_source.specs.Inner.LastLine.{header_bytes, is_header_line};
ghost use Rattle.line_source.specs.Inner.Takes.{Takes};
ghost use Rattle.line_source.specs.Receiver.{stop_value};

use crate::header_sink::{HeaderSink, HeaderStop};
use crate::scan_fault::ScanFault;
use crate::starts::header_start;
use arrayvec::ArrayVec;
use dump_io::text_before_lf;
use memchr::memchr;
use std::marker::Model;

// The most bytes of a header's line that are kept.
const MOST: usize = 4_096;

// What is known of the last line that has come.
#[derive(Clone, Copy)]
enum LineState {
    // The last line has its LF, or nothing has come.
    Ended,
    // The last line lacks its LF and begins with a byte other than `=`.
    Plain,
    // The last line lacks its LF and begins with `=`, and its bytes are kept.
    Header,
}

/// Finds the headers of a stream that comes in pieces, and lets a receiver hear them.
///
/// It keeps no more of the stream than the bytes of a header's line that has no LF yet,
/// at most 4,096. Contracts see it as a `Scan`: the limit, how many bytes have come, what
/// is known of the last line, and whether the stream is over. `StandsFor scan stream`
/// says that this stream may have come; each clause on a stream holds for every such one.
#[derive(Drop)]
pub struct LineScan {
    limit: u16,
    offset: u64,
    line: LineState,
    kept: ArrayVec<u8, MOST>,
    spent: bool,
}

impl Model for LineScan {
    ghost use Rattle.std.specs.Prelude.{ℕ, ◌≤◌, length};
    ghost use Rattle.line_source.specs.Scan.{Scan, most_kept};

    ghost Value = { Scan };

    ghost use Rattle.line_source.specs.Inner.State.{last_in};

    ghost view = { λ scan. record {
      limit = scan.limit;
      offset = scan.offset;
      last = last_in scan.line scan.kept.items;
      spent = scan.spent;
    } };

    ghost invariant = { λ scan.
        (1 ≤ scan.limit)
        × (scan.limit ≤ most_kept)
        × (length scan.kept.items ≤ scan.limit)
        × (length scan.kept.items ≤ scan.offset) };
}

impl LineScan {
    /// A scan of a stream of which nothing has come yet. A line that begins
    /// with `=` may have at most `limit` bytes before its LF. Takes no memory.
    pub fn new(limit: u16) -> LineScan
        requires some { 1 ≤ limit }
        requires most { limit ≤ most_kept }
        ensures stands { StandsFor result [] }
        ensures limit { result.limit ≡ limit }
        ensures spent { result.spent ≡ false }
    {
        LineScan {
            limit,
            offset: 0,
            line: LineState::Ended,
            kept: ArrayVec::new(),
            spent: false,
        }
    }

    /// Whether the stream is over: after `finish`, and after any error.
    pub fn spent(&self) -> bool
        ensures { result ≡ self.now.spent }
    {
        self.spent
    }

    /// Takes the next piece of the stream, and lets the receiver hear each header whose LF is in the piece.
    ///
    /// The stream so far is what came before, followed by the piece. Its new headers are those whose LF is in
    /// the piece. Returns `HeaderTooLong` exactly when the receiver refused nothing and some line of the
    /// stream so far begins with `=` and has more bytes than the limit before its LF, or without one; it
    /// names the first such line, and the new headers before it were heard. Returns `Stop` exactly when the
    /// receiver refused a header; the new headers before that one were heard. The scan is spent after either.
    pub fn feed<H: HeaderSink>(&mut self, piece: &[u8], into: &mut H) -> Result<(), ScanFault>
        requires fresh { self.old.spent ≡ false }
        requires fits { self.old.offset + length piece.now < 2 ^ 64 }
        requires open { H.stop into.old ≡ None }
        ensures limit { self.new.limit ≡ self.old.limit }
        ensures offset { OnOk result (self.new.offset ≡ self.old.offset + length piece.now) }
        ensures spent { self.new.spent ≡ is_err result }
        ensures stop { stop_value (H.stop into.new) ≡ stop_of result }
        ensures open { OnOk result (H.stop into.new ≡ None) }
        ensures stands { OnOk result ((stream : List ℕ) → StandsFor self.old stream
            → StandsFor self.new (stream ++ piece.now)) }
        ensures heard { OnOk result ((stream : List ℕ) → StandsFor self.old stream
            → H.heard into.new ≡ H.heard into.old ++ new_headers stream piece.now) }
        ensures too_long { (stream : List ℕ) → StandsFor self.old stream
            → (at : ℕ) → IsErrOf result (ScanFault.HeaderTooLong at)
            ↔ ((H.stop into.new ≡ None)
            × (first_too_long self.old.limit (stream ++ piece.now) ≡ Some at)) }
        ensures heard_before_long { (stream : List ℕ) → StandsFor self.old stream
            → (at : ℕ) → IsErrOf result (ScanFault.HeaderTooLong at)
            → H.heard into.new
            ≡ H.heard into.old ++ headers_before at (new_headers stream piece.now) }
        ensures refused { (stream : List ℕ) → StandsFor self.old stream
            → (refused : RefusedHeader) → H.stop into.new ≡ Some refused
            → StopsAmong (H.heard into.old) (H.heard into.new) refused
            (new_headers stream piece.now) }
        ensures refused_is_short { (stream : List ℕ) → StandsFor self.old stream
            → (refused : RefusedHeader) → H.stop into.new ≡ Some refused
            → All (λ at. refused.at < at) (too_long self.old.limit (stream ++ piece.now)) }
    {
        let result = self.take_all(piece, into);
        self.spent = result.is_err();
        result
    }

    /// Ends the stream, and lets the receiver hear the last header if its line lacks its LF.
    ///
    /// Returns only `Stop`, exactly when the receiver refused that header. The scan is spent afterwards.
    pub fn finish<H: HeaderSink>(&mut self, into: &mut H) -> Result<(), ScanFault>
        requires fresh { self.old.spent ≡ false }
        requires open { H.stop into.old ≡ None }
        ensures spent { self.new.spent ≡ true }
        ensures stop { stop_value (H.stop into.new) ≡ stop_of result }
        ensures only_stop { OnErr result (IsSome (stop_of result)) }
        ensures heard { OnOk result ((stream : List ℕ) → StandsFor self.old stream
            → H.heard into.new ≡ H.heard into.old ++ open_headers stream) }
        ensures unheard { OnErr result (H.heard into.new ≡ H.heard into.old) }
        ensures refused { (stream : List ℕ) → StandsFor self.old stream
            → (refused : RefusedHeader) → H.stop into.new ≡ Some refused
            → StopsAmong (H.heard into.old) (H.heard into.new) refused (open_headers stream) }
    {
        let result = self.hear_last(into);
        self.spent = true;
        result
    }

    // Lets the receiver hear the last header if its line lacks its LF.
    fn hear_last<H: HeaderSink>(&self, into: &mut H) -> Result<(), ScanFault>
        requires open { H.stop into.old ≡ None }
        ensures stop { stop_value (H.stop into.new) ≡ stop_of result }
        ensures only_stop { OnErr result (IsSome (stop_of result)) }
        ensures heard { OnOk result ((stream : List ℕ) → StandsFor self.now stream
            → H.heard into.new ≡ H.heard into.old ++ open_headers stream) }
        ensures unheard { OnErr result (H.heard into.new ≡ H.heard into.old) }
        ensures refused { (stream : List ℕ) → StandsFor self.now stream
            → (refused : RefusedHeader) → H.stop into.new ≡ Some refused
            → StopsAmong (H.heard into.old) (H.heard into.new) refused (open_headers stream) }
    {
        if self.in_header() {
            self.hear_open(into)?;
        }
        Ok(())
    }

    // Lets the receiver hear a header whose line lacks its LF.
    fn hear_open<H: HeaderSink>(&self, into: &mut H) -> Result<(), HeaderStop>
        requires header { is_header_line self.now.last ≡ true }
        requires open { H.stop into.old ≡ None }
        ensures { Hears (H.heard into.old) (H.heard into.new) (H.stop into.new) (record {
          at = self.now.offset - length (header_bytes self.now.last);
          body = self.now.offset;
          text = header_bytes self.now.last;
        }) result }
    {
        let at = self.offset - self.kept.len() as u64;
        into.header(at, self.offset, self.kept.as_slice())
    }

    // Passes over bytes up to the next header, or over all of them if there is none.
    fn pass(&mut self, rest: &[u8]) -> usize
        requires other { is_header_line self.old.last ≡ false }
        requires some { 0 < length rest.now }
        requires fits { self.old.offset + length rest.now < 2 ^ 64 }
        ensures within { result ≤ length rest.now }
        ensures offset { self.new.offset ≡ self.old.offset + result }
        ensures limit { self.new.limit ≡ self.old.limit }
        ensures spent { self.new.spent ≡ self.old.spent }
        ensures stands { (stream : List ℕ) → StandsFor self.old stream
            → StandsFor self.new (stream ++ take result rest.now) }
        ensures silent { (stream : List ℕ) → StandsFor self.old stream
            → new_headers stream (take result rest.now) ≡ [] }
        ensures header { result < length rest.now
            → (self.new.last ≡ ended) × (slice_index rest.now result ≡ equals_sign) }
    {
        match header_start(rest, self.has_begun()) {
            Some(at) => {
                self.pass_lines(at as u64);
                at
            }
            None => {
                self.pass_all(rest);
                rest.len()
            }
        }
    }

    // Whether the last line lacks its LF and begins with a byte other than `=`.
    fn has_begun(&self) -> bool
        requires { is_header_line self.now.last ≡ false }
        ensures { self.now.last ≡ (if result then plain else ended) }
    {
        matches!(self.line, LineState::Plain)
    }

    // Takes the `=` of a header's line, and keeps it.
    fn begin_header(&mut self)
        requires { self.old.offset + 1 < 2 ^ 64 }
        ensures header { self.new ≡ record self.old {
          offset = self.old.offset + 1;
          last = header (equals_sign ∷ []);
        } }
        ensures limit { 1 ≤ self.old.limit }
    {
        self.kept.clear();
        self.kept.push(b'=');
        self.line = LineState::Header;
        self.offset += 1;
    }

    // Passes over bytes in which no header begins, the last of which is an LF.
    fn pass_lines(&mut self, passed: u64)
        requires { self.old.offset + passed < 2 ^ 64 }
        ensures { self.new ≡ record self.old {
          offset = self.old.offset + passed;
          last = ended;
        } }
    {
        self.line = LineState::Ended;
        self.offset += passed;
    }

    // Passes over bytes in which no header begins.
    fn pass_all(&mut self, rest: &[u8])
        requires some { 0 < length rest.now }
        requires fits { self.old.offset + length rest.now < 2 ^ 64 }
        ensures { self.new ≡ record self.old {
          offset = self.old.offset + length rest.now;
          last = (if slice_index rest.now (length rest.now - 1) == lf then ended else plain);
        } }
    {
        self.line = if rest[rest.len() - 1] == b'\n' {
            LineState::Ended
        } else {
            LineState::Plain
        };
        self.offset += rest.len() as u64;
    }

    // Keeps more bytes of a header's line.
    fn keep(&mut self, part: &[u8]) -> Result<(), ScanFault>
        requires header { is_header_line self.old.last ≡ true }
        requires fits { self.old.offset + length part.now < 2 ^ 64 }
        ensures ok { OnOk result (self.new ≡ record self.old {
          offset = self.old.offset + length part.now;
          last = header (header_bytes self.old.last ++ part.now);
        }) }
        ensures err { OnErr result (self.new ≡ self.old) }
        ensures fits { OnOk result
            (length (header_bytes self.old.last) + length part.now ≤ self.old.limit) }
        ensures over { OnErr result
            (self.old.limit < length (header_bytes self.old.last) + length part.now) }
        ensures fault { IfErr result (λ fault. fault
            ≡ ScanFault.HeaderTooLong (self.old.offset - length (header_bytes self.old.last))) }
        ensures within_limit { length (header_bytes self.old.last) ≤ self.old.limit }
        ensures within_offset { length (header_bytes self.old.last) ≤ self.old.offset }
    {
        let kept = self.kept.len();
        if part.len() > self.limit as usize - kept
            || self.kept.try_extend_from_slice(part).is_err()
        {
            return Err(ScanFault::HeaderTooLong {
                at: self.offset - kept as u64,
            });
        }
        self.offset += part.len() as u64;
        Ok(())
    }

    // Takes the LF of a header's line, and lets the receiver hear the header.
    fn hear<H: HeaderSink>(&mut self, into: &mut H) -> Result<(), HeaderStop>
        requires header { is_header_line self.old.last ≡ true }
        requires fits { self.old.offset + 1 < 2 ^ 64 }
        requires open { H.stop into.old ≡ None }
        ensures hears { Hears (H.heard into.old) (H.heard into.new) (H.stop into.new) (record {
          at = self.old.offset - length (header_bytes self.old.last);
          body = self.old.offset + 1;
          text = text_of (header_bytes self.old.last ++ lf ∷ []);
        }) result }
        ensures ok { OnOk result (self.new ≡ record self.old {
          offset = self.old.offset + 1;
          last = ended;
        }) }
        ensures err { OnErr result (self.new ≡ self.old) }
    {
        let at = self.offset - self.kept.len() as u64;
        let body = self.offset + 1;
        into.header(at, body, text_before_lf(self.kept.as_slice()))?;
        self.line = LineState::Ended;
        self.offset = body;
        Ok(())
    }

    // Takes a header's line up to and including its LF, or all the bytes if none is an LF.
    fn take_header<H: HeaderSink>(&mut self, rest: &[u8], into: &mut H) -> Result<usize, ScanFault>
        requires header { is_header_line self.old.last ≡ true }
        requires some { 0 < length rest.now }
        requires fits { self.old.offset + length rest.now < 2 ^ 64 }
        requires open { H.stop into.old ≡ None }
        ensures { Takes self.old self.new rest.now
            (H.heard into.old) (H.heard into.new) (H.stop into.new) result }
    {
        match memchr(b'\n', rest) {
            Some(end) => {
                self.keep(&rest[..end])?;
                self.hear(into)?;
                Ok(end + 1)
            }
            None => {
                self.keep(rest)?;
                Ok(rest.len())
            }
        }
    }

    // Where the first line of the bytes has its LF, if that is among
    // them and the line isn't longer than a header's may be.
    fn line_end(&self, rest: &[u8]) -> Option<usize>
        ensures fits { IfSome result (λ end. end ≤ self.now.limit) }
        ensures inside { IfSome result (λ end. end < length rest.now) }
        ensures before { IfSome result (λ end. Nowhere (Passes (is_byte lf) rest.now) 0 end) }
        ensures here { IfSome result (λ end. Passes (is_byte lf) rest.now end) }
    {
        match memchr(b'\n', rest) {
            Some(end) if end <= self.limit as usize => Some(end),
            _ => None,
        }
    }

    // Lets the receiver hear the header whose line has these bytes before its LF, and takes the line with its LF.
    fn hear_line<H: HeaderSink>(&mut self, line: &[u8], into: &mut H) -> Result<(), HeaderStop>
        requires fits { self.old.offset + length line.now + 1 < 2 ^ 64 }
        requires open { H.stop into.old ≡ None }
        ensures hears { Hears (H.heard into.old) (H.heard into.new) (H.stop into.new) (record {
          at = self.old.offset;
          body = self.old.offset + length line.now + 1;
          text = text_of (line.now ++ lf ∷ []);
        }) result }
        ensures ok { OnOk result (self.new ≡ record self.old {
          offset = self.old.offset + length line.now + 1;
          last = ended;
        }) }
        ensures err { OnErr result (self.new ≡ self.old) }
    {
        let body = self.offset + line.len() as u64 + 1;
        into.header(self.offset, body, text_before_lf(line))?;
        self.line = LineState::Ended;
        self.offset = body;
        Ok(())
    }

    // Takes the line of a header, whose `=` is the first of the bytes, up to and including
    // its LF. If the LF isn't among them, or too far away, only the `=` is taken and kept.
    fn take_line<H: HeaderSink>(&mut self, rest: &[u8], into: &mut H) -> Result<usize, ScanFault>
        requires line { self.old.last ≡ ended }
        requires some { 0 < length rest.now }
        requires sign { slice_index rest.now 0 ≡ equals_sign }
        requires fits { self.old.offset + length rest.now < 2 ^ 64 }
        requires open { H.stop into.old ≡ None }
        ensures { Takes self.old self.new rest.now
            (H.heard into.old) (H.heard into.new) (H.stop into.new) result }
    {
        match self.line_end(rest) {
            Some(end) => {
                self.hear_line(&rest[..end], into)?;
                Ok(end + 1)
            }
            None => {
                self.begin_header();
                Ok(1)
            }
        }
    }

    // Takes bytes up to the next header and what `take_line` takes of its line, or all the bytes if no header begins there.
    fn take_other<H: HeaderSink>(&mut self, rest: &[u8], into: &mut H) -> Result<usize, ScanFault>
        requires other { is_header_line self.old.last ≡ false }
        requires some { 0 < length rest.now }
        requires fits { self.old.offset + length rest.now < 2 ^ 64 }
        requires open { H.stop into.old ≡ None }
        ensures { Takes self.old self.new rest.now
            (H.heard into.old) (H.heard into.new) (H.stop into.new) result }
    {
        let passed = self.pass(rest);
        if passed == rest.len() {
            return Ok(passed);
        }
        let taken = self.take_line(&rest[passed..], into)?;
        Ok(passed + taken)
    }

    // Whether the last line is a header's and lacks its LF.
    fn in_header(&self) -> bool
        ensures { result ≡ is_header_line self.now.last }
    {
        matches!(self.line, LineState::Header)
    }

    // Takes the first bytes of what is left of a piece, at least one, and returns how many.
    fn take_some<H: HeaderSink>(&mut self, rest: &[u8], into: &mut H) -> Result<usize, ScanFault>
        requires some { 0 < length rest.now }
        requires fits { self.old.offset + length rest.now < 2 ^ 64 }
        requires open { H.stop into.old ≡ None }
        ensures { Takes self.old self.new rest.now
            (H.heard into.old) (H.heard into.new) (H.stop into.new) result }
    {
        if self.in_header() {
            self.take_header(rest, into)
        } else {
            self.take_other(rest, into)
        }
    }

    // Takes a piece.
    fn take_all<H: HeaderSink>(&mut self, piece: &[u8], into: &mut H) -> Result<(), ScanFault>
        requires fits { self.old.offset + length piece.now < 2 ^ 64 }
        requires open { H.stop into.old ≡ None }
        ensures offset { OnOk result (self.new.offset ≡ self.old.offset + length piece.now) }
        ensures limit { self.new.limit ≡ self.old.limit }
        ensures stop { stop_value (H.stop into.new) ≡ stop_of result }
        ensures stands { OnOk result ((stream : List ℕ) → StandsFor self.old stream
            → StandsFor self.new (stream ++ piece.now)) }
        ensures heard { OnOk result ((stream : List ℕ) → StandsFor self.old stream
            → H.heard into.new ≡ H.heard into.old ++ new_headers stream piece.now) }
        ensures ends { IfErr result (λ fault. (stream : List ℕ) → StandsFor self.old stream
            → Ends self.old.limit stream piece.now (H.heard into.old) (H.heard into.new)
            (H.stop into.new) fault) }
    {
        let mut done = 0;
        while done < piece.len() {
            done += self.take_some(&piece[done..], into)?;
        }
        Ok(())
    }
}
