// Hearing the lines of a piece.
ghost use Rattle.std.specs.Prelude.{◌≡◌, ◌+◌, ◌-◌, ◌<◌, ◌≤◌, ◌^◌, length, take, drop, min, OnOk, IfOk, IfErr};
ghost use Rattle.body_lines.specs.Lines.{AreWhole, HasNoLf, cut_lines};
ghost use Rattle.body_lines.specs.Hearing.{Hears};
ghost use Rattle.body_lines.specs.Inner.Pieces.{Takes, TakesPiece, HearsOpen, StopsWithin, StopsInPiece, StopsAtOpen};

use crate::line_sink::LineSink;
use crate::starts::line_start;
use memchr::memchr;

/// How many of this many bytes of a line are kept.
pub(crate) fn kept_of<R: LineSink>(size: u64) -> usize
    ensures { result ≡ min R.kept size }
{
    let kept = R::kept() as u64;
    kept.min(size) as usize
}

// Hears the whole lines with which these bytes begin, and returns how many bytes they have.
fn hear_whole<R: LineSink>(bytes: &[u8], at: u64, sink: &mut R) -> Result<usize, R::Stop>
    requires ready { R.ready sink.old }
    requires fits { at + length bytes.now < 2 ^ 64 }
    ensures ready { OnOk result (R.ready sink.new) }
    ensures within { IfOk result (λ n. n ≤ length bytes.now) }
    ensures whole { IfOk result (λ n. AreWhole (take n bytes.now)) }
    ensures behind { IfOk result (λ n. HasNoLf (drop n bytes.now)) }
    ensures hears { IfOk result (λ n.
        Hears R.hears sink.old sink.new (cut_lines R.kept at (take n bytes.now))) }
    ensures stops { IfErr result
        (StopsWithin R.hears R.stops (cut_lines R.kept) sink.old sink.new at bytes.now) }
{
    let whole = line_start(bytes);
    if whole > 0 {
        sink.lines(at, &bytes[..whole])?;
    }
    Ok(whole)
}

// Moves the first bytes of the line that begins at a place to the beginning, as many as are kept of it.
fn keep_front<R: LineSink>(bytes: &mut [u8], start: usize)
    requires { start ≤ length bytes.old }
    ensures { let count = min R.kept (length bytes.old - start) in
        take count bytes.new ≡ take R.kept (drop start bytes.old) }
{
    let kept = kept_of::<R>((bytes.len() - start) as u64);
    bytes.copy_within(start..start + kept, 0);
}

// Hears the whole lines from a place on, the first of which begins at an offset. Of
// the line behind them it moves as many bytes to the beginning as are kept of it.
fn hear_from<R: LineSink>(
    bytes: &mut [u8],
    place: usize,
    at: u64,
    sink: &mut R,
) -> Result<u64, R::Stop>
    requires ready { R.ready sink.old }
    requires within { place ≤ length bytes.old }
    requires fits { at + (length bytes.old - place) < 2 ^ 64 }
    ensures ready { OnOk result (R.ready sink.new) }
    ensures takes { IfOk result (λ next. let lines_of = cut_lines R.kept in
        Takes R.hears lines_of sink.old sink.new R.kept at (drop place bytes.old) next bytes.new) }
    ensures stops { IfErr result (let lines_of = cut_lines R.kept in
        StopsWithin R.hears R.stops lines_of sink.old sink.new at (drop place bytes.old)) }
{
    let whole = hear_whole(&bytes[place..], at, sink)?;
    keep_front::<R>(bytes, place + whole);
    Ok(at + whole as u64)
}

/// Hears the lines that end in a piece. The piece follows what is kept of the line that begins at the
/// offset `line` and of which the bytes before the offset `at` were read. Returns the offset of the line
/// that doesn't end in the piece, of which it moves as many bytes to the beginning as are kept of it.
pub(crate) fn hear_piece<R: LineSink>(
    bytes: &mut [u8],
    line: u64,
    at: u64,
    sink: &mut R,
) -> Result<u64, R::Stop>
    requires ready { R.ready sink.old }
    requires ordered { line ≤ at }
    requires within { min R.kept (at - line) ≤ length bytes.old }
    requires fits { at + (length bytes.old - min R.kept (at - line)) < 2 ^ 64 }
    ensures ready { OnOk result (R.ready sink.new) }
    ensures takes { IfOk result (λ next. let lines_of = cut_lines R.kept in
        TakesPiece R.hears lines_of sink.old sink.new R.kept line at bytes.old next bytes.new) }
    ensures stops { IfErr result (let lines_of = cut_lines R.kept in
        StopsInPiece R.hears R.stops lines_of sink.old sink.new R.kept line at bytes.old) }
{
    let kept = R::kept() as usize;
    if at - line <= kept as u64 {
        return hear_from(bytes, 0, line, sink);
    }
    let Some(lf) = memchr(b'\n', &bytes[kept..]) else {
        return Ok(line);
    };
    let next = at + lf as u64 + 1;
    sink.long_line(line, &bytes[..kept], next - line)?;
    hear_from(bytes, kept + lf + 1, next, sink)
}

/// Hears the last line of a body, which begins at the offset `line` and
/// ends at `upto` without an LF, from what is kept of it; or it is empty.
pub(crate) fn hear_last<R: LineSink>(
    bytes: &[u8],
    line: u64,
    upto: u64,
    sink: &mut R,
) -> Result<(), R::Stop>
    requires ready { R.ready sink.old }
    requires ordered { line ≤ upto }
    requires within { min R.kept (upto - line) ≤ length bytes.now }
    ensures ready { OnOk result (R.ready sink.new) }
    ensures hears { OnOk result (let lines_of = cut_lines R.kept in
        HearsOpen R.hears lines_of sink.old sink.new R.kept line upto bytes.now) }
    ensures stops { IfErr result (let lines_of = cut_lines R.kept in
        StopsAtOpen R.hears R.stops lines_of sink.old sink.new R.kept line upto bytes.now) }
{
    let size = upto - line;
    let kept = R::kept() as usize;
    if size == 0 {
        return Ok(());
    }
    if size <= kept as u64 {
        return sink.lines(line, &bytes[..size as usize]);
    }
    sink.long_line(line, &bytes[..kept], size)
}
