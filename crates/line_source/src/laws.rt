// The laws of a stream that grows.
ghost use Rattle.std.specs.Prelude.{◌≡◌, ◌≤◌, ◌++◌, ℕ, List, All, Some};
ghost use Rattle.dump_io.specs.Lines.{headers};
ghost use Rattle.line_source.specs.Streams.{ended_headers, open_headers, new_headers};
ghost use Rattle.line_source.specs.Feeding.{first_too_long};
ghost use Rattle.line_source.specs.Growth.{TooLongGrows};

/// States a law and does no work: what a stream has of headers and of lines that are
/// too long, it still has when more bytes follow it, before those that these bring.
///
/// All headers are those whose lines have their LF, followed by the one that lacks
/// it. The headers that more bytes bring begin after the first line that is too long,
/// and the lines that they make too long begin after each header that has its LF.
pub fn streams_grow()
    ensures headers { (stream : List ℕ)
        → headers stream ≡ ended_headers stream ++ open_headers stream }
    ensures ended { (stream more : List ℕ)
        → ended_headers (stream ++ more) ≡ ended_headers stream ++ new_headers stream more }
    ensures too_long { (limit : ℕ) (stream more : List ℕ) → TooLongGrows limit stream more }
    ensures after_too_long { (limit at : ℕ) (stream more : List ℕ)
        → first_too_long limit stream ≡ Some at
        → All (λ header. at ≤ header.at)
        (new_headers stream more ++ open_headers (stream ++ more)) }
{}
