// What hears the lines of a body.
ghost use Rattle.std.specs.Prelude.{◌≡◌, ◌+◌, ◌<◌, ◌^◌, ℕ, List, length, OnOk, IfErr};
ghost use Rattle.body_lines.specs.Lines.{CutLine, cut_lines, one_line};
ghost use Rattle.body_lines.specs.Hearing.{Hears, StopsAmong};

/// Hears the lines of a body in order, until it stops. Of a long line it gets no more than the first bytes.
pub trait LineSink {
    /// The answer with which the sink stops.
    type Stop;

    /// How many bytes of a line the sink needs, counted from the line's beginning.
    ghost kept: { ℕ };

    /// Whether the sink may hear lines.
    ghost ready: { Self → Type 0 };

    /// Which lines the sink heard between two states.
    ghost hears: { Self → Self → List CutLine → Type 0 };

    /// Which lines the sink heard between two states before it stopped, and with which answer.
    ghost stops: { Self → Self → List CutLine → Self.Stop → Type 0 };

    /// How many bytes of a line the sink needs.
    fn kept() -> u16
        ensures { result ≡ kept };

    /// Hears a run of lines, the first of which begins at the offset `at`. Each ends in LF; only the last line of the body
    /// may lack it. What the sink makes of a line may depend only on its offset, its length and as many of its first bytes
    /// as are kept: of a line that a piece cuts it gets no more.
    fn lines(&mut self, at: u64, run: &[u8]) -> Result<(), Self::Stop>
        requires ready { ready self.old }
        requires some { 0 < length run.now }
        requires fits { at + length run.now < 2 ^ 64 }
        ensures ready { OnOk result (ready self.new) }
        ensures hears { OnOk result (Hears hears self.old self.new (cut_lines kept at run.now)) }
        ensures stops { IfErr result
            (StopsAmong hears stops self.old self.new (cut_lines kept at run.now)) };

    /// Hears a line that a piece cut and that is longer than what is kept of it, `front`. It
    /// begins at the offset `at` and has `size` bytes, with its LF if it has one.
    fn long_line(&mut self, at: u64, front: &[u8], size: u64) -> Result<(), Self::Stop>
        requires ready { ready self.old }
        requires kept { length front.now ≡ kept }
        requires long { kept < size }
        requires fits { at + size < 2 ^ 64 }
        ensures ready { OnOk result (ready self.new) }
        ensures hears { OnOk result (Hears hears self.old self.new (one_line at front.now size)) }
        ensures stops { IfErr result
            (StopsAmong hears stops self.old self.new (one_line at front.now size)) };
}
