// What hears the lines of a body whole, however long they are.
ghost use Rattle.std.specs.Prelude.{◌+◌, ◌<◌, ◌^◌, List, length, OnOk, IfErr};
ghost use Rattle.dump_io.specs.Lines.{Line};
ghost use Rattle.body_lines.specs.Lines.{lines_at};
ghost use Rattle.body_lines.specs.Hearing.{Hears, StopsAmong};

/// Hears the lines of a body in order, each of them whole, until it stops.
pub trait WholeLineSink {
    /// The answer with which the sink stops.
    type Stop;

    /// Whether the sink may hear lines.
    ghost ready: { Self → Type 0 };

    /// Which lines the sink heard between two states.
    ghost hears: { Self → Self → List Line → Type 0 };

    /// Which lines the sink heard between two states before it stopped, and with which answer.
    ghost stops: { Self → Self → List Line → Self.Stop → Type 0 };

    /// Hears a run of lines, the first of which begins at the offset `at`. Each
    /// ends in LF; only the last line of the body may lack it.
    fn lines(&mut self, at: u64, run: &[u8]) -> Result<(), Self::Stop>
        requires ready { ready self.old }
        requires some { 0 < length run.now }
        requires fits { at + length run.now < 2 ^ 64 }
        ensures ready { OnOk result (ready self.new) }
        ensures hears { OnOk result (Hears hears self.old self.new (lines_at at run.now)) }
        ensures stops { IfErr result
            (StopsAmong hears stops self.old self.new (lines_at at run.now)) };
}
