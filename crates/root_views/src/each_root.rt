// Hearing the roots of a body one by one.
ghost use Rattle.std.specs.Prelude.{◌+◌, ◌-◌, ◌<◌, ◌≤◌, ◌^◌, [], ◌∷◌, List, length, OnOk, IfErr};
ghost use Rattle.dump_io.specs.Dumps.{size_of, IsOpen, ReadsAtMost};
ghost use Rattle.dump_io.specs.Faults.{IsReadCauseOf};
ghost use Rattle.body_lines.specs.Hearing.{Hears, HearsBody};
ghost use Rattle.root_views.specs.Roots.{BodyRoot};
ghost use Rattle.root_views.specs.Seen.{root};
ghost use Rattle.root_views.specs.Placed.{placed_roots};
ghost use Rattle.root_views.specs.Inner.Each.{HearsThrough};

use crate::{Root, RootKind};
use body_lines::{WholeLineSink, hear_whole_lines};
use dump_io::{Dumps, ReadFault};
use std::alloc::AllocError;

/// Hears the roots of a body one by one, in order, until memory is lacking.
pub trait EachRoot {
    /// Whether the sink may hear roots.
    ghost ready: { Self → Type 0 };

    /// Which roots the sink heard between two states.
    ghost hears: { Self → Self → List BodyRoot → Type 0 };

    /// Hears a root. Its offset is that in the file.
    fn root(&mut self, found: &Root<'_>) -> Result<(), AllocError>
        requires ready { ready self.old }
        ensures ready { OnOk result (ready self.new) }
        ensures hears { OnOk result (Hears hears self.old self.new (root found.now ∷ [])) };
}

// Lets a sink hear the roots of a run of lines that begins at the offset `at`.
fn hear_each<S: EachRoot>(
    kind: RootKind,
    at: u64,
    run: &[u8],
    sink: &mut S,
) -> Result<(), AllocError>
    requires ready { S.ready sink.old }
    requires fits { at + length run.now < 2 ^ 64 }
    ensures ready { OnOk result (S.ready sink.new) }
    ensures hears { OnOk result
        (Hears S.hears sink.old sink.new (placed_roots kind at run.now)) }
{
    for found in kind.roots(run) {
        let placed = Root {
            at: (at + found.at as u64) as usize,
            label: found.label,
            what: found.what,
        };
        sink.root(&placed)?;
    }
    Ok(())
}

// Makes a sink of lines of what hears roots.
#[derive(Drop)]
struct ByRoot<'a, S> {
    kind: RootKind,
    sink: &'a mut S,
}

impl<'a, S: EachRoot> WholeLineSink for ByRoot<'a, S> {
    type Stop = AllocError;

    ghost ready = { λ by. S.ready by.sink.now };

    ghost hears = { HearsThrough S.hears };

    ghost stops = { λ _ _ _ _. Unit {0} };

    fn lines(&mut self, at: u64, run: &[u8]) -> Result<(), AllocError> {
        hear_each(self.kind, at, run, self.sink)
    }
}

/// Reads the bytes of the open file between two offsets once, in pieces of at most 65,536 bytes, whatever their number, and
/// lets a sink hear the roots of this body one by one; none of them is kept. The buffer may be empty at first; it grows to
/// hold a piece, and then only for a longer line. It serves the next body too.
///
/// On `Ok` the sink has heard exactly the roots of these bytes. `Read` is returned only if the device's count of faults rose,
/// and `Memory` may come whenever the buffer has to grow, or from the sink; after either nothing is said of what the sink
/// heard. Whatever it returns, no more bytes are read than lie between the offsets.
pub fn hear_roots<D: Dumps, S: EachRoot>(
    dumps: &mut D,
    from: u64,
    upto: u64,
    kind: RootKind,
    buffer: &mut Vec<u8>,
    sink: &mut S,
) -> Result<(), ReadFault>
    requires open { IsOpen (D.state dumps.old).now }
    requires within { upto ≤ size_of (D.state dumps.old).now }
    requires ordered { from ≤ upto }
    requires ready { S.ready sink.old }
    ensures reads { ReadsAtMost (D.state dumps.old) (D.state dumps.new) (upto - from) }
    ensures fault { IfErr result (IsReadCauseOf (D.state dumps.old) (D.state dumps.new)) }
    ensures ready { OnOk result (S.ready sink.new) }
    ensures hears { OnOk result (let now = (D.state dumps.old).now in
        HearsBody S.hears (placed_roots kind) sink.old sink.new from upto now) }
{
    let mut by = ByRoot { kind, sink };
    hear_whole_lines(dumps, from, upto, buffer, &mut by)?;
    Ok(())
}
