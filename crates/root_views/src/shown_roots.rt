// Some of the roots of a body, with how many there are.
ghost use Rattle.std.specs.Prelude.{◌≡◌, ◌-◌, ◌<◌, ◌≤◌, length, slice_get, All, Some, IfErr, IfOk};
ghost use Rattle.std.specs.List.{between};
ghost use Rattle.dump_io.specs.Dumps.{size_of, IfTold, IsOpen, ReadsAtMost};
ghost use Rattle.dump_io.specs.Faults.{IsReadCauseOf};
ghost use Rattle.root_views.specs.Seen.{root};
ghost use Rattle.root_views.specs.Shown.{shown_roots, IsPlaced};
ghost use Rattle.root_views.specs.Placed.{placed_roots};
ghost use Rattle.root_views.specs.Inner.Hearing.{IsReady, Took};

use crate::kept_roots::KeptRoots;
use crate::root_sink::RootSink;
use crate::root_texts::kept_root;
use crate::{Root, RootKind};
use body_lines::hear_whole_lines;
use dump_io::{Dumps, ReadFault};
use std::alloc::Global;
use std::marker::Model;

// Counts the roots of the body between two offsets of the open file, and keeps those from a place on, at most so many.
fn take_roots<D: Dumps>(
    alloc: Global,
    dumps: &mut D,
    from: u64,
    upto: u64,
    kind: RootKind,
    first: u64,
    most: u64,
) -> Result<RootSink, ReadFault>
    requires open { IsOpen (D.state dumps.old).now }
    requires within { upto ≤ size_of (D.state dumps.old).now }
    requires ordered { from ≤ upto }
    ensures reads { ReadsAtMost (D.state dumps.old) (D.state dumps.new) (upto - from) }
    ensures fault { IfErr result (IsReadCauseOf (D.state dumps.old) (D.state dumps.new)) }
    ensures ready { IfOk result IsReady }
    ensures roots { IfOk result (λ sink. IfTold (D.state dumps.old).now (λ dump.
        Took first most (placed_roots kind from (between from upto dump)) sink)) }
{
    let mut buffer = Vec::new(alloc);
    let mut sink = RootSink {
        first,
        most,
        count: 0,
        kept: KeptRoots {
            kind,
            lines: Vec::new(alloc),
            roots: Vec::new(alloc),
        },
    };
    hear_whole_lines(dumps, from, upto, &mut buffer, &mut sink)?;
    Ok(sink)
}

/// Some of the roots of a body, with how many there are in all. Contracts see
/// both: of the roots those that are shown, and the number of all.
#[derive(Drop)]
pub struct ShownRoots {
    // The offset of the body in the file.
    from: u64,
    count: u64,
    kept: KeptRoots,
}

impl Model for ShownRoots {
    ghost use Rattle.root_views.specs.Shown.{SomeRoots};

    ghost Value = { SomeRoots };

    ghost use Rattle.root_views.specs.Inner.Keeping.{all_counted_from, kept_all, AreKept};

    ghost view = { λ s. record { shown = all_counted_from s.from (kept_all s.kept); count = s.count } };

    ghost invariant = { λ s. AreKept s.kept };
}

impl ShownRoots {
    /// Reads the bytes of the open file between two offsets once, in pieces of at most 65,536 bytes, whatever their number,
    /// into a buffer that grows only to hold a line that is longer. Counts the roots of this body, and keeps those from the
    /// place `first` on, from 0, at most `most` of them, with their lines; of the other roots nothing is kept.
    ///
    /// `Read` is returned only if the device's count of faults rose, and `Memory` may come from any
    /// allocation. Whatever it returns, no more bytes are read than lie between the offsets.
    pub fn load<D: Dumps>(
        alloc: Global,
        dumps: &mut D,
        from: u64,
        upto: u64,
        kind: RootKind,
        first: u64,
        most: u64,
    ) -> Result<ShownRoots, ReadFault>
        requires open { IsOpen (D.state dumps.old).now }
        requires within { upto ≤ size_of (D.state dumps.old).now }
        requires ordered { from ≤ upto }
        ensures reads { ReadsAtMost (D.state dumps.old) (D.state dumps.new) (upto - from) }
        ensures fault { IfErr result (IsReadCauseOf (D.state dumps.old) (D.state dumps.new)) }
        ensures roots { IfOk result (λ roots. IfTold (D.state dumps.old).now (λ dump.
            roots ≡ shown_roots kind first most (between from upto dump))) }
        ensures places { IfOk result (λ roots. All (IsPlaced from) roots.shown) }
    {
        let sink = take_roots(alloc, dumps, from, upto, kind, first, most)?;
        let RootSink {
            first: _,
            most: _,
            count,
            kept,
        } = sink;
        Ok(ShownRoots { from, count, kept })
    }

    /// How many roots the body has in all.
    pub fn count(&self) -> u64
        ensures { result ≡ self.now.count }
    {
        self.count
    }

    /// How many of the body's roots are shown.
    pub fn len(&self) -> usize
        ensures { result ≡ length self.now.shown }
    {
        self.kept.roots.len()
    }

    /// The root at a place among those that are shown, from 0. Its offset is counted from the beginning of the body.
    pub fn root(&self, i: usize) -> Root<'_>
        requires { i < length self.now.shown }
        ensures { slice_get self.now.shown i ≡ Some (root result) }
    {
        kept_root(&self.kept, self.from, i)
    }
}
