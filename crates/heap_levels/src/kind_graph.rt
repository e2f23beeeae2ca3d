// The cells of a heap, and behind them one for each kind of roots.
ghost use Rattle.std.specs.Prelude.{◌≡◌, ◌<◌, ◌≤◌, length, map, IfOk, All};
ghost use Rattle.heap_weights.specs.Shares.{AreShares};
ghost use Rattle.heap_graph.specs.Binaries.{binaries_among};
ghost use Rattle.cell_parts.specs.Over.{IsOver};
ghost use Rattle.heap_levels.specs.Levels.{kind_cells, with_kinds};
ghost use Rattle.heap_levels.specs.Inner.KindGraphs.{kind_binaries, kind_graph, kind_words, parts_of};

use cell_graphs::{CellGraph, Weighed};
use cell_parts::Parts;
use heap_skeleton::Skeleton;
use heap_weights::{Shares, weigh};
use std::alloc::{AllocError, Global};
use std::marker::Model;

// The cells of a heap, and behind them one for each kind of roots, which leads to the cells of the kind's parts.
#[derive(Drop)]
pub(crate) struct KindGraph<'a> {
    pub skeleton: &'a Skeleton,
    pub stack: &'a Parts,
    pub dict: &'a Parts,
    pub mail: &'a Parts,
}

impl<'a> Model for KindGraph<'a> {
    ghost use Rattle.std.specs.Prelude.{◌+◌, ◌<◌, ◌^◌, length};
    ghost use Rattle.cell_parts.specs.Over.{IsOver};
    ghost use Rattle.heap_levels.specs.Inner.KindGraphs.{KindMap};

    ghost Value = { KindMap };

    ghost view = { λ g. record { heap = g.skeleton.now; stack = g.stack.now.parts; dict = g.dict.now.parts; mail = g.mail.now.parts } };

    ghost invariant = { λ g. IsOver g.skeleton.now g.stack.now × IsOver g.skeleton.now g.dict.now
        × IsOver g.skeleton.now g.mail.now × (length g.skeleton.now.leads + 3 < 2 ^ 32) };
}

// States a law: each part has a cell of those that may be parts.
fn parts_are_cells(parts: &Parts)
    ensures { All (λ cell. cell < parts.now.cells) (map (λ part. part.cell) parts.now.parts) }
{
    let cells = parts.cells();
    let _count = cells.len();
}

impl KindGraph<'_> {
    // The parts of the kind with a number.
    fn parts(&self, kind: u32) -> &Parts
        ensures parts { result.now.parts ≡ parts_of self.now kind }
        ensures over { IsOver self.now.heap result.now }
    {
        match kind {
            0 => self.stack,
            1 => self.dict,
            _ => self.mail,
        }
    }
}

impl CellGraph for KindGraph<'_> {
    ghost graph = { kind_graph };

    fn cells(&self) -> u32 {
        parts_are_cells(self.stack);
        parts_are_cells(self.dict);
        parts_are_cells(self.mail);
        self.skeleton.cells() + 3
    }

    fn places(&self, cell: u32) -> usize {
        let own = self.skeleton.cells();
        if cell < own {
            return self.skeleton.places(cell);
        }
        self.parts(cell - own).len()
    }

    fn lead(&self, cell: u32, place: usize) -> Option<u32> {
        let own = self.skeleton.cells();
        if cell < own {
            return self.skeleton.lead(cell, place);
        }
        Some(self.parts(cell - own).cell(place))
    }
}

impl Weighed for KindGraph<'_> {
    ghost words = { kind_words };

    ghost binaries = { kind_binaries };

    ghost own = { λ m. m.heap.own };

    fn words(&self, cell: u32) -> u64 {
        if cell < self.skeleton.cells() {
            self.skeleton.words(cell)
        } else {
            0
        }
    }

    fn is_binary(&self, cell: u32) -> bool {
        cell < self.skeleton.cells() && self.skeleton.is_binary(cell)
    }

    fn own(&self) -> u32 {
        self.skeleton.own()
    }
}

// States a law: the heap's own cells are some of its cells.
fn own_is_within(skeleton: &Skeleton)
    ensures { skeleton.now.own ≤ length skeleton.now.leads }
{
    let _own = Weighed::own(skeleton);
}

/// What the kinds of roots alone hold, which make these parts, and what two or more and any of them reach.
pub(crate) fn weigh_kinds(
    alloc: Global,
    skeleton: &Skeleton,
    stack: &Parts,
    dict: &Parts,
    mail: &Parts,
) -> Result<Shares, AllocError>
    requires stack { IsOver skeleton.now stack.now }
    requires dict { IsOver skeleton.now dict.now }
    requires mail { IsOver skeleton.now mail.now }
    ensures { IfOk result (AreShares (with_kinds skeleton.now.leads stack.now.parts dict.now.parts mail.now.parts)
        skeleton.now.words (binaries_among skeleton.now.kinds) skeleton.now.own (kind_cells skeleton.now.leads)) }
{
    own_is_within(skeleton);
    let own = skeleton.cells();
    let Some(last) = own.checked_add(2) else {
        return Err(AllocError);
    };
    if last == u32::MAX {
        return Err(AllocError);
    }
    let graph = KindGraph {
        skeleton,
        stack,
        dict,
        mail,
    };
    weigh(alloc, &graph, &[own, own + 1, last])
}
