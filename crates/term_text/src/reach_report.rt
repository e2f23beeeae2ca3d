// The report of what the roots of a process reach.
ghost use Rattle.std.specs.Prelude.{◌≡◌, ◌+◌, ◌≤◌, List, length};
ghost use Rattle.std.specs.List.{flat_map};
ghost use Rattle.dump_io.specs.Sinks.{Puts};
ghost use Rattle.root_views.specs.Kinds.{roots_in};
ghost use Rattle.root_views.specs.Roots.{term_in};
ghost use Rattle.root_views.specs.Seen.{content};
ghost use Rattle.term_forms.specs.Elements.{Element};
ghost use Rattle.heap_reach.specs.Reached.{is_in};
ghost use Rattle.heap_reach.specs.Rounds.{reached_by, IsReachOf, AddsRoots};
ghost use Rattle.heap_reach.specs.Unreached.{count_below, one_if, unreached_of};
ghost use Rattle.term_text.specs.Reach.{reach_report, root_elements, totals_line, unreached_line};

use dump_io::{Failed, Piece, Sink};
use heap_cells::Heap;
use heap_reach::Reach;
use report_lines::put_line;
use root_views::{RootKind, What};

// Adds what a root reaches, if it is a term.
fn add_content(reach: &mut Reach<'_>, what: &What<'_>)
    ensures heap { reach.new.heap ≡ reach.old.heap }
    ensures roots { AddsRoots reach.old reach.new (term_in (content what.now)) }
{
    if let What::Term(e) = what {
        reach.root(*e);
    }
}

/// Adds what those roots of a body reach that are terms. Takes no memory.
pub fn add_roots(reach: &mut Reach<'_>, kind: RootKind, body: &[u8])
    ensures heap { reach.new.heap ≡ reach.old.heap }
    ensures roots { AddsRoots reach.old reach.new (root_elements (roots_in kind body.now)) }
{
    for found in kind.roots(body) {
        add_content(reach, &found.what);
    }
}

fn one_if(b: bool) -> u32
    ensures value { result ≡ one_if b }
    ensures few { result ≤ 1 }
{
    if b { 1 } else { 0 }
}

// How many of the cells from one number up to another are reached.
fn count_reached(heap: &Heap, reach: &Reach<'_>, first: u32, end: u32) -> u32
    requires heap { reach.now.heap ≡ heap.now }
    requires order { first ≤ end }
    requires within { end ≤ length heap.now.cells }
    ensures { let set = is_in reach.now.marks in
        result + count_below set first ≡ count_below set end }
{
    let mut count = 0;
    for n in first..end {
        count += one_if(reach.reached(heap.cell(n)));
    }
    count
}

fn put_unreached<K: Sink>(sink: &mut K, addr: u64) -> Result<(), Failed>
    ensures { Puts (K.state sink.old) (K.state sink.new) (unreached_line addr) result }
{
    put_line(sink, b" ", &[Piece::Bytes(b"unreached"), Piece::Hex(addr)])
}

fn put_each<K: Sink>(sink: &mut K, unreached: &[u64]) -> Result<(), Failed>
    ensures { Puts (K.state sink.old) (K.state sink.new)
        (flat_map unreached_line unreached.now) result }
{
    for addr in unreached {
        put_unreached(sink, *addr)?;
    }
    Ok(())
}

fn put_totals<K: Sink>(sink: &mut K, own: u32, reached: u32, literals: u32) -> Result<(), Failed>
    ensures { Puts (K.state sink.old) (K.state sink.new) (totals_line own reached literals) result }
{
    put_line(
        sink,
        b" ",
        &[
            Piece::Bytes(b"own"),
            Piece::Dec(u64::from(own)),
            Piece::Bytes(b"reached"),
            Piece::Dec(u64::from(reached)),
            Piece::Bytes(b"literals"),
            Piece::Dec(u64::from(literals)),
        ],
    )
}

/// Writes `unreached ADDR` for each of the heap's own cells that isn't reached, in ascending order,
/// and then `own N reached R literals L`: how many own cells there are, how many of them are reached,
/// and how many literals are reached. The heap is that of `reach`, and `unreached` is what `reach` returns.
pub fn put_reach<K: Sink>(
    sink: &mut K,
    heap: &Heap,
    reach: &Reach<'_>,
    unreached: &[u64],
) -> Result<(), Failed>
    requires heap { reach.now.heap ≡ heap.now }
    requires unreached { unreached.now ≡ unreached_of heap.now (is_in reach.now.marks) }
    ensures { (roots : List Element) → IsReachOf reach.now roots
        → Puts (K.state sink.old) (K.state sink.new)
        (reach_report heap.now (reached_by heap.now.cells roots)) result }
{
    let own = heap.own();
    let reached = count_reached(heap, reach, 0, own);
    let literals = count_reached(heap, reach, own, heap.cells());
    put_each(sink, unreached)?;
    put_totals(sink, own, reached, literals)
}
