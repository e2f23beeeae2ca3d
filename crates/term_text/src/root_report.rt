// The reports of the roots of a process, and of one term.
ghost use Rattle.std.specs.Prelude.{◌≡◌, ◌+◌, ◌<◌, ◌^◌, [], length, All, IfOk};
ghost use Rattle.dump_io.specs.Sinks.{Puts};
ghost use Rattle.root_views.specs.Kinds.{roots_in};
ghost use Rattle.root_views.specs.Shown.{IsPlaced};
ghost use Rattle.root_views.specs.Seen.{content, root};
ghost use Rattle.term_forms.specs.Seen.{element};
ghost use Rattle.term_unfold.specs.Walks.{judged_text};
ghost use Rattle.term_text.specs.Inner.Headings.{root_heading};
ghost use Rattle.term_text.specs.Roots.{answer_over, content_text, root_line, roots_report, shown_report, term_report, root_lines};

use dump_io::{Failed, Piece, Sink, put_pieces, write_all};
use heap_cells::Why;
use report_lines::put_total_line;
use root_views::{Root, RootKind, ShownRoots, What};
use term_forms::shapes::Elem;
use term_unfold::{Verdict, Walker, why_text};

fn put_bad<K: Sink>(sink: &mut K, addr: u64, why: Why) -> Result<(), Failed>
    ensures { Puts (K.state sink.old) (K.state sink.new)
        (judged_text (Verdict.Bad addr why) []) result }
{
    put_pieces(
        sink,
        &[
            Piece::Bytes(b"! "),
            Piece::Bytes(why_text(why)),
            Piece::Bytes(b" "),
            Piece::Hex(addr),
        ],
    )
}

// Writes the answer to an element.
fn put_answer<K: Sink>(
    sink: &mut K,
    walker: &mut Walker<'_>,
    e: Elem<'_>,
    budget: u32,
    marked: bool,
) -> Result<(), Failed>
    requires budget { 0 < budget }
    ensures puts { Puts (K.state sink.old) (K.state sink.new)
        (answer_over walker.old budget marked (element e.entry)) result }
    ensures same { walker.new ≡ walker.old }
{
    if marked {
        return walker.print(e, budget, true, sink);
    }
    match walker.judge(e, budget) {
        Verdict::Bad(addr, why) => put_bad(sink, addr, why),
        Verdict::Clean => walker.print(e, budget, false, sink),
    }
}

// Writes what a root is.
fn put_content<K: Sink>(
    sink: &mut K,
    walker: &mut Walker<'_>,
    what: &What<'_>,
    budget: u32,
    marked: bool,
) -> Result<(), Failed>
    requires budget { 0 < budget }
    ensures puts { Puts (K.state sink.old) (K.state sink.new)
        (content_text (answer_over walker.old budget marked) (content what.now)) result }
    ensures same { walker.new ≡ walker.old }
{
    match what {
        What::Term(e) => put_answer(sink, walker, *e, budget, marked),
        What::Info(text) => put_pieces(sink, &[Piece::Bytes(b"# "), Piece::Bytes(text)]),
        What::Dist(text) => put_pieces(sink, &[Piece::Bytes(b"D "), Piece::Dec(text.len() as u64)]),
        What::Unread => write_all(sink, b"?"),
    }
}

fn put_heading<K: Sink>(sink: &mut K, base: u64, found: &Root<'_>) -> Result<(), Failed>
    requires { base + found.now.at < 2 ^ 64 }
    ensures { Puts (K.state sink.old) (K.state sink.new)
        (root_heading base (root found.now)) result }
{
    put_pieces(
        sink,
        &[
            Piece::Dec(base + found.at as u64),
            Piece::Bytes(b" "),
            Piece::Bytes(found.label),
            Piece::Bytes(b" "),
        ],
    )
}

fn put_root<K: Sink>(
    sink: &mut K,
    walker: &mut Walker<'_>,
    base: u64,
    found: &Root<'_>,
    budget: u32,
    marked: bool,
) -> Result<(), Failed>
    requires place { base + found.now.at < 2 ^ 64 }
    requires budget { 0 < budget }
    ensures puts { Puts (K.state sink.old) (K.state sink.new)
        (root_line (answer_over walker.old budget marked) base (root found.now)) result }
    ensures same { walker.new ≡ walker.old }
{
    put_heading(sink, base, found)?;
    put_content(sink, walker, &found.what, budget, marked)?;
    write_all(sink, b"\n")
}

// Writes a line for each root, and returns how many there are.
fn put_each<K: Sink>(
    sink: &mut K,
    walker: &mut Walker<'_>,
    kind: RootKind,
    body: &[u8],
    base: u64,
    budget: u32,
    marked: bool,
) -> Result<u64, Failed>
    requires places { base + length body.now < 2 ^ 64 }
    requires budget { 0 < budget }
    ensures puts { Puts (K.state sink.old) (K.state sink.new)
        (root_lines (answer_over walker.old budget marked) base (roots_in kind body.now)) result }
    ensures count { IfOk result (λ count. count ≡ length (roots_in kind body.now)) }
    ensures same { walker.new ≡ walker.old }
{
    let mut count = 0;
    for found in kind.roots(body) {
        put_root(sink, walker, base, &found, budget, marked)?;
        count += 1;
    }
    Ok(count)
}

/// Writes a line for each root of a body, `OFFSET LABEL REST`, and then `roots N`.
///
/// For a term, REST is its answer: its text, within as many nodes as the budget allows, or, if
/// bad addresses aren't marked in the text, `! ` with the first bad address among those nodes, if
/// there is one. It is `# TEXT` for an info, `D LENGTH` for a message in the external format, and
/// `?` for what isn't read. Each root has the whole budget, and a bad one doesn't affect those
/// after it. `base` is the offset of the body in the file, and the offsets are of the file.
pub fn put_roots<K: Sink>(
    sink: &mut K,
    walker: &mut Walker<'_>,
    kind: RootKind,
    body: &[u8],
    base: u64,
    budget: u32,
    marked: bool,
) -> Result<(), Failed>
    requires places { base + length body.now < 2 ^ 64 }
    requires budget { 0 < budget }
    ensures puts { Puts (K.state sink.old) (K.state sink.new)
        (roots_report (answer_over walker.old budget marked) base (roots_in kind body.now)) result }
    ensures same { walker.new ≡ walker.old }
{
    let count = put_each(sink, walker, kind, body, base, budget, marked)?;
    put_total_line(sink, b"roots", count)
}

// Writes a line for each root that is shown.
fn put_shown<K: Sink>(
    sink: &mut K,
    walker: &mut Walker<'_>,
    roots: &ShownRoots,
    base: u64,
    budget: u32,
    marked: bool,
) -> Result<(), Failed>
    requires places { All (IsPlaced base) roots.now.shown }
    requires budget { 0 < budget }
    ensures puts { Puts (K.state sink.old) (K.state sink.new)
        (root_lines (answer_over walker.old budget marked) base roots.now.shown) result }
    ensures same { walker.new ≡ walker.old }
{
    for i in 0..roots.len() {
        put_root(sink, walker, base, &roots.root(i), budget, marked)?;
    }
    Ok(())
}

/// Writes a line for each root that is shown of a body, as [`put_roots`] does, and then `roots N` with the number of all.
pub fn put_shown_roots<K: Sink>(
    sink: &mut K,
    walker: &mut Walker<'_>,
    roots: &ShownRoots,
    base: u64,
    budget: u32,
    marked: bool,
) -> Result<(), Failed>
    requires places { All (IsPlaced base) roots.now.shown }
    requires budget { 0 < budget }
    ensures puts { Puts (K.state sink.old) (K.state sink.new) (shown_report
        (answer_over walker.old budget marked) base roots.now.shown roots.now.count) result }
    ensures same { walker.new ≡ walker.old }
{
    put_shown(sink, walker, roots, base, budget, marked)?;
    put_total_line(sink, b"roots", roots.count())
}

/// Writes the answer to the reference to an address, as for the roots of a process.
pub fn put_term<K: Sink>(
    sink: &mut K,
    walker: &mut Walker<'_>,
    addr: u64,
    budget: u32,
    marked: bool,
) -> Result<(), Failed>
    requires budget { 0 < budget }
    ensures puts { Puts (K.state sink.old) (K.state sink.new)
        (term_report (answer_over walker.old budget marked) addr) result }
    ensures same { walker.new ≡ walker.old }
{
    put_answer(sink, walker, Elem::Ref(addr), budget, marked)?;
    write_all(sink, b"\n")
}
