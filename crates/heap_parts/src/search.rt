// Gathering the lines that a root needs: the walk that unfolds it, over lines that are gathered as it comes to them.
ghost use Rattle.std.specs.Prelude.{OnOk, IfErr};
ghost use Rattle.dump_io.specs.Faults.{IsReadCauseOf};
ghost use Rattle.heap_parts.specs.Inner.Growing.{Grows, MayGather, ReadsLines};

use crate::gathered::{Gathered, Gist, Source, follow, follow_binary, line_of};
use dump_io::{Dumps, ReadFault};
use heap_cells::Kind;
use std::alloc::{AllocError, Global};
use term_forms::shapes::Elem;
use term_unfold::{NodeKind, TermKind, are_keys, item_kind, term_kind};

// A line that the search is in: what its cell is there, and the place of its next child.
#[derive(Clone, Copy)]
struct Entry {
    line: usize,
    kind: NodeKind,
    next: usize,
}

/// A depth-first search: the lines that it is in, the innermost on top, and for each line whether it is in it.
#[derive(Drop)]
pub(crate) struct Search {
    stack: Vec<Entry>,
    marks: Vec<bool>,
}

// A child of a line: the place of its lead, and whether it is an item of a hash map.
#[derive(Clone, Copy)]
struct Child {
    lead: usize,
    is_item: bool,
}

impl Search {
    pub fn new(alloc: Global) -> Search {
        Search {
            stack: Vec::new(alloc),
            marks: Vec::new(alloc),
        }
    }

    // Whether the search is in a line.
    fn is_in(&self, line: usize) -> bool {
        match self.marks.get(line) {
            Some(mark) => *mark,
            None => false,
        }
    }

    fn mark(&mut self, line: usize, mark: bool) {
        if let Some(old) = self.marks.get_mut(line) {
            *old = mark;
        }
    }

    // Enters a line, of which there are so many.
    fn enter(&mut self, line: usize, kind: NodeKind, lines: usize) -> Result<(), AllocError> {
        if self.marks.len() < lines {
            self.marks.resize(lines, false)?;
        }
        self.mark(line, true);
        self.stack.push(Entry {
            line,
            kind,
            next: 0,
        })?;
        Ok(())
    }

    // Goes on to the next child of the innermost line.
    fn step(&mut self) {
        if let Some(entry) = self.stack.last_mut() {
            entry.next = entry.next.saturating_add(1);
        }
    }

    // Leaves the innermost line.
    fn leave(&mut self) {
        if let Some(entry) = self.stack.pop() {
            self.mark(entry.line, false);
        }
    }

    // Leaves all lines.
    fn clear(&mut self) {
        for _ in 0..self.stack.len() {
            self.leave();
        }
    }

    // The child that comes next. Leaves the innermost lines that have none left.
    fn next_child(&mut self, g: &Gathered) -> Option<Child> {
        for _ in 0..self.stack.len() {
            let entry = *self.stack.last()?;
            if let Some(child) = child_at(g, entry) {
                self.step();
                return Some(child);
            }
            self.leave();
        }
        None
    }
}

// A key of a flat map, or the value after it.
fn key_or_value(g: &Gathered, map: usize, place: usize) -> Option<usize> {
    if place % 2 == 1 {
        return g.lead_of(map, place / 2 + 1);
    }
    let keys = g.line_at(g.lead_of(map, 0)?)?;
    g.lead_of(keys, place / 2)
}

// The child of a line that comes next, if one is left.
fn child_at(g: &Gathered, entry: Entry) -> Option<Child> {
    let Entry { line, kind, next } = entry;
    let lead = match kind {
        NodeKind::Flat => key_or_value(g, line, next)?,
        _ => g.lead_of(line, next)?,
    };
    Some(Child {
        lead,
        is_item: matches!(kind, NodeKind::Hash | NodeKind::Inner),
    })
}

// Whether the keys of a flat map are available.
fn has_keys<D: Dumps>(
    from: &Source<'_>,
    dumps: &mut D,
    line: usize,
    gist: &Gist,
    g: &mut Gathered,
    search: &Search,
) -> Result<bool, ReadFault>
    requires { MayGather from.now (D.state dumps.old).now g.old.lines.items }
    ensures reads { ReadsLines (D.state dumps.old) (D.state dumps.new) from.now.bytes g.old.lines.items }
    ensures fault { IfErr result (IsReadCauseOf (D.state dumps.old) (D.state dumps.new)) }
    ensures grows { OnOk result (Grows from.now (D.state dumps.old) (D.state dumps.new)
        g.old.lines.items g.new.lines.items) }
{
    if gist.elements < 2 {
        return Ok(true);
    }
    let Some(lead) = g.lead_of(line, 0) else {
        return Ok(false);
    };
    let Some(keys) = follow(from, dumps, lead, g)? else {
        return Ok(false);
    };
    if keys == line || search.is_in(keys) {
        return Ok(false);
    }
    let Some(found) = g.gist(keys) else {
        return Ok(false);
    };
    Ok(are_keys(found.kind, found.elements, gist.elements - 1))
}

// Gathers the line of the heap binary of which a cell is a part, if it is a sub binary.
fn gather_binary<D: Dumps>(
    from: &Source<'_>,
    dumps: &mut D,
    line: usize,
    gist: &Gist,
    g: &mut Gathered,
) -> Result<(), ReadFault>
    requires { MayGather from.now (D.state dumps.old).now g.old.lines.items }
    ensures reads { ReadsLines (D.state dumps.old) (D.state dumps.new) from.now.bytes g.old.lines.items }
    ensures fault { IfErr result (IsReadCauseOf (D.state dumps.old) (D.state dumps.new)) }
    ensures grows { OnOk result (Grows from.now (D.state dumps.old) (D.state dumps.new)
        g.old.lines.items g.new.lines.items) }
{
    if !matches!(gist.kind, Some(Kind::SubBin)) {
        return Ok(());
    }
    let Some(lead) = g.lead_of(line, 0) else {
        return Ok(());
    };
    follow_binary(from, dumps, lead, g)
}

// Enters a flat map that the search isn't in, if its keys are available.
fn open_flat<D: Dumps>(
    from: &Source<'_>,
    dumps: &mut D,
    line: usize,
    gist: &Gist,
    g: &mut Gathered,
    search: &mut Search,
) -> Result<(), ReadFault>
    requires { MayGather from.now (D.state dumps.old).now g.old.lines.items }
    ensures reads { ReadsLines (D.state dumps.old) (D.state dumps.new) from.now.bytes g.old.lines.items }
    ensures fault { IfErr result (IsReadCauseOf (D.state dumps.old) (D.state dumps.new)) }
    ensures grows { OnOk result (Grows from.now (D.state dumps.old) (D.state dumps.new)
        g.old.lines.items g.new.lines.items) }
{
    if !has_keys(from, dumps, line, gist, g, search)? {
        return Ok(());
    }
    search.enter(line, NodeKind::Flat, g.count())?;
    Ok(())
}

// Opens the cell of a line that the search isn't in, as a term: gathers
// what it needs beside its line, and enters it if it is a node.
fn open_term<D: Dumps>(
    from: &Source<'_>,
    dumps: &mut D,
    line: usize,
    gist: &Gist,
    g: &mut Gathered,
    search: &mut Search,
) -> Result<(), ReadFault>
    requires { MayGather from.now (D.state dumps.old).now g.old.lines.items }
    ensures reads { ReadsLines (D.state dumps.old) (D.state dumps.new) from.now.bytes g.old.lines.items }
    ensures fault { IfErr result (IsReadCauseOf (D.state dumps.old) (D.state dumps.new)) }
    ensures grows { OnOk result (Grows from.now (D.state dumps.old) (D.state dumps.new)
        g.old.lines.items g.new.lines.items) }
{
    match term_kind(gist.kind) {
        TermKind::Leaf => gather_binary(from, dumps, line, gist, g),
        TermKind::Node(kind) => Ok(search.enter(line, kind, g.count())?),
        TermKind::Flat => open_flat(from, dumps, line, gist, g, search),
        TermKind::Malformed => Ok(()),
    }
}

// Opens the cell of a line, unless the search is in it.
fn open_line<D: Dumps>(
    from: &Source<'_>,
    dumps: &mut D,
    line: usize,
    is_item: bool,
    g: &mut Gathered,
    search: &mut Search,
) -> Result<(), ReadFault>
    requires { MayGather from.now (D.state dumps.old).now g.old.lines.items }
    ensures reads { ReadsLines (D.state dumps.old) (D.state dumps.new) from.now.bytes g.old.lines.items }
    ensures fault { IfErr result (IsReadCauseOf (D.state dumps.old) (D.state dumps.new)) }
    ensures grows { OnOk result (Grows from.now (D.state dumps.old) (D.state dumps.new)
        g.old.lines.items g.new.lines.items) }
{
    let Some(gist) = g.gist(line) else {
        return Ok(());
    };
    if search.is_in(line) {
        return Ok(());
    }
    if !is_item {
        return open_term(from, dumps, line, &gist, g, search);
    }
    if let Some(kind) = item_kind(gist.kind) {
        search.enter(line, kind, g.count())?;
    }
    Ok(())
}

// Visits a child: gathers its line, if there is one, and opens it.
fn visit<D: Dumps>(
    from: &Source<'_>,
    dumps: &mut D,
    child: Child,
    g: &mut Gathered,
    search: &mut Search,
) -> Result<(), ReadFault>
    requires { MayGather from.now (D.state dumps.old).now g.old.lines.items }
    ensures reads { ReadsLines (D.state dumps.old) (D.state dumps.new) from.now.bytes g.old.lines.items }
    ensures fault { IfErr result (IsReadCauseOf (D.state dumps.old) (D.state dumps.new)) }
    ensures grows { OnOk result (Grows from.now (D.state dumps.old) (D.state dumps.new)
        g.old.lines.items g.new.lines.items) }
{
    match follow(from, dumps, child.lead, g)? {
        Some(line) => open_line(from, dumps, line, child.is_item, g, search),
        None => Ok(()),
    }
}

// Visits what comes after the root, within the nodes that it has beside itself.
fn visit_all<D: Dumps>(
    from: &Source<'_>,
    dumps: &mut D,
    g: &mut Gathered,
    search: &mut Search,
) -> Result<(), ReadFault>
    requires { MayGather from.now (D.state dumps.old).now g.old.lines.items }
    ensures reads { ReadsLines (D.state dumps.old) (D.state dumps.new) from.now.bytes g.old.lines.items }
    ensures fault { IfErr result (IsReadCauseOf (D.state dumps.old) (D.state dumps.new)) }
    ensures grows { OnOk result (Grows from.now (D.state dumps.old) (D.state dumps.new)
        g.old.lines.items g.new.lines.items) }
{
    for _ in 1..from.nodes {
        let Some(child) = search.next_child(g) else {
            return Ok(());
        };
        visit(from, dumps, child, g, search)?;
    }
    Ok(())
}

/// Gathers the lines that the first nodes of a root need. The search is in no line before and after it.
pub(crate) fn gather_root<D: Dumps>(
    from: &Source<'_>,
    dumps: &mut D,
    root: &Elem<'_>,
    g: &mut Gathered,
    search: &mut Search,
) -> Result<(), ReadFault>
    requires { MayGather from.now (D.state dumps.old).now g.old.lines.items }
    ensures reads { ReadsLines (D.state dumps.old) (D.state dumps.new) from.now.bytes g.old.lines.items }
    ensures fault { IfErr result (IsReadCauseOf (D.state dumps.old) (D.state dumps.new)) }
    ensures grows { OnOk result (Grows from.now (D.state dumps.old) (D.state dumps.new)
        g.old.lines.items g.new.lines.items) }
{
    let Elem::Ref(addr) = root else {
        return Ok(());
    };
    let Some(line) = line_of(from, dumps, *addr, g)? else {
        return Ok(());
    };
    open_line(from, dumps, line, false, g, search)?;
    visit_all(from, dumps, g, search)?;
    search.clear();
    Ok(())
}
