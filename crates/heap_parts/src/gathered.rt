// The lines that were gathered, and what was read of each.
ghost use Rattle.std.specs.Prelude.{◌≡◌, ◌^◌, ◌<◌, [], length, OnOk, IfOk, IfErr};
ghost use Rattle.dump_io.specs.Faults.{IsReadCauseOf};
ghost use Rattle.heap_parts.specs.Inner.Growing.{Grows, MayGather, ReadsLines};

use crate::heap_lines::HeapLines;
use dump_io::{Dumps, ReadFault, line_text};
use heap_cells::{Kind, kind_of};
use std::alloc::{AllocError, Global};
use std::collections::BTreeMap;
use term_forms::reading::form;
use term_forms::shapes::{Elem, Form};
use term_forms::{Elems, Enc, heap_line};
use term_unfold::Addresses;

/// The lines of which some are gathered, and how much is gathered at most: so many bytes of lines, for
/// so many nodes of each root, so many elements of which it is kept where they lead.
#[derive(Clone, Copy)]
pub(crate) struct Source<'a> {
    pub lines: &'a HeapLines,
    pub bytes: usize,
    pub nodes: u32,
    pub leads: u32,
}

/// Where an element leads.
#[derive(Clone, Copy)]
pub(crate) enum Lead {
    /// To no line: it is an immediate, or no line has its address.
    Nowhere,
    /// To an address for which no line was looked for yet.
    Address(u64),
    /// To the gathered line with a number, in the order of gathering.
    Line(usize),
}

/// What was read of a line: the kind of its form, unless it is malformed, how many elements the form has, and where
/// the first of them lead. Of a sub binary, which has no elements, its binary is kept in their place.
#[derive(Clone, Copy)]
pub(crate) struct Gist {
    pub kind: Option<Kind>,
    pub elements: u64,
    first: usize,
    kept: usize,
}

/// The lines that were gathered, what was read of each, and which of them has an address. Each is read
/// and parsed once, whichever roots lead to it.
#[derive(Drop)]
pub(crate) struct Gathered {
    pub lines: Vec<u8>,
    gists: Vec<Gist>,
    leads: Vec<Lead>,
    numbers: BTreeMap<u64, usize>,
}

fn push_elem(leads: &mut Vec<Lead>, e: &Elem<'_>) -> Result<(), AllocError> {
    let lead = match e {
        Elem::Ref(addr) => Lead::Address(*addr),
        _ => Lead::Nowhere,
    };
    leads.push(lead)?;
    Ok(())
}

// Keeps where the first of these elements lead, at most `most`, and returns how many elements there are.
fn push_elems(leads: &mut Vec<Lead>, elems: Elems<'_>, most: u32) -> Result<u64, AllocError>
    ensures few { IfOk result (λ count. count < 2 ^ 63) }
{
    let count = elems.left();
    let mut left = most;
    for e in elems {
        if left == 0 {
            return Ok(count);
        }
        left -= 1;
        push_elem(leads, &e)?;
    }
    Ok(count)
}

// Keeps where the first elements of a form lead, and returns how many elements it has.
fn push_form(leads: &mut Vec<Lead>, form: Form<'_>, most: u32) -> Result<u64, AllocError> {
    match form {
        Form::List(head, tail) => {
            push_elem(leads, &head)?;
            push_elem(leads, &tail)?;
            Ok(2)
        }
        Form::Tuple(elems) => push_elems(leads, elems, most),
        Form::Flat(keys, values) => {
            push_elem(leads, &keys)?;
            let count = push_elems(leads, values, most)?;
            Ok(count + 1)
        }
        Form::Hash(_, children) => push_elems(leads, children, most),
        Form::Node(children) => push_elems(leads, children, most),
        Form::SubBin(addr, _, _) => {
            leads.push(Lead::Address(addr))?;
            Ok(0)
        }
        _ => Ok(0),
    }
}

// The form that a line spells.
fn form_in(line: &[u8], enc: Enc) -> Option<Form<'_>> {
    let (_, spelled) = heap_line(line_text(line))?;
    form(spelled, enc)
}

// Reads a line, and keeps where the first elements of its form lead.
fn read_gist(line: &[u8], enc: Enc, most: u32, leads: &mut Vec<Lead>) -> Result<Gist, AllocError> {
    let first = leads.len();
    let Some(form) = form_in(line, enc) else {
        return Ok(Gist {
            kind: None,
            elements: 0,
            first,
            kept: 0,
        });
    };
    let kind = Some(kind_of(&form));
    let elements = push_form(leads, form, most)?;
    Ok(Gist {
        kind,
        elements,
        first,
        kept: leads.len().saturating_sub(first),
    })
}

impl Gathered {
    pub fn new(alloc: Global) -> Gathered
        ensures { result.lines.items ≡ [] }
    {
        Gathered {
            lines: Vec::new(alloc),
            gists: Vec::new(alloc),
            leads: Vec::new(alloc),
            numbers: BTreeMap::new(alloc),
        }
    }

    /// How many lines were gathered.
    pub fn count(&self) -> usize {
        self.gists.len()
    }

    /// What was read of the line with a number.
    pub fn gist(&self, number: usize) -> Option<Gist> {
        self.gists.get(number).copied()
    }

    /// The place, among all that are kept, of the lead of an element, by its place in the form of a
    /// line. Returns `None` also for one that isn't kept.
    pub fn lead_of(&self, number: usize, place: usize) -> Option<usize> {
        let gist = self.gist(number)?;
        if place < gist.kept {
            gist.first.checked_add(place)
        } else {
            None
        }
    }

    /// The number of the line to which the lead at a place is known to lead.
    pub fn line_at(&self, place: usize) -> Option<usize> {
        match self.leads.get(place)? {
            Lead::Line(number) => Some(*number),
            _ => None,
        }
    }
}

// Reads the last line that was gathered, which begins at a place, and keeps what was read of it under the address.
fn keep_line(g: &mut Gathered, addr: u64, at: usize, from: &Source<'_>) -> Result<usize, AllocError>
    requires { at < length g.old.lines.items }
    ensures { g.new.lines ≡ g.old.lines }
{
    let number = g.gists.len();
    let gist = read_gist(&g.lines[at..], from.lines.enc, from.nodes, &mut g.leads)?;
    if g.leads.len() > from.leads as usize {
        return Err(AllocError);
    }
    g.gists.push(gist)?;
    g.numbers.insert(addr, number)?;
    Ok(number)
}

// Gathers the line of an address, and returns its number.
fn add_line<D: Dumps>(
    from: &Source<'_>,
    dumps: &mut D,
    addr: u64,
    g: &mut Gathered,
) -> Result<usize, ReadFault>
    requires { MayGather from.now (D.state dumps.old).now g.old.lines.items }
    ensures reads { ReadsLines (D.state dumps.old) (D.state dumps.new) from.now.bytes g.old.lines.items }
    ensures fault { IfErr result (IsReadCauseOf (D.state dumps.old) (D.state dumps.new)) }
    ensures grows { OnOk result (Grows from.now (D.state dumps.old) (D.state dumps.new)
        g.old.lines.items g.new.lines.items) }
{
    let at = g.lines.len();
    from.lines.push_line(dumps, addr, from.bytes, &mut g.lines)?;
    let number = keep_line(g, addr, at, from)?;
    Ok(number)
}

/// Gathers the line of an address, unless that was done or no line has it. Returns its number.
pub(crate) fn line_of<D: Dumps>(
    from: &Source<'_>,
    dumps: &mut D,
    addr: u64,
    g: &mut Gathered,
) -> Result<Option<usize>, ReadFault>
    requires { MayGather from.now (D.state dumps.old).now g.old.lines.items }
    ensures reads { ReadsLines (D.state dumps.old) (D.state dumps.new) from.now.bytes g.old.lines.items }
    ensures fault { IfErr result (IsReadCauseOf (D.state dumps.old) (D.state dumps.new)) }
    ensures grows { OnOk result (Grows from.now (D.state dumps.old) (D.state dumps.new)
        g.old.lines.items g.new.lines.items) }
{
    if let Some(number) = g.numbers.get(&addr) {
        return Ok(Some(*number));
    }
    if !from.lines.has(addr) {
        return Ok(None);
    }
    let number = add_line(from, dumps, addr, g)?;
    Ok(Some(number))
}

// Keeps where the lead at a place leads.
fn set_lead(leads: &mut Vec<Lead>, place: usize, found: Option<usize>) {
    if let Some(lead) = leads.get_mut(place) {
        *lead = match found {
            Some(number) => Lead::Line(number),
            None => Lead::Nowhere,
        };
    }
}

/// Follows the lead at a place: gathers the line to which it leads, unless that was done or there is none. Returns its number.
pub(crate) fn follow<D: Dumps>(
    from: &Source<'_>,
    dumps: &mut D,
    place: usize,
    g: &mut Gathered,
) -> Result<Option<usize>, ReadFault>
    requires { MayGather from.now (D.state dumps.old).now g.old.lines.items }
    ensures reads { ReadsLines (D.state dumps.old) (D.state dumps.new) from.now.bytes g.old.lines.items }
    ensures fault { IfErr result (IsReadCauseOf (D.state dumps.old) (D.state dumps.new)) }
    ensures grows { OnOk result (Grows from.now (D.state dumps.old) (D.state dumps.new)
        g.old.lines.items g.new.lines.items) }
{
    let Some(Lead::Address(addr)) = g.leads.get(place).copied() else {
        return Ok(g.line_at(place));
    };
    let found = line_of(from, dumps, addr, g)?;
    set_lead(&mut g.leads, place, found);
    Ok(found)
}

// Whether the lead at a place leads to a line that isn't gathered yet and may be a heap binary.
fn may_lead_to_binary(from: &Source<'_>, place: usize, g: &Gathered) -> bool {
    match g.leads.get(place) {
        Some(Lead::Address(addr)) => from.lines.has_binary(*addr),
        _ => false,
    }
}

/// Follows the lead of a sub binary, at a place, if it may lead to a heap binary: no other cell matters to a sub binary,
/// whatever the length of its line.
pub(crate) fn follow_binary<D: Dumps>(
    from: &Source<'_>,
    dumps: &mut D,
    place: usize,
    g: &mut Gathered,
) -> Result<(), ReadFault>
    requires { MayGather from.now (D.state dumps.old).now g.old.lines.items }
    ensures reads { ReadsLines (D.state dumps.old) (D.state dumps.new) from.now.bytes g.old.lines.items }
    ensures fault { IfErr result (IsReadCauseOf (D.state dumps.old) (D.state dumps.new)) }
    ensures grows { OnOk result (Grows from.now (D.state dumps.old) (D.state dumps.new)
        g.old.lines.items g.new.lines.items) }
{
    if may_lead_to_binary(from, place, g) {
        follow(from, dumps, place, g)?;
    }
    Ok(())
}
