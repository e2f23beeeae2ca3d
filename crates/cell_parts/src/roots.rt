// The parts that the roots of a process make.
ghost use Rattle.std.specs.Prelude.{◌≡◌, ◌<◌, length, IfErr, IfOk, IfSome, OnOk};
ghost use Rattle.dump_io.specs.Dumps.{IfTold, ReadsAtMost};
ghost use Rattle.dump_io.specs.Faults.{IsReadCauseOf};
ghost use Rattle.dump_sections.specs.Bodies.{body_size, section_in, IsPlaceIn};
ghost use Rattle.dump_sections.specs.Index.{sections_in, IsBuiltOver};
ghost use Rattle.dump_sections.specs.Loading.{bodies_length};
ghost use Rattle.term_forms.specs.Seen.{element};
ghost use Rattle.root_views.specs.Sections.{root_bodies, root_section};
ghost use Rattle.cell_parts.specs.Parts.{ArePartsOf};
ghost use Rattle.cell_parts.specs.Roots.{all_roots, lead_to, roots_at, roots_elements};
ghost use Rattle.cell_parts.specs.Inner.Hearing.{Gains, GainsAll, GainsSection, IsReady};
ghost use Rattle.cell_parts.specs.Over.{IsOver};

use crate::parts::Parts;
use dump_io::{Dumps, ReadFault};
use dump_sections::Index;
use heap_skeleton::Skeleton;
use root_views::{EachRoot, Root, RootKind, What, hear_roots};
use std::alloc::{AllocError, Global};
use term_forms::shapes::Elem;

// Adds the elements of the roots that it hears.
#[derive(Drop)]
struct RootParts<'a> {
    skeleton: &'a Skeleton,
    parts: Parts,
}

// The cell to which an element leads.
fn lead_to(skeleton: &Skeleton, e: &Elem<'_>) -> Option<u32>
    ensures value { result ≡ lead_to skeleton.now.addresses (element e.now) }
    ensures within { IfSome result (λ n. n < length skeleton.now.addresses) }
{
    match e {
        Elem::Ref(address) => skeleton.find(*address),
        _ => None,
    }
}

impl EachRoot for RootParts<'_> {
    ghost ready = { IsReady };

    ghost hears = { Gains };

    fn root(&mut self, found: &Root<'_>) -> Result<(), AllocError> {
        if let What::Term(e) = found.what {
            let lead = lead_to(self.skeleton, &e);
            self.parts.add(lead, found.at as u64, found.label)?;
        }
        Ok(())
    }
}

// Hears the roots in the section at `place`. A missing section has none.
fn hear_section<D: Dumps>(
    dumps: &mut D,
    index: &Index,
    place: Option<usize>,
    kind: RootKind,
    buffer: &mut Vec<u8>,
    roots: &mut RootParts<'_>,
) -> Result<(), ReadFault>
    requires over { IsBuiltOver (D.state dumps.old).now index.now }
    requires place { IsPlaceIn index.now place }
    requires ready { IsReady roots.old }
    ensures reads { ReadsAtMost (D.state dumps.old) (D.state dumps.new)
        (body_size (section_in index.now place)) }
    ensures fault { IfErr result (IsReadCauseOf (D.state dumps.old) (D.state dumps.new)) }
    ensures ready { OnOk result (IsReady roots.new) }
    ensures gains { OnOk result (GainsSection (D.state dumps.old).now kind
        (section_in index.now place) roots.old roots.new) }
{
    let (from, upto) = index.body_at(place);
    hear_roots(dumps, from, upto, kind, buffer, roots)?;
    Ok(())
}

// Hears the roots of a kind of a process.
fn hear_kind<D: Dumps>(
    dumps: &mut D,
    index: &Index,
    pid: &[u8],
    kind: RootKind,
    buffer: &mut Vec<u8>,
    roots: &mut RootParts<'_>,
) -> Result<(), ReadFault>
    requires over { IsBuiltOver (D.state dumps.old).now index.now }
    requires ready { IsReady roots.old }
    ensures reads { ReadsAtMost (D.state dumps.old) (D.state dumps.new)
        (body_size (root_section kind pid.now (sections_in index.now))) }
    ensures fault { IfErr result (IsReadCauseOf (D.state dumps.old) (D.state dumps.new)) }
    ensures ready { OnOk result (IsReady roots.new) }
    ensures gains { OnOk result (GainsSection (D.state dumps.old).now kind
        (root_section kind pid.now (sections_in index.now)) roots.old roots.new) }
{
    let place = index.first(kind.tag(), Some(pid));
    hear_section(dumps, index, place, kind, buffer, roots)
}

// Hears all roots of a process: of its stack, of its dictionary and of its mailbox.
fn hear_all<D: Dumps>(
    dumps: &mut D,
    index: &Index,
    pid: &[u8],
    buffer: &mut Vec<u8>,
    roots: &mut RootParts<'_>,
) -> Result<(), ReadFault>
    requires over { IsBuiltOver (D.state dumps.old).now index.now }
    requires ready { IsReady roots.old }
    ensures reads { ReadsAtMost (D.state dumps.old) (D.state dumps.new)
        (bodies_length (root_bodies pid.now (sections_in index.now))) }
    ensures fault { IfErr result (IsReadCauseOf (D.state dumps.old) (D.state dumps.new)) }
    ensures ready { OnOk result (IsReady roots.new) }
    ensures gains { OnOk result (GainsAll (D.state dumps.old).now (sections_in index.now) pid.now
        roots.old roots.new) }
{
    hear_kind(dumps, index, pid, RootKind::Stack, buffer, roots)?;
    hear_kind(dumps, index, pid, RootKind::Dict, buffer, roots)?;
    hear_kind(dumps, index, pid, RootKind::Mail, buffer, roots)?;
    Ok(())
}

/// Reads the stack, the dictionary and the mailbox of a process, each once and in pieces, and returns the parts
/// that the terms among their roots make of a heap with this skeleton.
pub fn read_parts<D: Dumps>(
    alloc: Global,
    dumps: &mut D,
    index: &Index,
    pid: &[u8],
    skeleton: &Skeleton,
) -> Result<Parts, ReadFault>
    requires { IsBuiltOver (D.state dumps.old).now index.now }
    ensures reads { ReadsAtMost (D.state dumps.old) (D.state dumps.new)
        (bodies_length (root_bodies pid.now (sections_in index.now))) }
    ensures fault { IfErr result (IsReadCauseOf (D.state dumps.old) (D.state dumps.new)) }
    ensures over { IfOk result (IsOver skeleton.now) }
    ensures parts { IfOk result (λ parts. IfTold (D.state dumps.old).now (λ dump.
        ArePartsOf (roots_elements skeleton.now.addresses (all_roots dump (sections_in index.now) pid.now)) parts)) }
{
    let mut buffer = Vec::new(alloc);
    let mut roots = RootParts {
        skeleton,
        parts: Parts::new(alloc, skeleton.cells() as usize)?,
    };
    hear_all(dumps, index, pid, &mut buffer, &mut roots)?;
    let RootParts { parts, .. } = roots;
    Ok(parts)
}

/// Reads the stack, the dictionary or the mailbox of a process, once and in pieces, and returns the parts
/// that the terms among its roots make of a heap with this skeleton. The index was built over the open file, which stays
/// open. The faults are those of [`read_parts`].
pub fn read_kind_parts<D: Dumps>(
    alloc: Global,
    dumps: &mut D,
    index: &Index,
    pid: &[u8],
    kind: RootKind,
    skeleton: &Skeleton,
) -> Result<Parts, ReadFault>
    requires { IsBuiltOver (D.state dumps.old).now index.now }
    ensures reads { ReadsAtMost (D.state dumps.old) (D.state dumps.new)
        (body_size (root_section kind pid.now (sections_in index.now))) }
    ensures fault { IfErr result (IsReadCauseOf (D.state dumps.old) (D.state dumps.new)) }
    ensures over { IfOk result (IsOver skeleton.now) }
    ensures parts { IfOk result (λ parts. IfTold (D.state dumps.old).now (λ dump.
        ArePartsOf (roots_elements skeleton.now.addresses
        (roots_at dump kind (root_section kind pid.now (sections_in index.now)))) parts)) }
{
    let mut buffer = Vec::new(alloc);
    let mut roots = RootParts {
        skeleton,
        parts: Parts::new(alloc, skeleton.cells() as usize)?,
    };
    hear_kind(dumps, index, pid, kind, &mut buffer, &mut roots)?;
    let RootParts { parts, .. } = roots;
    Ok(parts)
}
