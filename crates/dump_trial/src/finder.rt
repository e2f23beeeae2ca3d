// Where the heaps and the roots of processes are.
ghost use Rattle.std.specs.Prelude.{◌≡◌, ◌<◌, length, codes, IfOk, IfSome};
ghost use Rattle.dump_sections.specs.Bodies.{section_in};
ghost use Rattle.dump_sections.specs.Index.{sections_in};
ghost use Rattle.heap_cells.specs.Loading.{heap_section, literals_section};
ghost use Rattle.root_views.specs.Kinds.{roots_tag};
ghost use Rattle.root_views.specs.declared.kinds.RootKind.TheVariants.{Stack, Dict, Mail};
ghost use Rattle.root_views.specs.Sections.{root_section};
ghost use Rattle.dump_trial.specs.Inner.Finding.{firsts};

use binary_refs::BinaryPlaces;
use dump_sections::{FirstSections, Index};
use root_views::RootKind;
use std::alloc::{AllocError, Global};
use std::marker::Model;

// The first sections with heaps.
fn find_heaps(alloc: Global, index: &Index) -> Result<FirstSections<'_>, AllocError>
    ensures { IfOk result (λ found. found ≡ firsts index.now (codes "proc_heap")) }
{
    FirstSections::find(alloc, index, b"proc_heap")
}

// The first sections with the roots of a kind.
fn find_roots(alloc: Global, index: &Index, kind: RootKind) -> Result<FirstSections<'_>, AllocError>
    ensures { IfOk result (λ found. found ≡ firsts index.now (roots_tag kind)) }
{
    FirstSections::find(alloc, index, kind.tag())
}

// The first sections with stacks, with dictionaries and with mailboxes.
fn find_all_roots(
    alloc: Global,
    index: &Index,
) -> Result<(FirstSections<'_>, FirstSections<'_>, FirstSections<'_>), AllocError>
    ensures stacks { IfOk result (λ found. found.0 ≡ firsts index.now (roots_tag Stack)) }
    ensures dictionaries { IfOk result (λ found. found.1 ≡ firsts index.now (roots_tag Dict)) }
    ensures mailboxes { IfOk result (λ found. found.2 ≡ firsts index.now (roots_tag Mail)) }
{
    let stacks = find_roots(alloc, index, RootKind::Stack)?;
    let dictionaries = find_roots(alloc, index, RootKind::Dict)?;
    let mailboxes = find_roots(alloc, index, RootKind::Mail)?;
    Ok((stacks, dictionaries, mailboxes))
}

/// Where the heaps and the roots of processes are, which is looked up for each process. Contracts see the index.
#[derive(Drop)]
pub(crate) struct Finder<'a> {
    index: &'a Index,
    heaps: FirstSections<'a>,
    stacks: FirstSections<'a>,
    dictionaries: FirstSections<'a>,
    mailboxes: FirstSections<'a>,
    literals: Option<usize>,
    binaries: BinaryPlaces<'a>,
}

impl<'a> Model for Finder<'a> {
    ghost use Rattle.dump_sections.specs.Index.{Contents};
    ghost use Rattle.dump_trial.specs.Inner.Finding.{AreFound};

    ghost Value = { Contents };

    ghost view = { λ finder. finder.index.now };

    ghost invariant = { λ f.
        AreFound f.index.now f.heaps f.stacks f.dictionaries f.mailboxes f.literals f.binaries };
}

impl<'a> Finder<'a> {
    /// Goes through the sections of an index.
    pub(crate) fn new(alloc: Global, index: &'a Index) -> Result<Finder<'a>, AllocError>
        ensures { IfOk result (λ finder. finder ≡ index.now) }
    {
        let heaps = find_heaps(alloc, index)?;
        let binaries = BinaryPlaces::find(alloc, index)?;
        let (stacks, dictionaries, mailboxes) = find_all_roots(alloc, index)?;
        let literals = index.first_tag(b"literals");
        Ok(Finder {
            index,
            heaps,
            stacks,
            dictionaries,
            mailboxes,
            literals,
            binaries,
        })
    }

    /// The index.
    pub(crate) fn index(&self) -> &'a Index
        ensures { result.now ≡ self.now }
    {
        self.index
    }

    /// The place of the heap of a pid.
    pub(crate) fn heap(&self, pid: &[u8]) -> Option<usize>
        ensures section { section_in self.now result ≡ heap_section pid.now (sections_in self.now) }
        ensures within { IfSome result (λ i. i < length self.now.headers) }
    {
        self.heaps.get(pid)
    }

    /// The place of the literals.
    pub(crate) fn literals(&self) -> Option<usize>
        ensures section { section_in self.now result ≡ literals_section (sections_in self.now) }
        ensures within { IfSome result (λ i. i < length self.now.headers) }
    {
        self.literals
    }

    /// The place of the section with the roots of a kind and a pid.
    pub(crate) fn roots(&self, kind: RootKind, pid: &[u8]) -> Option<usize>
        ensures section { section_in self.now result
            ≡ root_section kind pid.now (sections_in self.now) }
        ensures within { IfSome result (λ i. i < length self.now.headers) }
    {
        match kind {
            RootKind::Stack => self.stacks.get(pid),
            RootKind::Dict => self.dictionaries.get(pid),
            RootKind::Mail => self.mailboxes.get(pid),
        }
    }

    /// The places of the binaries.
    pub(crate) fn binaries(&self) -> &BinaryPlaces<'a>
        ensures { result.now ≡ self.now }
    {
        &self.binaries
    }
}
