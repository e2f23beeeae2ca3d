// What is kept of elements while not all cells are known.
ghost use Rattle.std.specs.Prelude.{◌≡◌, ◌+◌, ◌≤◌, ◌==◌, ◌∷◌, ◌++◌, List, [], filter, length, not, slice_range, OnOk};
ghost use Rattle.heap_graph.specs.Elements.{address_count, count, leads_of, references_for, slot_for, slots_of, Appends, Found, IsAlike, IsOfLeads, IsOfSlots, Keeps};
ghost use Rattle.heap_graph.specs.Leads.{nowhere, Pushes};

use crate::leads::{Lead, Leads, NOWHERE};
use cell_records::{Slot, Span};
use dump_io::items_between;
use std::alloc::{AllocError, Global};

/// What is kept of elements, in order.
#[derive(Drop)]
pub enum Elements {
    /// Where each leads.
    Leads(Leads),
    /// The slot of each: the address to which it leads, or where it stands in the text of its form.
    Slots(Vec<Slot>),
}

// The slot of an element that leads there and stands at a place.
fn slot_for(lead: Lead, at: u32, len: u32) -> Slot
    ensures { result ≡ slot_for lead at len }
{
    match lead {
        Lead::Cell(address) => Slot::Gone(address),
        Lead::Nowhere | Lead::Binary(_) => Slot::Imm(Span { at, len }),
    }
}

// Appends the slot of an element. Its place is one of 32 bits, since texts that are in memory have no more bytes.
#[inline(always)]
fn push_slot(
    slots: &mut Vec<Slot>,
    lead: Lead,
    from: u64,
    at: usize,
    len: usize,
) -> Result<(), AllocError>
    ensures { OnOk result (slots.new.items ≡ slots.old.items ++ slot_for lead (from + at) len ∷ []) }
{
    let Some(at) = from.checked_add(at as u64) else {
        return Err(AllocError);
    };
    let Ok(at) = u32::try_from(at) else {
        return Err(AllocError);
    };
    let Ok(len) = u32::try_from(len) else {
        return Err(AllocError);
    };
    slots.push(slot_for(lead, at, len))?;
    Ok(())
}

// How many of the elements have an address.
fn count_references(marks: &[u32]) -> usize
    ensures { result ≡ length (filter (λ m. not (m == nowhere)) marks.now) }
{
    marks.iter().filter(|mark| **mark != NOWHERE).count()
}

// Appends those of other elements from one up to another, beside which these addresses are kept.
fn extend_leads(
    kept: &mut Leads,
    all: &Elements,
    from: usize,
    upto: usize,
    addresses: &[u64],
) -> Result<(), AllocError>
    requires leads { IsOfLeads all.now }
    requires ordered { from ≤ upto }
    requires within { upto ≤ count all.now }
    ensures { OnOk result ((fs : List Found) → Keeps all.now fs
        → addresses.now ≡ references_for all.now (slice_range fs from upto)
        → Pushes kept.old kept.new (leads_of (slice_range fs from upto))) }
{
    let Elements::Leads(leads) = all else {
        unreachable!()
    };
    kept.marks
        .extend_from_slice(items_between(&leads.marks, from, upto))?;
    kept.references.extend_from_slice(addresses)?;
    Ok(())
}

fn extend_slots(
    kept: &mut Vec<Slot>,
    all: &Elements,
    from: usize,
    upto: usize,
) -> Result<(), AllocError>
    requires slots { IsOfSlots all.now }
    requires ordered { from ≤ upto }
    requires within { upto ≤ count all.now }
    ensures { OnOk result ((fs : List Found) → Keeps all.now fs
        → kept.new.items ≡ kept.old.items ++ slots_of (slice_range fs from upto)) }
{
    let Elements::Slots(slots) = all else {
        unreachable!()
    };
    kept.extend_from_slice(items_between(slots, from, upto))?;
    Ok(())
}

impl Elements {
    /// No elements, of which is kept where they lead.
    pub fn leads(alloc: Global) -> Elements
        ensures none { Keeps result [] }
        ensures leads { IsOfLeads result }
    {
        Elements::Leads(Leads::new(alloc))
    }

    /// No elements, of which slots are kept.
    pub fn slots(alloc: Global) -> Elements
        ensures none { Keeps result [] }
        ensures slots { IsOfSlots result }
    {
        Elements::Slots(Vec::new(alloc))
    }

    // No elements, of which the same is kept as of these.
    pub(crate) fn none_like(&self, alloc: Global) -> Elements
        ensures none { Keeps result [] }
        ensures alike { IsAlike self.now result }
    {
        match self {
            Elements::Leads(_) => Elements::leads(alloc),
            Elements::Slots(_) => Elements::slots(alloc),
        }
    }

    // The number of elements.
    pub(crate) fn len(&self) -> usize
        ensures { result ≡ count self.now }
    {
        match self {
            Elements::Leads(leads) => leads.marks.len(),
            Elements::Slots(slots) => slots.len(),
        }
    }

    // How many addresses are kept beside the elements.
    pub(crate) fn address_count(&self) -> usize
        ensures { result ≡ address_count self.now }
    {
        match self {
            Elements::Leads(leads) => leads.references.len(),
            Elements::Slots(_) => 0,
        }
    }

    // Appends an element that leads there, and that so many bytes
    // spell at a place of a text before which so many stand.
    #[inline(always)]
    pub(crate) fn push(
        &mut self,
        lead: Lead,
        from: u64,
        at: usize,
        len: usize,
    ) -> Result<(), AllocError>
        ensures { OnOk result (Appends self.old self.new
            ((record { lead = lead; at = from + at; len = len }) ∷ [])) }
    {
        match self {
            Elements::Leads(leads) => leads.push(lead),
            Elements::Slots(slots) => push_slot(slots, lead, from, at, len),
        }
    }

    // Takes back all elements but the first ones, beside which so many addresses are kept.
    pub(crate) fn truncate(&mut self, len: usize, addresses: usize)
        ensures { (old : Elements) (fs : List Found) → Appends old self.old fs
            → len ≡ count old → addresses ≡ address_count old → Appends old self.new [] }
    {
        match self {
            Elements::Leads(leads) => leads.truncate(len, addresses),
            Elements::Slots(slots) => slots.truncate(len),
        }
    }

    // Takes back all elements.
    pub(crate) fn clear(&mut self)
        ensures { count self.new ≡ 0 }
    {
        match self {
            Elements::Leads(leads) => leads.truncate(0, 0),
            Elements::Slots(slots) => slots.clear(),
        }
    }

    // The addresses that are kept beside the elements.
    pub(crate) fn addresses(&self) -> &[u64]
        ensures { (fs : List Found) → Keeps self.now fs → result.now ≡ references_for self.now fs }
    {
        match self {
            Elements::Leads(leads) => &leads.references,
            Elements::Slots(_) => &[],
        }
    }

    // How many addresses are kept beside the elements from one up to another.
    pub(crate) fn addresses_between(&self, from: usize, upto: usize) -> usize
        requires ordered { from ≤ upto }
        requires within { upto ≤ count self.now }
        ensures { (fs : List Found) → Keeps self.now fs
            → result ≡ length (references_for self.now (slice_range fs from upto)) }
    {
        match self {
            Elements::Leads(leads) => count_references(items_between(&leads.marks, from, upto)),
            Elements::Slots(_) => 0,
        }
    }

    // Appends those of other elements from one up to another, beside which these addresses are kept.
    pub(crate) fn extend(
        &mut self,
        all: &Elements,
        from: usize,
        upto: usize,
        addresses: &[u64],
    ) -> Result<(), AllocError>
        requires alike { IsAlike all.now self.old }
        requires ordered { from ≤ upto }
        requires within { upto ≤ count all.now }
        ensures alike { OnOk result (IsAlike all.now self.new) }
        ensures appended { OnOk result ((fs : List Found) → Keeps all.now fs
            → addresses.now ≡ references_for all.now (slice_range fs from upto)
            → Appends self.old self.new (slice_range fs from upto)) }
    {
        match self {
            Elements::Leads(kept) => extend_leads(kept, all, from, upto, addresses),
            Elements::Slots(kept) => extend_slots(kept, all, from, upto),
        }
    }
}
