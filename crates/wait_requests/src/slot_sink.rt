// Hearing the slots of the frame in which a process stands.
ghost use Rattle.std.specs.Prelude.{◌≡◌};
ghost use Rattle.root_views.specs.Seen.{content};
ghost use Rattle.wait_requests.specs.Held.{awaited_behind, slot_in};
ghost use Rattle.wait_requests.specs.Inner.Hearing.{TakesSlots};

use root_views::{EachRoot, Root, What};
use std::alloc::AllocError;
use term_forms::shapes::Elem;

/// Keeps the addresses to which the slots of a stack refer, before so many words that are no terms.
#[derive(Drop)]
pub(crate) struct SlotSink {
    /// How many words that are no terms are awaited.
    pub awaited: usize,
    /// The addresses, each with a place that doesn't matter.
    pub slots: Vec<(u64, usize)>,
}

// The address to which a root refers, if words that are no terms are still awaited.
fn slot_in(awaited: usize, what: &What<'_>) -> Option<u64>
    ensures { result ≡ slot_in awaited (content what.now) }
{
    if awaited == 0 {
        return None;
    }
    match what {
        What::Term(Elem::Ref(address)) => Some(*address),
        _ => None,
    }
}

// How many words that are no terms are awaited behind a root.
fn awaited_behind(awaited: usize, what: &What<'_>) -> usize
    ensures { result ≡ awaited_behind awaited (content what.now) }
{
    match what {
        What::Info(_) => awaited.saturating_sub(1),
        _ => awaited,
    }
}

impl EachRoot for SlotSink {
    ghost ready = { λ _. Unit {0} };

    ghost hears = { TakesSlots };

    fn root(&mut self, found: &Root<'_>) -> Result<(), AllocError> {
        if let Some(address) = slot_in(self.awaited, &found.what) {
            self.slots.push((address, 0))?;
        }
        self.awaited = awaited_behind(self.awaited, &found.what);
        Ok(())
    }
}
