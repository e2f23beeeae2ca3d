// The kinds of a long list, by which its entries are looked up. They are sorted, and a
// kind is found by binary search: whoever writes a dump could give all kinds one hash.
ghost use Rattle.std.specs.Prelude.{◌≡◌, map};
ghost use Rattle.std.specs.List.{list_any};
ghost use Rattle.link_graph.specs.Kinds.{is_same_kind};
ghost use Rattle.link_graph.specs.Seen.{shown_kind};
ghost use Rattle.link_graph.specs.declared.shapes.EntryKind.{EntryKind};

use crate::shapes::EntryKind;
use std::marker::Model;

#[derive(Drop)]
pub(crate) struct KindSet<'a> {
    sorted: Vec<EntryKind<'a>>,
}

impl<'a> Model for KindSet<'a> {
    ghost use Rattle.std.specs.Prelude.{List, map};
    ghost use Rattle.link_graph.specs.Kinds.{Kind};
    ghost use Rattle.link_graph.specs.Seen.{shown_kind};
    ghost use Rattle.link_graph.specs.Inner.Orders.{AreInOrder};

    ghost Value = { List Kind };

    ghost view = { λ kinds. map shown_kind kinds.sorted.items };

    ghost invariant = { λ kinds. AreInOrder kinds.sorted.items };
}

impl<'a> KindSet<'a> {
    // The set of these kinds.
    pub fn of(mut kinds: Vec<EntryKind<'a>>) -> KindSet<'a>
        ensures { (wanted : EntryKind) → list_any (is_same_kind (shown_kind wanted)) result
            ≡ list_any (is_same_kind (shown_kind wanted)) (map shown_kind kinds.entry.items) }
    {
        kinds.sort_unstable();
        KindSet { sorted: kinds }
    }

    pub fn has(&self, wanted: &EntryKind<'_>) -> bool
        ensures { result ≡ list_any (is_same_kind (shown_kind wanted.now)) self.now }
    {
        self.sorted.as_slice().binary_search(wanted).is_ok()
    }
}
