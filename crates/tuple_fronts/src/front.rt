// The first elements of one cell.
ghost use Rattle.std.specs.Prelude.{◌≡◌, ◌<◌, [], length, slice_get, slice_index_or, IfSome, Some};
ghost use Rattle.std.specs.Option.{option_map_or};
ghost use Rattle.term_forms.specs.Seen.{element};

use crate::fronts::TupleFronts;
use std::marker::Model;
use term_forms::shapes::Elem;

/// The first elements of one cell. Contracts see the list of them.
#[derive(Drop)]
pub struct Front<'a> {
    fronts: &'a TupleFronts,
    // The place of the cell; none if it has no elements here.
    place: Option<usize>,
}

impl<'a> Model for Front<'a> {
    ghost use Rattle.std.specs.Prelude.{[], ◌<◌, length, slice_index_or, IfSome, List};
    ghost use Rattle.std.specs.Option.{option_map_or};
    ghost use Rattle.term_forms.specs.Elements.{Element};

    ghost Value = { List Element };

    ghost view = { λ s. option_map_or (λ i. slice_index_or s.fronts.now i []) s.place [] };

    ghost invariant = { λ s. IfSome s.place (λ i. i < length s.fronts.now) };
}

impl<'a> Front<'a> {
    // The elements of the cell at a place, if there is one.
    pub(crate) fn new(fronts: &'a TupleFronts, place: Option<usize>) -> Front<'a>
        requires { IfSome place (λ i. i < length fronts.now) }
        ensures { result ≡ option_map_or (λ i. slice_index_or fronts.now i []) place [] }
    {
        Front { fronts, place }
    }

    /// How many elements these are.
    pub fn count(&self) -> usize
        ensures { result ≡ length self.now }
    {
        match self.place {
            Some(i) => self.fronts.count(i),
            None => 0,
        }
    }

    /// The element at a place.
    pub fn element(&self, place: usize) -> Elem<'_>
        requires { place < length self.now }
        ensures { slice_get self.now place ≡ Some (element result) }
    {
        match self.place {
            Some(i) => self.fronts.element(i, place),
            None => unreachable!(),
        }
    }
}
