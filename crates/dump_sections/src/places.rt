// The first place of each key.
ghost use Rattle.std.specs.Prelude.{◌≡◌, true, false, IfOk, OnOk};
ghost use Rattle.std.specs.List.Sorted.{IsPartitionPoint, IsSortedByKey};
ghost use Rattle.std.specs.Ordering.{is_lt};
ghost use Rattle.dump_sections.specs.Places.{place_by};

use std::alloc::AllocError;
use std::marker::Model;

// How many of the pairs have a lower key: these come first.
fn count_below<K: Ord + Copy>(pairs: &[(K, usize)], key: K) -> usize
    requires { IsSortedByKey (λ pair. pair.0) K.cmp pairs.now }
    ensures { IsPartitionPoint (λ pair. is_lt (K.cmp pair.0 key) ≡ true)
        (λ pair. is_lt (K.cmp pair.0 key) ≡ false) pairs.now result }
{
    pairs.partition_point(|pair| pair.0.cmp(&key).is_lt())
}

// Sorts pairs by key, so that those with the same key stay in their order.
fn sort_pairs<K: Ord + Copy>(pairs: &mut Vec<(K, usize)>) -> Result<(), AllocError>
    ensures sorted { OnOk result (IsSortedByKey (λ pair. pair.0) K.cmp pairs.new.items) }
    ensures firsts { OnOk result ((key : K) → place_by K.cmp key pairs.new.items
        ≡ place_by K.cmp key pairs.old.items) }
{
    // A stable sort of keys in no order takes a second array as long as the pairs. If the places
    // ascend, they tell which pair came first, and a sort by key and place needs none.
    if pairs.is_sorted_by_key(|pair| pair.1) {
        pairs.sort_unstable();
        return Ok(());
    }
    pairs.sort_by_key(|pair| pair.0)?;
    Ok(())
}

/// Keys and places, sorted by key, so that the first place of a key is found by a binary search. Those with the
/// same key stay in their order. Nothing is hashed: whoever writes a dump could give all keys one hash.
#[derive(Drop)]
pub struct FirstPlaces<K: Ord + Copy> {
    pairs: Vec<(K, usize)>,
}

impl<K: Ord + Copy> Model for FirstPlaces<K> {
    ghost use Rattle.std.specs.Prelude.{List, ℕ};
    ghost use Rattle.std.specs.List.Sorted.{IsSortedByKey};

    ghost Value = { List (K × ℕ) };

    ghost view = { λ f. f.pairs.items };

    ghost invariant = { λ f. IsSortedByKey (λ pair. pair.0) K.cmp f.pairs.items };
}

impl<K: Ord + Copy> FirstPlaces<K> {
    /// Sorts keys and their places. If the places ascend, no memory is taken for it; otherwise at most as much again as
    /// the pairs take. Returns an error only if memory is lacking.
    pub fn of(mut pairs: Vec<(K, usize)>) -> Result<FirstPlaces<K>, AllocError>
        ensures { IfOk result (λ firsts. (key : K) → place_by K.cmp key firsts
            ≡ place_by K.cmp key pairs.items) }
    {
        sort_pairs(&mut pairs)?;
        Ok(FirstPlaces { pairs })
    }

    /// The first place of a key. Returns `None` exactly when there is none.
    pub fn get(&self, key: K) -> Option<usize>
        ensures { result ≡ place_by K.cmp key self.now }
    {
        let pairs = self.pairs.as_slice();
        let (found, place) = *pairs.get(count_below(pairs, key))?;
        if found.cmp(&key).is_eq() {
            Some(place)
        } else {
            None
        }
    }
}
