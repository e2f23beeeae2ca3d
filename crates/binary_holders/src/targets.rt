// The binaries whose references are counted.
ghost use Rattle.std.specs.Prelude.{◌≡◌, ◌<◌, ◌^◌, length, IfOk};
ghost use Rattle.std.specs.List.{sum_by};
ghost use Rattle.binary_holders.specs.Inner.Places.{numbers_in, ArePlaces, IsOnlyPlace};

use crate::hints::Hints;
use std::alloc::{AllocError, Global};
use std::collections::BTreeMap;
use std::marker::Model;

/// A binary whose references are counted: its number, and its size in bytes.
#[derive(Clone, Copy, Drop)]
pub(crate) struct Binary {
    pub number: u64,
    pub size: u64,
}

/// The binaries whose references are counted, and the place of each by its number. A hint is asked
/// first, and if it isn't right, the number is sought by the order of the numbers: whoever
/// writes a dump can make all hints wrong, and then a look-up takes as long as that search.
#[derive(Drop)]
pub(crate) struct Targets {
    binaries: Vec<Binary>,
    hints: Hints,
    places: BTreeMap<u64, u32>,
    total: u128,
}

impl Model for Targets {
    ghost use Rattle.std.specs.Prelude.{List};
    ghost use Rattle.binary_holders.specs.declared.targets.Binary.{Binary};
    ghost use Rattle.binary_holders.specs.Inner.Places.{AreTargets};

    ghost Value = { List Binary };

    ghost view = { λ s. s.binaries.items };

    ghost invariant = { λ s. AreTargets s.places s.binaries.items s.total };
}

// The sizes of the binaries together.
fn sum_sizes(binaries: &[Binary]) -> u128
    ensures { result ≡ sum_by (λ binary. binary.size) binaries.now }
{
    let mut sum = 0u128;
    for binary in binaries {
        sum += u128::from(binary.size);
    }
    sum
}

impl Targets {
    /// The binaries as targets, with the places of their numbers.
    pub fn new(
        alloc: Global,
        binaries: Vec<Binary>,
        places: BTreeMap<u64, u32>,
    ) -> Result<Targets, AllocError>
        requires { ArePlaces places (numbers_in binaries.items) }
        ensures { IfOk result (λ targets. targets ≡ binaries.items) }
    {
        let hints = Hints::of(alloc, &binaries)?;
        let total = sum_sizes(&binaries);
        Ok(Targets {
            binaries,
            hints,
            places,
            total,
        })
    }

    /// The number of binaries.
    pub fn len(&self) -> usize
        ensures { result ≡ length self.now }
    {
        self.binaries.len()
    }

    // The place of the only binary with a number, by the order of the numbers.
    fn search(&self, number: u64) -> Option<usize>
        ensures { IsOnlyPlace (numbers_in self.now) number result }
    {
        Some(*self.places.get(&number)? as usize)
    }

    /// The place of the only binary with a number.
    pub fn place(&self, number: u64) -> Option<usize>
        ensures { IsOnlyPlace (numbers_in self.now) number result }
    {
        if let Some(place) = self.hints.find(&self.binaries, number) {
            return Some(place);
        }
        self.search(number)
    }

    /// The sizes of the binaries together.
    pub fn total(&self) -> u128
        ensures { result ≡ sum_by (λ binary. binary.size) self.now }
    {
        self.total
    }

    /// The binaries. Their sizes together have at most 128 bits.
    pub fn binaries(&self) -> &[Binary]
        ensures value { result.now ≡ self.now }
        ensures small { sum_by (λ binary. binary.size) self.now < 2 ^ 128 }
    {
        &self.binaries
    }
}
