// A count that stays at its maximum.
ghost use Rattle.std.specs.Prelude.{◌^◌, ◌<◌};

/// A count, such as of faults or of bytes given. Once it reaches 2^64 - 1 it stays there.
#[derive(Drop)]
pub struct Count {
    number: u64,
    ghost small: { number < 2 ^ 64 },
}

impl Count {
    ghost use Rattle.std.specs.Prelude.{◌≡◌, ◌≤◌};
    ghost use Rattle.dump_io.specs.Count.{number_in};
    ghost use Rattle.dump_io.specs.Counts.{Rose, plus_capped};

    /// A count of 0.
    pub fn new() -> Count
        ensures { number_in result ≡ 0 }
    {
        Count { number: 0 }
    }

    /// The current number.
    pub fn number(&self) -> u64
        ensures { result ≡ number_in self.now }
    {
        self.number
    }

    /// Counts `n` more.
    pub fn add(&mut self, n: u64)
        ensures { number_in self.new ≡ plus_capped (number_in self.old) n }
    {
        self.number = self.number.saturating_add(n);
    }

    /// Counts one more, so that the count rises.
    pub fn rise(&mut self)
        ensures number { number_in self.new ≡ plus_capped (number_in self.old) 1 }
        ensures later { number_in self.old ≤ number_in self.new }
        ensures rose { Rose (number_in self.old) (number_in self.new) }
    {
        self.add(1);
    }
}
