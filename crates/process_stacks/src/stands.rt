// Processes, and where each of them stands.
ghost use Rattle.std.specs.Prelude.{◌≡◌, ◌<◌};

use std::marker::Model;
use text_groups::Grouped;

/// A process: the lines of the place at which it stands, and its memory in bytes.
#[derive(Drop)]
pub(crate) struct Stand {
    pub lines: Vec<u8>,
    pub memory: u64,
}

impl Model for Stand {
    ghost use Rattle.text_groups.specs.Groups.{Item};

    ghost Value = { Item };

    ghost view = { λ s. record { text = s.lines.items; weight = s.memory } };
}

impl Stand {
    // The lines of the place at which the process stands.
    fn lines(&self) -> &[u8]
        ensures { result.now ≡ self.now.text }
    {
        self.lines.as_slice()
    }

    // The memory of the process.
    fn memory(&self) -> u64
        ensures { result ≡ self.now.weight }
    {
        self.memory
    }
}

/// Processes, which are grouped by the lines of their places.
#[derive(Drop)]
pub(crate) struct Stands {
    pub all: Vec<Stand>,
}

impl Grouped for Stands {
    ghost items = { λ stands. stands.all.items };

    fn len(&self) -> usize {
        self.all.len()
    }

    fn text(&self, i: usize) -> &[u8] {
        self.all[i].lines()
    }

    fn weight(&self, i: usize) -> u64 {
        self.all[i].memory()
    }
}
