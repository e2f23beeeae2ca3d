// That for which processes wait.

use text_groups::Measured;

/// That for which processes wait, and how many come to it.
#[derive(Clone, Copy, Drop)]
pub struct Blocker {
    /// The first process that waits for it.
    pub first: u32,
    /// How many processes come to it, beside the one whose pid it is.
    pub all: u32,
    /// How many processes wait for it.
    pub direct: u32,
}

impl Measured for Blocker {
    ghost size = { λ blocker. blocker.all };

    fn size(&self) -> u128 {
        u128::from(self.all)
    }
}
