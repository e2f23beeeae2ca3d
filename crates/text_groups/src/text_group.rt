// A group of items with the same text.

use crate::Measured;

/// The items that have one text.
#[derive(Clone, Copy, Debug, PartialEq, Eq, Drop)]
pub struct TextGroup {
    /// The place among the items of the first of them, from 0.
    pub first: usize,
    /// How many items the group has.
    pub count: u64,
    /// The weight of these items together; a sum above 2^64 - 1 is given as that.
    pub weight: u64,
}

impl Measured for TextGroup {
    ghost size = { λ group. group.count };

    fn size(&self) -> u128 {
        u128::from(self.count)
    }
}
