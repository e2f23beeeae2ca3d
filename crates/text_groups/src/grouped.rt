// What is grouped.
ghost use Rattle.std.specs.Prelude.{◌≡◌, List, ◌<◌, length};
ghost use Rattle.text_groups.specs.Groups.{Item, item_at};

/// Items that have texts, by their places from 0.
pub trait Grouped {
    /// The items in their order.
    ghost items: { Self → List Item };

    /// How many items there are.
    fn len(&self) -> usize
        ensures { result ≡ length (items self.now) };

    /// The text of the item at a place.
    fn text(&self, i: usize) -> &[u8]
        requires { i < length (items self.now) }
        ensures { result.now ≡ (item_at (items self.now) i).text };

    /// The weight of the item at a place, in the unit of the items, such as bytes.
    fn weight(&self, i: usize) -> u64
        requires { i < length (items self.now) }
        ensures { result ≡ (item_at (items self.now) i).weight };
}
