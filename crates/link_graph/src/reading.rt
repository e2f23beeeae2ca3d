// Reading a link list.
ghost use Rattle.std.specs.Prelude.{◌≡◌, ◌↔◌, ◌≤◌, length, IsSome, IfSome};
ghost use Rattle.link_graph.specs.Entries.{entries_at, IsList};

use crate::shapes::Entries;

/// The entries of the text of a link list, in order. The list is `[`, any bytes and `]`. What stands
/// between the brackets is cut at each comma followed by a space, from the left; if nothing stands there,
/// there are no entries. `at` counts bytes of the text. Returns `None` exactly when the text isn't a list.
pub fn entries(text: &[u8]) -> Option<Entries<'_>>
    ensures value { result ≡ entries_at 0 text.now }
    ensures list { IsSome result ↔ IsList text.now }
    ensures count { IfSome result (λ left. length left ≤ length text.now) }
{
    Entries::new(0, text)
}
