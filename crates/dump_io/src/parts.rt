// Parts of slices.
ghost use Rattle.std.specs.Prelude.{◌≡◌, ◌≤◌, length, drop, slice_range};

/// The bytes from a place on, such as those behind the first line.
pub fn bytes_from(bytes: &[u8], from: usize) -> &[u8]
    requires { from ≤ length bytes.now }
    ensures { result.now ≡ drop from bytes.now }
{
    &bytes[from..]
}

/// The items from one place up to another.
pub fn items_between<T>(items: &[T], from: usize, upto: usize) -> &[T]
    requires ordered { from ≤ upto }
    requires within { upto ≤ length items.now }
    ensures { result.now ≡ slice_range items.now from upto }
{
    &items[from..upto]
}
