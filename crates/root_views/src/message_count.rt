// How many messages a mailbox has.
ghost use Rattle.std.specs.Prelude.{◌≡◌};
ghost use Rattle.root_views.specs.Roots.{message_count};

use crate::texts::next_text;
use field_lines::reading::lines;

/// How many messages the body of a `proc_messages` section has: the roots of [`mail`](crate::mail)
/// with the label `m`. Each line that has a text is one, however it is read.
pub fn messages(body: &[u8]) -> u64
    ensures { result ≡ message_count body.now }
{
    let mut lines = lines(body);
    let mut count = 0;
    while let Some(_line) = next_text(&mut lines) {
        count += 1;
    }
    count
}
