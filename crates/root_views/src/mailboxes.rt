// The roots of a mailbox.
ghost use Rattle.std.specs.Prelude.{◌≡◌, ◌++◌, List, flat_map, filter, All};
ghost use Rattle.std.specs.Option.{option_map, option_to_list};
ghost use Rattle.std.specs.Iterator.{YieldsFirstBy, item_count};
ghost use Rattle.root_views.specs.Roots.{BodyRoot, has_text, mail_line, mail_roots, IsInside};
ghost use Rattle.root_views.specs.Seen.{root};
ghost use Rattle.root_views.specs.Inner.Lines.{IsSmall};

use crate::mails::read_mail;
use crate::roots::Root;
use crate::texts::next_text;
use field_lines::reading::lines;
use field_lines::shapes::Lines;
use std::marker::Model;

/// The roots of a mailbox that are still to come. Contracts see the list of these roots.
#[derive(Drop)]
pub struct MailRoots<'a> {
    // The token of the last message, if it is still to come.
    token: Option<Root<'a>>,
    lines: Lines<'a>,
}

impl<'a> Model for MailRoots<'a> {
    ghost Value = { List BodyRoot };

    ghost view = { λ s.
        option_to_list (option_map root s.token) ++ flat_map mail_line (filter has_text s.lines) };

    ghost invariant = { λ s. All IsSmall s.lines };
}

impl<'a> Iterator for MailRoots<'a> {
    type Item = Root<'a>;

    ghost next_gives = { YieldsFirstBy root (λ roots. roots) };

    ghost remaining = { item_count (λ roots. roots) };

    fn next(&mut self) -> Option<Root<'a>> {
        if let Some(token) = self.token.take() {
            return Some(token);
        }
        let line = next_text(&mut self.lines)?;
        let mail = read_mail(&line);
        self.token = mail.token;
        Some(mail.message)
    }
}

/// The roots of the body of a `proc_messages` section: for each line that has a text a
/// message, with the label `m`, followed by its token, with the label `t`. The token is wholly
/// an element. A text that begins with `D` is a message in the external format up to its last
/// `:`, and the token follows that. Any other text is an element, which is the message, then a
/// `:` and the token. A line of any other form is an unread message without a token.
pub fn mail(body: &[u8]) -> MailRoots<'_>
    ensures value { result ≡ mail_roots body.now }
    ensures inside { All (IsInside body.now) result }
{
    MailRoots {
        token: None,
        lines: lines(body),
    }
}
