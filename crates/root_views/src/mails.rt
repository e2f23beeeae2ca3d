// The message of a mailbox line, and its token.
ghost use Rattle.std.specs.Prelude.{◌≡◌};
ghost use Rattle.std.specs.Option.{option_map, option_copied};
ghost use Rattle.field_lines.specs.Shown.{shown_line};
ghost use Rattle.term_forms.specs.Seen.{element};
ghost use Rattle.root_views.specs.Roots.{message, token, behind_colon, dist_roots, pair_roots, mail_line};
ghost use Rattle.root_views.specs.Seen.{content, root};
ghost use Rattle.root_views.specs.Inner.Lines.{IsSmall};
ghost use Rattle.root_views.specs.Inner.Mails.{mail_list};

use crate::roots::{Root, What};
use crate::texts::split_at_last_colon;
use field_lines::Line;
use term_forms::reading::elem;
use term_forms::shapes::Elem;
use term_forms::whole_elem;

// A message, and its token if it has one.
#[derive(Drop)]
pub(crate) struct Mail<'a> {
    pub(crate) message: Root<'a>,
    pub(crate) token: Option<Root<'a>>,
}

fn message_root(at: usize, what: What<'_>) -> Root<'_>
    ensures { root result ≡ message at (content what.entry) }
{
    Root {
        at,
        label: b"m",
        what,
    }
}

fn token_root(at: usize, e: Elem<'_>) -> Root<'_>
    ensures { root result ≡ token at (element e.entry) }
{
    Root {
        at,
        label: b"t",
        what: What::Term(e),
    }
}

// A message in the external format, which begins with `D`. Its token stands after the last colon.
fn dist_mail<'a>(line: &Line<'a>) -> Option<Mail<'a>>
    requires { IsSmall (shown_line line.now) }
    ensures { option_map mail_list result ≡ dist_roots (shown_line line.now) }
{
    if !line.text.starts_with(b"D") {
        return None;
    }
    let (dist, rest) = split_at_last_colon(line.text)?;
    let token = whole_elem(rest)?;
    Some(Mail {
        message: message_root(line.at, What::Dist(dist)),
        token: Some(token_root(line.at + dist.len() + 1, token)),
    })
}

fn behind_colon(text: &[u8]) -> Option<&[u8]>
    ensures { option_copied result ≡ behind_colon text.now }
{
    match text {
        [b':', rest @ ..] => Some(rest),
        _ => None,
    }
}

// A message that is the element at the beginning of the text. Its token stands after the colon that follows it.
fn pair_mail<'a>(line: &Line<'a>) -> Option<Mail<'a>>
    requires { IsSmall (shown_line line.now) }
    ensures { option_map mail_list result ≡ pair_roots (shown_line line.now) }
{
    let (first, len) = elem(line.text)?;
    let token = whole_elem(behind_colon(&line.text[len..])?)?;
    Some(Mail {
        message: message_root(line.at, What::Term(first)),
        token: Some(token_root(line.at + len + 1, token)),
    })
}

// The roots of a line.
pub(crate) fn read_mail<'a>(line: &Line<'a>) -> Mail<'a>
    requires { IsSmall (shown_line line.now) }
    ensures { mail_list result ≡ mail_line (shown_line line.now) }
{
    if let Some(mail) = dist_mail(line) {
        return mail;
    }
    if let Some(mail) = pair_mail(line) {
        return mail;
    }
    Mail {
        message: message_root(line.at, What::Unread),
        token: None,
    }
}
