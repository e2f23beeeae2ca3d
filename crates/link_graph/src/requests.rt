// The requests of a process: its monitors of processes and of registered names.
ghost use Rattle.std.specs.Prelude.{◌≡◌, option_map};
ghost use Rattle.link_graph.specs.Requests.{partner_in, request_in};
ghost use Rattle.link_graph.specs.Seen.{shown_entry, shown_request};

use crate::shapes::{Entry, EntryKind};

/// A monitor of a process or of a registered name: whoever calls a process monitors it until the answer comes.
#[derive(Clone, Copy)]
pub struct Request<'a> {
    /// The pid of the process that is asked, or a registered name with its node in braces, as the link list has it.
    pub target: &'a [u8],
    /// The reference of the monitor.
    pub reference: &'a [u8],
}

// What stands between `{to,` and the `,` before the reference of a monitor with this text.
fn partner<'a>(text: &'a [u8], reference: &[u8]) -> &'a [u8]
    ensures { result.now ≡ partner_in text.now reference.now }
{
    let end = text.len().saturating_sub(reference.len() + 2);
    match text.get(4..end) {
        Some(partner) => partner,
        None => b"",
    }
}

/// The request that an entry is, if it monitors a process or a registered name.
pub fn request_in<'a>(entry: &Entry<'a>) -> Option<Request<'a>>
    ensures { option_map shown_request result ≡ request_in (shown_entry entry.now) }
{
    match entry.kind {
        EntryKind::To(pid, reference) => Some(Request {
            target: pid,
            reference,
        }),
        EntryKind::ToName(reference) => Some(Request {
            target: partner(entry.text, reference),
            reference,
        }),
        _ => None,
    }
}
