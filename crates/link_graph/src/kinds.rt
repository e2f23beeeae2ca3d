// The kind of an entry.
ghost use Rattle.std.specs.Prelude.{◌≡◌, codes};
ghost use Rattle.std.specs.Option.{option_map};
ghost use Rattle.link_graph.specs.Reading.{at_last_comma, parties, to_kind, from_kind, monitor_kind, entry_kind};
ghost use Rattle.link_graph.specs.Seen.{shown_kind};
ghost use Rattle.link_graph.specs.Texts.{inside};
ghost use Rattle.link_graph.specs.Kinds.{to_opening, from_opening};
ghost use Rattle.link_graph.specs.Inner.Opening.{is_opened};
ghost use Rattle.link_graph.specs.Inner.Searching.{IsLast, both};

use crate::shapes::EntryKind;
use crate::texts::{inside, is_braced, is_pid, is_port, is_reference};

// Where the last comma stands. It is searched for from the end, since the reference after it is short.
fn last_comma(text: &[u8]) -> Option<usize>
    ensures { IsLast 44 text.now result }
{
    let mut end = text.len();
    while end > 0 {
        end -= 1;
        if text[end] == b',' {
            return Some(end);
        }
    }
    None
}

fn at_last_comma(text: &[u8]) -> Option<(&[u8], &[u8])>
    ensures { option_map both result ≡ at_last_comma text.now }
{
    let comma = last_comma(text)?;
    Some((&text[..comma], &text[comma + 1..]))
}

// The partner and the reference of a monitor, from what stands between its opening and its `}`.
#[tactic(auto, unfolding(crate::specs::Reading::parties))]
fn parties(text: &[u8]) -> Option<(&[u8], &[u8])>
    ensures { option_map both result ≡ parties text.now }
{
    let (partner, reference) = at_last_comma(text)?;
    if is_reference(reference) {
        Some((partner, reference))
    } else {
        None
    }
}

#[tactic(auto, unfolding(crate::specs::Reading::to_kind))]
fn to_kind<'a>(partner: &'a [u8], reference: &'a [u8]) -> EntryKind<'a>
    ensures { shown_kind result ≡ to_kind (partner.now, reference.now) }
{
    if is_pid(partner) {
        EntryKind::To(partner, reference)
    } else if is_port(partner) {
        EntryKind::ToPort
    } else if is_braced(partner) {
        EntryKind::ToName(reference)
    } else {
        EntryKind::Other
    }
}

#[tactic(auto, unfolding(crate::specs::Reading::from_kind))]
fn from_kind<'a>(partner: &'a [u8], reference: &'a [u8]) -> EntryKind<'a>
    ensures { shown_kind result ≡ from_kind (partner.now, reference.now) }
{
    if is_pid(partner) {
        EntryKind::From(partner, reference)
    } else if is_port(partner) {
        EntryKind::FromPort
    } else {
        EntryKind::Other
    }
}

// The kind of a text, by the opening of a monitor that it begins with.
#[tactic(auto, unfolding(crate::specs::Reading::monitor_kind))]
fn monitor_kind(text: &[u8]) -> EntryKind<'_>
    ensures { shown_kind result ≡ monitor_kind (inside to_opening (codes "}") text.now)
        (inside from_opening (codes "}") text.now) }
{
    if let Some(to) = inside(text, b"{to,", b"}") {
        return match parties(to) {
            None => EntryKind::Other,
            Some((partner, reference)) => to_kind(partner, reference),
        };
    }
    if let Some(from) = inside(text, b"{from,", b"}") {
        return match parties(from) {
            None => EntryKind::Other,
            Some((partner, reference)) => from_kind(partner, reference),
        };
    }
    EntryKind::Other
}

// Whether the text begins as each monitor does.
fn is_opened(text: &[u8]) -> bool
    ensures { result ≡ is_opened text.now }
{
    !text.is_empty() && text[0] == b'{'
}

// What a text says as an entry. Its first byte tells a monitor from everything else.
pub(crate) fn kind(text: &[u8]) -> EntryKind<'_>
    ensures { shown_kind result ≡ entry_kind text.now }
{
    if is_opened(text) {
        return monitor_kind(text);
    }
    if is_pid(text) {
        return EntryKind::Link(text);
    }
    if is_port(text) {
        return EntryKind::LinkPort;
    }
    EntryKind::Other
}
