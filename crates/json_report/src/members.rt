// The members of an object, and how they are sent to a serializer.
ghost use Rattle.std.specs.Prelude.{◌≡◌, map, string_bytes, IfOk, IfSome, OnOk};
ghost use Rattle.serde.specs.Event.{Logs, text};
ghost use Rattle.serde_json.specs.Data.{object};
ghost use Rattle.json_report.specs.Inner.Members.{shown_member, shown_told, Sends};
ghost use Rattle.json_report.specs.Trees.{characters, members as members_of};

use serde::Serializer;
use std::alloc::{AllocError, Global};

// The value of a member.
#[derive(Clone, Copy)]
pub(crate) enum Told<'a> {
    Number(u64),
    Word(&'a str),
    // A text of the dump, each byte of which is one character.
    Text(&'a [u8]),
}

// A key and its value.
pub(crate) type Member<'a> = (&'a str, Told<'a>);

// A text of the dump, each byte of which is one character.
pub(crate) fn characters(alloc: Global, bytes: &[u8]) -> Result<String, AllocError>
    ensures { IfOk result (λ s. string_bytes s ≡ characters bytes.now) }
{
    bytes.iter().map(|byte| char::from(*byte)).collect(alloc)
}

// A text of ASCII only, as nearly all are, is its own UTF-8.
fn ascii(bytes: &[u8]) -> Option<&str>
    ensures { IfSome result (λ s. s.now ≡ characters bytes.now) }
{
    if !bytes.is_ascii() {
        return None;
    }
    match str::from_utf8(bytes) {
        Ok(text) => Some(text),
        Err(_) => None,
    }
}

// Sends a text of the dump, which needs memory only if it isn't ASCII.
fn send_text<S: Serializer>(out: &mut S, alloc: Global, bytes: &[u8]) -> Result<(), S::Error>
    ensures { OnOk result
        (Logs (S.written out.old) (S.written out.new) (text (characters bytes.now))) }
{
    if let Some(text) = ascii(bytes) {
        return out.str(text);
    }
    match characters(alloc, bytes) {
        Ok(text) => out.str(text.as_str()),
        Err(_) => Err(out.custom("no memory")),
    }
}

fn send_told<S: Serializer>(out: &mut S, alloc: Global, told: &Told<'_>) -> Result<(), S::Error>
    ensures { Sends (S.written out.old) (S.written out.new) (shown_told told.now) result }
{
    match told {
        Told::Number(n) => out.u64(*n),
        Told::Word(word) => out.str(word),
        Told::Text(bytes) => send_text(out, alloc, bytes),
    }
}

// Sends an object with these members in this order.
pub(crate) fn send_object<S: Serializer>(
    out: &mut S,
    alloc: Global,
    members: &[Member<'_>],
) -> Result<(), S::Error>
    ensures { Sends (S.written out.old) (S.written out.new)
        (object (members_of (map shown_member members.now))) result }
{
    out.begin_map(Some(members.len()))?;
    for (key, told) in members {
        out.key(key)?;
        send_told(out, alloc, told)?;
    }
    out.end_map()
}
