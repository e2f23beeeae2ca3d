// The texts of pids, ports and references.
ghost use Rattle.std.specs.Prelude.{◌≡◌, ◌+◌, ◌||◌, not, length, IfSome};
ghost use Rattle.std.specs.List.{list_all, position};
ghost use Rattle.std.specs.Option.{option_copied};
ghost use Rattle.std.specs.Char.{is_ascii_digit};
ghost use Rattle.link_graph.specs.Texts.{behind, before, inside, is_dot, is_dotted, is_pair, is_triple, is_pid, is_local, is_port, is_reference, is_braced};
ghost use Rattle.link_graph.specs.Inner.Numbers.{behind_number};

use dump_io::is_digits;

// What stands after `front`, if the text begins with it.
pub(crate) fn behind<'a>(text: &'a [u8], front: &[u8]) -> Option<&'a [u8]>
    ensures value { option_copied result ≡ behind front.now text.now }
    ensures lengths { IfSome result (λ rest. length front.now + length rest.now ≡ length text.now) }
{
    text.strip_prefix(front)
}

fn before<'a>(text: &'a [u8], back: &[u8]) -> Option<&'a [u8]>
    ensures value { option_copied result ≡ before back.now text.now }
    ensures lengths { IfSome result (λ rest. length rest.now + length back.now ≡ length text.now) }
{
    text.strip_suffix(back)
}

// What stands between an opening and a closing, if the text begins and ends with them.
#[tactic(auto, unfolding(crate::specs::Texts::inside))]
pub(crate) fn inside<'a>(text: &'a [u8], front: &[u8], back: &[u8]) -> Option<&'a [u8]>
    ensures value { option_copied result ≡ inside front.now back.now text.now }
    ensures lengths { IfSome result (λ inner. length front.now + length inner.now + length back.now
        ≡ length text.now) }
{
    before(behind(text, front)?, back)
}

fn all_dotted(text: &[u8]) -> bool
    ensures { result ≡ list_all (λ c. is_ascii_digit c || is_dot c) text.now }
{
    text.iter().all(|c| c.is_ascii_digit() || *c == b'.')
}

fn is_dotted(text: &[u8]) -> bool
    ensures { result ≡ is_dotted text.now }
{
    !text.is_empty() && all_dotted(text)
}

// Where the first byte stands that isn't a digit.
fn first_other(text: &[u8]) -> Option<usize>
    ensures { result ≡ position (λ c. not (is_ascii_digit c)) text.now }
{
    text.iter().position(|c| !c.is_ascii_digit())
}

// What stands after a number and its dot, if the text begins with them.
fn behind_number(text: &[u8]) -> Option<&[u8]>
    ensures { option_copied result ≡ behind_number text.now }
{
    let end = first_other(text)?;
    if end > 0 && text[end] == b'.' {
        Some(&text[end + 1..])
    } else {
        None
    }
}

fn is_pair(text: &[u8]) -> bool
    ensures { result ≡ is_pair text.now }
{
    match behind_number(text) {
        None => false,
        Some(second) => is_digits(second),
    }
}

fn is_triple(text: &[u8]) -> bool
    ensures { result ≡ is_triple text.now }
{
    match behind_number(text) {
        None => false,
        Some(others) => is_pair(others),
    }
}

// Whether the text is that of a pid: `<`, digits, `.`, digits, `.`, digits, `>`.
#[tactic(auto, unfolding(crate::specs::Texts::is_pid))]
pub(crate) fn is_pid(text: &[u8]) -> bool
    ensures { result ≡ is_pid text.now }
{
    match inside(text, b"<", b">") {
        None => false,
        Some(number) => is_triple(number),
    }
}

/// Whether the text is that of a pid of the dumped node: a pid whose first digits are exactly `0`.
#[tactic(auto, unfolding(crate::specs::Texts::is_local))]
pub fn is_local(text: &[u8]) -> bool
    ensures { result ≡ is_local text.now }
{
    is_pid(text) && behind(text, b"<0.").is_some()
}

// Whether the text is that of a port: `#Port<`, digits and dots, `>`.
#[tactic(auto, unfolding(crate::specs::Texts::is_port))]
pub(crate) fn is_port(text: &[u8]) -> bool
    ensures { result ≡ is_port text.now }
{
    match inside(text, b"#Port<", b">") {
        None => false,
        Some(number) => is_dotted(number),
    }
}

// Whether the text is that of a reference: `#Ref<`, digits and dots, `>`.
#[tactic(auto, unfolding(crate::specs::Texts::is_reference))]
pub(crate) fn is_reference(text: &[u8]) -> bool
    ensures { result ≡ is_reference text.now }
{
    match inside(text, b"#Ref<", b">") {
        None => false,
        Some(number) => is_dotted(number),
    }
}

// Whether the text is in braces, as a name with its node is.
#[tactic(auto, unfolding(crate::specs::Texts::is_braced))]
pub(crate) fn is_braced(text: &[u8]) -> bool
    ensures { result ≡ is_braced text.now }
{
    inside(text, b"{", b"}").is_some()
}
