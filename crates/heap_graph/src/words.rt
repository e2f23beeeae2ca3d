// How many words a form has.
ghost use Rattle.std.specs.Prelude.{◌≡◌, ◌≤◌, ◌^◌};
ghost use Rattle.term_forms.specs.SeenForms.{heap_form};
ghost use Rattle.heap_graph.specs.Kinds.{kind_words, payload_words};
ghost use Rattle.heap_graph.specs.Words.{digits_of, long_words};

use cell_records::Kind;
use term_forms::shapes::Form;

// A big integer without its sign.
fn digits_of(number: &[u8]) -> &[u8]
    ensures { result.now ≡ digits_of number.now }
{
    match number.split_first() {
        Some((b'-', digits)) => digits,
        _ => number,
    }
}

// The words of a big integer behind its header.
fn long_words(number: &[u8]) -> u64
    ensures value { result ≡ long_words number.now }
    ensures small { result ≤ 2 ^ 61 }
{
    let digits = digits_of(number);
    let count = digits.len() as u64;
    if digits.starts_with(b"16#") {
        (count - 3).div_ceil(16)
    } else {
        count.div_ceil(19)
    }
}

/// The words of the payload of a form: of a big integer, an external term or a heap binary. Others have none.
pub fn payload_words(form: &Form<'_>) -> u64
    ensures value { result ≡ payload_words (heap_form form.now) }
    ensures small { result ≤ 2 ^ 61 }
{
    match form {
        Form::Long(number) => long_words(number),
        Form::Ext(size, _) | Form::HeapBin(size, _) => size.div_ceil(8),
        _ => 0,
    }
}

/// The words of a form of a kind with so many elements, without its payload. A
/// flat map has one element more than values, which leads to the tuple of its keys.
pub fn kind_words(kind: Kind, elements: u32) -> u64
    ensures value { result ≡ kind_words kind elements }
    ensures small { result ≤ 2 ^ 33 }
{
    match kind {
        Kind::Long | Kind::Ext => 1,
        Kind::List | Kind::Float | Kind::HeapBin => 2,
        Kind::Pid | Kind::Port => 3,
        Kind::SubBin => 5,
        Kind::RefBin => 6,
        Kind::Tuple | Kind::Node => u64::from(elements) + 1,
        Kind::Flat | Kind::Hash => u64::from(elements) + 2,
    }
}
