// The report of `cells`.
ghost use Rattle.std.specs.Prelude.{◌≡◌, ◌<◌, decimal, length};
ghost use Rattle.std.specs.Option.{option_and_then, option_map};
ghost use Rattle.std.specs.Str.{bytes_eq};
ghost use Rattle.dump_io.specs.Pieces.{piece_text};
ghost use Rattle.dump_io.specs.Sinks.{Puts};
ghost use Rattle.term_forms.specs.SeenForms.{heap_form};
ghost use Rattle.heap_cells.specs.Targets.{number};
ghost use Rattle.report_lines.specs.Lines.{text_or_dash};
ghost use Rattle.term_text.specs.Cells.{cell_line, cells_report, word_count, kind_line, cell_word, form_size, word_of, own_cells, cell_lines, kind_lines, count_of_cells};
ghost use Rattle.term_text.specs.Inner.Cells.{cell_at};

use dump_io::{Failed, Piece, Sink};
use heap_cells::{CellIx, Heap, Kind};
use report_lines::{put_count_line, put_line, put_total_line};
use term_forms::shapes::Form;

/// The word for a kind of cells, as in the report of `cells`; a cell without a kind is `malformed`.
pub fn kind_word(kind: Option<Kind>) -> &'static [u8]
    ensures { result.now ≡ cell_word kind }
{
    match kind {
        None => b"malformed",
        Some(Kind::List) => b"list",
        Some(Kind::Tuple) => b"tuple",
        Some(Kind::Float) => b"float",
        Some(Kind::Long) => b"bignum",
        Some(Kind::Pid) => b"pid",
        Some(Kind::Port) => b"port",
        Some(Kind::Ext) => b"external",
        Some(Kind::HeapBin) => b"heap-binary",
        Some(Kind::RefBin) => b"ref-binary",
        Some(Kind::SubBin) => b"sub-binary",
        Some(Kind::Flat) => b"flat-map",
        Some(Kind::Hash) => b"hash-map",
        Some(Kind::Node) => b"map-node",
    }
}

// The size of a form, if it has one.
fn size_in(form: &Form<'_>) -> Option<u64>
    ensures { result ≡ form_size (heap_form form.now) }
{
    match form {
        Form::List(_, _) => Some(2),
        Form::Tuple(elements) | Form::Node(elements) | Form::Flat(_, elements) => {
            Some(elements.left())
        }
        Form::Ext(size, _)
        | Form::HeapBin(size, _)
        | Form::RefBin(_, _, size)
        | Form::SubBin(_, _, size)
        | Form::Hash(size, _) => Some(*size),
        Form::Float(_) | Form::Long(_) | Form::Pid(_) | Form::Port(_) => None,
    }
}

fn size_of(form: &Option<Form<'_>>) -> Option<u64>
    ensures { result ≡ option_and_then form_size (option_map heap_form form.now) }
{
    match form {
        None => None,
        Some(form) => size_in(form),
    }
}

fn size_piece<'a>(size: Option<u64>) -> Piece<'a>
    ensures { piece_text result ≡ text_or_dash (option_map decimal size) }
{
    match size {
        None => Piece::Bytes(b"-"),
        Some(size) => Piece::Dec(size),
    }
}

fn put_cell<K: Sink>(sink: &mut K, heap: &Heap, ix: CellIx) -> Result<(), Failed>
    requires { number ix < length heap.now.cells }
    ensures { Puts (K.state sink.old) (K.state sink.new)
        (cell_line (cell_at heap.now.cells (number ix))) result }
{
    put_line(
        sink,
        b"\t",
        &[
            Piece::Hex(heap.addr(ix)),
            Piece::Bytes(kind_word(heap.kind(ix))),
            size_piece(size_of(&heap.form(ix))),
        ],
    )
}

fn put_own<K: Sink>(sink: &mut K, heap: &Heap) -> Result<(), Failed>
    ensures { Puts (K.state sink.old) (K.state sink.new) (cell_lines (own_cells heap.now)) result }
{
    for n in 0..heap.own() {
        put_cell(sink, heap, heap.cell(n))?;
    }
    Ok(())
}

// Whether a cell has the kind with this word.
fn has_word(heap: &Heap, ix: CellIx, word: &[u8]) -> bool
    requires { number ix < length heap.now.cells }
    ensures { result ≡ bytes_eq (word_of (cell_at heap.now.cells (number ix)).form) word.now }
{
    kind_word(heap.kind(ix)) == word
}

// How many of the heap's own cells have the kind with this word.
fn count_of(heap: &Heap, word: &[u8]) -> u32
    ensures { result ≡ word_count (own_cells heap.now) word.now }
{
    let mut count = 0;
    for n in 0..heap.own() {
        if has_word(heap, heap.cell(n), word) {
            count += 1;
        }
    }
    count
}

// Writes a line for a kind, if the heap has cells of that kind of its own.
fn put_kind<K: Sink>(sink: &mut K, heap: &Heap, kind: Option<Kind>) -> Result<(), Failed>
    ensures { Puts (K.state sink.old) (K.state sink.new) (kind_line (own_cells heap.now) kind) result }
{
    let word = kind_word(kind);
    put_count_line(sink, b"kind", word, u64::from(count_of(heap, word)))
}

// All kinds, in the order in which they are counted.
const KINDS: [Option<Kind>; 14] = [
    Some(Kind::List),
    Some(Kind::Tuple),
    Some(Kind::Float),
    Some(Kind::Long),
    Some(Kind::Pid),
    Some(Kind::Port),
    Some(Kind::Ext),
    Some(Kind::HeapBin),
    Some(Kind::RefBin),
    Some(Kind::SubBin),
    Some(Kind::Flat),
    Some(Kind::Hash),
    Some(Kind::Node),
    None,
];

fn put_kinds<K: Sink>(sink: &mut K, heap: &Heap) -> Result<(), Failed>
    ensures { Puts (K.state sink.old) (K.state sink.new) (kind_lines (own_cells heap.now)) result }
{
    for kind in KINDS {
        put_kind(sink, heap, kind)?;
    }
    Ok(())
}

fn put_total<K: Sink>(sink: &mut K, heap: &Heap) -> Result<(), Failed>
    ensures { Puts (K.state sink.old) (K.state sink.new) (count_of_cells (own_cells heap.now)) result }
{
    put_total_line(sink, b"cells", u64::from(heap.own()))
}

/// Writes a line for each of the heap's own cells, in the order of the dump, `ADDR KIND SIZE`
/// with tabs between them; then `kind COUNT KIND`, with tabs, for each kind that occurs; and
/// then `cells N`. The size of a cons cell is 2; that of a tuple, a flat map or an inner node of
/// a hash map is the number of its elements, values or children; that of a binary or an external
/// term its length in bytes; and that of a hash map what it states. Other cells have `-`.
pub fn put_cells<K: Sink>(sink: &mut K, heap: &Heap) -> Result<(), Failed>
    ensures { Puts (K.state sink.old) (K.state sink.new) (cells_report heap.now) result }
{
    put_own(sink, heap)?;
    put_kinds(sink, heap)?;
    put_total(sink, heap)
}
