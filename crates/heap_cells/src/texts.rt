// The texts of the two bodies of a heap.
ghost use Rattle.std.specs.Prelude.{◌≡◌, length, slice_range};
ghost use Rattle.heap_cells.specs.Inner.Parts.{IsPart};
ghost use Rattle.heap_cells.specs.Inner.Texts.{text_of, seam_of};

use dump_io::items_between;
use term_forms::Enc;

// The body of the process's own heap and that of the literals, as they were read, and how their payloads
// are written. Places count through both bodies: a byte of the literals comes after all of the heap's.
#[derive(Drop)]
pub(crate) struct Texts {
    pub heap: Vec<u8>,
    pub literals: Vec<u8>,
    pub enc: Enc,
}

// The bytes from one place up to another, both in the same body.
pub(crate) fn part(texts: &Texts, from: usize, upto: usize) -> &[u8]
    requires { IsPart (seam_of texts.now) (length (text_of texts.now)) from upto }
    ensures { result.now ≡ slice_range (text_of texts.now) from upto }
{
    let seam = texts.heap.len();
    if from < seam {
        items_between(&texts.heap, from, upto)
    } else {
        items_between(&texts.literals, from - seam, upto - seam)
    }
}
