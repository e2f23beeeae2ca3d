// Where payloads stand in a dump.
ghost use Rattle.std.specs.Prelude.{◌≡◌};
ghost use Rattle.dump_redact.specs.Redacted.{is_heap_tag, part_of};

// Where a line of a dump stands.
#[derive(Clone, Copy)]
pub(crate) enum Part {
    // In the body of a heap: of a `proc_heap` or a `literals` section.
    Heap,
    // After the header of a `binary` section, as its first line.
    Binary,
    // Anywhere else, where no payload stands.
    Other,
}

// Whether a header with this tag begins a heap or literals.
pub(crate) fn is_heap_tag(tag: &[u8]) -> bool
    ensures { result ≡ is_heap_tag tag.now }
{
    tag == b"proc_heap".as_slice() || tag == b"literals".as_slice()
}

// The part that a header with this tag begins.
pub(crate) fn part_of(tag: &[u8]) -> Part
    ensures { result ≡ part_of tag.now }
{
    if is_heap_tag(tag) {
        Part::Heap
    } else if tag == b"binary".as_slice() {
        Part::Binary
    } else {
        Part::Other
    }
}
