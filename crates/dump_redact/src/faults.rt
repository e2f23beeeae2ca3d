// Why a dump isn't redacted.

/// Why a dump isn't redacted, or not to its end.
#[derive(Debug, Drop)]
pub enum RedactFault {
    /// The body of a heap or of literals has more bytes than the limit on a section's body; `at`
    /// is the offset of its section in the file, and `len` the number of bytes of the body.
    SectionTooLarge { at: u64, len: u64 },
    /// The device failed.
    Read,
    /// The sink failed.
    Write,
    /// There was no memory for a heap, or for a piece of the dump.
    Memory,
}
