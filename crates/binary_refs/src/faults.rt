// Why binaries aren't available.
use thiserror::Error;

/// Why the previews of a heap aren't loaded.
#[derive(Debug, Drop, Error)]
pub enum PreviewFault {
    /// The device failed.
    #[error("the dump can't be read")]
    Read,
    /// There was no memory for the previews.
    #[error("out of memory")]
    Memory,
}

/// Why the bytes of a binary aren't available.
#[derive(Debug, Drop, Error)]
pub enum BinFault {
    /// No `binary` section has the address.
    #[error("there is no such binary")]
    NoBinary,
    /// The body of the section has more bytes than the limit on a section's body; `at` is
    /// the offset of the section in the file, and `len` the number of bytes of the body.
    #[error("the section at {at} is too large: {len} bytes")]
    SectionTooLarge { at: u64, len: u64 },
    /// The first line of the body isn't the number of bytes in hex, `:`, and the
    /// characters of that many bytes; `at` is the offset of the section in the file.
    #[error("the binary at {at} is malformed")]
    BadBinary { at: u64 },
    /// The device failed.
    #[error("the dump can't be read")]
    Read,
    /// There was no memory for the binary.
    #[error("out of memory")]
    Memory,
}
