//! The characters that cover a range of a payload's bytes.

/// Which characters of a payload are read for a range of its bytes. They are themselves a payload.
#[derive(Clone, Copy)]
pub struct Cover {
    /// The place of the first of these characters, from 0.
    pub first: u64,
    /// How many of these characters there are.
    pub chars: u64,
    /// How many of the bytes that they write come before the range.
    pub skip: u32,
    /// How many bytes these characters write.
    pub bytes: u32,
}
