// The encodings of payloads.

/// How a dump writes the bytes of a binary, which its version
/// determines: in hex in 0.3 and 0.4, in base64 in 0.5.
#[derive(Clone, Copy, Debug, PartialEq, Eq)]
pub enum Enc {
    /// Two hex digits of either case for each byte, the high one first.
    Hex,
    /// Base64 by RFC 4648: the standard alphabet, with padding and with zero for the unused bits.
    Base64,
}
