//! How a decoder, an encoder or a coder that replaces ended a call.

/// How a decoder that doesn't replace malformed units ended a call.
#[derive(Clone, Copy, Debug, PartialEq, Eq)]
pub enum DecoderResult {
    /// The input is used up.
    InputEmpty,
    /// There may not be room for the next scalar.
    OutputFull,
    /// A malformed unit of so many bytes, and how many bytes behind it the decoder holds.
    Malformed(u8, u8),
}

/// How an encoder that doesn't replace unmappable scalars ended a call.
#[derive(Clone, Copy, Debug, PartialEq, Eq)]
pub enum EncoderResult {
    /// The input is used up.
    InputEmpty,
    /// There may not be room for the next scalar.
    OutputFull,
    /// The scalar that was read last has no bytes in the encoding.
    Unmappable(char),
}

/// How a decoder or an encoder that replaces what it can't convert ended a call.
#[derive(Clone, Copy, Debug, PartialEq, Eq)]
pub enum CoderResult {
    /// The input is used up.
    InputEmpty,
    /// There may not be room for the next scalar.
    OutputFull,
}
