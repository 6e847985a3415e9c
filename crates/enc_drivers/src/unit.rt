//! What the units of an encoding are.

/// A character set of ISO-2022-JP (Encoding Standard, section 12.2.1).
#[derive(Clone, Copy, Debug, PartialEq, Eq)]
pub enum JisSet {
    /// ASCII.
    Ascii,
    /// ASCII but for the yen sign at 5C and the overline at 7E.
    Roman,
    /// Halfwidth katakana, of one byte.
    Katakana,
    /// The characters of index jis0208, of two bytes.
    Jis0208,
}

/// What a decoder of a stateful encoding is in. Every other encoding reads each mode as `Plain`,
/// and keeps it.
#[derive(Clone, Copy, Debug, PartialEq, Eq)]
pub enum Mode {
    /// The start of a stream. ISO-2022-JP reads it as `Within(JisSet::Ascii)`.
    Plain,
    /// Behind a character, in this set.
    Within(JisSet),
    /// Behind an escape sequence to this set.
    AfterEscape(JisSet),
}

/// What a unit of an encoding stands for.
#[derive(Clone, Copy, Debug, PartialEq, Eq)]
pub enum Item {
    /// A scalar.
    One(char),
    /// Two scalars, in order.
    Two(char, char),
    /// Bytes that are wrong in the encoding. A decoder with replacement writes U+FFFD for them.
    Malformed,
    /// Nothing: bytes that only change the mode.
    Silent,
}
