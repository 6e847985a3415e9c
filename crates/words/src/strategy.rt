//! What becomes of encoded words that are too long (RFC 2047, section 2).

/// What to do with an encoded word that is too long: one whose spelling has
/// more than 75 bytes (RFC 2047, section 2).
#[derive(Clone, Copy, Debug, PartialEq, Eq, Hash)]
pub enum RecoverStrategy {
    /// Decode it like any other word.
    Decode,
    /// Leave it as it is spelled.
    Skip,
    /// Refuse the header.
    Abort,
}
