//! How long lines and words may be (RFC 2047, section 2).

/// The most bytes of a line of a header with encoded words.
pub const MAX_LINE_LEN: usize = 76;

/// The most bytes of text in one encoded word: 60 letters of Base64, so that the word has at most
/// 72 of its 75 bytes.
pub const MAX_GROUP_LEN: usize = 45;
