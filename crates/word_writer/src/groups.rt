//! Texts cut into groups of whole characters, one for each encoded word.
ghost use Rattle.std.specs.Prelude.{◌≡◌, ◌<◌, length, take, drop, IsCharBoundary};
ghost use Rattle.word_writer.specs.Groups.{begins_with_mark, group_room, group_len};

use crate::limits::MAX_GROUP_LEN;

/// U+FEFF in UTF-8.
pub const MARK: &str = "\u{FEFF}";

/// Whether a group begins with U+FEFF, which readers drop there as a byte order mark.
pub fn begins_with_mark(group: &str) -> bool
    ensures { result ≡ begins_with_mark group.now }
{
    group.as_bytes().starts_with(MARK.as_bytes())
}

// The most bytes of the text that the group at its front may take: U+FEFF stands in it twice where
// it comes first.
fn group_room(text: &str) -> usize
    ensures { result ≡ group_room text.now }
{
    if !begins_with_mark(text) {
        return MAX_GROUP_LEN;
    }
    MAX_GROUP_LEN - MARK.len()
}

// How many bytes the characters have that fit into the group at the front of a text.
fn group_len(text: &str) -> usize
    ensures value { result ≡ group_len text.now }
    ensures between { IsCharBoundary text.now result }
    ensures some { 0 < length text.now → 0 < result }
{
    text.floor_char_boundary(group_room(text))
}

/// The group at the front of a text, and the text behind it.
pub fn split_group(text: &str) -> (&str, &str)
    ensures group { result.0.now ≡ take (group_len text.now) text.now }
    ensures rest { result.1.now ≡ drop (group_len text.now) text.now }
    ensures shorter { 0 < length text.now → length result.1.now < length text.now }
{
    text.split_at(group_len(text))
}
