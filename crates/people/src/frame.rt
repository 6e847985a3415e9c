//! The frames of encoded words (RFC 2047, section 2).
ghost use Rattle.std.specs.Prelude.{◌≡◌, ◌||◌, ◌&&◌, ◌==◌, IfSome, length, drop};
ghost use Rattle.std.specs.List.{list_all};
ghost use Rattle.std.specs.Option.{option_map};
ghost use Rattle.people.specs.Frame.{is_charset_byte, is_charset, is_b, is_q, begins_in};
ghost use Rattle.people.specs.Frame.{cut_charset, cut_letter, cut_text, frame_at, frame_spelling};
ghost use Rattle.people.specs.TextSteps.{LooksAt};
ghost use Rattle.people.specs.Slices.{cut_of, letter_cut_of, sliced_frame};

use memchr::memchr;

const QUESTION_MARK: u8 = b'?';

const EQUALS: u8 = b'=';

// The frame of a word where it stands in a header.
#[derive(Clone, Copy)]
pub(crate) struct FrameSlices<'a> {
    // The whole word, from `=?` to `?=`.
    pub(crate) spelling: &'a [u8],
    // The charset field.
    pub(crate) charset: &'a [u8],
    // The letter of the encoding.
    pub(crate) letter: u8,
    // The text.
    pub(crate) text: &'a [u8],
}

// Whether the byte may stand in a charset field.
fn is_charset_byte(byte: u8) -> bool
    ensures { result ≡ is_charset_byte byte }
{
    matches!(byte, b'A'..=b'Z' | b'a'..=b'z' | b'0'..=b'9' | b'-' | b'_' | b'.' | b':' | b'+' | b'*')
}

fn are_charset_bytes(bytes: &[u8]) -> bool
    ensures { result ≡ list_all is_charset_byte bytes.now }
{
    bytes.iter().all(|byte| is_charset_byte(*byte))
}

fn is_charset(field: &[u8]) -> bool
    ensures { result ≡ is_charset field.now }
{
    !field.is_empty() && are_charset_bytes(field)
}

// Whether the letter is that of the encoding B, in either case.
pub(crate) fn is_b(letter: u8) -> bool
    ensures { result ≡ is_b letter }
{
    letter == b'b' || letter == b'B'
}

// Whether the letter is that of the encoding Q, in either case.
fn is_q(letter: u8) -> bool
    ensures { result ≡ is_q letter }
{
    letter == b'q' || letter == b'Q'
}

// The charset field in front of the first question mark, and what follows that.
fn split_charset(bytes: &[u8]) -> Option<(&[u8], &[u8])>
    ensures { option_map cut_of result ≡ cut_charset bytes.now }
{
    let end = memchr(QUESTION_MARK, bytes)?;
    let field = &bytes[..end];
    if is_charset(field) {
        Some((field, &bytes[end + 1..]))
    } else {
        None
    }
}

// Whether a letter of an encoding and a question mark stand here.
fn is_frame_letter(letter: u8, mark: u8) -> bool
    ensures { result ≡ ((is_b letter || is_q letter) && mark == 63) }
{
    (is_b(letter) || is_q(letter)) && mark == QUESTION_MARK
}

// The letter in front of a question mark, and what follows that.
fn split_letter(bytes: &[u8]) -> Option<(u8, &[u8])>
    ensures { option_map letter_cut_of result ≡ cut_letter bytes.now }
{
    let (letter, behind) = bytes.split_first()?;
    let (mark, rest) = behind.split_first()?;
    if is_frame_letter(*letter, *mark) {
        Some((*letter, rest))
    } else {
        None
    }
}

// Whether an `=` stands first.
fn begins_in_equals(bytes: &[u8]) -> bool
    ensures { result ≡ begins_in 61 bytes.now }
{
    match bytes.first() {
        Some(byte) => *byte == EQUALS,
        None => false,
    }
}

// What a byte of a text says.
#[derive(Clone, Copy)]
enum Look {
    // It belongs to the text.
    Inside,
    // It begins the first `?=`.
    End,
    // It can't stand in a text.
    Broken,
}

// What a byte of a text says, by the byte before it and those behind it.
fn look_at(byte: u8, behind: &[u8], after_equals: bool) -> Look
    ensures { LooksAt after_equals byte behind.now result }
{
    if byte == b'\r' {
        return Look::Broken;
    }
    if byte == b'\n' {
        return Look::Broken;
    }
    if byte != QUESTION_MARK {
        return Look::Inside;
    }
    if begins_in_equals(behind) {
        return Look::End;
    }
    if after_equals {
        return Look::Broken;
    }
    Look::Inside
}

// The text in front of the first `?=`, and what follows that. It looks no further than the first
// CR, LF or `=?`, which can't stand in a text.
fn split_text(bytes: &[u8]) -> Option<(&[u8], &[u8])>
    ensures { option_map cut_of result ≡ cut_text bytes.now }
{
    let mut after_equals = false;
    for (at, byte) in bytes.iter().enumerate() {
        let behind = &bytes[at + 1..];
        match look_at(*byte, behind, after_equals) {
            Look::Inside => after_equals = *byte == EQUALS,
            Look::End => return Some((&bytes[..at], &behind[1..])),
            Look::Broken => return None,
        }
    }
    None
}

// The frame that begins `bytes`, if one does. It looks no further than the first byte that can't
// stand in it.
pub(crate) fn frame_at(bytes: &[u8]) -> Option<FrameSlices<'_>>
    ensures value { option_map (λ f. (sliced_frame f, drop (length f.spelling.now) bytes.now)) result
        ≡ frame_at bytes.now }
    ensures spelled { IfSome result (λ f. f.spelling.now ≡ frame_spelling (sliced_frame f)) }
{
    let inside = bytes.strip_prefix(b"=?")?;
    let (charset, rest) = split_charset(inside)?;
    let (letter, rest) = split_letter(rest)?;
    let (text, after) = split_text(rest)?;
    let spelling = &bytes[..bytes.len() - after.len()];
    Some(FrameSlices {
        spelling,
        charset,
        letter,
        text,
    })
}
