//! Encoded words with their octets and encodings (RFC 2047, sections 2, 4 and 6.2).
ghost use Rattle.std.specs.Prelude.{◌≡◌, ◌+◌, ◌≤◌, ◌++◌, IfOk, OnOk, IfSome, drop, take, length};
ghost use Rattle.std.specs.Prelude.{vec_len};
ghost use Rattle.std.specs.List.{list_all};
ghost use Rattle.std.specs.Option.{option_map};
ghost use Rattle.enc_front.specs.Indexes.{indexes_of};
ghost use Rattle.people.specs.Slices.{sliced_frame, Finds};
ghost use Rattle.people.specs.Word.{frame_octets, is_plain, is_utf_8, is_utf_16, agrees, unmarked};
ghost use Rattle.people.specs.Word.{gives_nothing, octets_encoding, resolved, word_at};

use crate::b_text::push_b_octets;
use crate::frame::{FrameSlices, frame_at, is_b};
use crate::names::named;
use crate::q_text::push_q_octets;
use enc_front::{Encoding, Tables};
use std::alloc::AllocError;

/// An encoded word where it stands in a header.
#[derive(Clone, Copy, Debug, PartialEq, Eq)]
pub struct WordSlice<'a> {
    /// The encoding of the word's text.
    pub encoding: Encoding,
    /// The whole word, from `=?` to `?=`.
    pub spelling: &'a [u8],
}

// Appends the octets of a frame's text.
fn push_octets(octets: &mut Vec<u8>, frame: &FrameSlices<'_>) -> Result<(), AllocError>
    ensures { OnOk result
        (octets.new.items ≡ octets.old.items ++ frame_octets (sliced_frame frame.now)) }
{
    if is_b(frame.letter) {
        push_b_octets(octets, frame.text)
    } else {
        push_q_octets(octets, frame.text)
    }
}

// Whether the octet is ASCII that is the same in nearly every charset.
fn is_plain(octet: u8) -> bool
    ensures { result ≡ is_plain octet }
{
    octet >= b' ' && octet <= b'}' && octet != b'+'
}

fn are_plain(octets: &[u8]) -> bool
    ensures { result ≡ list_all is_plain octets.now }
{
    octets.iter().all(|octet| is_plain(*octet))
}

fn is_utf_8(encoding: Encoding) -> bool
    ensures { result ≡ is_utf_8 encoding }
{
    matches!(encoding, Encoding::Utf8)
}

fn is_utf_16(encoding: Encoding) -> bool
    ensures { result ≡ is_utf_16 encoding }
{
    matches!(encoding, Encoding::Utf16Be | Encoding::Utf16Le)
}

// Whether a byte order mark isn't against the charset.
fn agrees(charset: Encoding, marked: Encoding) -> bool
    ensures { result ≡ agrees charset marked }
{
    (is_utf_8(charset) && is_utf_8(marked)) || (is_utf_16(charset) && is_utf_16(marked))
}

// The encoding of octets, and how many of them are a byte order mark.
fn unmarked(charset: Encoding, octets: &[u8]) -> (Encoding, usize)
    ensures value { (result.0, drop result.1 octets.now) ≡ unmarked charset octets.now }
    ensures within { result.1 ≤ length octets.now }
{
    match Encoding::for_bom(octets) {
        Some((marked, len)) => {
            if agrees(charset, marked) {
                (marked, len)
            } else {
                (charset, 0)
            }
        }
        None => (charset, 0),
    }
}

// Whether a text that isn't empty gives no octet.
fn gives_nothing(text: &[u8], octets: &[u8]) -> bool
    ensures { result ≡ gives_nothing text.now octets.now }
{
    !text.is_empty() && octets.is_empty()
}

// The encoding of octets under a charset.
fn octets_encoding(charset: Option<Encoding>, octets: &[u8]) -> Option<Encoding>
    ensures { result ≡ octets_encoding charset octets.now }
{
    match charset {
        Some(encoding) => Some(encoding),
        None => {
            if are_plain(octets) {
                Some(Encoding::Utf8)
            } else {
                None
            }
        }
    }
}

// The encoding of a text's octets, and how many of them are a byte order mark, where the text can
// be read.
#[tactic(auto, unfolding(crate::specs::Word::resolved))]
fn resolve(charset: Option<Encoding>, text: &[u8], octets: &[u8]) -> Option<(Encoding, usize)>
    ensures value { option_map (λ r. (r.0, drop r.1 octets.now)) result
        ≡ resolved charset text.now octets.now }
    ensures within { IfSome result (λ r. r.1 ≤ length octets.now) }
{
    if gives_nothing(text, octets) {
        return None;
    }
    match octets_encoding(charset, octets) {
        Some(encoding) => Some(unmarked(encoding, octets)),
        None => None,
    }
}

// Removes the first octets behind a place.
fn remove_at(octets: &mut Vec<u8>, at: usize, count: usize)
    requires { at + count ≤ vec_len octets.old }
    ensures { octets.new.items ≡ take at octets.old.items ++ drop (at + count) octets.old.items }
{
    let mut left = count;
    while left > 0 {
        octets.remove(at);
        left -= 1;
    }
}

// The word that begins `bytes`, if one does. Its octets are appended.
pub(crate) fn word_at<'a>(
    tables: &Tables,
    bytes: &'a [u8],
    octets: &mut Vec<u8>,
) -> Result<Option<WordSlice<'a>>, AllocError>
    ensures { IfOk result (λ found. Finds (word_at (indexes_of tables.now) bytes.now)
        octets.old.items octets.new.items found) }
{
    let Some(frame) = frame_at(bytes) else {
        return Ok(None);
    };
    let start = octets.len();
    push_octets(octets, &frame)?;
    let charset = named(frame.charset, tables);
    match resolve(charset, frame.text, &octets[start..]) {
        None => {
            octets.truncate(start);
            Ok(None)
        }
        Some((encoding, mark_len)) => {
            remove_at(octets, start, mark_len);
            Ok(Some(WordSlice {
                encoding,
                spelling: frame.spelling,
            }))
        }
    }
}
