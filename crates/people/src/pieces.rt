//! The reading of a value: its words, clear text and gaps (RFC 2047, section 6.2).
ghost use Rattle.std.specs.Prelude.{◌≡◌, ◌++◌, IfOk, OnOk, IfSome, IfNone, length, map};
ghost use Rattle.std.specs.List.{list_all};
ghost use Rattle.enc_front.specs.Indexes.{indexes_of};
ghost use Rattle.people.specs.Parts.{reading};
ghost use Rattle.people.specs.Slices.{seen_part, given_part, seen_text, clear_or_gap_text, FindsFirst, NoWordBefore};
ghost use Rattle.people.specs.Unfolded.{is_blank};
ghost use Rattle.people.specs.Word.{word_at};

use crate::folds::is_blank;
use crate::word::{WordSlice, word_at};
use enc_front::Tables;
use memchr::memchr;
use std::alloc::{AllocError, Global};

/// A part of a value where it stands in the value.
#[derive(Clone, Copy, Debug, PartialEq, Eq)]
pub enum Part<'a> {
    /// An encoded word.
    Word(WordSlice<'a>),
    /// Text outside of words.
    Clear(&'a [u8]),
    /// Spaces and tabs between two words, which aren't shown.
    Gap(&'a [u8]),
}

// The first word of some bytes, and what stands before and after it.
#[derive(Clone, Copy)]
pub(crate) struct FirstWord<'a> {
    pub(crate) before: &'a [u8],
    pub(crate) word: WordSlice<'a>,
    pub(crate) after: &'a [u8],
}

// The first word of `bytes`. A word begins with `=` alone. Its octets are appended.
//
// An attempt at a word stops at the first `=?` that it meets, and what it has read before holds
// none. So attempts overlap by a byte at most, and all together are linear in the bytes.
pub(crate) fn first_word<'a>(
    tables: &Tables,
    bytes: &'a [u8],
    octets: &mut Vec<u8>,
) -> Result<Option<FirstWord<'a>>, AllocError>
    ensures found { IfOk result (λ r. IfSome r (λ f. FindsFirst (word_at (indexes_of tables.now))
        bytes.now f.before.now f.word f.after.now octets.old.items octets.new.items)) }
    ensures none { IfOk result (λ r. IfNone r
        ((NoWordBefore (word_at (indexes_of tables.now)) bytes.now (length bytes.now))
        × (octets.new.items ≡ octets.old.items))) }
{
    let mut at = 0;
    while let Some(skipped) = memchr(b'=', &bytes[at..]) {
        at += skipped;
        match word_at(tables, &bytes[at..], octets)? {
            None => at += 1,
            Some(word) => {
                let end = at + word.spelling.len();
                return Ok(Some(FirstWord {
                    before: &bytes[..at],
                    word,
                    after: &bytes[end..],
                }));
            }
        }
    }
    Ok(None)
}

// Whether the bytes are spaces and tabs alone.
pub(crate) fn is_gap(text: &[u8]) -> bool
    ensures { result ≡ list_all is_blank text.now }
{
    text.iter().all(|byte| is_blank(*byte))
}

// Text outside of words as a part.
fn text_part(text: &[u8], between_words: bool) -> Part<'_>
    ensures { given_part result ≡ seen_part (clear_or_gap_text between_words text.now) }
{
    if between_words && is_gap(text) {
        Part::Gap(text)
    } else {
        Part::Clear(text)
    }
}

// Appends text outside of words, unless it is empty.
fn push_text<'a>(
    parts: &mut Vec<Part<'a>>,
    text: &'a [u8],
    between_words: bool,
) -> Result<(), AllocError>
    ensures { OnOk result (map given_part parts.new.items
        ≡ map given_part parts.old.items ++ seen_text between_words text.now) }
{
    if text.is_empty() {
        return Ok(());
    }
    parts.push(text_part(text, between_words))?;
    Ok(())
}

/// The reading of a value as it stands: its encoded words, the text outside of
/// them, and the gaps of spaces and tabs between neighbouring words, in order.
/// Their spellings join to the value. A word that can't be read is text
/// (RFC 2047, section 6.2), and a fold isn't undone: [`unfold`](crate::unfold)
/// does that. `tables` decides which charsets are known. It fails only for
/// want of memory.
pub fn parts<'a>(
    alloc: Global,
    tables: &Tables,
    bytes: &'a [u8],
) -> Result<Vec<Part<'a>>, AllocError>
    ensures { IfOk result (λ parts. map given_part parts.items
        ≡ map seen_part (reading (indexes_of tables.now) bytes.now)) }
{
    let mut parts = Vec::new(alloc);
    let mut octets = Vec::new(alloc);
    let mut rest = bytes;
    let mut after_word = false;
    while let Some(first) = first_word(tables, rest, &mut octets)? {
        push_text(&mut parts, first.before, after_word)?;
        parts.push(Part::Word(first.word))?;
        octets.clear();
        rest = first.after;
        after_word = true;
    }
    push_text(&mut parts, rest, false)?;
    Ok(parts)
}
