//! Texts written as values of headers (RFC 2047, sections 2, 4.1 and 5).
ghost use Rattle.std.specs.Prelude.{◌≡◌, ◌<◌, [], ◌++◌, length, drop};
ghost use Rattle.std.specs.Prelude.{if◌then◌else◌, IfOk, OnOk, string_bytes};
ghost use Rattle.words.specs.Word.{spelling};
ghost use Rattle.word_writer.specs.Groups.{mark, begins_with_mark, with_mark_twice, group_len, front_group};
ghost use Rattle.word_writer.specs.Written.{base64, word_of, written, words_of};

use crate::groups::{self, MARK};
use crate::plain;
use base64::engine::general_purpose::STANDARD;
use std::alloc::{AllocError, Global};

// What stands before and behind the encoded text of a word.
const WORD_START: &str = "=?UTF-8?B?";

const WORD_END: &str = "?=";

// What stands between two words: the line ends, and the next one goes on with the header.
const LINE_BREAK: &str = "\r\n ";

// How many octets make one group of Base64, and how many letters it has.
const OCTETS: usize = 3;

const LETTERS: usize = 4;

// How many bytes the word of a group has.
fn word_len(group: &str) -> usize {
    let twice = if groups::begins_with_mark(group) {
        MARK.len()
    } else {
        0
    };
    let octets = group.len().saturating_add(twice);
    let letters = octets.div_ceil(OCTETS).saturating_mul(LETTERS);
    letters.saturating_add(WORD_START.len() + WORD_END.len())
}

// How many bytes the words of a text have, with the line breaks between them.
fn words_len(text: &str) -> usize {
    let mut rest = text;
    let mut len = 0usize;
    while !rest.is_empty() {
        let (group, more) = groups::split_group(rest);
        len = len
            .saturating_add(word_len(group))
            .saturating_add(LINE_BREAK.len());
        rest = more;
    }
    len.saturating_sub(LINE_BREAK.len())
}

// Appends Base64 of the mark that begins a group. Its three octets are a group of Base64 by
// themselves.
fn push_mark(written: &mut String, group: &str) -> Result<(), AllocError>
    ensures { OnOk result (string_bytes written.new ≡ string_bytes written.old
        ++ (if begins_with_mark group.now then base64 mark else [])) }
{
    if !groups::begins_with_mark(group) {
        return Ok(());
    }
    STANDARD.encode_string(MARK.as_bytes(), written)
}

// Appends Base64 of a group, in which a mark at the front stands twice.
fn push_base64(written: &mut String, group: &str) -> Result<(), AllocError>
    ensures { OnOk result (string_bytes written.new
        ≡ string_bytes written.old ++ base64 (with_mark_twice group.now)) }
{
    push_mark(written, group)?;
    STANDARD.encode_string(group.as_bytes(), written)?;
    Ok(())
}

// Appends the word of the group at the front of a text, and gives the text behind the group.
fn push_word<'t>(written: &mut String, text: &'t str) -> Result<&'t str, AllocError>
    ensures word { OnOk result (string_bytes written.new
        ≡ string_bytes written.old ++ spelling (word_of (front_group text.now))) }
    ensures rest { IfOk result (λ rest. rest.now ≡ drop (group_len text.now) text.now) }
    ensures shorter { 0 < length text.now
        → IfOk result (λ rest. length rest.now < length text.now) }
{
    let (group, rest) = groups::split_group(text);
    written.push_str(WORD_START)?;
    push_base64(written, group)?;
    written.push_str(WORD_END)?;
    Ok(rest)
}

// Appends the words of a text that isn't empty.
fn push_words(written: &mut String, text: &str) -> Result<(), AllocError>
    requires { 0 < length text.now }
    ensures { OnOk result (string_bytes written.new
        ≡ string_bytes written.old ++ words_of text.now) }
{
    let mut rest = push_word(written, text)?;
    while !rest.is_empty() {
        written.push_str(LINE_BREAK)?;
        rest = push_word(written, rest)?;
    }
    Ok(())
}

/// The text as the value of a mail header, as every reader of RFC 2047 reads it back.
///
/// A text of at most 76 bytes, all of them printable ASCII or spaces, and without `=?`, is written
/// as it is. Any other text is written in encoded words: each has the base64 of as many whole
/// characters as fit into 45 bytes of UTF-8, and so at most 72 bytes, and between two words there
/// is a line end and a space. Where the characters of a word begin with U+FEFF, which a reader
/// drops there as a byte order mark, it is written twice.
///
/// It fails for want of memory alone. The room is taken once, and is exact.
pub fn write_words(alloc: Global, text: &str) -> Result<String, AllocError>
    ensures { IfOk result (λ value. string_bytes value ≡ written text.now) }
{
    if plain::is_plain(text) {
        let value = String::from_str(alloc, text)?;
        return Ok(value);
    }
    let mut value = String::with_capacity(alloc, words_len(text))?;
    push_words(&mut value, text)?;
    Ok(value)
}

#[cfg(test)]
mod tests;
