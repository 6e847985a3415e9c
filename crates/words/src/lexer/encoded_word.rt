//! Encoded words that own their fields (RFC 2047, section 2).
ghost use Rattle.std.specs.Prelude.{◌≡◌, [], ◌++◌, ◌==◌, length, min, if◌then◌else◌, IfOk, Some};
ghost use Rattle.std.specs.Str.Lossy.{utf8_lossy, replacement_bytes};
ghost use Rattle.words.specs.Word.{spelling};
ghost use Rattle.words.specs.Tokens.{display_text, word_of, HasLen};

use super::QUESTION_MARK;
use std::alloc::{AllocError, Global};
use std::fmt;

/// An encoded word. Its fields are bytes as they are spelled, between the
/// delimiters.
#[derive(Debug, PartialEq, Eq, Hash, Drop)]
pub struct EncodedWord {
    /// The charset field.
    pub charset: Vec<u8>,
    /// The encoding field.
    pub encoding: Vec<u8>,
    /// The encoded text.
    pub encoded_text: Vec<u8>,
}

impl EncodedWord {
    /// What stands before the charset field.
    pub const PREFIX: &'static str = "=?";
    /// What stands after the encoded text.
    pub const SUFFIX: &'static str = "?=";
    /// The most bytes that a word's spelling may have (RFC 2047, section 2).
    pub const MAX_LENGTH: usize = 75;

    // How many bytes a spelling has besides the fields: two delimiters of two bytes, and two
    // question marks.
    pub(crate) const DELIMITERS_LENGTH: usize = 6;

    /// The word with these fields.
    pub fn new(charset: Vec<u8>, encoding: Vec<u8>, encoded_text: Vec<u8>) -> EncodedWord
        ensures { result
            ≡ record { charset = charset; encoding = encoding; encoded_text = encoded_text } }
    {
        EncodedWord {
            charset,
            encoding,
            encoded_text,
        }
    }

    /// The word with these fields: the charset, the encoding and the text.
    pub fn from_parser(parts: ((Vec<u8>, Vec<u8>), Vec<u8>)) -> EncodedWord
        ensures { result
            ≡ record { charset = parts.0.0; encoding = parts.0.1; encoded_text = parts.1 } }
    {
        let ((charset, encoding), encoded_text) = parts;
        EncodedWord::new(charset, encoding, encoded_text)
    }

    /// How many bytes the word's spelling has, with its delimiters.
    pub fn len(&self) -> usize
        requires { HasLen self.now }
        ensures { result ≡ length (spelling (word_of self.now)) }
    {
        self.charset.len()
            + self.encoding.len()
            + self.encoded_text.len()
            + EncodedWord::DELIMITERS_LENGTH
    }

    // How many bytes the spelling has, or the most that a `usize` holds.
    fn capacity(&self) -> usize
        ensures { result ≡ min (length (spelling (word_of self.now))) usize.MAX }
    {
        self.charset
            .len()
            .saturating_add(self.encoding.len())
            .saturating_add(self.encoded_text.len())
            .saturating_add(EncodedWord::DELIMITERS_LENGTH)
    }

    /// The word's bytes: its spelling, or without delimiters its three fields
    /// with nothing between them.
    pub fn get_bytes(&self, alloc: Global, with_delimiters: bool) -> Result<Vec<u8>, AllocError>
        ensures { IfOk result (λ bytes. bytes.items ≡
            (let w = word_of self.now in
            if with_delimiters then spelling w else w.charset ++ w.encoding ++ w.text)) }
    {
        let mut bytes = Vec::with_capacity(alloc, self.capacity())?;
        if with_delimiters {
            bytes.extend_from_slice(EncodedWord::PREFIX.as_bytes())?;
            bytes.extend_from_slice(&self.charset)?;
            bytes.push(QUESTION_MARK)?;
            bytes.extend_from_slice(&self.encoding)?;
            bytes.push(QUESTION_MARK)?;
            bytes.extend_from_slice(&self.encoded_text)?;
            bytes.extend_from_slice(EncodedWord::SUFFIX.as_bytes())?;
        } else {
            bytes.extend_from_slice(&self.charset)?;
            bytes.extend_from_slice(&self.encoding)?;
            bytes.extend_from_slice(&self.encoded_text)?;
        }
        Ok(bytes)
    }
}

impl fmt::Display for EncodedWord {
    ghost output = { λ word. Some (display_text (word_of word)) };

    fn fmt<W: fmt::Write>(&self, f: &mut fmt::Formatter<W>) -> fmt::Result {
        let charset = Lossy(&self.charset);
        let encoding = Lossy(&self.encoding);
        let encoded_text = Lossy(&self.encoded_text);
        write!(f, "=?{charset}?{encoding}?{encoded_text}?=")
    }
}

// What stands for malformed bytes.
fn replacement(malformed: &[u8]) -> &'static str
    ensures { result.now ≡ (if length malformed.now == 0 then [] else replacement_bytes) }
{
    if malformed.is_empty() { "" } else { "\u{FFFD}" }
}

// Bytes that are shown as UTF-8, with U+FFFD for each malformed sequence.
#[derive(Clone, Copy)]
struct Lossy<'a>(&'a [u8]);

impl fmt::Display for Lossy<'_> {
    ghost output = { λ bytes. Some (utf8_lossy bytes.0.now) };

    fn fmt<W: fmt::Write>(&self, f: &mut fmt::Formatter<W>) -> fmt::Result {
        for chunk in self.0.utf8_chunks() {
            f.write_str(chunk.valid())?;
            f.write_str(replacement(chunk.invalid()))?;
        }
        Ok(())
    }
}
