//! Encoded words with their charsets and encodings found (RFC 2047, sections 3 and 4).
ghost use Rattle.std.specs.Prelude.{◌≡◌, ◌⊎◌, Ok, Err, map, All, IsTrue, IfOk, IfErr, IfSome};
ghost use Rattle.std.specs.Option.{option_map};
ghost use Rattle.enc_front.specs.Charset.{encoding_of as charset_encoding, charset};
ghost use Rattle.enc_front.specs.Indexes.{indexes_of, known};
ghost use Rattle.words.specs.Tokens.{word_of, part_of};
ghost use Rattle.words.specs.Encoding.{encoding_of};
ghost use Rattle.words.specs.Lexer.{token_part};
ghost use Rattle.words.specs.Parsed.{parsed_of, sliced_of, parsed_word, parsed_part};
ghost use Rattle.words.specs.Parsed.{parsed_parts, IsCharset, IsKnown, IsKnownSlice};

use crate::lexer::encoded_word::EncodedWord;
use crate::lexer::{Token, TokenSlice, Tokens};
use enc_front::{Charset, Tables};
use std::alloc::{AllocError, AllocFailed, Global};
use thiserror::Error;

/// Why tokens can't be parsed: an encoding field names no encoding.
#[derive(Clone, Debug, PartialEq, Drop, Error)]
pub enum ParserError {
    /// The encoding field has several bytes.
    #[error("cannot parse encoding: encoding is bigger than a char")]
    ParseEncodingTooBigError,
    /// The encoding field is empty, as in no word of a header.
    #[error("cannot parse encoding: encoding is empty")]
    ParseEncodingEmptyError,
    /// The encoding field is this one byte, as the character of its number, and
    /// none of b, B, q and Q.
    #[error("cannot parse encoding {0}: B or Q is expected")]
    ParseEncodingError(char),
    /// Want of memory.
    #[error("no memory")]
    Memory,
}

impl From<AllocError> for ParserError {
    ghost use Rattle.std.specs.Prelude.{◌≡◌};
    ghost use Rattle.words.specs.declared.parser.ParserError.TheVariants.{Memory};

    ghost from_gives = { λ _ e. e ≡ Memory };

    fn from(_error: AllocError) -> ParserError {
        ParserError::Memory
    }
}

impl<T: Drop> From<AllocFailed<T>> for ParserError {
    ghost use Rattle.std.specs.Prelude.{◌≡◌};
    ghost use Rattle.words.specs.declared.parser.ParserError.TheVariants.{Memory};

    ghost from_gives = { λ _ e. e ≡ Memory };

    fn from(_error: AllocFailed<T>) -> ParserError {
        ParserError::Memory
    }
}

/// How a word's text is encoded (RFC 2047, section 4).
#[derive(Clone, Copy, Debug, PartialEq, Eq, Hash)]
pub enum Encoding {
    /// As Base64.
    B,
    /// As quoted-printable, with underscores for spaces.
    Q,
}

impl Encoding {
    /// The name of `B` in lower case.
    pub const B_CHAR: char = 'b';
    /// The name of `Q` in lower case.
    pub const Q_CHAR: char = 'q';
    /// How many bytes a name has.
    pub const MAX_LENGTH: usize = 1;

    // The encoding that a field names, by one letter in either case.
    fn named(field: &[u8]) -> Result<Encoding, ParserError>
        ensures { result ≡ encoding_of field.now }
    {
        if field.len() > Encoding::MAX_LENGTH {
            return Err(ParserError::ParseEncodingTooBigError);
        }
        let Some(byte) = field.first() else {
            return Err(ParserError::ParseEncodingEmptyError);
        };
        let name = char::from(*byte);
        match name.to_ascii_lowercase() {
            Encoding::B_CHAR => Ok(Encoding::B),
            Encoding::Q_CHAR => Ok(Encoding::Q),
            _ => Err(ParserError::ParseEncodingError(name)),
        }
    }
}

impl TryFrom<Vec<u8>> for Encoding {
    type Error = ParserError;

    ghost try_from_gives = { λ token result. result ≡ encoding_of token.items };

    /// The encoding that a field names, by one letter in either case.
    fn try_from(token: Vec<u8>) -> Result<Encoding, ParserError> {
        Encoding::named(&token)
    }
}

/// Bytes that are shown as they stand.
pub type ClearText = Vec<u8>;

/// Clear text, or a word whose charset and encoding are found.
#[derive(Debug, PartialEq, Eq, Hash, Drop)]
pub enum ParsedEncodedWord {
    /// Text outside of words, or a word that is skipped.
    ClearText(ClearText),
    /// A word to decode.
    EncodedWord {
        /// The charset, or none where it is unknown.
        charset: Option<Charset>,
        /// How the text is encoded.
        encoding: Encoding,
        /// The text as it is spelled.
        encoded_text: Vec<u8>,
    },
}

/// Parsed words and clear text, in order.
pub type ParsedEncodedWords = Vec<ParsedEncodedWord>;

// The same where the bytes stand in the header.
#[derive(Drop)]
pub(crate) enum ParsedSlice<'a> {
    // Text outside of words, or a word that is skipped.
    ClearText(&'a [u8]),
    // A word to decode.
    EncodedWord {
        // The charset, or none where it is unknown.
        charset: Option<Charset>,
        // How the text is encoded.
        encoding: Encoding,
        // The text as it is spelled.
        encoded_text: &'a [u8],
    },
}

impl ParsedEncodedWord {
    /// The word with its charset and its encoding found. A charset whose index
    /// `tables` lacks is unknown. The error is that of the encoding field.
    pub fn convert_encoded_word(
        encoded_word: EncodedWord,
        tables: &Tables,
    ) -> Result<ParsedEncodedWord, ParserError>
        ensures parsed { IfOk result (λ parsed.
            parsed_word (indexes_of tables.now) (word_of encoded_word) ≡ Ok (parsed_of parsed)) }
        ensures fault { IfErr result (λ error.
            encoding_of encoded_word.encoding.items ≡ Err error) }
        ensures known { IfOk result (IsKnown (indexes_of tables.now)) }
    {
        let EncodedWord {
            charset,
            encoding,
            encoded_text,
        } = encoded_word;
        let encoding = Encoding::try_from(encoding)?;
        let charset = Charset::for_label(&charset, tables);
        Ok(ParsedEncodedWord::EncodedWord {
            charset,
            encoding,
            encoded_text,
        })
    }
}

impl ParsedEncodedWord {
    // The same, with its bytes where they stand.
    pub(crate) fn as_slice(&self) -> ParsedSlice<'_>
        ensures { sliced_of result ≡ parsed_of self.now }
    {
        match self {
            ParsedEncodedWord::ClearText(clear_text) => ParsedSlice::ClearText(clear_text),
            ParsedEncodedWord::EncodedWord {
                charset,
                encoding,
                encoded_text,
            } => ParsedSlice::EncodedWord {
                charset: *charset,
                encoding: *encoding,
                encoded_text,
            },
        }
    }
}

// A token with its charset and its encoding found, where it is a word.
fn convert_token(token: Token, tables: &Tables) -> Result<ParsedEncodedWord, ParserError>
    ensures parsed { IfOk result (λ parsed.
        parsed_part (indexes_of tables.now) (part_of token) ≡ Ok (parsed_of parsed)) }
    ensures fault { IfErr result (λ error.
        parsed_part (indexes_of tables.now) (part_of token) ≡ Err error) }
    ensures known { IfOk result (IsKnown (indexes_of tables.now)) }
{
    match token {
        Token::ClearText(clear_text) => Ok(ParsedEncodedWord::ClearText(clear_text)),
        Token::EncodedWord(encoded_word) => {
            ParsedEncodedWord::convert_encoded_word(encoded_word, tables)
        }
    }
}

/// The tokens with the charset and the encoding of each word found, in order
/// (RFC 2047, sections 3 and 4). The error is that of the first encoding field
/// that has one, or `Memory` for want of memory.
pub fn run(
    alloc: Global,
    tokens: Tokens,
    tables: &Tables,
) -> Result<ParsedEncodedWords, ParserError>
    ensures parsed { IfOk result (λ parsed.
        parsed_parts (indexes_of tables.now) (map part_of tokens.items)
        ≡ Ok (map parsed_of parsed.items)) }
    ensures fault { IfErr result (λ error. (error ≡ ParserError.Memory) ⊎
        (parsed_parts (indexes_of tables.now) (map part_of tokens.items) ≡ Err error)) }
    ensures known { IfOk result (λ parsed. All (IsKnown (indexes_of tables.now)) parsed.items) }
{
    let mut parsed = Vec::with_capacity(alloc, tokens.len())?;
    for token in tokens {
        let word = convert_token(token, tables)?;
        parsed.push(word)?;
    }
    Ok(parsed)
}

// The charset that was looked for last, and its label: most headers name one charset alone.
#[derive(Clone, Copy)]
struct LastCharset<'a> {
    label: &'a [u8],
    charset: Option<Charset>,
}

impl<'a> LastCharset<'a> {
    // Looks for the charset with this label.
    fn new(label: &'a [u8], tables: &Tables) -> LastCharset<'a>
        ensures is { IsCharset (indexes_of tables.now) result }
        ensures label { result.label.now ≡ label.now }
    {
        LastCharset {
            label,
            charset: Charset::for_label(label, tables),
        }
    }

    // The charset with this label, where `tables` has what its encoding needs.
    fn find(&mut self, label: &'a [u8], tables: &Tables) -> Option<Charset>
        requires { IsCharset (indexes_of tables.now) self.old }
        ensures encoding { option_map charset_encoding result
            ≡ charset label.now (indexes_of tables.now) }
        ensures known { IfSome result (λ found.
            IsTrue (known (charset_encoding found) (indexes_of tables.now))) }
        ensures is { IsCharset (indexes_of tables.now) self.new }
    {
        if self.label == label {
            return self.charset;
        }
        *self = LastCharset::new(label, tables);
        self.charset
    }
}

// A token with its charset and its encoding found, where it stands in the header.
fn convert_slice<'a>(
    token: TokenSlice<'a>,
    tables: &Tables,
    last: &mut LastCharset<'a>,
) -> Result<ParsedSlice<'a>, ParserError>
    requires { IsCharset (indexes_of tables.now) last.old }
    ensures is { IsCharset (indexes_of tables.now) last.new }
    ensures parsed { IfOk result (λ parsed.
        parsed_part (indexes_of tables.now) (token_part token.entry) ≡ Ok (sliced_of parsed)) }
    ensures fault { IfErr result (λ error.
        parsed_part (indexes_of tables.now) (token_part token.entry) ≡ Err error) }
    ensures known { IfOk result (IsKnownSlice (indexes_of tables.now)) }
{
    match token {
        TokenSlice::ClearText(clear_text) => Ok(ParsedSlice::ClearText(clear_text)),
        TokenSlice::EncodedWord(word) => {
            let encoding = Encoding::named(word.encoding)?;
            let charset = last.find(word.charset, tables);
            Ok(ParsedSlice::EncodedWord {
                charset,
                encoding,
                encoded_text: word.encoded_text,
            })
        }
    }
}

// As `run`, over tokens where they stand in the header.
pub(crate) fn slices<'a>(
    alloc: Global,
    tokens: Vec<TokenSlice<'a>>,
    tables: &Tables,
) -> Result<Vec<ParsedSlice<'a>>, ParserError>
    ensures parsed { IfOk result (λ parsed. parsed_parts (indexes_of tables.now)
        (map token_part tokens.entry.items) ≡ Ok (map sliced_of parsed.items)) }
    ensures fault { IfErr result (λ error. (error ≡ ParserError.Memory) ⊎
        (parsed_parts (indexes_of tables.now) (map token_part tokens.entry.items) ≡ Err error)) }
    ensures known { IfOk result (λ parsed.
        All (IsKnownSlice (indexes_of tables.now)) parsed.items) }
{
    let mut parsed = Vec::with_capacity(alloc, tokens.len())?;
    let mut last = LastCharset::new(b"", tables);
    for token in tokens {
        let word = convert_slice(token, tables, &mut last)?;
        parsed.push(word)?;
    }
    Ok(parsed)
}

#[cfg(test)]
mod tests;
