//! Headers as encoded words and clear text (RFC 2047, sections 2 and 6.2).
ghost use Rattle.std.specs.Prelude.{◌≡◌, ℕ, not, ◌==◌, List, [], ◌++◌, length, map, Some};
ghost use Rattle.std.specs.Prelude.{IfSome, IfNone, IfOk, IfErr, OnOk, string_bytes};
ghost use Rattle.std.specs.List.{list_any, list_all, position};
ghost use Rattle.std.specs.Option.{option_map};
ghost use Rattle.words.specs.Word.{especials, is_field_byte, is_text_byte, IsField, IsText};
ghost use Rattle.words.specs.Word.{spelling, word_at};
ghost use Rattle.words.specs.Reading.{Encoded, part_spelling, is_gap_byte, reading_of};
ghost use Rattle.words.specs.Tokens.{long_words, too_long_words, display_text, part_tokens};
ghost use Rattle.words.specs.Tokens.{tokens_of, word_of, part_of, is_too_long, TokenHasLen};
ghost use Rattle.words.specs.Tokens.{comma_joined, texts_of, IsLexerFault};
ghost use Rattle.words.specs.Lexer.{sliced_word, token_part, SplitsAtMark, NoWordBefore};
ghost use Rattle.words.specs.Lexer.{IsFirstWord, text_tokens};

pub mod encoded_word;

use self::encoded_word::EncodedWord;
use crate::strategy::RecoverStrategy;
use memchr::{memchr, memchr2};
use std::alloc::{AllocError, Global};
use std::fmt;
use thiserror::Error;

/// The byte before each field of an encoded word.
pub const QUESTION_MARK: u8 = b'?';

const SPACE: u8 = b' ';

/// An encoded word where it stands in a header.
#[derive(Clone, Copy, Debug, PartialEq, Eq)]
pub struct WordSlices<'a> {
    /// The whole word, from `=?` to `?=`.
    pub spelling: &'a [u8],
    /// The charset field.
    pub charset: &'a [u8],
    /// The encoding field.
    pub encoding: &'a [u8],
    /// The encoded text.
    pub encoded_text: &'a [u8],
}

fn is_especial(byte: u8) -> bool
    ensures { result ≡ list_any (λ e. e == byte) especials }
{
    b"()<>@,;:/[]?.=".contains(&byte)
}

// Whether the byte may stand in a charset or an encoding field.
fn is_token(byte: u8) -> bool
    ensures { result ≡ is_field_byte byte }
{
    byte > SPACE && byte != 0x7F && !is_especial(byte)
}

// Where the first byte stands that may not stand in a field.
fn token_end(bytes: &[u8]) -> Option<usize>
    ensures { result ≡ position (λ b. not (is_field_byte b)) bytes.now }
{
    bytes.iter().position(|byte| !is_token(*byte))
}

// Where the first byte stands that may not stand in an encoded text.
fn encoded_text_end(bytes: &[u8]) -> Option<usize>
    ensures { result ≡ position (λ b. not (is_text_byte b)) bytes.now }
{
    memchr2(QUESTION_MARK, SPACE, bytes)
}

// The field that stands before the first question mark, and what follows it.
fn split_field(bytes: &[u8]) -> Option<(&[u8], &[u8])>
    ensures found { IfSome result (λ r. IsField r.0.now × SplitsAtMark bytes.now r.0.now r.1.now) }
    ensures none { IfNone result ((f rest : List ℕ) → IsField f → ¬ SplitsAtMark bytes.now f rest) }
{
    let end = token_end(bytes)?;
    if end == 0 || bytes[end] != QUESTION_MARK {
        return None;
    }
    Some((&bytes[..end], &bytes[end + 1..]))
}

// The encoded text that stands before the first question mark, and what follows it.
fn split_encoded_text(bytes: &[u8]) -> Option<(&[u8], &[u8])>
    ensures found { IfSome result (λ r. IsText r.0.now × SplitsAtMark bytes.now r.0.now r.1.now) }
    ensures none { IfNone result ((t rest : List ℕ) → IsText t → ¬ SplitsAtMark bytes.now t rest) }
{
    let end = encoded_text_end(bytes)?;
    if bytes[end] != QUESTION_MARK {
        return None;
    }
    Some((&bytes[..end], &bytes[end + 1..]))
}

/// The encoded word that begins `bytes`, if one does. It looks no further than
/// the first byte that can't stand in the word.
pub fn word_at(bytes: &[u8]) -> Option<WordSlices<'_>>
    ensures value { option_map sliced_word result ≡ word_at bytes.now }
    ensures spelled { IfSome result (λ w. w.spelling.now ≡ spelling (sliced_word w)) }
{
    let inside = bytes.strip_prefix(b"=?")?;
    let (charset, rest) = split_field(inside)?;
    let (encoding, rest) = split_field(rest)?;
    let (encoded_text, rest) = split_encoded_text(rest)?;
    let after = rest.strip_prefix(b"=")?;
    let spelling = &bytes[..bytes.len() - after.len()];
    Some(WordSlices {
        spelling,
        charset,
        encoding,
        encoded_text,
    })
}

/// A piece of a header.
#[derive(Debug, PartialEq, Eq, Hash, Drop)]
pub enum Token {
    /// Bytes that are shown as they stand: text outside of words, or a word
    /// that is skipped.
    ClearText(Vec<u8>),
    /// An encoded word.
    EncodedWord(EncodedWord),
}

/// The pieces of a header, in order.
pub type Tokens = Vec<Token>;

// A piece of a header where it stands in the header.
#[derive(Clone, Copy)]
pub(crate) enum TokenSlice<'a> {
    // Bytes that are shown as they stand.
    ClearText(&'a [u8]),
    // An encoded word.
    EncodedWord(WordSlices<'a>),
}

impl Token {
    /// How many bytes the token has: of a word, those of its spelling with its
    /// delimiters.
    pub fn len(&self) -> usize
        requires { TokenHasLen self.now }
        ensures { result ≡ length (part_spelling (part_of self.now)) }
    {
        match self {
            Token::ClearText(clear_text) => clear_text.len(),
            Token::EncodedWord(encoded_word) => encoded_word.len(),
        }
    }
}

/// The texts of the words that are too long, in order.
#[derive(Debug, PartialEq, Eq, Hash, Drop)]
pub struct TooLongEncodedWords(pub Vec<String>);

impl TooLongEncodedWords {
    /// These texts.
    pub fn new(encoded_words: Vec<String>) -> TooLongEncodedWords
        ensures { result ≡ record { 0 = encoded_words } }
    {
        TooLongEncodedWords(encoded_words)
    }
}

impl fmt::Display for TooLongEncodedWords {
    ghost output = { λ words. Some (comma_joined (texts_of words)) };

    fn fmt<W: fmt::Write>(&self, f: &mut fmt::Formatter<W>) -> fmt::Result {
        match self.0.as_slice() {
            [] => Ok(()),
            [first, rest @ ..] => {
                f.write_str(first)?;
                for word in rest {
                    write!(f, ", {word}")?;
                }
                Ok(())
            }
        }
    }
}

/// Why a header has no tokens.
#[derive(Debug, PartialEq, Drop, Error)]
pub enum LexerError {
    /// Never answered: every list of bytes is a header.
    #[error("cannot parse bytes into tokens: {0}")]
    ParseBytesError(String),
    /// Some words have more than 75 bytes, and the strategy is to abort. It has
    /// the texts of all of them, in order.
    #[error("Cannot parse the following encoded words, because they are too long: {0}")]
    ParseEncodedWordTooLongError(TooLongEncodedWords),
    /// Want of memory.
    #[error("no memory")]
    Memory,
}

impl From<AllocError> for LexerError {
    ghost use Rattle.std.specs.Prelude.{◌≡◌};
    ghost use Rattle.words.specs.declared.lexer.LexerError.TheVariants.{Memory};

    ghost from_gives = { λ _ e. e ≡ Memory };

    fn from(_error: AllocError) -> LexerError {
        LexerError::Memory
    }
}

// The first word of some bytes, and what stands before and after it.
#[derive(Clone, Copy)]
struct FirstWord<'a> {
    before: &'a [u8],
    word: WordSlices<'a>,
    after: &'a [u8],
}

// The first word of `bytes`. A word begins with `=` alone.
//
// An attempt at a word stops at the first byte that can't stand in it. Fields
// have no `=` and texts have no question mark, so the next `=?` stands at most
// one byte before that one, and all attempts together are linear in the bytes.
fn first_word(bytes: &[u8]) -> Option<FirstWord<'_>>
    ensures found { IfSome result (λ f.
        IsFirstWord bytes.now f.before.now (sliced_word f.word) f.after.now) }
    ensures spelled { IfSome result (λ f. f.word.spelling.now ≡ spelling (sliced_word f.word)) }
    ensures none { IfNone result (NoWordBefore bytes.now (length bytes.now)) }
{
    let mut at = 0;
    while let Some(skipped) = memchr(b'=', &bytes[at..]) {
        at += skipped;
        match word_at(&bytes[at..]) {
            None => at += 1,
            Some(word) => {
                let end = at + word.spelling.len();
                return Some(FirstWord {
                    before: &bytes[..at],
                    word,
                    after: &bytes[end..],
                });
            }
        }
    }
    None
}

// Whether the bytes are white space alone, as between neighbouring words.
fn is_gap(text: &[u8]) -> bool
    ensures { result ≡ list_all is_gap_byte text.now }
{
    text.iter().all(|byte| matches!(*byte, b' ' | b'\t' | b'\n' | 0x0C | b'\r'))
}

// Appends text outside of words, unless it is empty or a gap: white space alone between two words.
fn push_clear_text<'a>(
    tokens: &mut Vec<TokenSlice<'a>>,
    text: &'a [u8],
    between_words: bool,
) -> Result<(), AllocError>
    ensures { OnOk result (map token_part tokens.new.items
        ≡ map token_part tokens.old.items ++ text_tokens between_words text.now) }
{
    if text.is_empty() || (between_words && is_gap(text)) {
        return Ok(());
    }
    tokens.push(TokenSlice::ClearText(text))?;
    Ok(())
}

// Whether a word's spelling has more bytes than a word may have.
fn is_too_long(word: &WordSlices) -> bool
    ensures { result ≡ is_too_long (sliced_word word.now) }
{
    let fields = word
        .charset
        .len()
        .saturating_add(word.encoding.len())
        .saturating_add(word.encoded_text.len());
    fields.saturating_add(EncodedWord::DELIMITERS_LENGTH) > EncodedWord::MAX_LENGTH
}

// Appends a word, as clear text where it is skipped.
fn push_word<'a>(
    tokens: &mut Vec<TokenSlice<'a>>,
    word: WordSlices<'a>,
    strategy: RecoverStrategy,
) -> Result<(), AllocError>
    requires { word.spelling.now ≡ spelling (sliced_word word) }
    ensures { OnOk result (map token_part tokens.new.items
        ≡ map token_part tokens.old.items
        ++ part_tokens strategy (Encoded (sliced_word word.entry))) }
{
    let too_long = word.spelling.len() > EncodedWord::MAX_LENGTH;
    let token = if too_long && strategy == RecoverStrategy::Skip {
        TokenSlice::ClearText(word.spelling)
    } else {
        TokenSlice::EncodedWord(word)
    };
    tokens.push(token)?;
    Ok(())
}

// The tokens of a header. Too long words stay, but those that are skipped are clear text.
fn tokenize(
    alloc: Global,
    encoded_bytes: &[u8],
    strategy: RecoverStrategy,
) -> Result<Vec<TokenSlice<'_>>, AllocError>
    ensures { IfOk result (λ tokens.
        map token_part tokens.items ≡ tokens_of strategy (reading_of encoded_bytes.now)) }
{
    let mut tokens = Vec::new(alloc);
    let mut rest = encoded_bytes;
    let mut after_word = false;
    while let Some(first) = first_word(rest) {
        push_clear_text(&mut tokens, first.before, after_word)?;
        push_word(&mut tokens, first.word, strategy)?;
        rest = first.after;
        after_word = true;
    }
    push_clear_text(&mut tokens, rest, false)?;
    Ok(tokens)
}

// A word that owns its fields.
fn to_encoded_word(alloc: Global, word: &WordSlices) -> Result<EncodedWord, AllocError>
    ensures { IfOk result (λ owned. word_of owned ≡ sliced_word word.now) }
{
    let charset = word.charset.to_vec(alloc)?;
    let encoding = word.encoding.to_vec(alloc)?;
    let encoded_text = word.encoded_text.to_vec(alloc)?;
    Ok(EncodedWord::new(charset, encoding, encoded_text))
}

// The text of a word, as it is printed.
fn printed(alloc: Global, word: &WordSlices) -> Result<String, AllocError>
    ensures { IfOk result (λ text. string_bytes text ≡ display_text (sliced_word word.now)) }
{
    let owned = to_encoded_word(alloc, word)?;
    owned.to_string(alloc)
}

// The texts of the tokens' words that are too long, in order.
fn too_long_texts(alloc: Global, tokens: &[TokenSlice<'_>]) -> Result<Vec<String>, AllocError>
    ensures { IfOk result (λ texts.
        map string_bytes texts.items ≡ map display_text (long_words (map token_part tokens.now))) }
{
    let mut texts = Vec::new(alloc);
    for token in tokens {
        if let TokenSlice::EncodedWord(word) = token
            && is_too_long(word)
        {
            texts.push(printed(alloc, word)?)?;
        }
    }
    Ok(texts)
}

// Refuses tokens with words that are too long, where the strategy is to abort.
fn validate_tokens(
    alloc: Global,
    tokens: &[TokenSlice<'_>],
    strategy: RecoverStrategy,
) -> Result<(), LexerError>
    ensures none_too_long { OnOk result (too_long_words strategy (map token_part tokens.now) ≡ []) }
    ensures fault { IfErr result
        (IsLexerFault (too_long_words strategy (map token_part tokens.now))) }
{
    if strategy != RecoverStrategy::Abort {
        return Ok(());
    }
    let texts = too_long_texts(alloc, tokens)?;
    if texts.is_empty() {
        return Ok(());
    }
    let too_long = TooLongEncodedWords::new(texts);
    Err(LexerError::ParseEncodedWordTooLongError(too_long))
}

// The tokens that `run` gives, where they stand in the header.
pub(crate) fn slices(
    alloc: Global,
    encoded_bytes: &[u8],
    strategy: RecoverStrategy,
) -> Result<Vec<TokenSlice<'_>>, LexerError>
    ensures tokens { IfOk result (λ tokens.
        map token_part tokens.items ≡ tokens_of strategy (reading_of encoded_bytes.now)) }
    ensures none_too_long { OnOk result
        (too_long_words strategy (reading_of encoded_bytes.now) ≡ []) }
    ensures fault { IfErr result
        (IsLexerFault (too_long_words strategy (reading_of encoded_bytes.now))) }
{
    let tokens = tokenize(alloc, encoded_bytes, strategy)?;
    match validate_tokens(alloc, &tokens, strategy) {
        Ok(()) => Ok(tokens),
        Err(error) => Err(error),
    }
}

// A token that owns its bytes.
fn to_token(alloc: Global, token: &TokenSlice<'_>) -> Result<Token, AllocError>
    ensures { IfOk result (λ owned. part_of owned ≡ token_part token.now) }
{
    match token {
        TokenSlice::ClearText(text) => Ok(Token::ClearText(text.to_vec(alloc)?)),
        TokenSlice::EncodedWord(word) => Ok(Token::EncodedWord(to_encoded_word(alloc, word)?)),
    }
}

/// The tokens of a header: its encoded words and the clear text outside of
/// them, in order, without the white space between neighbouring words
/// (RFC 2047, sections 2 and 6.2). A word with more than 75 bytes is a word
/// like any other where the strategy is to decode it, clear text of its own
/// where it is to be skipped, and a reason for
/// `ParseEncodedWordTooLongError` where the strategy is to abort. The error has
/// the texts of all such words, in order. `ParseBytesError` is never answered.
pub fn run(
    alloc: Global,
    encoded_bytes: &[u8],
    strategy: RecoverStrategy,
) -> Result<Tokens, LexerError>
    ensures tokens { IfOk result (λ tokens.
        map part_of tokens.items ≡ tokens_of strategy (reading_of encoded_bytes.now)) }
    ensures none_too_long { OnOk result
        (too_long_words strategy (reading_of encoded_bytes.now) ≡ []) }
    ensures fault { IfErr result
        (IsLexerFault (too_long_words strategy (reading_of encoded_bytes.now))) }
{
    let slices = slices(alloc, encoded_bytes, strategy)?;
    let tokens = to_tokens(alloc, &slices)?;
    Ok(tokens)
}

// Tokens that own their bytes.
fn to_tokens(alloc: Global, slices: &[TokenSlice<'_>]) -> Result<Tokens, AllocError>
    ensures { IfOk result (λ tokens. map part_of tokens.items ≡ map token_part slices.now) }
{
    let mut tokens = Vec::with_capacity(alloc, slices.len())?;
    for slice in slices {
        tokens.push(to_token(alloc, slice)?)?;
    }
    Ok(tokens)
}

#[cfg(test)]
mod tests;
