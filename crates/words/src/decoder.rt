//! The text of a whole header (RFC 2047, sections 2, 4 and 6).
ghost use Rattle.std.specs.Prelude.{◌≡◌, ◌⊎◌, Ok, Err, IfOk, IfErr, IsSomeAnd, string_bytes};
ghost use Rattle.enc_front.specs.Indexes.{indexes_of};
ghost use Rattle.words.specs.Fault.{fault_of};
ghost use Rattle.words.specs.Header.{header};
ghost use Rattle.words.specs.declared.decoder.Error.TheVariants.{Memory};
ghost use Rattle.words.specs.declared.strategy.RecoverStrategy.TheVariants.{Abort};

use crate::evaluator::{self, EvaluatorError};
use crate::lexer::{self, LexerError};
use crate::parser::{self, ParserError};
use crate::strategy::RecoverStrategy;
use enc_front::Tables;
use std::alloc::Global;
use thiserror::Error;

/// Why a header has no text.
#[derive(Debug, PartialEq, Drop, Error)]
pub enum Error {
    /// Some words are too long.
    #[error(transparent)]
    Lexer(LexerError),
    /// An encoding field names no encoding.
    #[error(transparent)]
    Parser(ParserError),
    /// A part has no text.
    #[error(transparent)]
    Evaluator(EvaluatorError),
    /// Want of memory.
    #[error("no memory")]
    Memory,
}

impl From<LexerError> for Error {
    ghost use Rattle.std.specs.Prelude.{◌≡◌};
    ghost use Rattle.words.specs.Fault.{from_lexer};

    ghost from_gives = { λ inner e. e ≡ from_lexer inner };

    fn from(error: LexerError) -> Error {
        match error {
            LexerError::Memory => Error::Memory,
            error => Error::Lexer(error),
        }
    }
}

impl From<ParserError> for Error {
    ghost use Rattle.std.specs.Prelude.{◌≡◌};
    ghost use Rattle.words.specs.Fault.{from_parser};

    ghost from_gives = { λ inner e. e ≡ from_parser inner };

    fn from(error: ParserError) -> Error {
        match error {
            ParserError::Memory => Error::Memory,
            error => Error::Parser(error),
        }
    }
}

impl From<EvaluatorError> for Error {
    ghost use Rattle.std.specs.Prelude.{◌≡◌};
    ghost use Rattle.words.specs.Fault.{from_evaluator};

    ghost from_gives = { λ inner e. e ≡ from_evaluator inner };

    fn from(error: EvaluatorError) -> Error {
        match error {
            EvaluatorError::Memory => Error::Memory,
            error => Error::Evaluator(error),
        }
    }
}

/// How headers are decoded.
#[derive(Clone, Debug, PartialEq, Eq, Drop)]
pub struct Decoder {
    /// What to do with an encoded word of more than 75 bytes.
    pub too_long_encoded_word: RecoverStrategy,
}

impl Default for Decoder {
    ghost use Rattle.std.specs.Prelude.{◌≡◌};
    ghost use Rattle.words.specs.declared.strategy.RecoverStrategy.TheVariants.{Abort};

    ghost is_default = { λ decoder. decoder ≡ record { too_long_encoded_word = Abort } };

    /// A decoder that refuses headers with words that are too long.
    fn default() -> Decoder {
        Decoder {
            too_long_encoded_word: RecoverStrategy::Abort,
        }
    }
}

impl Decoder {
    /// A decoder that refuses headers with words that are too long.
    pub fn new() -> Decoder
        ensures { result ≡ record { too_long_encoded_word = Abort } }
    {
        Decoder::default()
    }

    /// The decoder with this strategy for words that are too long.
    pub fn too_long_encoded_word_strategy(self, strategy: RecoverStrategy) -> Decoder
        ensures { result ≡ record { too_long_encoded_word = strategy } }
    {
        Decoder {
            too_long_encoded_word: strategy,
        }
    }

    /// The text of a header: each encoded word as the text of its value in its
    /// charset, clear text as it stands, white space between neighbouring words
    /// as nothing (RFC 2047, sections 4 and 6.2). A charset that `tables` has no
    /// index for is unknown, and the bytes of an unknown charset are read as
    /// ASCII with U+FFFD for each byte above 7F.
    ///
    /// The first of these that stands is the error, in this order:
    /// `ParseEncodedWordTooLongError` where the strategy is to abort and some
    /// words have more than 75 bytes, with the texts of exactly those words;
    /// `ParseEncodingTooBigError` or `ParseEncodingError` of the first word,
    /// skipped ones aside, whose encoding field isn't one of b, B, q and Q;
    /// `DecodeUtf8Error` where the first part without a text is clear text or a
    /// skipped word that isn't UTF-8; `DecodeBase64Error` where it is a B word
    /// whose text isn't Base64. `Memory` comes for want of memory alone, and no
    /// other error comes.
    pub fn decode(self, alloc: Global, tables: &Tables, encoded_str: &[u8]) -> Result<String, Error>
        ensures text { IfOk result (λ text.
            header self.too_long_encoded_word (indexes_of tables.now) encoded_str.now
            ≡ Ok (string_bytes text)) }
        ensures fault { IfErr result (λ error. (error ≡ Memory) ⊎ IsSomeAnd (fault_of error)
            (λ fault. header self.too_long_encoded_word (indexes_of tables.now) encoded_str.now
            ≡ Err fault)) }
    {
        let tokens = lexer::slices(alloc, encoded_str, self.too_long_encoded_word)?;
        let parsed = parser::slices(alloc, tokens, tables)?;
        let text = evaluator::text_of(alloc, parsed, tables)?;
        Ok(text)
    }
}

/// The text of a header, as by `Decoder::new().decode`: a header with encoded
/// words of more than 75 bytes is refused.
pub fn decode(alloc: Global, tables: &Tables, encoded_str: &[u8]) -> Result<String, Error>
    ensures text { IfOk result (λ text.
        header Abort (indexes_of tables.now) encoded_str.now ≡ Ok (string_bytes text)) }
    ensures fault { IfErr result (λ error. (error ≡ Memory) ⊎ IsSomeAnd (fault_of error)
        (λ fault. header Abort (indexes_of tables.now) encoded_str.now ≡ Err fault)) }
{
    Decoder::new().decode(alloc, tables, encoded_str)
}

#[cfg(test)]
mod tests;
