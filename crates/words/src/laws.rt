//! What holds of encoded words and of readings at every input. These
//! functions do nothing: their contracts are the laws.
ghost use Rattle.enc_handles.specs.TypeLaws.{IsEquality, ClonesSame, HashesEqual};
ghost use Rattle.std.specs.Prelude.{◌≡◌, ◌↔◌, true};
ghost use Rattle.words.specs.Laws.{OneWord, WordFound, ReadingExists, OneReading, SpellingsJoin};
ghost use Rattle.words.specs.Lexer.{sliced_word};
ghost use Rattle.words.specs.Parsed.{parsed_of};
ghost use Rattle.words.specs.PlainErrors.{plain_lexer_error, plain_error};
ghost use Rattle.words.specs.Tokens.{word_of, part_of, texts_of};
ghost use Rattle.words.specs.declared.decoder.Error.{Error};
ghost use Rattle.words.specs.declared.lexer.LexerError.{LexerError};
ghost use Rattle.words.specs.declared.lexer.Token.{Token};
ghost use Rattle.words.specs.declared.lexer.TooLongEncodedWords.{TooLongEncodedWords};
ghost use Rattle.words.specs.declared.lexer.WordSlices.{WordSlices};
ghost use Rattle.words.specs.declared.lexer.encoded_word.EncodedWord.{EncodedWord};
ghost use Rattle.words.specs.declared.parser.ParsedEncodedWord.{ParsedEncodedWord};

use crate::decoder::{Decoder, Error};
use crate::evaluator::EvaluatorError;
use crate::lexer::encoded_word::EncodedWord;
use crate::lexer::{LexerError, Token, TooLongEncodedWords, WordSlices};
use crate::parser::{Encoding, ParsedEncodedWord, ParserError};
use crate::strategy::RecoverStrategy;
use std::hash::Hash;

/// At any place at most one encoded word begins, and its spelling is
/// determined (RFC 2047, section 2).
pub fn one_word()
    ensures only { OneWord }
    ensures found { WordFound }
{}

/// Every header has exactly one reading, and the spellings of its parts join
/// to the header (RFC 2047, sections 2 and 6.2).
pub fn one_reading()
    ensures exists { ReadingExists }
    ensures only { OneReading }
    ensures joins { SpellingsJoin }
{}

/// Two values of a type of this crate are equal by `==` exactly where they are the same.
pub fn equality()
    ensures encodings { IsEquality ⟦<Encoding as PartialEq>⟧.eq }
    ensures strategies { IsEquality ⟦<RecoverStrategy as PartialEq>⟧.eq }
    ensures decoders { IsEquality ⟦<Decoder as PartialEq>⟧.eq }
    ensures parser_errors { IsEquality ⟦<ParserError as PartialEq>⟧.eq }
    ensures evaluator_errors { IsEquality ⟦<EvaluatorError as PartialEq>⟧.eq }
{}

/// The same of encoded words and tokens, which are the same where their bytes are, wherever these
/// lie and however much room there is for more.
pub fn equality_of_words<'a>()
    ensures encoded_words { (x y : EncodedWord) →
        (⟦<EncodedWord as PartialEq>⟧.eq x y ≡ true) ↔ (word_of x ≡ word_of y) }
    ensures tokens { (x y : Token) →
        (⟦<Token as PartialEq>⟧.eq x y ≡ true) ↔ (part_of x ≡ part_of y) }
    ensures slices { (x y : WordSlices) → (⟦<WordSlices<'a> as PartialEq>⟧.eq x y ≡ true)
        ↔ ((x.spelling.now ≡ y.spelling.now) × (sliced_word x ≡ sliced_word y)) }
{}

/// The same of parsed words, by their charsets, their encodings and the bytes of their texts.
pub fn equality_of_parsed_words()
    ensures { (x y : ParsedEncodedWord) →
        (⟦<ParsedEncodedWord as PartialEq>⟧.eq x y ≡ true) ↔ (parsed_of x ≡ parsed_of y) }
{}

/// The same of errors with texts, by the bytes of these.
pub fn equality_of_errors()
    ensures too_long { (x y : TooLongEncodedWords) →
        (⟦<TooLongEncodedWords as PartialEq>⟧.eq x y ≡ true) ↔ (texts_of x ≡ texts_of y) }
    ensures lexer_errors { (x y : LexerError) → (⟦<LexerError as PartialEq>⟧.eq x y ≡ true)
        ↔ (plain_lexer_error x ≡ plain_lexer_error y) }
    ensures errors { (x y : Error) →
        (⟦<Error as PartialEq>⟧.eq x y ≡ true) ↔ (plain_error x ≡ plain_error y) }
{}

/// A clone of a value of a type of this crate is that value.
pub fn clones<'a>()
    ensures encodings { ClonesSame ⟦<Encoding as Clone>⟧.is_clone }
    ensures strategies { ClonesSame ⟦<RecoverStrategy as Clone>⟧.is_clone }
    ensures decoders { ClonesSame ⟦<Decoder as Clone>⟧.is_clone }
    ensures parser_errors { ClonesSame ⟦<ParserError as Clone>⟧.is_clone }
    ensures slices { ClonesSame ⟦<WordSlices<'a> as Clone>⟧.is_clone }
{}

/// Equal values give a hasher the same bytes, in the same writes.
pub fn hashes()
    ensures encodings { HashesEqual ⟦<Encoding as PartialEq>⟧.eq ⟦<Encoding as Hash>⟧.hash_input }
    ensures strategies { HashesEqual ⟦<RecoverStrategy as PartialEq>⟧.eq
        ⟦<RecoverStrategy as Hash>⟧.hash_input }
    ensures tokens { HashesEqual ⟦<Token as PartialEq>⟧.eq ⟦<Token as Hash>⟧.hash_input }
    ensures encoded_words { HashesEqual ⟦<EncodedWord as PartialEq>⟧.eq
        ⟦<EncodedWord as Hash>⟧.hash_input }
    ensures parsed { HashesEqual ⟦<ParsedEncodedWord as PartialEq>⟧.eq
        ⟦<ParsedEncodedWord as Hash>⟧.hash_input }
    ensures too_long { HashesEqual ⟦<TooLongEncodedWords as PartialEq>⟧.eq
        ⟦<TooLongEncodedWords as Hash>⟧.hash_input }
{}
