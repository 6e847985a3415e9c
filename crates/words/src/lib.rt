//! Encoded words of mail headers: RFC 2047.
#![tactic(auto)]

mod b_text;
pub mod decoder;
pub mod evaluator;
pub mod laws;
pub mod lexer;
pub mod parser;
mod strategy;
#[cfg(test)]
mod testing;

pub use decoder::{Decoder, Error, decode};
pub use evaluator::EvaluatorError;
pub use lexer::encoded_word::EncodedWord;
pub use lexer::{LexerError, Token, Tokens, TooLongEncodedWords};
pub use parser::{ClearText, Encoding, ParsedEncodedWord, ParsedEncodedWords, ParserError};
pub use strategy::RecoverStrategy;
