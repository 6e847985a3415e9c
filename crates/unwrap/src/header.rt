//! The header text of a stream, made where the stream was read to its end.
ghost use Rattle.std.specs.Prelude.{◌≡◌, ◌<◌, ◌≤◌, IfErr, length};
ghost use Rattle.enc_front.specs.Indexes.{indexes_of};
ghost use Rattle.enc_io.specs.BuilderView.{options_of};
ghost use Rattle.enc_io.specs.Options.{unknown_encoding};
ghost use Rattle.enc_io.specs.ReaderView.{standing_of};
ghost use Rattle.unwrap.specs.HeaderErrors.{IsNoTable};
ghost use Rattle.unwrap.specs.Unwraps.{ShowsFresh, Unwraps, header_of};

use crate::collected::{StreamText, read_text};
use crate::moving::zeroes;
use crate::status::{ReadError, Status};
use enc_front::{Encoding, Tables};
use enc_io::{BuildError, DecodeReaderBytes, DecodeReaderBytesBuilder, Source};
use std::alloc::Global;
use words::{Decoder, EvaluatorError, LexerError, ParserError, RecoverStrategy};

/// Why a stream has no header text.
#[derive(Debug, PartialEq, Drop)]
pub enum HeaderError {
    /// Out of memory.
    Memory,
    /// The tables lack an index that the named encoding needs. The source wasn't called.
    NoTable(Encoding),
    /// The source failed.
    ReadFault,
    /// The source gave more bytes than the limit.
    TooMuch,
    /// Some words are too long; it is never `Memory`.
    Lexer(LexerError),
    /// An encoding field names no encoding; it is never `Memory`.
    Parser(ParserError),
    /// A part has no text; it is never `Memory`.
    Evaluator(EvaluatorError),
}

impl From<ReadError> for HeaderError {
    ghost use Rattle.std.specs.Prelude.{◌≡◌};
    ghost use Rattle.unwrap.specs.HeaderErrors.{read_error};

    ghost from_gives = { λ e error. error ≡ read_error e };

    fn from(error: ReadError) -> HeaderError {
        match error {
            ReadError::ReadFault => HeaderError::ReadFault,
            ReadError::TooMuch => HeaderError::TooMuch,
            ReadError::Memory => HeaderError::Memory,
        }
    }
}

impl From<BuildError> for HeaderError {
    ghost use Rattle.std.specs.Prelude.{◌≡◌};
    ghost use Rattle.unwrap.specs.HeaderErrors.{build_error};

    ghost from_gives = { λ e error. error ≡ build_error e };

    /// A buffer is never too small here.
    fn from(error: BuildError) -> HeaderError {
        match error {
            BuildError::NoTable(encoding) => HeaderError::NoTable(encoding),
            BuildError::TooSmall(_) => HeaderError::Memory,
            BuildError::Memory => HeaderError::Memory,
        }
    }
}

impl From<HeaderError> for Status {
    ghost use Rattle.std.specs.Prelude.{◌≡◌};
    ghost use Rattle.unwrap.specs.HeaderErrors.{error_status};

    ghost from_gives = { λ e status. status ≡ error_status e };

    fn from(error: HeaderError) -> Status {
        match error {
            HeaderError::Memory => Status::Memory,
            HeaderError::NoTable(encoding) => Status::NoTable(encoding),
            HeaderError::ReadFault => Status::ReadFault,
            HeaderError::TooMuch => Status::TooMuch,
            HeaderError::Lexer(error) => Status::Header(words::Error::Lexer(error)),
            HeaderError::Parser(error) => Status::Header(words::Error::Parser(error)),
            HeaderError::Evaluator(error) => Status::Header(words::Error::Evaluator(error)),
        }
    }
}

impl From<words::Error> for HeaderError {
    ghost use Rattle.std.specs.Prelude.{◌≡◌};
    ghost use Rattle.unwrap.specs.HeaderErrors.{words_error};

    ghost from_gives = { λ e error. error ≡ words_error e };

    fn from(error: words::Error) -> HeaderError {
        match error {
            words::Error::Lexer(error) => HeaderError::Lexer(error),
            words::Error::Parser(error) => HeaderError::Parser(error),
            words::Error::Evaluator(error) => HeaderError::Evaluator(error),
            words::Error::Memory => HeaderError::Memory,
        }
    }
}

/// The header text of a stream, or why it has none; and the source as it stands then.
#[derive(Drop)]
pub struct Unwrapped<S> {
    pub source: S,
    pub answer: Result<String, HeaderError>,
}

// The header text of a reader's stream.
fn unwrap_reader<S: Source>(
    alloc: Global,
    reader: DecodeReaderBytes<'_, S>,
    tables: &Tables,
    strategy: RecoverStrategy,
    piece: &mut [u8],
) -> Unwrapped<S>
    requires { 0 < length piece.old }
    ensures { ShowsFresh strategy (indexes_of tables.now) (standing_of reader.entry)
        (S.left result.source) (S.faults result.source) result.answer }
{
    let StreamText { text, source } = read_text(alloc, reader, piece);
    let text = match text {
        Ok(text) => text,
        Err(error) => {
            return Unwrapped {
                source,
                answer: Err(HeaderError::from(error)),
            };
        }
    };
    let decoder = Decoder::new().too_long_encoded_word_strategy(strategy);
    match decoder.decode(alloc, tables, text.as_slice()) {
        Ok(text) => Unwrapped {
            source,
            answer: Ok(text),
        },
        Err(error) => Unwrapped {
            source,
            answer: Err(HeaderError::from(error)),
        },
    }
}

/// The header text of a stream's text, by these tables and the builder's options, read through a
/// buffer of `buffer_len` bytes, at least 4, and in pieces of `piece_len` bytes, at least 1. The
/// source is handed back.
///
/// # Errors
///
/// `NoTable` before any call on the source, exactly where the tables lack an index that the
/// builder's encoding needs. Then `ReadFault` or `TooMuch`, whichever is met first. Then `Lexer`,
/// `Parser` or `Evaluator`, as the header has a fault. `Memory` may come at any growth.
pub fn unwrap_header<S: Source>(
    alloc: Global,
    source: S,
    tables: &Tables,
    builder: &DecodeReaderBytesBuilder,
    strategy: RecoverStrategy,
    buffer_len: usize,
    piece_len: usize,
) -> Unwrapped<S>
    requires buffer { 4 ≤ buffer_len }
    requires piece { 1 ≤ piece_len }
    ensures unwraps { Unwraps (unknown_encoding (options_of builder.now) (indexes_of tables.now))
        (header_of strategy (options_of builder.now) (indexes_of tables.now))
        (options_of builder.now).limit (S.left source) (S.left result.source) (S.faults source)
        (S.faults result.source) result.answer }
    ensures unread { IfErr result.answer (λ e. IsNoTable e → result.source ≡ source) }
{
    let buffer = match zeroes(alloc, buffer_len) {
        Ok(buffer) => buffer,
        Err(_) => {
            return Unwrapped {
                source,
                answer: Err(HeaderError::Memory),
            };
        }
    };
    let mut piece = match zeroes(alloc, piece_len) {
        Ok(piece) => piece,
        Err(_) => {
            return Unwrapped {
                source,
                answer: Err(HeaderError::Memory),
            };
        }
    };
    match builder.build_with_buffer(tables, source, buffer) {
        Ok(reader) => unwrap_reader(alloc, reader, tables, strategy, piece.as_mut_slice()),
        Err(refused) => {
            let (source, _, error) = refused;
            Unwrapped {
                source,
                answer: Err(HeaderError::from(error)),
            }
        }
    }
}
