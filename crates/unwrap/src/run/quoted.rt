//! The commands `qp-encode` and `qp-decode`: quoted-printable text.
ghost use Rattle.std.specs.Prelude.{◌≡◌, None, Ok, IfOk, IfErr};
ghost use Rattle.clap.specs.Words.{found_of, rows_of};
ghost use Rattle.unwrap.specs.Asked.{quoted_view, qp_decode_in, qp_encode_in};
ghost use Rattle.unwrap.specs.Commands.{Gives};
ghost use Rattle.unwrap.specs.Delivers.{Refuses};
ghost use Rattle.unwrap.specs.Quoted.{decoded_value, encoded_value, quoted_value};

use crate::command_line::Command;
use crate::command_line::matched::Refusal;
use crate::command_line::options::QuotedOptions;
use crate::deliver::{Made, Value};
use crate::moving::read_all;
use crate::status::Status;
use clap::ArgMatches;
use enc_io::Source;
use qp::{InputMode, Options, ParseMode, QpError, decode_with_options, encode_with_options};
use std::alloc::{AllocError, Global};

// Quoted-printable text of an input, or what such an input stands for.
#[derive(Drop)]
pub(crate) struct Quoted {
    pub options: QuotedOptions,
    // Whether the input is encoded.
    pub encodes: bool,
}

// Quoted-printable text of these bytes.
fn encoded(alloc: Global, options: &QuotedOptions, bytes: &[u8]) -> Result<Vec<u8>, Status>
    ensures value { IfOk result (λ text.
        encoded_value (quoted_view options.now) bytes.now ≡ Ok text.items) }
    ensures error { IfErr result (Refuses (encoded_value (quoted_view options.now) bytes.now)) }
{
    let mode = if options.chosen {
        InputMode::Binary
    } else {
        InputMode::Text
    };
    let line = options.line as usize;
    let settings = Options::default().line_length_limit(line).input_mode(mode);
    match encode_with_options(alloc, bytes, settings) {
        Ok(text) => Ok(text.into_bytes()),
        Err(AllocError) => Err(Status::Memory),
    }
}

// What quoted-printable text stands for, or the status that says why it stands for nothing.
fn decoded(alloc: Global, options: &QuotedOptions, bytes: &[u8]) -> Result<Vec<u8>, Status>
    ensures value { IfOk result (λ value.
        decoded_value (quoted_view options.now) bytes.now ≡ Ok value.items) }
    ensures error { IfErr result (Refuses (decoded_value (quoted_view options.now) bytes.now)) }
{
    let mode = if options.chosen {
        ParseMode::Strict
    } else {
        ParseMode::Robust
    };
    let line = options.line as usize;
    let settings = Options::default().line_length_limit(line).parse_mode(mode);
    match decode_with_options(alloc, bytes, settings) {
        Ok(value) => Ok(value),
        Err(QpError::Memory) => Err(Status::Memory),
        Err(QpError::Quoted(error)) => Err(Status::Quoted(error)),
    }
}

impl Quoted {
    // What is made of these bytes.
    fn of(&self, alloc: Global, bytes: &[u8]) -> Result<Vec<u8>, Status>
        ensures value { IfOk result (λ made. quoted_value self.now.encodes
            (quoted_view self.now.options) bytes.now ≡ Ok made.items) }
        ensures error { IfErr result (Refuses (quoted_value self.now.encodes
            (quoted_view self.now.options) bytes.now)) }
    {
        if self.encodes {
            return encoded(alloc, &self.options, bytes);
        }
        decoded(alloc, &self.options, bytes)
    }
}

impl Value for Quoted {
    ghost limit = { λ quoted. quoted.options.limit };

    ghost missing = { λ _. None };

    ghost value = { λ quoted. quoted_value quoted.encodes (quoted_view quoted.options) };

    fn make<S: Source>(&self, alloc: Global, source: S) -> Made<S> {
        let mut source = source;
        let bytes = match read_all(alloc, &mut source, self.options.limit as usize) {
            Ok(bytes) => bytes,
            Err(error) => {
                return Made {
                    bytes: Err(Status::from(error)),
                    source,
                };
            }
        };
        Made {
            bytes: self.of(alloc, bytes.as_slice()),
            source,
        }
    }
}

// `qp-encode`, by what was found.
pub(crate) fn qp_encode_given<'a>(matches: &ArgMatches<'_>) -> Result<Command<'a>, Refusal>
    ensures { Gives (qp_encode_in (rows_of (found_of matches.now))) result }
{
    match QuotedOptions::given(matches, "binary") {
        Some(options) => Ok(Command::QpEncode(options)),
        None => Err(Refusal::Usage),
    }
}

// `qp-decode`, by what was found.
pub(crate) fn qp_decode_given<'a>(matches: &ArgMatches<'_>) -> Result<Command<'a>, Refusal>
    ensures { Gives (qp_decode_in (rows_of (found_of matches.now))) result }
{
    match QuotedOptions::given(matches, "strict") {
        Some(options) => Ok(Command::QpDecode(options)),
        None => Err(Refusal::Usage),
    }
}
