//! The command `unwrap`: the header text of a stream.
ghost use Rattle.std.specs.Prelude.{◌≡◌, ◌≢◌, [], IfOk, IfErr, codes, is_ok, string_bytes};
ghost use Rattle.clap.specs.Words.{found_of, first_of, rows_of};
ghost use Rattle.enc_io.specs.Options.{unknown_encoding};
ghost use Rattle.unwrap.specs.Asked.{stream_view, unwrap_in};
ghost use Rattle.unwrap.specs.Commands.{Gives};
ghost use Rattle.unwrap.specs.Header.{EndsUnwrap};
ghost use Rattle.unwrap.specs.HeaderErrors.{error_status};
ghost use Rattle.unwrap.specs.Status.{Counts, HasText, IsBeforeSource};
ghost use Rattle.unwrap.specs.TablesOf.{TakesFiles};
ghost use Rattle.unwrap.specs.Values.{strategy_of, strategy_read};

use crate::command_line::matched::Refusal;
use crate::command_line::options::StreamOptions;
use crate::command_line::values::first_given;
use crate::command_line::{Command, HEADER_LIMIT};
use crate::deliver::{Made, Value, deliver};
use crate::devices::shelf::Shelf;
use crate::devices::sink::Sink;
use crate::header::{HeaderError, unwrap_header};
use crate::indexes::tables_of;
use crate::status::{Finish, Status};
use crate::text::builder_of;
use clap::ArgMatches;
use enc_front::Tables;
use enc_io::Source;
use std::alloc::Global;
use words::RecoverStrategy;

// The header text of a stream, as the command line asks for it.
#[derive(Clone, Copy)]
pub(crate) struct Header<'a> {
    pub tables: &'a Tables,
    pub options: &'a StreamOptions<'a>,
    pub strategy: RecoverStrategy,
}

// What is written of an answer, or its status.
fn answer_bytes(answer: Result<String, HeaderError>) -> Result<Vec<u8>, Status>
    ensures text { IfOk result (λ bytes. IfOk answer (λ text. bytes.items ≡ string_bytes text)) }
    ensures same { is_ok result ≡ is_ok answer }
    ensures error { IfErr result (λ status. IfErr answer (λ error. status ≡ error_status error)) }
{
    match answer {
        Ok(text) => Ok(text.into_bytes()),
        Err(error) => Err(Status::from(error)),
    }
}

impl Value for Header<'_> {
    ghost use Rattle.enc_front.specs.Indexes.{indexes_of};
    ghost use Rattle.unwrap.specs.Header.{shown};
    ghost use Rattle.unwrap.specs.Streams.{reader_of};

    ghost limit = { λ header. header.options.now.reader.limit };

    ghost missing = { λ header. unknown_encoding (reader_of header.options.now.reader)
        (indexes_of header.tables.now) };

    ghost value = { λ header. shown header.strategy (reader_of header.options.now.reader)
        (indexes_of header.tables.now) };

    fn make<S: Source>(&self, alloc: Global, source: S) -> Made<S> {
        let builder = builder_of(&self.options.reader);
        let buffer_len = self.options.buffer as usize;
        let piece_len = self.options.piece as usize;
        let unwrapped = unwrap_header(
            alloc,
            source,
            self.tables,
            &builder,
            self.strategy,
            buffer_len,
            piece_len,
        );
        Made {
            bytes: answer_bytes(unwrapped.answer),
            source: unwrapped.source,
        }
    }
}

// The strategy of a word.
fn strategy_of(text: &str) -> Option<RecoverStrategy>
    ensures { result ≡ strategy_of text.now }
{
    if text == "decode" {
        return Some(RecoverStrategy::Decode);
    }
    if text == "skip" {
        return Some(RecoverStrategy::Skip);
    }
    if text == "abort" {
        return Some(RecoverStrategy::Abort);
    }
    None
}

// What is to be done with words that are too long; none where the word for it isn't known.
fn strategy_given(matches: &ArgMatches<'_>) -> Option<RecoverStrategy>
    ensures { result
        ≡ strategy_read (first_of (codes "strategy") (rows_of (found_of matches.now))) }
{
    match first_given(matches, "strategy") {
        Some(text) => strategy_of(text),
        None => Some(RecoverStrategy::Abort),
    }
}

// `unwrap`, by what was found.
pub(crate) fn unwrap_given<'a>(
    alloc: Global,
    matches: &ArgMatches<'a>,
) -> Result<Command<'a>, Refusal>
    ensures { Gives (unwrap_in (rows_of (found_of matches.now))) result }
{
    let Some(strategy) = strategy_given(matches) else {
        return Err(Refusal::Usage);
    };
    match StreamOptions::given(alloc, matches, HEADER_LIMIT) {
        Ok(options) => Ok(Command::Unwrap(options, strategy)),
        Err(refusal) => Err(refusal),
    }
}

// Writes the header text of a stream's text.
pub(crate) fn show<S: Source, F: Shelf, K: Sink>(
    alloc: Global,
    options: &StreamOptions<'_>,
    strategy: RecoverStrategy,
    shelf: &mut F,
    source: S,
    out: &mut K,
) -> Finish<S>
    ensures no_usage { result.status ≢ Status.Usage }
    ensures unread { IsBeforeSource result.status → result.source ≡ source }
    ensures counts { Counts result.status (S.faults source) (S.faults result.source)
        (K.faults out.old) (K.faults out.new) }
    ensures kept { ¬ HasText result.status → out.new ≡ out.old }
    ensures shelf { (stream_view options.now).files ≡ [] → shelf.new ≡ shelf.old }
    ensures files { TakesFiles (stream_view options.now).files (F.files shelf.old)
        (F.files shelf.new) (F.faults shelf.old) (F.faults shelf.new) (F.calls shelf.old)
        (F.calls shelf.new) result.status }
    ensures delivers { EndsUnwrap (stream_view options.now) strategy (F.files shelf.old)
        (S.left source) (S.left result.source) (K.taken out.old) (K.taken out.new) result.status }
{
    let tables = match tables_of(alloc, shelf, options.files.as_slice()) {
        Ok(tables) => tables,
        Err(status) => return Finish { status, source },
    };
    let header = Header {
        tables: &tables,
        options,
        strategy,
    };
    deliver(alloc, &header, source, out)
}
