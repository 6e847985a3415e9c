//! The command `text`: the text of a stream.
ghost use Rattle.std.specs.Prelude.{◌≡◌, ◌≢◌, ◌<◌, [], length};
ghost use Rattle.clap.specs.Words.{found_of, rows_of};
ghost use Rattle.enc_front.specs.Indexes.{indexes_of};
ghost use Rattle.enc_io.specs.Options.{unknown_encoding};
ghost use Rattle.enc_io.specs.ReaderView.{standing_of};
ghost use Rattle.unwrap.specs.Asked.{stream_view, text_in};
ghost use Rattle.unwrap.specs.Commands.{Gives};
ghost use Rattle.unwrap.specs.Status.{Counts, HasTextSoFar, IsBeforeSource, IsBehindFiles};
ghost use Rattle.unwrap.specs.Streams.{EndsCopy, EndsText, Streams, copy_status, reader_of};
ghost use Rattle.unwrap.specs.Streams.{writing};
ghost use Rattle.unwrap.specs.TablesOf.{TakesFiles};

use crate::command_line::matched::Refusal;
use crate::command_line::options::StreamOptions;
use crate::command_line::{Command, MOST};
use crate::devices::shelf::Shelf;
use crate::devices::sink::Sink;
use crate::indexes::tables_of;
use crate::moving::zeroes;
use crate::status::{Finish, Status};
use crate::text::{CopyFault, builder_of, copy_text};
use clap::ArgMatches;
use enc_front::Tables;
use enc_io::{DecodeReaderBytes, Source};
use std::alloc::Global;

// The status of a copy.
fn copy_status(copied: Result<u64, CopyFault>) -> Status
    ensures { result ≡ copy_status copied }
{
    match copied {
        Ok(_) => Status::Done,
        Err(CopyFault::ReadFault) => Status::ReadFault,
        Err(CopyFault::TooMuch) => Status::TooMuch,
        Err(CopyFault::WriteFault) => Status::WriteFault,
    }
}

// Writes all text of a reader.
fn write_all_text<S: Source, K: Sink>(
    reader: DecodeReaderBytes<'_, S>,
    piece: &mut [u8],
    out: &mut K,
) -> Finish<S>
    requires { 0 < length piece.old }
    ensures streams { EndsCopy (standing_of reader.entry) (S.left result.source)
        (S.faults result.source) (K.taken out.old) (K.taken out.new) (length piece.old)
        result.status }
    ensures behind_files { IsBehindFiles result.status }
    ensures counts { Counts result.status (standing_of reader.entry).faults
        (S.faults result.source) (K.faults out.old) (K.faults out.new) }
    ensures kept { ¬ HasTextSoFar result.status → out.new ≡ out.old }
{
    let mut reader = reader;
    let copied = copy_text(&mut reader, piece, out);
    Finish {
        status: copy_status(copied),
        source: reader.into_inner(),
    }
}

// Writes the text of a stream as it reads.
fn write_text<S: Source, K: Sink>(
    alloc: Global,
    tables: &Tables,
    options: &StreamOptions<'_>,
    source: S,
    out: &mut K,
) -> Finish<S>
    ensures behind_files { IsBehindFiles result.status }
    ensures streams { Streams
        (unknown_encoding (reader_of options.now.reader) (indexes_of tables.now))
        (writing (reader_of options.now.reader) (indexes_of tables.now) options.now.buffer
        options.now.piece)
        options.now.reader.limit (S.left source) (S.left result.source)
        (K.taken out.old) (K.taken out.new) result.status }
    ensures unread { IsBeforeSource result.status → result.source ≡ source }
    ensures counts { Counts result.status (S.faults source) (S.faults result.source)
        (K.faults out.old) (K.faults out.new) }
    ensures kept { ¬ HasTextSoFar result.status → out.new ≡ out.old }
{
    let buffer = match zeroes(alloc, options.buffer as usize) {
        Ok(buffer) => buffer,
        Err(_) => {
            return Finish {
                status: Status::Memory,
                source,
            };
        }
    };
    let mut piece = match zeroes(alloc, options.piece as usize) {
        Ok(piece) => piece,
        Err(_) => {
            return Finish {
                status: Status::Memory,
                source,
            };
        }
    };
    match builder_of(&options.reader).build_with_buffer(tables, source, buffer) {
        Ok(reader) => write_all_text(reader, piece.as_mut_slice(), out),
        Err(refused) => {
            let (source, _, error) = refused;
            Finish {
                status: Status::from(error),
                source,
            }
        }
    }
}

// `text`, by what was found.
pub(crate) fn text_given<'a>(
    alloc: Global,
    matches: &ArgMatches<'a>,
) -> Result<Command<'a>, Refusal>
    ensures { Gives (text_in (rows_of (found_of matches.now))) result }
{
    match StreamOptions::given(alloc, matches, MOST) {
        Ok(options) => Ok(Command::StreamText(options)),
        Err(refusal) => Err(refusal),
    }
}

// Writes the text of a stream.
pub(crate) fn stream<S: Source, F: Shelf, K: Sink>(
    alloc: Global,
    options: &StreamOptions<'_>,
    shelf: &mut F,
    source: S,
    out: &mut K,
) -> Finish<S>
    ensures no_usage { result.status ≢ Status.Usage }
    ensures unread { IsBeforeSource result.status → result.source ≡ source }
    ensures counts { Counts result.status (S.faults source) (S.faults result.source)
        (K.faults out.old) (K.faults out.new) }
    ensures kept { ¬ HasTextSoFar result.status → out.new ≡ out.old }
    ensures shelf { (stream_view options.now).files ≡ [] → shelf.new ≡ shelf.old }
    ensures files { TakesFiles (stream_view options.now).files (F.files shelf.old)
        (F.files shelf.new) (F.faults shelf.old) (F.faults shelf.new) (F.calls shelf.old)
        (F.calls shelf.new) result.status }
    ensures streams { EndsText (stream_view options.now) (F.files shelf.old)
        (S.left source) (S.left result.source) (K.taken out.old) (K.taken out.new) result.status }
{
    let tables = match tables_of(alloc, shelf, options.files.as_slice()) {
        Ok(tables) => tables,
        Err(status) => return Finish { status, source },
    };
    write_text(alloc, &tables, options, source, out)
}
