//! The command `make`: a long header of words, made from a number, and the line that tells of it.
ghost use Rattle.std.specs.Prelude.{◌≡◌, ◌+◌, ◌≤◌, ◌++◌, Some, IfOk, IfSome, OnOk, codes};
ghost use Rattle.std.specs.Prelude.{option_and_then, string_bytes, sum};
ghost use Rattle.clap.specs.Words.{first_of, found_of, rows_of};
ghost use Rattle.unwrap.specs.Asked.{make_in};
ghost use Rattle.unwrap.specs.Commands.{Gives};
ghost use Rattle.unwrap.specs.Made.{Tells, TellsMade, WritesLine, line, made, part, separator};
ghost use Rattle.unwrap.specs.Made.{tell};
ghost use Rattle.unwrap.specs.Numbers.{number_in};
ghost use Rattle.unwrap.specs.Status.{Counts, HasText, IsBehindFiles};

use crate::command_line::Command;
use crate::command_line::matched::Refusal;
use crate::command_line::options::Parts;
use crate::command_line::values::{first_given, number_in};
use crate::deliver::{Made, Value, deliver};
use crate::devices::sink::Sink;
use crate::header::{HeaderError, unwrap_header};
use crate::status::{Finish, Status};
use clap::ArgMatches;
use enc_front::Tables;
use enc_io::{DecodeReaderBytesBuilder, Failed, MemorySource, Source};
use std::alloc::{AllocError, Global};
use std::marker::Model;
use words::RecoverStrategy;

// The most bytes of a read from the header, and the lengths of the buffer and of the pieces.
const STEP: usize = 7;

const BUFFER: usize = 64;

const PIECE: usize = 16;

// What stands before the part of this number.
fn push_separator(header: &mut String, number: u32) -> Result<(), AllocError>
    ensures { OnOk result (string_bytes header.new ≡ string_bytes header.old ++ separator number) }
{
    if number == 0 {
        return Ok(());
    }
    header.push_str(" ")
}

// The part of this number.
fn push_part(header: &mut String, number: u32) -> Result<(), AllocError>
    ensures { OnOk result (string_bytes header.new ≡ string_bytes header.old ++ part number) }
{
    match number % 3 {
        0 => write!(header, "=?utf-8?Q?a{number}=C3=A9?="),
        1 => write!(header, "=?iso-8859-1?Q?b{number}=E9?="),
        _ => write!(header, "c{number}"),
    }
}

// A header of so many parts, with a space between each two.
fn header_of(alloc: Global, parts: u32) -> Result<Vec<u8>, AllocError>
    ensures { IfOk result (λ header. header.items ≡ made parts) }
{
    let mut header = String::new(alloc);
    for number in 0..parts {
        push_separator(&mut header, number)?;
        push_part(&mut header, number)?;
    }
    Ok(header.into_bytes())
}

// The sum of bytes; that of any slice is far below 2^128.
fn sum_of(bytes: &[u8]) -> u128
    ensures { result ≡ sum bytes.now }
{
    let mut sum: u128 = 0;
    for byte in bytes {
        sum += u128::from(*byte);
    }
    sum
}

// What is told of these lengths and this sum.
fn tell(alloc: Global, input: usize, output: usize, total: u128) -> Result<String, AllocError>
    ensures { IfOk result (λ text. string_bytes text ≡ tell input output total) }
{
    let mut text = String::new(alloc);
    write!(text, "made {input} bytes, ")?;
    write!(text, "text {output} bytes, ")?;
    write!(text, "sum {total}\n")?;
    Ok(text)
}

// The line that tells of a header of so many bytes and of its text.
fn line_of(alloc: Global, input: usize, text: &[u8]) -> Result<Vec<u8>, AllocError>
    ensures { IfOk result (λ bytes. bytes.items ≡ line input text.now) }
{
    let told = tell(alloc, input, text.len(), sum_of(text))?;
    Ok(told.into_bytes())
}

// The line that tells of a header of so many bytes and of its text, or the status of what came in
// its place.
fn told(alloc: Global, input: usize, answer: Result<String, HeaderError>) -> Result<Vec<u8>, Status>
    ensures { Tells input answer result }
{
    match answer {
        Ok(text) => match line_of(alloc, input, text.as_bytes()) {
            Ok(line) => Ok(line),
            Err(AllocError) => Err(Status::Memory),
        },
        Err(error) => Err(Status::from(error)),
    }
}

// A source in memory that never fails.
#[derive(Drop)]
struct Unfailing {
    source: MemorySource,
}

impl Model for Unfailing {
    ghost use Rattle.std.specs.Prelude.{◌≡◌, []};
    ghost use Rattle.enc_io.specs.Memory.{Memory};

    ghost Value = { Memory };

    ghost view = { λ s. s.source };

    ghost invariant = { λ s. s.source.failing ≡ [] };
}

impl Unfailing {
    // A source of these bytes.
    fn new(alloc: Global, bytes: Vec<u8>) -> Unfailing
        ensures { result.left ≡ bytes.items }
    {
        let source = MemorySource::new(bytes, STEP, Vec::new(alloc));
        Unfailing { source }
    }
}

impl Source for Unfailing {
    ghost left = { λ s. Some s.left };

    ghost faults = { λ _. 0 };

    ghost calls = { λ s. s.calls };

    fn read(&mut self, buf: &mut [u8]) -> Result<usize, Failed> {
        self.source.read(buf)
    }
}

// The line that tells of a header and its text; `input` is how many bytes the header has.
#[derive(Drop)]
struct Summary {
    input: usize,
}

impl Value for Summary {
    ghost use Rattle.std.specs.Prelude.{None};
    ghost use Rattle.unwrap.specs.Made.{summary};

    ghost limit = { λ _. 999999999 };

    ghost missing = { λ _. None };

    ghost value = { λ s. summary s.input };

    fn make<S: Source>(&self, alloc: Global, source: S) -> Made<S> {
        let tables = Tables::new();
        let builder = DecodeReaderBytesBuilder::new();
        let strategy = RecoverStrategy::Abort;
        let unwrapped = unwrap_header(alloc, source, &tables, &builder, strategy, BUFFER, PIECE);
        Made {
            bytes: told(alloc, self.input, unwrapped.answer),
            source: unwrapped.source,
        }
    }
}

// Writes the line of a header.
fn write_line<K: Sink>(alloc: Global, header: Vec<u8>, out: &mut K) -> Status
    ensures delivers { WritesLine header.items (K.taken out.old) (K.taken out.new) result }
    ensures counts { Counts result 0 0 (K.faults out.old) (K.faults out.new) }
    ensures kept { ¬ HasText result → out.new ≡ out.old }
    ensures behind_files { IsBehindFiles result }
{
    let summary = Summary {
        input: header.len(),
    };
    deliver(alloc, &summary, Unfailing::new(alloc, header), out).status
}

// Makes a header of so many parts, and writes the line that tells of it and its text. The source
// is handed back as it was.
//
// # Statuses
//
// `WriteFault` where the sink failed; it then has a prefix of the line. `Memory` may come at any
// growth.
pub(crate) fn write_made<S: Source, K: Sink>(
    alloc: Global,
    parts: u32,
    source: S,
    out: &mut K,
) -> Finish<S>
    ensures source { result.source ≡ source }
    ensures made { parts ≤ 20000
        → TellsMade parts (K.taken out.old) (K.taken out.new) result.status }
    ensures counts { Counts result.status (S.faults source) (S.faults result.source)
        (K.faults out.old) (K.faults out.new) }
    ensures kept { ¬ HasText result.status → out.new ≡ out.old }
    ensures behind_files { IsBehindFiles result.status }
{
    let header = match header_of(alloc, parts) {
        Ok(header) => header,
        Err(AllocError) => {
            return Finish {
                status: Status::Memory,
                source,
            };
        }
    };
    let status = write_line(alloc, header, out);
    Finish { status, source }
}

// How many parts `make` is asked for; none where the text isn't a number from 1 to 20000.
fn parts_given(matches: &ArgMatches<'_>) -> Option<u32>
    ensures number { result ≡ option_and_then (number_in 1 20000)
        (first_of (codes "parts") (rows_of (found_of matches.now))) }
    ensures most { IfSome result (λ n. n ≤ 20000) }
{
    let text = first_given(matches, "parts")?;
    number_in(text, 1, 20_000)
}

// `make`, by what was found.
pub(crate) fn make_given<'a>(matches: &ArgMatches<'_>) -> Result<Command<'a>, Refusal>
    ensures { Gives (make_in (rows_of (found_of matches.now))) result }
{
    match parts_given(matches) {
        Some(number) => Ok(Command::Make(Parts { number })),
        None => Err(Refusal::Usage),
    }
}

#[cfg(test)]
mod tests;
