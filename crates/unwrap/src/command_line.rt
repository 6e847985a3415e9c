//! What a command line asks for: the command of its first word, with its options.
ghost use Rattle.std.specs.Prelude.{◌≡◌, true, Err, None};
ghost use Rattle.clap.specs.Words.{found_of, is_simple_and_free, rows_of};
ghost use Rattle.unwrap.specs.Asked.{asked, asked_of, found_in, texts_of};
ghost use Rattle.unwrap.specs.Commands.{Gives};
ghost use Rattle.unwrap.specs.Table.{described, row_named, row_view};

mod description;
mod kinds;
pub(crate) mod matched;
pub(crate) mod options;
mod table;
pub(crate) mod values;

use crate::command_line::description::described;
use crate::command_line::matched::{Refusal, matches_in};
use crate::command_line::options::{Parts, QuotedOptions, StreamOptions};
use crate::command_line::table::{CommandName, Row, row_named};
use crate::run::make::make_given;
use crate::run::quoted::{qp_decode_given, qp_encode_given};
use crate::run::text::text_given;
use crate::run::unwrap::unwrap_given;
use clap::ArgMatches;
use std::alloc::Global;
use words::RecoverStrategy;

// The greatest limit of a stream.
pub(crate) const MOST: u32 = 999_999_999;

// The most bytes of a header, or of quoted-printable text, where no other limit is given.
pub(crate) const HEADER_LIMIT: u32 = 1_048_576;

// A command with its options.
#[derive(Debug, Drop)]
pub(crate) enum Command<'a> {
    // The header text of a stream's text, and what is done with words that are too long.
    Unwrap(StreamOptions<'a>, RecoverStrategy),
    // A stream's text.
    StreamText(StreamOptions<'a>),
    // Quoted-printable text of bytes.
    QpEncode(QuotedOptions),
    // The bytes of quoted-printable text.
    QpDecode(QuotedOptions),
    // A header of so many parts, unwrapped.
    Make(Parts),
}

// The command of this name, by what was found.
fn found_in<'a>(
    alloc: Global,
    name: CommandName,
    matches: &ArgMatches<'a>,
) -> Result<Command<'a>, Refusal>
    ensures { Gives (found_in name (rows_of (found_of matches.now))) result }
{
    match name {
        CommandName::Unwrap => unwrap_given(alloc, matches),
        CommandName::Text => text_given(alloc, matches),
        CommandName::QpEncode => qp_encode_given(matches),
        CommandName::QpDecode => qp_decode_given(matches),
        CommandName::Make => make_given(matches),
    }
}

// What the words ask the command of a row for; the first of the words is passed over.
fn asked_of<'a>(alloc: Global, row: Row, words: &'a [String]) -> Result<Command<'a>, Refusal>
    requires { is_simple_and_free (described (row_view row)) ≡ true }
    ensures { Gives (asked_of (row_view row.entry) (texts_of words.entry.now)) result }
{
    let command = described(alloc, row)?;
    match matches_in(command, words) {
        Ok(matches) => found_in(alloc, row.1, &matches),
        Err(refusal) => Err(refusal),
    }
}

// The command that the words ask for; they are the words after the program's name.
//
// # Errors
//
// `Usage` where the first word names no command, the words after it are none that the command
// takes, or a value isn't of its form. `Memory`.
#[tactic(auto, unfolding(crate::specs::Asked::asked))]
pub(crate) fn command_of<'a>(alloc: Global, words: &'a [String]) -> Result<Command<'a>, Refusal>
    ensures gives { Gives (asked (texts_of words.entry.now)) result }
    ensures named { row_named (texts_of words.entry.now) ≡ None → result ≡ Err Refusal.Usage }
{
    match row_named(words) {
        Some(row) => asked_of(alloc, row, words),
        None => Err(Refusal::Usage),
    }
}
