//! The options of each command.
ghost use Rattle.std.specs.Prelude.{◌≡◌, ◌≤◌, Some, None, MatchResult};

use crate::command_line::matched::Refusal;
use crate::command_line::values::{encoding_given, files_given, flag_given, number_given};
use crate::command_line::{HEADER_LIMIT, MOST};
use clap::ArgMatches;
use enc_front::{Encoding, IndexKind};
use std::alloc::Global;

// The greatest length of a buffer or a piece.
const LONGEST: u32 = 1_048_576;

// How a stream of bytes becomes text.
#[derive(Clone, Copy, Debug, PartialEq, Eq)]
pub(crate) struct ReaderOptions {
    // The encoding that is asked for, if one is.
    pub encoding: Option<Encoding>,
    // Whether a stream with a mark of UTF-8 isn't decoded.
    pub utf8_passthru: bool,
    // Whether a mark at the front is left out.
    pub strip_bom: bool,
    // Whether a mark goes before the encoding that is asked for.
    pub bom_override: bool,
    // Whether a mark is looked for.
    pub bom_sniffing: bool,
    // The most bytes of the stream.
    pub limit: u32,
}

// An index file, and the kind of its index.
#[derive(Clone, Copy, Debug)]
pub(crate) struct IndexFile<'a> {
    pub kind: IndexKind,
    pub name: &'a str,
}

// The options of a command that reads a stream's text.
#[derive(Debug, Drop)]
pub(crate) struct StreamOptions<'a> {
    pub reader: ReaderOptions,
    // How many bytes are read at once, at least 4.
    pub buffer: u32,
    // How many bytes of text are made at once, at least 1.
    pub piece: u32,
    pub files: Vec<IndexFile<'a>>,
    ghost buffer_fits: { 4 ≤ buffer },
    ghost piece_fits: { 1 ≤ piece },
}

// The options of a command for quoted-printable text.
#[derive(Debug, Drop)]
pub(crate) struct QuotedOptions {
    // Of an encoder, whether its input is taken for any bytes; of a decoder, whether it is strict.
    pub chosen: bool,
    // The most bytes of a line, 6 to 998.
    pub line: u32,
    // The most bytes of the input.
    pub limit: u32,
    ghost line_fits: { 6 ≤ line },
}

// How many parts a header is made of, at most 20,000.
#[derive(Clone, Copy, Debug)]
pub(crate) struct Parts {
    pub number: u32,
    ghost few: { number ≤ 20000 },
}

impl ReaderOptions {
    ghost use Rattle.clap.specs.Words.{found_of, rows_of};
    ghost use Rattle.unwrap.specs.Asked.{reader_in};

    // The options that were given.
    fn given(matches: &ArgMatches<'_>, default_limit: u32) -> Option<ReaderOptions>
        ensures { result ≡ reader_in default_limit (rows_of (found_of matches.now)) }
    {
        let encoding = encoding_given(matches)?;
        let limit = number_given(matches, "limit", 0, MOST, default_limit)?;
        Some(ReaderOptions {
            encoding,
            utf8_passthru: flag_given(matches, "utf8-passthru"),
            strip_bom: flag_given(matches, "strip-bom"),
            bom_override: flag_given(matches, "bom-override"),
            bom_sniffing: !flag_given(matches, "no-bom-sniffing"),
            limit,
        })
    }
}

impl QuotedOptions {
    ghost use Rattle.std.specs.Option.{option_map};
    ghost use Rattle.clap.specs.Words.{found_of, rows_of};
    ghost use Rattle.unwrap.specs.Asked.{quoted_in, quoted_view};

    // The options that were given, of which this one is a flag.
    pub(crate) fn given(matches: &ArgMatches<'_>, flag: &str) -> Option<QuotedOptions>
        ensures { option_map quoted_view result
            ≡ quoted_in flag.now (rows_of (found_of matches.now)) }
    {
        let line = number_given(matches, "line", 6, 998, 76)?;
        let limit = number_given(matches, "limit", 0, MOST, HEADER_LIMIT)?;
        Some(QuotedOptions {
            chosen: flag_given(matches, flag),
            line,
            limit,
        })
    }
}

impl<'a> StreamOptions<'a> {
    ghost use Rattle.clap.specs.Words.{found_of, rows_of};
    ghost use Rattle.unwrap.specs.Asked.{stream_in, stream_view};
    ghost use Rattle.unwrap.specs.declared.command_line.matched.Refusal.TheVariants.{Usage};

    // The options that were given.
    pub(crate) fn given(
        alloc: Global,
        matches: &ArgMatches<'a>,
        default_limit: u32,
    ) -> Result<StreamOptions<'a>, Refusal>
        ensures { MatchResult result
            (λ o. stream_in default_limit (rows_of (found_of matches.now)) ≡ Some (stream_view o))
            (λ e. e ≡ Usage → stream_in default_limit (rows_of (found_of matches.now)) ≡ None) }
    {
        let Some(reader) = ReaderOptions::given(matches, default_limit) else {
            return Err(Refusal::Usage);
        };
        let Some(buffer) = number_given(matches, "buffer", 4, LONGEST, 8192) else {
            return Err(Refusal::Usage);
        };
        let Some(piece) = number_given(matches, "piece", 1, LONGEST, 4096) else {
            return Err(Refusal::Usage);
        };
        let files = match files_given(alloc, matches) {
            Ok(files) => files,
            Err(refusal) => return Err(refusal),
        };
        Ok(StreamOptions {
            reader,
            buffer,
            piece,
            files,
        })
    }
}
