//! The table of commands: the word of each and the arguments that it takes.
ghost use Rattle.std.specs.Prelude.{◌≡◌, true, IfSome, option_map};
ghost use Rattle.clap.specs.Words.{is_simple_and_free};
ghost use Rattle.unwrap.specs.Asked.{texts_of};
ghost use Rattle.unwrap.specs.Table.{described, row_in, row_named, row_of, row_view, rows_of};

// The commands.
#[derive(Clone, Copy, Debug, PartialEq, Eq)]
pub(crate) enum CommandName {
    Unwrap,
    Text,
    QpEncode,
    QpDecode,
    Make,
}

// The forms of arguments.
#[derive(Clone, Copy, Debug, PartialEq, Eq)]
pub(crate) enum Form {
    // `--name VALUE` or `--name=VALUE`, at most once.
    Value,
    // `--name`, at most once.
    Flag,
    // Any number of values, also between the options.
    Values,
    // One value that has to be there.
    OneValue,
}

// An argument, by its form and name.
pub(crate) type Argument = (Form, &'static str);

// A command's word, the command, and its arguments in groups.
pub(crate) type Row = (&'static str, CommandName, &'static [&'static [Argument]]);

// How a stream of bytes becomes text.
const READER: &[Argument] = &[
    (Form::Value, "encoding"),
    (Form::Flag, "utf8-passthru"),
    (Form::Flag, "strip-bom"),
    (Form::Flag, "bom-override"),
    (Form::Flag, "no-bom-sniffing"),
    (Form::Value, "limit"),
];

// The lengths of the pieces that are read and written, and the index files.
const PIECES: &[Argument] = &[
    (Form::Value, "buffer"),
    (Form::Value, "piece"),
    (Form::Values, "index"),
];

// Of quoted-printable text, the most bytes of a line, and of the input.
const LINES: &[Argument] = &[(Form::Value, "line"), (Form::Value, "limit")];

const COMMANDS: [Row; 5] = [
    (
        "unwrap",
        CommandName::Unwrap,
        &[READER, &[(Form::Value, "strategy")], PIECES],
    ),
    ("text", CommandName::Text, &[READER, PIECES]),
    (
        "qp-encode",
        CommandName::QpEncode,
        &[&[(Form::Flag, "binary")], LINES],
    ),
    (
        "qp-decode",
        CommandName::QpDecode,
        &[&[(Form::Flag, "strict")], LINES],
    ),
    ("make", CommandName::Make, &[&[(Form::OneValue, "parts")]]),
];

// The first row with this word.
fn row_in(rows: &[Row], word: &str) -> Option<Row>
    ensures { option_map row_view result ≡ row_in (rows_of rows.now) word.now }
{
    for row in rows {
        if row.0 == word {
            return Some(*row);
        }
    }
    None
}

// The row of a command's word.
fn row_of(word: &str) -> Option<Row>
    ensures { option_map row_view result ≡ row_of word.now }
{
    row_in(&COMMANDS, word)
}

// The row that the first of the words names.
pub(super) fn row_named(words: &[String]) -> Option<Row>
    ensures row { option_map row_view result ≡ row_named (texts_of words.now) }
    ensures simple { IfSome result (λ row.
        is_simple_and_free (described (row_view row)) ≡ true) }
{
    match words.first() {
        Some(word) => row_of(word.as_str()),
        None => None,
    }
}
