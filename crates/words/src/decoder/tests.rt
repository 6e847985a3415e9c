use super::*;
use crate::strategy::RecoverStrategy::{Abort, Decode, Skip};
use crate::testing::same;
use qp::QuotedPrintableError;
use std::alloc::AllocError;
use std::fmt::Debug;
use std::process;
use std::test::Fail;

const WORD_75: &[u8] =
    b"=?ISO-8859-1?Q?aaaaaaaaaaaaaaaaaaaaaaaaaaaaaaaaaaaaaaaaaaaaaaaaaaaaaaaaaa?=";

const TEXT_75: &str = "aaaaaaaaaaaaaaaaaaaaaaaaaaaaaaaaaaaaaaaaaaaaaaaaaaaaaaaaaa";

const WORD_76: &str =
    "=?ISO-8859-1?Q?aaaaaaaaaaaaaaaaaaaaaaaaaaaaaaaaaaaaaaaaaaaaaaaaaaaaaaaaaaa?=";

const TEXT_76: &str = "aaaaaaaaaaaaaaaaaaaaaaaaaaaaaaaaaaaaaaaaaaaaaaaaaaaaaaaaaaa";

// A word of 77 bytes with an encoding field that names no encoding.
const WORD_X: &str =
    "=?ISO-8859-1?X?aaaaaaaaaaaaaaaaaaaaaaaaaaaaaaaaaaaaaaaaaaaaaaaaaaaaaaaaaaaa?=";

// A name, a header, and its text under Abort.
type Row = (&'static str, &'static [u8], &'static str);

const ROWS: [Row; 33] = [
    ("empty", b"", ""),
    ("clear text alone", b"str with spaces", "str with spaces"),
    (
        "two words around clear text",
        b"=?UTF-8?Q?Gr=C3=BC=C3=9Fe?= aus =?ISO-8859-1?Q?M=FCnchen?=",
        "Gr\u{FC}\u{DF}e aus M\u{FC}nchen",
    ),
    (
        "a space between words",
        b"=?ISO-8859-1?Q?a?= =?ISO-8859-1?Q?b?=",
        "ab",
    ),
    ("clear text after a word", b"=?ISO-8859-1?Q?a?= b", "a b"),
    (
        "a vertical tab between words",
        b"=?ISO-8859-1?Q?a?=\x0B=?ISO-8859-1?Q?b?=",
        "a\u{B}b",
    ),
    (
        "white space between words and an underscore",
        b"=?ISO-8859-1?Q?a?=  \n\t=?ISO-8859-2?Q?_b?=",
        "a b",
    ),
    (
        "an underscore inside a word",
        b"=?ISO-8859-1?Q?a_b?=",
        "a b",
    ),
    (
        "words side by side",
        b"=?UTF-8?Q?str?==?UTF-8?Q?str?=",
        "strstr",
    ),
    (
        "words on two lines",
        b"=?UTF-8?Q?str?=\r\n =?UTF-8?Q?str?=",
        "strstr",
    ),
    ("a word alone", b"=?UTF-8?Q?str?=", "str"),
    ("an empty B text", b"=?UTF-8?B??=", ""),
    ("a B text without padding", b"=?UTF-8?B?c3Ry?=", "str"),
    (
        "a B text with spare bits",
        b"=?utf-8?B?UG9ydGFsZSBIYWNraW5nVGVhbW==?=",
        "Portale HackingTeam",
    ),
    (
        "a B text in another charset",
        b"=?ISO-8859-1?B?SWYgeW91IGNhbiByZWFkIHRoaXMgeW8=?=",
        "If you can read this yo",
    ),
    (
        "a B text in UTF-8",
        b"=?utf8?b?c3RyIHdpdGggc3BlY2lhbCDDp2jDoHLDnw==?=",
        "str with special \u{E7}h\u{E0}r\u{DF}",
    ),
    (
        "a Q text in UTF-8",
        b"=?utf8?q?str_with_special_=C3=A7h=C3=A0r=C3=9F?=",
        "str with special \u{E7}h\u{E0}r\u{DF}",
    ),
    (
        "a Q text in another charset",
        b"=?ISO-8859-1?Q?Keld_J=F8rn_Simonsen?=",
        "Keld J\u{F8}rn Simonsen",
    ),
    ("75 bytes", WORD_75, TEXT_75),
    ("underscores at the end of a word", b"=?utf-8?Q?a__?=", "a"),
    ("an unknown charset", b"=?x-none?Q?=E9?=", "\u{FFFD}"),
    (
        "a charset without an index",
        b"=?KOI8-R?Q?a=E9?=",
        "a\u{FFFD}",
    ),
    ("a quotation mark in a charset", b"=?\"x\"?Q?a?=", "a"),
    (
        "malformed UTF-8 in a word",
        b"=?UTF-8?Q?a=E2=82b=FF?=",
        "a\u{FFFD}b\u{FFFD}",
    ),
    (
        "a mark in a word",
        b"=?ISO-8859-1?Q?=EF=BB=BF=C3=A4?=",
        "\u{E4}",
    ),
    (
        "a name and an address",
        b"=?US-ASCII?Q?Keith_Moore?= <moore@cs.utk.edu>",
        "Keith Moore <moore@cs.utk.edu>",
    ),
    ("a word that isn't closed", b"=?UTF-8?Q?a", "=?UTF-8?Q?a"),
    (
        "an especial in a charset",
        b"=?ISO-8859-1(?Q?a?=",
        "=?ISO-8859-1(?Q?a?=",
    ),
    (
        "clear text in UTF-8",
        b"\xC3\xA4 =?utf-8?Q?=C3=B6?=",
        "\u{E4} \u{F6}",
    ),
    ("white space after a word", b"=?UTF-8?Q?a?= ", "a "),
    ("white space before a word", b" =?UTF-8?Q?a?=", " a"),
    ("a comment", b"(=?ISO-8859-1?Q?a_b?=)", "(a b)"),
    ("an empty Q text", b"=?utf-8?q??=b", "b"),
];

// A name, a strategy, a header, whether it has a text, and that text or else the printed error.
type StrategyRow = (
    &'static str,
    RecoverStrategy,
    &'static str,
    bool,
    &'static str,
);

const BY_STRATEGY: [StrategyRow; 11] = [
    ("76 bytes, skipped", Skip, WORD_76, true, WORD_76),
    ("76 bytes, decoded", Decode, WORD_76, true, TEXT_76),
    ("a skipped field", Skip, WORD_X, true, WORD_X),
    ("a short word", Skip, "=?UTF-8?Q?str?=", true, "str"),
    (
        "a gap",
        Abort,
        "=?ISO-8859-1?Q?a?= =?ISO-8859-1?Q?b?=",
        true,
        "ab",
    ),
    (
        "no fours",
        Abort,
        "=?UTF-8?B?c3R?=",
        false,
        "the base64 text is wrong",
    ),
    (
        "an unknown encoding",
        Abort,
        "=?utf-8?X?a?=",
        false,
        "cannot parse encoding X: B or Q is expected",
    ),
    (
        "an encoding of two letters",
        Abort,
        "=?utf-8?QQ?a?=",
        false,
        "cannot parse encoding: encoding is bigger than a char",
    ),
    (
        "the first of three faults",
        Abort,
        "=?a?B?c?= =?a?X?a?= =?a?QQ?a?=",
        false,
        "cannot parse encoding X: B or Q is expected",
    ),
    (
        "an unknown encoding in a long word",
        Decode,
        WORD_X,
        false,
        "cannot parse encoding X: B or Q is expected",
    ),
    (
        "too long words before other faults",
        Abort,
        "=?a?QQ?a?= \
        =?ISO-8859-1?Q?aaaaaaaaaaaaaaaaaaaaaaaaaaaaaaaaaaaaaaaaaaaaaaaaaaaaaaaaaaa?= \
        =?a?B?c?= \
        =?ISO-8859-1?X?aaaaaaaaaaaaaaaaaaaaaaaaaaaaaaaaaaaaaaaaaaaaaaaaaaaaaaaaaaaa?=",
        false,
        "Cannot parse the following encoded words, because they are too long: \
        =?ISO-8859-1?Q?aaaaaaaaaaaaaaaaaaaaaaaaaaaaaaaaaaaaaaaaaaaaaaaaaaaaaaaaaaa?=, \
        =?ISO-8859-1?X?aaaaaaaaaaaaaaaaaaaaaaaaaaaaaaaaaaaaaaaaaaaaaaaaaaaaaaaaaaaa?=",
    ),
];

// A header, and its printed error under Abort.
type FaultRow = (&'static [u8], &'static str);

const NOT_TEXT: [FaultRow; 4] = [
    (b"=?a?B?c?= \xFF", "the base64 text is wrong"),
    (b"\xFF =?a?B?c?=", "clear text is not UTF-8 at byte 0"),
    (b"\xFF\xFE", "clear text is not UTF-8 at byte 0"),
    (
        b"=?a?Q?a?=\xC3\xA4b\xE2\x82",
        "clear text is not UTF-8 at byte 3",
    ),
];

// Whether a header has a text, and that text or else the printed error.
fn shown(
    alloc: Global,
    strategy: RecoverStrategy,
    bytes: &[u8],
) -> Result<(bool, String), AllocError> {
    let decoder = Decoder::new().too_long_encoded_word_strategy(strategy);
    match decoder.decode(alloc, &Tables::new(), bytes) {
        Ok(text) => Ok((true, text)),
        Err(error) => Ok((false, error.to_string(alloc)?)),
    }
}

fn check(
    rt: &impl process::Abort,
    alloc: Global,
    strategy: RecoverStrategy,
    bytes: &[u8],
    want: (bool, &str),
    name: &impl Debug,
) -> Result<(), Fail> {
    let (is_text, found) = shown(alloc, strategy, bytes)?;
    same(rt, &(is_text, found.as_str()), &want, name);
    Ok(())
}

#[test]
fn texts(rt: HostRuntime) -> Result<(), Fail> {
    for row in &ROWS {
        let (name, bytes, text) = *row;
        check(&rt, rt.alloc(), Abort, bytes, (true, text), &name)?;
    }
    for row in &BY_STRATEGY {
        let (name, strategy, header, is_text, text) = *row;
        let want = (is_text, text);
        check(&rt, rt.alloc(), strategy, header.as_bytes(), want, &name)?;
    }
    for row in &NOT_TEXT {
        let (bytes, text) = *row;
        check(&rt, rt.alloc(), Abort, bytes, (false, text), &bytes)?;
    }
    Ok(())
}

fn check_error(
    rt: &impl process::Abort,
    alloc: Global,
    error: Error,
    want: &str,
) -> Result<(), Fail> {
    let text = format!(in alloc; "{error}")?;
    same(rt, &text.as_str(), &want, &want);
    Ok(())
}

fn check_memory(rt: &impl process::Abort, error: Error) {
    same(rt, &error, &Error::Memory, &"memory");
}

#[test]
fn other_calls(rt: HostRuntime) -> Result<(), Fail> {
    let alloc = rt.alloc();
    let tables = Tables::new();
    let text = decode(alloc, &tables, b"=?UTF-8?Q?str?=")?;
    same(&rt, &text.as_str(), &"str", &"text");
    let wrong = decode(alloc, &tables, b"=?a?B?c?=").err();
    let base64 = Error::Evaluator(EvaluatorError::DecodeBase64Error);
    same(&rt, &wrong, &Some(base64), &"fault");
    same(&rt, &Decoder::default(), &Decoder::new(), &"default");
    Ok(())
}

#[test]
fn other_errors(rt: HostRuntime) -> Result<(), Fail> {
    check_memory(&rt, Error::from(LexerError::Memory));
    check_memory(&rt, Error::from(ParserError::Memory));
    check_memory(&rt, Error::from(EvaluatorError::Memory));
    let quoted = Error::Evaluator(EvaluatorError::DecodeQuotedPrintableError(
        QuotedPrintableError::IncompleteHexOctet,
    ));
    let text = "A '=' followed by only one character was found in the input";
    check_error(&rt, rt.alloc(), quoted, text)?;
    check_error(&rt, rt.alloc(), Error::Memory, "no memory")
}
