use super::*;
use crate::strategy::RecoverStrategy::{Abort, Decode, Skip};
use crate::testing::same;
use std::process;
use std::test::Fail;

const WORD_75: &[u8] =
    b"=?ISO-8859-1?Q?aaaaaaaaaaaaaaaaaaaaaaaaaaaaaaaaaaaaaaaaaaaaaaaaaaaaaaaaaa?=";

const WORD_76: &[u8] =
    b"=?ISO-8859-1?Q?aaaaaaaaaaaaaaaaaaaaaaaaaaaaaaaaaaaaaaaaaaaaaaaaaaaaaaaaaaa?=";

fn push_two(name: &mut Vec<u8>, mark: &[u8], bytes: &[u8]) -> Result<(), AllocError> {
    name.extend_from_slice(mark)?;
    name.extend_from_slice(bytes)
}

// A token as a row names it: clear text in brackets, a word as its three fields in parentheses.
fn push_named(name: &mut Vec<u8>, token: &Token) -> Result<(), AllocError> {
    match token {
        Token::ClearText(text) => {
            push_two(name, b"[", text)?;
            push_two(name, b"]", b"")
        }
        Token::EncodedWord(word) => {
            push_two(name, b"(", &word.charset)?;
            push_two(name, b",", &word.encoding)?;
            push_two(name, b",", &word.encoded_text)?;
            push_two(name, b")", b"")
        }
    }
}

fn named(alloc: Global, tokens: &[Token]) -> Result<Vec<u8>, AllocError> {
    let mut name = Vec::new(alloc);
    for token in tokens {
        push_named(&mut name, token)?;
    }
    Ok(name)
}

// A name, a header, the strategy, and the header's tokens.
type Row = (&'static str, &'static [u8], RecoverStrategy, &'static [u8]);

const ROWS: [Row; 22] = [
    ("empty", b"", Abort, b""),
    (
        "clear text",
        b"I use Arch by the way",
        Abort,
        b"[I use Arch by the way]",
    ),
    (
        "a word",
        b"=?ISO-8859-1?Q?Yeet?=",
        Abort,
        b"(ISO-8859-1,Q,Yeet)",
    ),
    (
        "a word and clear text",
        b"=?ISO-8859-1?Q?a?= b",
        Abort,
        b"(ISO-8859-1,Q,a)[ b]",
    ),
    (
        "two words and clear text",
        b"=?ISO-8859-1?Q?a?= =?ISO-8859-1?Q?b?= c",
        Abort,
        b"(ISO-8859-1,Q,a)(ISO-8859-1,Q,b)[ c]",
    ),
    (
        "three words",
        b"=?ISO-8859-1?Q?a?= =?ISO-8859-1?Q?b?= =?ISO-8859-1?Q?c?=",
        Abort,
        b"(ISO-8859-1,Q,a)(ISO-8859-1,Q,b)(ISO-8859-1,Q,c)",
    ),
    (
        "much white space between words",
        b"=?ISO-8859-1?Q?a?=  \r\n\t\x0c =?ISO-8859-1?Q?b?=",
        Abort,
        b"(ISO-8859-1,Q,a)(ISO-8859-1,Q,b)",
    ),
    (
        "a vertical tab between words",
        b"=?ISO-8859-1?Q?a?=\x0b=?ISO-8859-1?Q?b?=",
        Abort,
        b"(ISO-8859-1,Q,a)[\x0b](ISO-8859-1,Q,b)",
    ),
    (
        "words side by side",
        b"=?UTF-8?Q?str?==?UTF-8?Q?str?=",
        Abort,
        b"(UTF-8,Q,str)(UTF-8,Q,str)",
    ),
    (
        "white space at both ends",
        b" =?UTF-8?B?YQ==?= ",
        Abort,
        b"[ ](UTF-8,B,YQ==)[ ]",
    ),
    (
        "a word that is cut",
        b"=?UTF-8?Q?a",
        Abort,
        b"[=?UTF-8?Q?a]",
    ),
    (
        "an especial in a charset",
        b"=?ISO-8859-1(?Q?a?=",
        Abort,
        b"[=?ISO-8859-1(?Q?a?=]",
    ),
    (
        "a word behind a cut one",
        b"=?utf-8?q?a=?utf-8?q?b?=",
        Abort,
        b"[=?utf-8?q?a](utf-8,q,b)",
    ),
    (
        "a word's end that begins another",
        b"=?utf-8?q?x?=?UTF-8?Q?a?=",
        Abort,
        b"(utf-8,q,x)[?UTF-8?Q?a?=]",
    ),
    (
        "no UTF-8",
        b"\xE4 =?\xE4?Q?\xFC?=",
        Abort,
        b"[\xE4 ](\xE4,Q,\xFC)",
    ),
    (
        "75 bytes under Abort",
        WORD_75,
        Abort,
        b"(ISO-8859-1,Q,aaaaaaaaaaaaaaaaaaaaaaaaaaaaaaaaaaaaaaaaaaaaaaaaaaaaaaaaaa)",
    ),
    (
        "75 bytes under Skip",
        WORD_75,
        Skip,
        b"(ISO-8859-1,Q,aaaaaaaaaaaaaaaaaaaaaaaaaaaaaaaaaaaaaaaaaaaaaaaaaaaaaaaaaa)",
    ),
    (
        "75 bytes under Decode",
        WORD_75,
        Decode,
        b"(ISO-8859-1,Q,aaaaaaaaaaaaaaaaaaaaaaaaaaaaaaaaaaaaaaaaaaaaaaaaaaaaaaaaaa)",
    ),
    (
        "76 bytes under Skip",
        WORD_76,
        Skip,
        b"[=?ISO-8859-1?Q?aaaaaaaaaaaaaaaaaaaaaaaaaaaaaaaaaaaaaaaaaaaaaaaaaaaaaaaaaaa?=]",
    ),
    (
        "76 bytes under Decode",
        WORD_76,
        Decode,
        b"(ISO-8859-1,Q,aaaaaaaaaaaaaaaaaaaaaaaaaaaaaaaaaaaaaaaaaaaaaaaaaaaaaaaaaaa)",
    ),
    (
        "a skipped word between words",
        b"=?UTF-8?Q?a?= \
        =?ISO-8859-1?Q?aaaaaaaaaaaaaaaaaaaaaaaaaaaaaaaaaaaaaaaaaaaaaaaaaaaaaaaaaaa?= \
        =?UTF-8?Q?b?=",
        Skip,
        b"(UTF-8,Q,a)\
        [=?ISO-8859-1?Q?aaaaaaaaaaaaaaaaaaaaaaaaaaaaaaaaaaaaaaaaaaaaaaaaaaaaaaaaaaa?=]\
        (UTF-8,Q,b)",
    ),
    (
        "a skipped word between clear text",
        b"a =?ISO-8859-1?Q?aaaaaaaaaaaaaaaaaaaaaaaaaaaaaaaaaaaaaaaaaaaaaaaaaaaaaaaaaaa?= b",
        Skip,
        b"[a ][=?ISO-8859-1?Q?aaaaaaaaaaaaaaaaaaaaaaaaaaaaaaaaaaaaaaaaaaaaaaaaaaaaaaaaaaa?=][ b]",
    ),
];

fn check(
    rt: &impl process::Abort,
    alloc: Global,
    name: &str,
    bytes: &[u8],
    strategy: RecoverStrategy,
    want: &[u8],
) -> Result<(), Fail> {
    let tokens = run(alloc, bytes, strategy)?;
    let found = named(alloc, &tokens)?;
    same(rt, &found.as_slice(), &want, &name);
    Ok(())
}

#[test]
fn tokens(rt: HostRuntime) -> Result<(), Fail> {
    for row in &ROWS {
        let (name, bytes, strategy, tokens) = *row;
        check(&rt, rt.alloc(), name, bytes, strategy, tokens)?;
    }
    Ok(())
}

const LONG_B: &str = "=?utf-8?B?\
    bbbbbbbbbbbbbbbbbbbbbbbbbbbbbbbbbbbbbbbbbbbbbbbbbbbbbbbbbbbbbbbbbbbbbbbbbbbbbbbb==?=";

const LONG_A: &str = "=?utf-8?B?\
    aaaaaaaaaaaaaaaaaaaaaaaaaaaaaaaaaaaaaaaaaaaaaaaaaaaaaaaaaaaaaaaaaaaaaaaaaaaaaaaa==?=";

// The one word, some bytes, and the other.
fn both(alloc: Global, between: &str) -> Result<String, AllocError> {
    let mut text = String::from_str(alloc, LONG_B)?;
    text.push_str(between)?;
    text.push_str(LONG_A)?;
    Ok(text)
}

fn too_long(alloc: Global) -> Result<TooLongEncodedWords, AllocError> {
    let mut words = Vec::new(alloc);
    words.push(String::from_str(alloc, LONG_B)?)?;
    words.push(String::from_str(alloc, LONG_A)?)?;
    Ok(TooLongEncodedWords::new(words))
}

fn check_text<E: fmt::Display + Drop>(
    rt: &impl process::Abort,
    alloc: Global,
    shown: E,
    want: &str,
) -> Result<(), Fail> {
    let text = format!(in alloc; "{shown}")?;
    same(rt, &text.as_str(), &want, &want);
    Ok(())
}

fn check_fault(
    rt: &impl process::Abort,
    alloc: Global,
    header: &str,
    want: LexerError,
) -> Result<(), Fail> {
    let error = run(alloc, header.as_bytes(), Abort).err();
    same(rt, &error, &Some(want), &header);
    Ok(())
}

#[test]
fn too_long_words(rt: HostRuntime) -> Result<(), Fail> {
    let header = both(rt.alloc(), "among us =?utf-8?Q?us?= ")?;
    let words = too_long(rt.alloc())?;
    let error = LexerError::ParseEncodedWordTooLongError(words);
    check_fault(&rt, rt.alloc(), &header, error)
}

#[test]
fn shown_words(rt: HostRuntime) -> Result<(), Fail> {
    let joined = both(rt.alloc(), ", ")?;
    check_text(&rt, rt.alloc(), too_long(rt.alloc())?, &joined)?;
    let none = TooLongEncodedWords::new(Vec::new(rt.alloc()));
    check_text(&rt, rt.alloc(), none, "")
}

// What is printed of the two words.
fn too_long_text(alloc: Global) -> Result<String, AllocError> {
    let before = "Cannot parse the following encoded words, because they are too long: ";
    let mut text = String::from_str(alloc, before)?;
    text.push_str(&both(alloc, ", ")?)?;
    Ok(text)
}

#[test]
fn shown_too_long_words(rt: HostRuntime) -> Result<(), Fail> {
    let text = too_long_text(rt.alloc())?;
    let words = too_long(rt.alloc())?;
    let error = LexerError::ParseEncodedWordTooLongError(words);
    check_text(&rt, rt.alloc(), error, &text)
}

#[test]
fn other_errors(rt: HostRuntime) -> Result<(), Fail> {
    let parse = LexerError::ParseBytesError(String::from_str(rt.alloc(), "x")?);
    check_text(&rt, rt.alloc(), parse, "cannot parse bytes into tokens: x")?;
    check_text(&rt, rt.alloc(), LexerError::Memory, "no memory")
}

fn word_of(
    alloc: Global,
    charset: &[u8],
    encoding: &[u8],
    encoded_text: &[u8],
) -> Result<EncodedWord, AllocError> {
    let charset = charset.to_vec(alloc)?;
    let encoding = encoding.to_vec(alloc)?;
    let encoded_text = encoded_text.to_vec(alloc)?;
    Ok(EncodedWord::from_parser(((charset, encoding), encoded_text)))
}

fn check_bytes(
    rt: &impl process::Abort,
    alloc: Global,
    word: &EncodedWord,
    with_delimiters: bool,
    want: &[u8],
) -> Result<(), Fail> {
    let bytes = word.get_bytes(alloc, with_delimiters)?;
    same(rt, &bytes.as_slice(), &want, &with_delimiters);
    Ok(())
}

#[test]
fn encoded_words(rt: HostRuntime) -> Result<(), Fail> {
    let alloc = rt.alloc();
    let charset = b"ISO-8859-1".to_vec(alloc)?;
    let text = b"M\xFCnchen".to_vec(alloc)?;
    let word = EncodedWord::new(charset, b"Q".to_vec(alloc)?, text);
    check_bytes(&rt, alloc, &word, true, b"=?ISO-8859-1?Q?M\xFCnchen?=")?;
    check_bytes(&rt, alloc, &word, false, b"ISO-8859-1QM\xFCnchen")?;
    check_text(&rt, alloc, word, "=?ISO-8859-1?Q?M\u{FFFD}nchen?=")
}

#[test]
fn constants(rt: HostRuntime) {
    let ends = (EncodedWord::PREFIX, EncodedWord::SUFFIX);
    same(&rt, &ends, &("=?", "?="), &"ends");
    let numbers = (EncodedWord::MAX_LENGTH, QUESTION_MARK);
    same(&rt, &numbers, &(75, 0x3F), &"numbers");
}

#[test]
fn malformed_fields(rt: HostRuntime) -> Result<(), Fail> {
    let alloc = rt.alloc();
    let text = b"a\xC0\x80\xE2\x82\xAC\xED\xA0\x80";
    let word = word_of(alloc, b"\xE2\x82", b"\xF0\x9F\x98x", text)?;
    let shown = "=?\u{FFFD}?\u{FFFD}x?a\u{FFFD}\u{FFFD}\u{20AC}\u{FFFD}\u{FFFD}\u{FFFD}?=";
    check_text(&rt, alloc, word, shown)
}

// The length of a token; a word has fields of five, one and one bytes.
fn len_of(rt: &impl process::Abort, token: &Token) -> usize {
    match token {
        Token::ClearText(_) => token.len(),
        Token::EncodedWord(word) => {
            assert!(rt; word.charset.len() == 5 && word.encoding.len() == 1);
            assert!(rt; word.encoded_text.len() == 1);
            same(rt, &word.len(), &13, &"word");
            token.len()
        }
    }
}

#[test]
fn lengths(rt: HostRuntime) -> Result<(), Fail> {
    let tokens = run(rt.alloc(), b"=?UTF-8?Q?a?= bc", Abort)?;
    assert!(rt; tokens.len() == 2);
    same(&rt, &len_of(&rt, &tokens[0]), &13, &"a word");
    same(&rt, &len_of(&rt, &tokens[1]), &3, &"clear text");
    Ok(())
}
