use super::*;
use crate::lexer;
use crate::strategy::RecoverStrategy::Abort;
use crate::testing::same;
use std::process;
use std::test::Fail;

fn word(alloc: Global, encoded_text: &[u8]) -> Result<ParsedEncodedWord, AllocError> {
    Ok(ParsedEncodedWord::EncodedWord {
        charset: Charset::for_label(b"ISO-8859-1", &Tables::new()),
        encoding: Encoding::Q,
        encoded_text: encoded_text.to_vec(alloc)?,
    })
}

fn expected(alloc: Global) -> Result<ParsedEncodedWords, AllocError> {
    let mut words = Vec::new(alloc);
    words.push(word(alloc, b"a")?)?;
    words.push(word(alloc, b"b")?)?;
    words.push(ParsedEncodedWord::ClearText(b" c".to_vec(alloc)?))?;
    Ok(words)
}

#[test]
fn parsed_words(rt: HostRuntime) -> Result<(), Fail> {
    let alloc = rt.alloc();
    let tokens = lexer::run(alloc, b"=?ISO-8859-1?Q?a?= =?ISO-8859-1?Q?b?= c", Abort)?;
    let parsed = run(alloc, tokens, &Tables::new())?;
    same(&rt, &parsed, &expected(alloc)?, &"words");
    Ok(())
}

fn check_field(
    rt: &impl process::Abort,
    alloc: Global,
    field: &[u8],
    want: Result<Encoding, ParserError>,
) -> Result<(), Fail> {
    let encoding = Encoding::try_from(field.to_vec(alloc)?);
    same(rt, &encoding, &want, &field);
    Ok(())
}

#[test]
fn encoding_fields(rt: HostRuntime) -> Result<(), Fail> {
    let alloc = rt.alloc();
    check_field(&rt, alloc, b"b", Ok(Encoding::B))?;
    check_field(&rt, alloc, b"Q", Ok(Encoding::Q))?;
    check_field(&rt, alloc, b"", Err(ParserError::ParseEncodingEmptyError))?;
    let beyond_ascii = ParserError::ParseEncodingError('\u{E4}');
    check_field(&rt, alloc, b"\xE4", Err(beyond_ascii))
}

#[test]
fn empty_fields(rt: HostRuntime) -> Result<(), Fail> {
    let alloc = rt.alloc();
    let empty = EncodedWord::new(b"a".to_vec(alloc)?, Vec::new(alloc), Vec::new(alloc));
    let converted = ParsedEncodedWord::convert_encoded_word(empty, &Tables::new());
    let want = Err(ParserError::ParseEncodingEmptyError);
    same(&rt, &converted, &want, &"empty");
    let names = (Encoding::B_CHAR, Encoding::Q_CHAR, Encoding::MAX_LENGTH);
    same(&rt, &names, &('b', 'q', 1), &"names");
    Ok(())
}

fn check_error(
    rt: &impl process::Abort,
    alloc: Global,
    error: ParserError,
    want: &str,
) -> Result<(), Fail> {
    let text = format!(in alloc; "{error}")?;
    same(rt, &text.as_str(), &want, &want);
    Ok(())
}

#[test]
fn printed_errors(rt: HostRuntime) -> Result<(), Fail> {
    let empty = "cannot parse encoding: encoding is empty";
    check_error(&rt, rt.alloc(), ParserError::ParseEncodingEmptyError, empty)?;
    check_error(&rt, rt.alloc(), ParserError::Memory, "no memory")
}
