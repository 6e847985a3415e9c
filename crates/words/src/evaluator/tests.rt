use super::*;
use crate::strategy::RecoverStrategy::Abort;
use crate::testing::same;
use crate::{lexer, parser};
use std::test::Fail;

#[test]
fn evaluated_words(rt: HostRuntime) -> Result<(), Fail> {
    let alloc = rt.alloc();
    let tables = Tables::new();
    let tokens = lexer::run(alloc, b"=?utf-8?B?UG9ydGFsZSBIYWNraW5nVGVhbW==?=", Abort)?;
    let parsed = parser::run(alloc, tokens, &tables)?;
    let text = run(alloc, parsed, &tables)?;
    same(&rt, &text.as_str(), &"Portale HackingTeam", &"text");
    Ok(())
}

#[test]
fn faults(rt: HostRuntime) -> Result<(), Fail> {
    let alloc = rt.alloc();
    let mut cut = Vec::new(alloc);
    cut.push(ParsedEncodedWord::EncodedWord {
        charset: None,
        encoding: Encoding::B,
        encoded_text: b"c3R".to_vec(alloc)?,
    })?;
    let error = run(alloc, cut, &Tables::new()).err();
    same(
        &rt,
        &error,
        &Some(EvaluatorError::DecodeBase64Error),
        &"cut",
    );
    let memory = format!(in alloc; "{}", EvaluatorError::Memory)?;
    same(&rt, &memory.as_str(), &"no memory", &"memory");
    Ok(())
}
