use super::*;
use crate::testing::same;
use std::process::Abort;
use std::test::Fail;

// A name, a text, and the octets that it stands for; `None` where it stands for none.
type Row = (&'static str, &'static [u8], Option<&'static [u8]>);

const ROWS: [Row; 28] = [
    ("empty", b"", Some(b"")),
    ("one octet", b"Zg==", Some(b"f")),
    ("two octets", b"Zm8=", Some(b"fo")),
    ("three octets", b"Zm9v", Some(b"foo")),
    ("four octets", b"Zm9vYg==", Some(b"foob")),
    ("five octets", b"Zm9vYmE=", Some(b"fooba")),
    ("six octets", b"Zm9vYmFy", Some(b"foobar")),
    ("one letter padded", b"YQ==", Some(b"a")),
    ("two letters padded", b"YWI=", Some(b"ab")),
    ("no padding", b"YWJj", Some(b"abc")),
    (
        "spare bits before two equals signs",
        b"UG9ydGFsZSBIYWNraW5nVGVhbW==",
        Some(b"Portale HackingTeam"),
    ),
    ("all four spare bits", b"YZ==", Some(b"a")),
    ("both spare bits", b"YWL=", Some(b"ab")),
    (
        "each letter",
        b"ABCDEFGHIJKLMNOPQRSTUVWXYZabcdefghijklmnopqrstuvwxyz0123456789+/",
        Some(
            b"\x00\x10\x83\x10\x51\x87\x20\x92\x8b\x30\xd3\x8f\x41\x14\x93\x51\
            \x55\x97\x61\x96\x9b\x71\xd7\x9f\x82\x18\xa3\x92\x59\xa7\xa2\x9a\
            \xab\xb2\xdb\xaf\xc3\x1c\xb3\xd3\x5d\xb7\xe3\x9e\xbb\xf3\xdf\xbf",
        ),
    ),
    ("no fours", b"c3R", None),
    ("one equals sign too few", b"YQ=", None),
    ("no equals signs", b"YQ", None),
    ("equals signs alone", b"====", None),
    ("three equals signs", b"A===", None),
    ("five equals signs", b"YWJj====", None),
    ("a text after padding", b"YQ==YQ==", None),
    ("a letter after an equals sign", b"YQ=a", None),
    ("an equals sign first", b"=AAA", None),
    ("letters of the URL alphabet", b"-_-_", None),
    ("a space", b"YQ ==YWI", None),
    ("a line end", b"YWJj\r\nYg==", None),
    ("a byte beyond ASCII", b"YWJ\xe9", None),
    ("a NUL", b"YWJ\x00", None),
];

fn check(
    rt: &impl Abort,
    alloc: Global,
    spare: &mut Vec<u8>,
    name: &str,
    text: &[u8],
    want: Option<&[u8]>,
) -> Result<(), Fail> {
    let found = decode(alloc, text, spare)?;
    let octets = match &found {
        Some(octets) => Some(octets.as_slice()),
        None => None,
    };
    same(rt, &octets, &want, &name);
    Ok(())
}

#[test]
fn values_of_texts(rt: HostRuntime) -> Result<(), Fail> {
    let mut spare = Vec::new(rt.alloc());
    for row in &ROWS {
        let (name, text, octets) = *row;
        check(&rt, rt.alloc(), &mut spare, name, text, octets)?;
    }
    Ok(())
}
