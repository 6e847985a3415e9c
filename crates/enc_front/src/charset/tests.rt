use super::*;
use crate::decoder::tests::indexed;
use crate::testing::same;
use std::alloc::Global;
use std::process::Abort;
use std::test::Fail;

// A label, bytes, and their text.
type Row = (&'static [u8], &'static [u8], &'static str);

const ROWS: [Row; 6] = [
    (b"utf-8", b"", ""),
    (b"utf-8", b"\xc3\xa9", "\u{e9}"),
    (b"utf-8", b"\xef\xbb\xbf\xef\xbb\xbfa", "\u{feff}a"),
    (b"latin1", b"\xe9\x80", "\u{e9}\u{20ac}"),
    (b"EUC-KR", b"\xac\xa8", "\u{416}"),
    (b"gb2312", b"\xef\xbb\xbf\xc3\xa9", "\u{e9}"),
];

fn check(
    rt: &impl Abort,
    alloc: Global,
    tables: &Tables,
    label: &[u8],
    bytes: &[u8],
    want: &str,
) -> Result<(), Fail> {
    let charset = Charset::for_label(label, tables).ok_or("no charset")?;
    let text = charset.decode(alloc, bytes, tables)?;
    same(rt, &text.as_str(), &want, &bytes);
    Ok(())
}

#[test]
fn decodes_by_charset(rt: HostRuntime) -> Result<(), Fail> {
    let tables = indexed(rt.alloc())?;
    for row in &ROWS {
        let (label, bytes, want) = *row;
        check(&rt, rt.alloc(), &tables, label, bytes, want)?;
    }
    assert!(rt; Charset::for_label(b"koi8-u", &tables).is_none());
    assert!(rt; Charset::for_label(b"x-none", &tables).is_none());
    Ok(())
}

#[test]
fn decodes_ascii(rt: HostRuntime) -> Result<(), Fail> {
    let two = Charset::decode_ascii(rt.alloc(), b"\xc3\xa9")?;
    same(&rt, &two.as_str(), &"\u{fffd}\u{fffd}", &2);
    let among = Charset::decode_ascii(rt.alloc(), b"a\x80b\x7f")?;
    same(&rt, &among.as_str(), &"a\u{fffd}b\x7f", &1);
    Ok(())
}
