use super::*;
use crate::charset::Charset;
use crate::testing::same;
use std::process::Abort;
use std::test::Fail;

fn check_room(rt: &impl Abort, decoder: &Decoder, length: usize, want: Option<usize>) {
    same(rt, &decoder.max_utf8_buffer_length(length), &want, &length);
}

#[test]
fn rooms(rt: HostRuntime) {
    let tables = Tables::new();
    let mut decoder = Decoder::new(Encoding::Utf8, &tables);
    check_room(&rt, &decoder, 2, Some(19));
    check_room(&rt, &decoder, usize::MAX, None);
    let mut small = [0; 1];
    decoder.decode_to_utf8(b"\xff\xff", &mut small, false);
    assert!(rt; decoder.owes());
    check_room(&rt, &decoder, 2, Some(22));
}

// Whether an own mark is removed, an encoding, bytes, their text, and whether a unit is malformed.
type Row = (bool, Encoding, &'static [u8], &'static str, bool);

const ROWS: [Row; 3] = [
    (true, Encoding::Utf8, b"\xef\xbb\xbf\xff", "\u{fffd}", true),
    (false, Encoding::Utf8, b"\xef\xbb\xbf", "\u{feff}", false),
    (
        true,
        Encoding::Utf16Le,
        b"\xfe\xff\x41\x00",
        "\u{fffe}A",
        false,
    ),
];

fn check(
    rt: &impl Abort,
    alloc: Global,
    tables: &Tables,
    how: (bool, Encoding),
    bytes: &[u8],
    want: (&str, bool),
) -> Result<(), Fail> {
    let (removes, encoding) = how;
    assert!(rt; tables.has(encoding));
    let (text, malformed) = if removes {
        encoding.decode_with_bom_removal(alloc, tables, bytes)?
    } else {
        encoding.decode_without_bom_handling(alloc, tables, bytes)?
    };
    same(rt, &(text.as_str(), malformed), &want, &bytes);
    Ok(())
}

#[test]
fn whole_values(rt: HostRuntime) -> Result<(), Fail> {
    let tables = Tables::new();
    for row in &ROWS {
        let (removes, encoding, bytes, text, malformed) = *row;
        check(
            &rt,
            rt.alloc(),
            &tables,
            (removes, encoding),
            bytes,
            (text, malformed),
        )?;
    }
    Ok(())
}

#[test]
fn appended_texts(rt: HostRuntime) -> Result<(), Fail> {
    let tables = Tables::new();
    let latin = Charset::for_label(b"latin1", &tables).ok_or("no charset")?;
    let mut text = b"a".to_vec(rt.alloc())?;
    latin.append(b"\xe9", &tables, &mut text)?;
    Charset::append_ascii(b"b\xe9", &mut text)?;
    let want = "a\u{e9}b\u{fffd}".as_bytes();
    same(&rt, &text.as_slice(), &want, &"appended");
    Ok(())
}
