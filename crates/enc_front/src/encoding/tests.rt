use super::*;
use crate::testing::same;
use std::process::Abort;

// An encoding, its name, and whether it needs no index.
type NameRow = (Encoding, &'static str, bool);

const NAMES: [NameRow; 6] = [
    (Encoding::Utf8, "UTF-8", true),
    (Encoding::Windows1252, "windows-1252", true),
    (Encoding::UserDefined, "x-user-defined", true),
    (Encoding::Single(SingleName::Koi8R), "KOI8-R", false),
    (Encoding::Iso8859_8I, "ISO-8859-8-I", false),
    (Encoding::Iso2022Jp, "ISO-2022-JP", false),
];

fn check_name(rt: &impl Abort, encoding: Encoding, name: &str, is_built_in: bool) {
    same(rt, &encoding.name(), &name, &name);
    same(rt, &encoding.is_built_in(), &is_built_in, &name);
    same(
        rt,
        &Encoding::for_label(name.as_bytes()),
        &Some(encoding),
        &name,
    );
}

#[test]
fn names_encodings(rt: HostRuntime) {
    for row in &NAMES {
        let (encoding, name, is_built_in) = *row;
        check_name(&rt, encoding, name, is_built_in);
    }
}

// A label, and its encoding.
type LabelRow = (&'static [u8], Option<Encoding>);

const LABELS: [LabelRow; 8] = [
    (b" \t\n\x0c\rutf-8\r\x0c\n\t ", Some(Encoding::Utf8)),
    (b"Shift_JIS", Some(Encoding::ShiftJis)),
    (b"\x0butf-8", None),
    (b"utf -8", None),
    (b"utf", None),
    (b" ", None),
    (b"replacement", None),
    (b"iso-2022-kr", None),
];

fn check_label(rt: &impl Abort, label: &[u8], want: Option<Encoding>) {
    same(rt, &Encoding::for_label(label), &want, &label);
}

#[test]
fn compares_labels_without_case_and_white_space(rt: HostRuntime) {
    for row in &LABELS {
        let (label, want) = *row;
        check_label(&rt, label, want);
    }
}

// Bytes, and the encoding and the length of the mark at their front.
type MarkRow = (&'static [u8], Option<(Encoding, usize)>);

const MARKS: [MarkRow; 5] = [
    (b"\xef\xbb\xbfa", Some((Encoding::Utf8, 3))),
    (b"\xfe\xff", Some((Encoding::Utf16Be, 2))),
    (b"\xff\xfe\0\0", Some((Encoding::Utf16Le, 2))),
    (b"\xef\xbb", None),
    (b"a\xff\xfe", None),
];

fn check_mark(rt: &impl Abort, bytes: &[u8], want: Option<(Encoding, usize)>) {
    same(rt, &Encoding::for_bom(bytes), &want, &bytes);
}

#[test]
fn finds_marks(rt: HostRuntime) {
    for row in &MARKS {
        let (bytes, want) = *row;
        check_mark(&rt, bytes, want);
    }
}
