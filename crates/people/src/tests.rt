use crate::folds::unfold;
use crate::names::people_label;
use crate::pieces::{Part, parts};
use crate::testing::same;
use enc_front::{Encoding, SingleName, Tables};
use std::alloc::{AllocError, Global};
use std::process::Abort;
use std::test::Fail;

// A name, a value, and what it is unfolded.
type Fold = (&'static str, &'static [u8], &'static [u8]);

const FOLDS: [Fold; 8] = [
    ("empty", b"", b""),
    ("folds and a line end", b"a\r\n b\n\tc\n", b"a b\tc\n"),
    ("once", b"a\n\n b", b"a\n b"),
    ("one CR", b"a\r\r\n b\r\n", b"a\r b\r\n"),
    ("a CR alone", b"a\rb", b"a\rb"),
    ("a fold first", b"\n a", b" a"),
    (
        "a fold inside a word",
        b"=?utf-8?Q?a\r\n b?=",
        b"=?utf-8?Q?a b?=",
    ),
    ("no blank behind", b"a\r\nb", b"a\r\nb"),
];

// A label, and the encoding that it means.
type Label = (&'static [u8], Option<Encoding>);

const LABELS: [Label; 12] = [
    (b"utf-8", Some(Encoding::Utf8)),
    (b" ISO-8859-1\t", Some(Encoding::Windows1252)),
    (b"cp932", Some(Encoding::ShiftJis)),
    (b"MS932", Some(Encoding::ShiftJis)),
    (b"shiftjis", Some(Encoding::ShiftJis)),
    (b" windows-936 ", Some(Encoding::Gbk)),
    (b"cp949", Some(Encoding::EucKr)),
    (b"cp950", Some(Encoding::Big5)),
    (b"ujis", Some(Encoding::EucJp)),
    (b"koi8r", Some(Encoding::Single(SingleName::Koi8R))),
    (b"latin-1", Some(Encoding::Windows1252)),
    (b"x-none", None),
];

// A name, a value, and its parts: words in brackets, gaps in angle brackets, clear text as it is.
type Reading = (&'static str, &'static [u8], &'static [u8]);

const READINGS: [Reading; 25] = [
    ("plain text", b"plain text", b"plain text"),
    ("empty", b"", b""),
    (
        "blanks go between words alone",
        b"=?UTF-8?Q?a?= =?UTF-8?Q?b?= c",
        b"[=?UTF-8?Q?a?=]< >[=?UTF-8?Q?b?=] c",
    ),
    (
        "a line end that is no fold",
        b"=?US-ASCII?Q?a?=\n=?US-ASCII?Q?b?=\n",
        b"[=?US-ASCII?Q?a?=]\n[=?US-ASCII?Q?b?=]\n",
    ),
    (
        "words without a gap",
        b"=?a?q?a?==?a?q?b?=",
        b"[=?a?q?a?=][=?a?q?b?=]",
    ),
    (
        "a language",
        b"=?utf-8*de?Q?=C3=A4?=",
        b"[=?utf-8*de?Q?=C3=A4?=]",
    ),
    (
        "a space inside",
        b"=?UTF-8?Q?I feel =E2=98=BA?=",
        b"[=?UTF-8?Q?I feel =E2=98=BA?=]",
    ),
    (
        "a question mark inside",
        b"=?UTF-8?Q?Why??=",
        b"[=?UTF-8?Q?Why??=]",
    ),
    (
        "a word that isn't closed",
        b"=?UTF-8?Q?a =?UTF-8?Q?b?=",
        b"=?UTF-8?Q?a [=?UTF-8?Q?b?=]",
    ),
    (
        "no padding",
        b"=?UTF-8?B?YWI?=\t=?UTF-8?B?Yw?=",
        b"[=?UTF-8?B?YWI?=]<\t>[=?UTF-8?B?Yw?=]",
    ),
    ("no octet", b"=?us-ascii?b?----?=", b"=?us-ascii?b?----?="),
    ("one letter of Base64", b"=?utf-8?b?A?=", b"=?utf-8?b?A?="),
    (
        "an unknown charset",
        b"=?x-none?Q?abc?= =?x-none?Q?=E9?=",
        b"[=?x-none?Q?abc?=] =?x-none?Q?=E9?=",
    ),
    (
        "a charset without its index",
        b"=?koi8-r?Q?=C1?=",
        b"=?koi8-r?Q?=C1?=",
    ),
    ("a plus sign", b"=?utf-7?Q?+AKM-1?=", b"=?utf-7?Q?+AKM-1?="),
    ("no such letter", b"=?utf-8?X?a?=", b"=?utf-8?X?a?="),
    (
        "beside clear text",
        b"x=?UTF-8?Q?a?=\"=?UTF-8?Q?b?=\"",
        b"x[=?UTF-8?Q?a?=]\"[=?UTF-8?Q?b?=]\"",
    ),
    ("an empty word", b"=?a?q??=", b"[=?a?q??=]"),
    (
        "an equals sign before the end",
        b"=?a?q?=?=",
        b"[=?a?q?=?=]",
    ),
    (
        "nothing before the language",
        b"=?*en?q?abc?=",
        b"[=?*en?q?abc?=]",
    ),
    (
        "parentheses in the charset field",
        b"=?(a,z)?q?a?=",
        b"=?(a,z)?q?a?=",
    ),
    (
        "up to the first end",
        b"=?utf-8?Q?Was?=20nun?=",
        b"[=?utf-8?Q?Was?=]20nun?=",
    ),
    ("a start alone", b"=?", b"=?"),
    ("no charset field", b"=??Q?a?=", b"=??Q?a?="),
    (
        "a line end inside",
        b"=?utf-8?Q?a\r\n b?=",
        b"=?utf-8?Q?a\r\n b?=",
    ),
];

// Appends a part as the rows show it.
fn push_marked(marked: &mut Vec<u8>, part: &Part<'_>) -> Result<(), AllocError> {
    let (open, text, close): (&[u8], &[u8], &[u8]) = match part {
        Part::Word(word) => (b"[", word.spelling, b"]"),
        Part::Clear(text) => (b"", text, b""),
        Part::Gap(text) => (b"<", text, b">"),
    };
    marked.extend_from_slice(open)?;
    marked.extend_from_slice(text)?;
    marked.extend_from_slice(close)
}

fn check_fold(
    rt: &impl Abort,
    alloc: Global,
    name: &str,
    value: &[u8],
    want: &[u8],
) -> Result<(), Fail> {
    let unfolded = unfold(alloc, value)?;
    same(rt, &unfolded.as_slice(), &want, &name);
    Ok(())
}

fn check_reading(
    rt: &impl Abort,
    alloc: Global,
    tables: &Tables,
    name: &str,
    value: &[u8],
    want: &[u8],
) -> Result<(), Fail> {
    let parts = parts(alloc, tables, value)?;
    let mut marked = Vec::new(alloc);
    for part in &parts {
        push_marked(&mut marked, part)?;
    }
    same(rt, &marked.as_slice(), &want, &name);
    Ok(())
}

#[test]
fn values_without_folds(rt: HostRuntime) -> Result<(), Fail> {
    for row in &FOLDS {
        let (name, value, want) = *row;
        check_fold(&rt, rt.alloc(), name, value, want)?;
    }
    Ok(())
}

#[test]
fn encodings_of_labels(rt: HostRuntime) {
    for row in &LABELS {
        let (label, want) = *row;
        same(&rt, &people_label(label), &want, &label);
    }
}

#[test]
fn readings_of_values(rt: HostRuntime) -> Result<(), Fail> {
    let tables = Tables::new();
    for row in &READINGS {
        let (name, value, want) = *row;
        check_reading(&rt, rt.alloc(), &tables, name, value, want)?;
    }
    Ok(())
}
