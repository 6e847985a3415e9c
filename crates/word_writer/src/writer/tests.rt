use super::*;
use crate::laws::read_back;
use enc_front::Tables;
use std::process::Abort;
use std::test::Fail;
use words::RecoverStrategy;

// A name, a text, and how it is written: worked out by Python's `base64` over the same rule.
type Row = (&'static str, &'static str, &'static str);

const ROWS: [Row; 21] = [
    ("no text", "", ""),
    ("plain text", "plain text", "plain text"),
    (
        "two byte characters",
        "Gr\u{FC}\u{DF}e",
        "=?UTF-8?B?R3LDvMOfZQ==?=",
    ),
    ("the start of a word", "a=?b", "=?UTF-8?B?YT0/Yg==?="),
    ("the start of a word at the end", "a=?", "=?UTF-8?B?YT0/?="),
    ("a line feed", "\n", "=?UTF-8?B?Cg==?="),
    ("U+FEFF", "\u{FEFF}", "=?UTF-8?B?77u/77u/?="),
    (
        "76 printable bytes",
        "aaaaaaaaaaaaaaaaaaaaaaaaaaaaaaaaaaaaaaaaaaaaaaaaaaaaaaaaaaaaaaaaaaaaaaaaaaaa",
        "aaaaaaaaaaaaaaaaaaaaaaaaaaaaaaaaaaaaaaaaaaaaaaaaaaaaaaaaaaaaaaaaaaaaaaaaaaaa",
    ),
    (
        "77 printable bytes",
        "aaaaaaaaaaaaaaaaaaaaaaaaaaaaaaaaaaaaaaaaaaaaaaaaaaaaaaaaaaaaaaaaaaaaaaaaaaaaa",
        "=?UTF-8?B?YWFhYWFhYWFhYWFhYWFhYWFhYWFhYWFhYWFhYWFhYWFhYWFhYWFhYWFhYWFh?=\r\n =?UTF-8\
        ?B?YWFhYWFhYWFhYWFhYWFhYWFhYWFhYWFhYWFhYWFhYWE=?=",
    ),
    (
        "45 bytes of one byte",
        "\naaaaaaaaaaaaaaaaaaaaaaaaaaaaaaaaaaaaaaaaaaaa",
        "=?UTF-8?B?CmFhYWFhYWFhYWFhYWFhYWFhYWFhYWFhYWFhYWFhYWFhYWFhYWFhYWFhYWFh?=",
    ),
    (
        "46 bytes of one byte",
        "\naaaaaaaaaaaaaaaaaaaaaaaaaaaaaaaaaaaaaaaaaaaaa",
        "=?UTF-8?B?CmFhYWFhYWFhYWFhYWFhYWFhYWFhYWFhYWFhYWFhYWFhYWFhYWFhYWFhYWFh?=\r\n =?UTF-8\
        ?B?YQ==?=",
    ),
    (
        "45 bytes of two",
        "a\u{FC}\u{FC}\u{FC}\u{FC}\u{FC}\u{FC}\u{FC}\u{FC}\u{FC}\u{FC}\u{FC}\u{FC}\u{FC}\
        \u{FC}\u{FC}\u{FC}\u{FC}\u{FC}\u{FC}\u{FC}\u{FC}\u{FC}",
        "=?UTF-8?B?YcO8w7zDvMO8w7zDvMO8w7zDvMO8w7zDvMO8w7zDvMO8w7zDvMO8w7zDvMO8?=",
    ),
    (
        "46 bytes of two",
        "\u{FC}\u{FC}\u{FC}\u{FC}\u{FC}\u{FC}\u{FC}\u{FC}\u{FC}\u{FC}\u{FC}\u{FC}\u{FC}\u{FC}\
        \u{FC}\u{FC}\u{FC}\u{FC}\u{FC}\u{FC}\u{FC}\u{FC}\u{FC}",
        "=?UTF-8?B?w7zDvMO8w7zDvMO8w7zDvMO8w7zDvMO8w7zDvMO8w7zDvMO8w7zDvMO8w7w=?=\r\n =?UTF-8\
        ?B?w7w=?=",
    ),
    (
        "45 bytes of three",
        "\u{20AC}\u{20AC}\u{20AC}\u{20AC}\u{20AC}\u{20AC}\u{20AC}\u{20AC}\u{20AC}\u{20AC}\
        \u{20AC}\u{20AC}\u{20AC}\u{20AC}\u{20AC}",
        "=?UTF-8?B?4oKs4oKs4oKs4oKs4oKs4oKs4oKs4oKs4oKs4oKs4oKs4oKs4oKs4oKs4oKs?=",
    ),
    (
        "46 bytes of three",
        "\u{20AC}\u{20AC}\u{20AC}\u{20AC}\u{20AC}\u{20AC}\u{20AC}\u{20AC}\u{20AC}\u{20AC}\
        \u{20AC}\u{20AC}\u{20AC}\u{20AC}\u{20AC}a",
        "=?UTF-8?B?4oKs4oKs4oKs4oKs4oKs4oKs4oKs4oKs4oKs4oKs4oKs4oKs4oKs4oKs4oKs?=\r\n =?UTF-8\
        ?B?YQ==?=",
    ),
    (
        "45 bytes of four",
        "\u{1F600}\u{1F600}\u{1F600}\u{1F600}\u{1F600}\u{1F600}\u{1F600}\u{1F600}\u{1F600}\
        \u{1F600}\u{1F600}a",
        "=?UTF-8?B?8J+YgPCfmIDwn5iA8J+YgPCfmIDwn5iA8J+YgPCfmIDwn5iA8J+YgPCfmIBh?=",
    ),
    (
        "48 bytes of four",
        "\u{1F600}\u{1F600}\u{1F600}\u{1F600}\u{1F600}\u{1F600}\u{1F600}\u{1F600}\u{1F600}\
        \u{1F600}\u{1F600}\u{1F600}",
        "=?UTF-8?B?8J+YgPCfmIDwn5iA8J+YgPCfmIDwn5iA8J+YgPCfmIDwn5iA8J+YgPCfmIA=?=\r\n =?UTF-8\
        ?B?8J+YgA==?=",
    ),
    (
        "a character that would be split",
        "aaaaaaaaaaaaaaaaaaaaaaaaaaaaaaaaaaaaaaaaaaaa\u{FC}",
        "=?UTF-8?B?YWFhYWFhYWFhYWFhYWFhYWFhYWFhYWFhYWFhYWFhYWFhYWFhYWFhYWFhYWE=?=\r\n =?UTF-8\
        ?B?w7w=?=",
    ),
    (
        "42 bytes that begin with U+FEFF",
        "\u{FEFF}aaaaaaaaaaaaaaaaaaaaaaaaaaaaaaaaaaaaaaa",
        "=?UTF-8?B?77u/77u/YWFhYWFhYWFhYWFhYWFhYWFhYWFhYWFhYWFhYWFhYWFhYWFhYWFh?=",
    ),
    (
        "43 bytes that begin with U+FEFF",
        "\u{FEFF}aaaaaaaaaaaaaaaaaaaaaaaaaaaaaaaaaaaaaaaa",
        "=?UTF-8?B?77u/77u/YWFhYWFhYWFhYWFhYWFhYWFhYWFhYWFhYWFhYWFhYWFhYWFhYWFh?=\r\n =?UTF-8\
        ?B?YQ==?=",
    ),
    (
        "U+FEFF at the front of a second word",
        "\u{FC}\u{FC}\u{FC}\u{FC}\u{FC}\u{FC}\u{FC}\u{FC}\u{FC}\u{FC}\u{FC}\u{FC}\u{FC}\u{FC}\
        \u{FC}\u{FC}\u{FC}\u{FC}\u{FC}\u{FC}\u{FC}\u{FC}a\u{FEFF}b",
        "=?UTF-8?B?w7zDvMO8w7zDvMO8w7zDvMO8w7zDvMO8w7zDvMO8w7zDvMO8w7zDvMO8w7xh?=\r\n =?UTF-8\
        ?B?77u/77u/Yg==?=",
    ),
];

// Whether a text is written in this way, in just the room that it takes, and read back.
fn check(rt: &impl Abort, alloc: Global, name: &str, text: &str, want: &str) -> Result<(), Fail> {
    let value = write_words(alloc, text)?;
    assert!(rt; value.as_str() == want, "{name}");
    assert!(rt; value.capacity() == value.len(), "{name}");
    let back = read_back(alloc, &Tables::new(), RecoverStrategy::Abort, text);
    assert!(rt;
        matches!(&back, Ok(found) if found.as_str() == text),
        "{name}"
    );
    Ok(())
}

#[test]
fn rows(rt: HostRuntime) -> Result<(), Fail> {
    for row in &ROWS {
        let (name, text, want) = *row;
        check(&rt, rt.alloc(), name, text, want)?;
    }
    Ok(())
}
