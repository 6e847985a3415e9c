//! The worked rows, as data.
use super::{Failing, Fault, Note, Refusal, Row};
use crate::status::{IndexFault, ShelfFault, Status, TableFault};
use enc_front::{Encoding, IndexKind, Why};
use words::{EvaluatorError, ParserError};

pub(super) const TABLES: [&[Row]; 6] = [
    &HEADERS,
    &OPTIONS,
    &QUOTED,
    &TEXTS,
    &INDEXED,
    &ISO_2022_JP,
];

const HEADERS: [Row; 24] = [
    ("empty", "unwrap", b"", 0, b""),
    (
        "an address",
        "unwrap",
        b"=?US-ASCII?Q?Keith_Moore?= <moore@cs.utk.edu>",
        0,
        b"Keith Moore <moore@cs.utk.edu>",
    ),
    (
        "two charsets",
        "unwrap",
        b"=?UTF-8?Q?Gr=C3=BC=C3=9Fe?= aus =?ISO-8859-1?Q?M=FCnchen?=",
        0,
        b"Gr\xC3\xBC\xC3\x9Fe aus M\xC3\xBCnchen",
    ),
    (
        "a space between words",
        "unwrap",
        b"=?ISO-8859-1?Q?a?= =?ISO-8859-1?Q?b?=",
        0,
        b"ab",
    ),
    (
        "a space before clear text",
        "unwrap",
        b"=?ISO-8859-1?Q?a?= b",
        0,
        b"a b",
    ),
    (
        "a vertical tab between words",
        "unwrap",
        b"=?ISO-8859-1?Q?a?=\x0B=?ISO-8859-1?Q?b?=",
        0,
        b"a\x0Bb",
    ),
    (
        "words side by side",
        "unwrap",
        b"=?UTF-8?Q?str?==?UTF-8?Q?str?=",
        0,
        b"strstr",
    ),
    (
        "words on two lines",
        "unwrap",
        b"=?UTF-8?Q?str?=\r\n =?UTF-8?Q?str?=",
        0,
        b"strstr",
    ),
    ("a word alone", "unwrap", b"=?UTF-8?Q?str?=", 0, b"str"),
    (
        "surplus padding",
        "unwrap",
        b"=?utf-8?B?UG9ydGFsZSBIYWNraW5nVGVhbW==?=",
        0,
        b"Portale HackingTeam",
    ),
    ("an empty B text", "unwrap", b"=?UTF-8?B??=", 0, b""),
    ("missing padding", "unwrap", b"=?UTF-8?B?c3R?=", 1, b""),
    (
        "75 bytes",
        "unwrap",
        b"=?ISO-8859-1?Q?aaaaaaaaaaaaaaaaaaaaaaaaaaaaaaaaaaaaaaaaaaaaaaaaaaaaaaaaaa?=",
        0,
        b"aaaaaaaaaaaaaaaaaaaaaaaaaaaaaaaaaaaaaaaaaaaaaaaaaaaaaaaaaa",
    ),
    ("76 bytes", "unwrap", LONG, 1, b""),
    (
        "no encoding of this letter",
        "unwrap",
        b"=?utf-8?X?a?=",
        1,
        b"",
    ),
    (
        "no encoding of two letters",
        "unwrap",
        b"=?utf-8?QQ?a?=",
        1,
        b"",
    ),
    ("a cut mark", "unwrap", b"\xFF\xFE", 1, b""),
    ("a mark", "unwrap", b"\xEF\xBB\xBFa", 0, b"a"),
    (
        "underscores at the end",
        "unwrap",
        b"=?utf-8?Q?a__?=",
        0,
        b"a",
    ),
    (
        "an unknown charset",
        "unwrap",
        b"=?x-none?Q?=E9?=",
        0,
        b"\xEF\xBF\xBD",
    ),
    ("a quoted charset", "unwrap", b"=?\"x\"?Q?a?=", 0, b"a"),
    ("cut short", "unwrap", b"=?UTF-8?Q?a", 0, b"=?UTF-8?Q?a"),
    (
        "a bracket in the charset",
        "unwrap",
        b"=?ISO-8859-1(?Q?a?=",
        0,
        b"=?ISO-8859-1(?Q?a?=",
    ),
    (
        "a value beyond ASCII",
        "unwrap",
        b"=?UTF-8?Q?=C3=A4?=",
        0,
        b"\xC3\xA4",
    ),
];

// A word of 76 bytes.
const LONG: &[u8] = b"=?ISO-8859-1?Q?aaaaaaaaaaaaaaaaaaaaaaaaaaaaaaaaaaaaaaaaaaaaaaaaaaaaaaaaaaa?=";

const OPTIONS: [Row; 9] = [
    ("at the limit", "unwrap --limit 3", b"abc", 0, b"abc"),
    ("past the limit", "unwrap --limit=3", b"abcd", 6, b""),
    ("no byte", "unwrap --limit=0", b"a", 6, b""),
    ("a cut mark", "unwrap --strip-bom", b"\xFF\xFE", 0, b""),
    (
        "a marked header",
        "unwrap --buffer=4 --piece=1",
        b"\xFF\xFE=\0?\0u\0t\0f\0-\08\0?\0q\0?\0a\0_\0?\0=\0",
        0,
        b"a",
    ),
    (
        "a header by name",
        "unwrap --encoding windows-1252",
        b"\xE4=?utf-8?q?=C3=A4?=",
        0,
        b"\xC3\xA4\xC3\xA4",
    ),
    (
        "76 bytes, as spelled",
        "unwrap --strategy skip",
        LONG,
        0,
        LONG,
    ),
    (
        "76 bytes, decoded",
        "unwrap --strategy=decode --buffer=4 --piece 1",
        LONG,
        0,
        b"aaaaaaaaaaaaaaaaaaaaaaaaaaaaaaaaaaaaaaaaaaaaaaaaaaaaaaaaaaa",
    ),
    ("76 bytes, refused", "unwrap --strategy=abort", LONG, 1, b""),
];

// 77 digits.
const DIGITS: &[u8] =
    b"01234567890123456789012345678901234567890123456789012345678901234567890123456";

const QUOTED: [Row; 16] = [
    (
        "a full line and more",
        "qp-encode --line=10",
        b"0123456789X",
        0,
        b"012345678=\r\n9X",
    ),
    (
        "three zeroes in lines of six",
        "qp-encode --line 6",
        b"\0\0\0",
        0,
        b"=00=\r\n=00=00",
    ),
    (
        "a lone carriage return",
        "qp-encode",
        b"a\r\r\nb",
        0,
        b"a=0D\r\nb",
    ),
    (
        "a line break among any bytes",
        "qp-encode --binary",
        b"foo\r\n",
        0,
        b"foo=0D=0A",
    ),
    (
        "a text",
        "qp-encode",
        b"hello, \xE2\x82\xAC zone!",
        0,
        b"hello, =E2=82=AC zone!",
    ),
    ("too much", "qp-encode --limit=3", b"abcd", 6, b""),
    ("a soft end", "qp-decode --strict", b"a=\r\n", 0, b"a"),
    (
        "a soft end behind a hard one",
        "qp-decode --strict",
        b"x\r\na=\r\n",
        10,
        b"",
    ),
    ("77 digits", "qp-decode --strict", DIGITS, 10, b""),
    (
        "77 digits of 77",
        "qp-decode --strict --line 77",
        DIGITS,
        0,
        DIGITS,
    ),
    ("lowercase", "qp-decode --strict", b"=3d", 10, b""),
    ("lowercase, robust", "qp-decode", b"=3d", 0, b"="),
    ("two equals signs", "qp-decode", b"==41", 0, b"==41"),
    (
        "no digits",
        "qp-decode",
        b"hello =world=",
        0,
        b"hello =world",
    ),
    (
        "escapes",
        "qp-decode",
        b"hello=3Dworld=0D=0A",
        0,
        b"hello=world\r\n",
    ),
    ("beyond ASCII", "qp-decode", b"a\xC3\xBFb", 0, b"ab"),
];

const TEXTS: [Row; 19] = [
    (
        "a cut unit",
        "text --buffer 4 --piece 1",
        b"\xFF\xFEa\0\0",
        0,
        b"a\xEF\xBF\xBD",
    ),
    (
        "UTF-16LE",
        "text",
        b"\xFF\xFEf\0o\0o\0b\0a\0r\0",
        0,
        b"foobar",
    ),
    ("a cut mark", "text", b"\xFF\xFE", 0, b"\xFF\xFE"),
    (
        "two marks",
        "text",
        b"\xEF\xBB\xBF\xEF\xBB\xBFa",
        0,
        b"\xEF\xBB\xBFa",
    ),
    (
        "two marks, stripped",
        "text --strip-bom",
        b"\xEF\xBB\xBF\xEF\xBB\xBFa",
        0,
        b"a",
    ),
    (
        "UTF-8 as it is",
        "text --utf8-passthru",
        b"\xEF\xBB\xBFfoo\xFFbar",
        0,
        b"\xEF\xBB\xBFfoo\xFFbar",
    ),
    (
        "UTF-8 as it is, stripped",
        "text --utf8-passthru --strip-bom",
        b"\xEF\xBB\xBFfoo\xFFbar",
        0,
        b"foo\xFFbar",
    ),
    ("at the limit", "text --limit 3", b"abc", 0, b"abc"),
    ("past the limit", "text --limit=3", b"abcd", 6, b"abcd"),
    (
        "Big5 without an index",
        "text --encoding big5",
        b"a",
        4,
        b"",
    ),
    (
        "UTF-16LE by name",
        "text --encoding utf-16le",
        b"\x16\x04",
        0,
        b"\xD0\x96",
    ),
    (
        "UTF-16BE by name",
        "text --encoding=utf-16be",
        b"\x04\x16",
        0,
        b"\xD0\x96",
    ),
    (
        "windows-1252 by name",
        "text --encoding latin1",
        b"\xA9",
        0,
        b"\xC2\xA9",
    ),
    ("one byte pieces", "text --piece=1", b"abc", 0, b"abc"),
    ("empty", "text", b"", 0, b""),
    ("UTF-16BE alone", "text", b"\xFE\xFF", 0, b"\xFE\xFF"),
    (
        "no sniffing",
        "text --no-bom-sniffing",
        b"\xFF\xFEa\0",
        0,
        b"\xFF\xFEa\0",
    ),
    (
        "no sniffing, stripped",
        "text --no-bom-sniffing --strip-bom",
        b"\xFF\xFEa\0",
        0,
        b"a\0",
    ),
    (
        "an overridden encoding",
        "text --encoding utf-8 --bom-override",
        b"\xFF\xFEa\0",
        0,
        b"a",
    ),
];

// Rows whose encodings need an index.
const INDEXED: [Row; 13] = [
    (
        "gb18030, four bytes cut short",
        "text --encoding gb18030 gb18030=ideograph gb18030-ranges=empty",
        b"\x81\x30\x81\x41",
        0,
        b"\xEF\xBF\xBD\x30\xE4\xB8\x84",
    ),
    (
        "gb18030, an astral run",
        "text gb18030=empty gb18030-ranges=runs --encoding=gb18030",
        b"\x90\x30\x81\x30",
        0,
        b"\xF0\x90\x80\x80",
    ),
    (
        "EUC-JP, three bytes without a scalar",
        "text --encoding euc-jp jis0208=empty jis0212=empty",
        b"\x8F\xA1\x41",
        0,
        b"\xEF\xBF\xBD\x41",
    ),
    (
        "files between options",
        "text jis0208=kana --encoding euc-jp jis0212=empty",
        b"\xA4\xA2",
        0,
        b"\xE3\x81\x82",
    ),
    (
        "Shift_JIS",
        "text --encoding shift_jis jis0208=kana-cr",
        b"a\x82\xA0\x81 ",
        0,
        b"a\xE3\x81\x82\xEF\xBF\xBD ",
    ),
    (
        "Big5, two scalars",
        "text --encoding=big5 big5=empty",
        b"\x88\x62",
        0,
        b"\xC3\x8A\xCC\x84",
    ),
    (
        "GBK, a letter",
        "text --encoding=gbk gb18030=gbk-zhe gb18030-ranges=empty",
        b"\xA7\xA8",
        0,
        b"\xD0\x96",
    ),
    (
        "EUC-KR, a letter",
        "text --encoding=euc-kr euc-kr=euc-kr-zhe",
        b"\xAC\xA8",
        0,
        b"\xD0\x96",
    ),
    (
        "Big5, a letter",
        "text --encoding=big5 big5=big5-zhe",
        b"\xC7\xFA",
        0,
        b"\xD0\x96",
    ),
    (
        "Shift_JIS, a letter",
        "text --encoding=shift_jis jis0208=jis0208-zhe",
        b"\x84\x47",
        0,
        b"\xD0\x96",
    ),
    (
        "EUC-JP, a letter",
        "text --encoding=euc-jp jis0212=empty jis0208=jis0208-zhe",
        b"\xA7\xA8",
        0,
        b"\xD0\x96",
    ),
    (
        "a header word in ISO-2022-JP",
        "unwrap jis0208=kana",
        b"=?iso-2022-jp?B?GyRCJCIbKEI=?=",
        0,
        b"\xE3\x81\x82",
    ),
    (
        "the same without its index",
        "unwrap",
        b"=?iso-2022-jp?B?GyRCJCIbKEI=?=",
        0,
        b"\x1B$B$\"\x1B(B",
    ),
];

// ISO-2022-JP over an index whose place 283 is U+3042.
const JIS: &str = "text --encoding=iso-2022-jp --buffer=4 --piece=1 jis0208=kana";

const ISO_2022_JP: [Row; 8] = [
    ("two bytes", JIS, b"\x1B$B$\"\x1B(B", 0, b"\xE3\x81\x82"),
    ("Roman", JIS, b"\x1B(J\x5C\x7E", 0, b"\xC2\xA5\xE2\x80\xBE"),
    ("katakana", JIS, b"\x1B(I1", 0, b"\xEF\xBD\xB1"),
    (
        "two escapes in a row",
        JIS,
        b"\x1B(B\x1B(Ba",
        0,
        b"\xEF\xBF\xBDa",
    ),
    ("no escape", JIS, b"\x1B$a", 0, b"\xEF\xBF\xBD$a"),
    (
        "a lead before a line feed",
        JIS,
        b"\x1B$B$\na",
        0,
        b"\xEF\xBF\xBD\xEF\xBF\xBD",
    ),
    (
        "an escape cut short",
        JIS,
        b"\x1B$B\x1B$",
        0,
        b"\xEF\xBF\xBD\xEF\xBF\xBD",
    ),
    (
        "a lead before an escape",
        JIS,
        b"\x1B$B$\x1B(Ba",
        0,
        b"\xEF\xBF\xBDa",
    ),
];

pub(super) const FAULTS: [Fault; 4] = [
    (
        b"=?UTF-8?B?c3R?=",
        Status::Header(words::Error::Evaluator(EvaluatorError::DecodeBase64Error)),
    ),
    (
        b"\xFF\xFE",
        Status::Header(words::Error::Evaluator(EvaluatorError::DecodeUtf8Error { valid_up_to: 0 })),
    ),
    (
        b"=?utf-8?X?a?=",
        Status::Header(words::Error::Parser(ParserError::ParseEncodingError('X'))),
    ),
    (
        b"=?utf-8?QQ?a?=",
        Status::Header(words::Error::Parser(ParserError::ParseEncodingTooBigError)),
    ),
];

// Words that are not understood, and encodings without an index.
pub(super) const WORDS: [Refusal; 22] = [
    ("", 0, Status::Usage),
    ("x", 0, Status::Usage),
    ("unwrap --limit x", 0, Status::Usage),
    ("unwrap --buffer 3", 0, Status::Usage),
    ("unwrap --buffer=1048577", 0, Status::Usage),
    ("unwrap --piece=0", 0, Status::Usage),
    ("unwrap --limit=1234567890", 0, Status::Usage),
    ("unwrap --limit=", 0, Status::Usage),
    ("unwrap --strategy Abort", 0, Status::Usage),
    ("unwrap --encoding x", 0, Status::Usage),
    ("unwrap a=b", 0, Status::Usage),
    ("unwrap big5=", 0, Status::Usage),
    ("unwrap big5", 0, Status::Usage),
    ("unwrap --strip-bom --strip-bom", 0, Status::Usage),
    ("unwrap --binary", 0, Status::Usage),
    ("unwrap --help", 0, Status::Usage),
    ("qp-encode --line 5", 0, Status::Usage),
    ("qp-decode --line=999", 0, Status::Usage),
    ("make", 0, Status::Usage),
    ("make 20001", 0, Status::Usage),
    (
        "unwrap --encoding=euc-kr",
        0,
        Status::NoTable(Encoding::EucKr),
    ),
    ("text --encoding big5", 0, Status::NoTable(Encoding::Big5)),
];

const BAD_LINE: TableFault = TableFault::BadLine(2);

const BIG5_AGAIN: TableFault = TableFault::AlreadyThere(IndexKind::Big5);

const TWICE: TableFault = TableFault::BadTable {
    row: 1,
    why: Why::Twice,
};

const ASCII: TableFault = TableFault::BadTable {
    row: 0,
    why: Why::Ascii,
};

const ORDER: TableFault = TableFault::BadTable {
    row: 0,
    why: Why::Order,
};

// The first file that can't be had or is wrong, in the order of the words.
pub(super) const FILES: [Refusal; 15] = [
    (
        "text big5=twice",
        1,
        Status::BadIndex(IndexFault {
            file: 0,
            fault: TWICE,
        }),
    ),
    (
        "text big5=big5-zhe euc-kr=empty big5=empty",
        3,
        Status::BadIndex(IndexFault {
            file: 2,
            fault: BIG5_AGAIN,
        }),
    ),
    // A bad line goes before a kind that is there, and that before a faulty row.
    (
        "unwrap big5=empty big5=line-2",
        2,
        Status::BadIndex(IndexFault {
            file: 1,
            fault: BAD_LINE,
        }),
    ),
    (
        "unwrap big5=empty big5=twice",
        2,
        Status::BadIndex(IndexFault {
            file: 1,
            fault: BIG5_AGAIN,
        }),
    ),
    (
        "text jis0208=ascii",
        1,
        Status::BadIndex(IndexFault {
            file: 0,
            fault: ASCII,
        }),
    ),
    (
        "text gb18030-ranges=runs-behind",
        1,
        Status::BadIndex(IndexFault {
            file: 0,
            fault: ORDER,
        }),
    ),
    (
        "unwrap big5=none",
        1,
        Status::Shelf(ShelfFault {
            file: 0,
            too_long: false,
        }),
    ),
    // The first of two files.
    (
        "unwrap big5=none jis0208=line-2",
        1,
        Status::Shelf(ShelfFault {
            file: 0,
            too_long: false,
        }),
    ),
    (
        "unwrap big5=line-2 jis0208=none",
        1,
        Status::BadIndex(IndexFault {
            file: 0,
            fault: BAD_LINE,
        }),
    ),
    // The words first, and an encoding without its index last.
    ("unwrap big5=none --limit x", 0, Status::Usage),
    ("unwrap big5=none a=b", 0, Status::Usage),
    (
        "text --encoding=big5 euc-kr=none",
        1,
        Status::Shelf(ShelfFault {
            file: 0,
            too_long: false,
        }),
    ),
    (
        "text --encoding=big5 euc-kr=empty",
        1,
        Status::NoTable(Encoding::Big5),
    ),
    (
        "unwrap jis0208=empty --encoding=euc-jp",
        1,
        Status::NoTable(Encoding::EucJp),
    ),
    (
        "unwrap --encoding=iso-2022-jp",
        0,
        Status::NoTable(Encoding::Iso2022Jp),
    ),
];

// Over a sink whose call of this number fails; a fifth call doesn't come.
pub(super) const FAILING: [Failing; 5] = [
    (1, Status::WriteFault, b""),
    (2, Status::WriteFault, b"a"),
    (3, Status::WriteFault, b"ab"),
    (4, Status::WriteFault, b"ab "),
    (5, Status::Done, b"ab c"),
];

// Over a shelf whose call of this number fails.
pub(super) const FETCHES: [(u64, Status); 3] = [
    (
        1,
        Status::Shelf(ShelfFault {
            file: 0,
            too_long: false,
        }),
    ),
    (
        2,
        Status::Shelf(ShelfFault {
            file: 1,
            too_long: false,
        }),
    ),
    (
        3,
        Status::BadIndex(IndexFault {
            file: 1,
            fault: BAD_LINE,
        }),
    ),
];

// Over a shelf of a file of the greatest length, and of one that is longer.
pub(super) const LENGTHS: [(&str, Status, &[u8]); 3] = [
    ("text --encoding=big5 big5=full", Status::Done, b"a"),
    (
        "unwrap big5=full euc-kr=long",
        Status::Shelf(ShelfFault {
            file: 1,
            too_long: true,
        }),
        b"",
    ),
    (
        "unwrap big5=long euc-kr=none",
        Status::Shelf(ShelfFault {
            file: 0,
            too_long: true,
        }),
        b"",
    ),
];

// One line on each refusal, and none where all was written.
pub(super) const NOTES: [Note; 12] = [
    ("unwrap", b"a", (0, 0), ""),
    (
        "unwrap",
        b"\xFF\xFE",
        (0, 0),
        "unwrap: the header cannot be shown\n",
    ),
    ("x", b"", (0, 0), "unwrap: the words are not understood\n"),
    ("unwrap", b"a", (1, 0), "unwrap: reading failed\n"),
    (
        "unwrap --limit=3",
        b"abcd",
        (0, 0),
        "unwrap: the input is too long\n",
    ),
    ("unwrap", b"a", (0, 1), "unwrap: writing failed\n"),
    ("qp-decode --strict", b"=", (0, 0), ""),
    (
        "qp-decode --strict",
        b"=4",
        (0, 0),
        "unwrap: the quoted-printable text is wrong\n",
    ),
    (
        "text --encoding=gbk",
        b"",
        (0, 0),
        "unwrap: the encoding has no index\n",
    ),
    (
        "text --limit=3",
        b"abcd",
        (0, 0),
        "unwrap: the input is too long\n",
    ),
    (
        "text big5=line-2",
        b"",
        (0, 0),
        "unwrap: an index file is wrong\n",
    ),
    (
        "text big5=none",
        b"",
        (0, 0),
        "unwrap: an index file cannot be read\n",
    ),
];
