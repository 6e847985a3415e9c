//! The words for kinds of indexes.
ghost use Rattle.std.specs.Prelude.{◌≡◌};
ghost use Rattle.unwrap.specs.Values.{kind_in, kind_of, rows_of};

use enc_front::{IndexKind, SingleName};

// The word for each kind of index: for those of encodings of one byte a scalar, the encoding's name
// in lower case.
const KIND_WORDS: [(&str, IndexKind); 26] = [
    ("big5", IndexKind::Big5),
    ("euc-kr", IndexKind::EucKr),
    ("jis0208", IndexKind::Jis0208),
    ("jis0212", IndexKind::Jis0212),
    ("gb18030", IndexKind::Gb18030),
    ("gb18030-ranges", IndexKind::Gb18030Ranges),
    ("ibm866", IndexKind::Single(SingleName::Ibm866)),
    ("iso-8859-2", IndexKind::Single(SingleName::Iso8859_2)),
    ("iso-8859-4", IndexKind::Single(SingleName::Iso8859_4)),
    ("iso-8859-5", IndexKind::Single(SingleName::Iso8859_5)),
    ("iso-8859-7", IndexKind::Single(SingleName::Iso8859_7)),
    ("iso-8859-8", IndexKind::Single(SingleName::Iso8859_8)),
    ("iso-8859-13", IndexKind::Single(SingleName::Iso8859_13)),
    ("iso-8859-15", IndexKind::Single(SingleName::Iso8859_15)),
    ("koi8-r", IndexKind::Single(SingleName::Koi8R)),
    ("koi8-u", IndexKind::Single(SingleName::Koi8U)),
    ("macintosh", IndexKind::Single(SingleName::Macintosh)),
    ("windows-874", IndexKind::Single(SingleName::Windows874)),
    ("windows-1250", IndexKind::Single(SingleName::Windows1250)),
    ("windows-1251", IndexKind::Single(SingleName::Windows1251)),
    ("windows-1253", IndexKind::Single(SingleName::Windows1253)),
    ("windows-1254", IndexKind::Single(SingleName::Windows1254)),
    ("windows-1255", IndexKind::Single(SingleName::Windows1255)),
    ("windows-1256", IndexKind::Single(SingleName::Windows1256)),
    ("windows-1257", IndexKind::Single(SingleName::Windows1257)),
    ("windows-1258", IndexKind::Single(SingleName::Windows1258)),
];

// The kind of the first row with this word.
fn kind_in(rows: &[(&str, IndexKind)], word: &str) -> Option<IndexKind>
    ensures { result ≡ kind_in (rows_of rows.now) word.now }
{
    for row in rows {
        if row.0 == word {
            return Some(row.1);
        }
    }
    None
}

// The kind of an index by its word.
pub(super) fn kind_of(word: &str) -> Option<IndexKind>
    ensures { result ≡ kind_of word.now }
{
    kind_in(&KIND_WORDS, word)
}
