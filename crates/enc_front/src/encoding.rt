//! The encodings by name and by label.

ghost use Rattle.std.specs.Prelude.{◌≡◌, ◌≤◌, length, IfSome, IsTrue, true};
ghost use Rattle.std.specs.Str.{str_eq_ignore_ascii_case};
ghost use Rattle.std.specs.Ordering.{is_lt};
ghost use Rattle.enc_front.specs.LabelOrder.{label_order, rows_rise};
ghost use Rattle.enc_front.specs.Encoding.{name_text, label_rows, find_label};
ghost use Rattle.enc_front.specs.Encoding.{label as encoding_labelled};
ghost use Rattle.enc_front.specs.Marks.{mark};
ghost use Rattle.enc_front.specs.Indexes.{is_built_in, kinds};
ghost use Rattle.enc_front.specs.Encoder.{has_encoder};
ghost use Rattle.enc_front.specs.Needs.{kinds_in};

use crate::tables::IndexKind;

#[cfg(test)]
mod tests;

/// An encoding of the Encoding Standard.
#[derive(Clone, Copy, Debug, PartialEq, Eq, Hash)]
pub enum Encoding {
    /// UTF-8.
    Utf8,
    /// UTF-16BE.
    Utf16Be,
    /// UTF-16LE.
    Utf16Le,
    /// windows-1252.
    Windows1252,
    /// x-user-defined.
    UserDefined,
    /// An encoding of one byte a scalar with an index of its own.
    Single(SingleName),
    /// ISO-8859-8-I, which decodes as ISO-8859-8.
    Iso8859_8I,
    /// GBK.
    Gbk,
    /// gb18030.
    Gb18030,
    /// Big5.
    Big5,
    /// EUC-JP.
    EucJp,
    /// ISO-2022-JP.
    Iso2022Jp,
    /// Shift_JIS.
    ShiftJis,
    /// EUC-KR.
    EucKr,
}

/// An encoding of one byte a scalar, with an index of 128 places.
#[derive(Clone, Copy, Debug, PartialEq, Eq, Hash)]
pub enum SingleName {
    /// IBM866.
    Ibm866,
    /// ISO-8859-2.
    Iso8859_2,
    /// ISO-8859-4.
    Iso8859_4,
    /// ISO-8859-5.
    Iso8859_5,
    /// ISO-8859-7.
    Iso8859_7,
    /// ISO-8859-8.
    Iso8859_8,
    /// ISO-8859-13.
    Iso8859_13,
    /// ISO-8859-15.
    Iso8859_15,
    /// KOI8-R.
    Koi8R,
    /// KOI8-U.
    Koi8U,
    /// macintosh.
    Macintosh,
    /// windows-874.
    Windows874,
    /// windows-1250.
    Windows1250,
    /// windows-1251.
    Windows1251,
    /// windows-1253.
    Windows1253,
    /// windows-1254.
    Windows1254,
    /// windows-1255.
    Windows1255,
    /// windows-1256.
    Windows1256,
    /// windows-1257.
    Windows1257,
    /// windows-1258.
    Windows1258,
}

// The labels of the Encoding Standard's section 4.2 that are known here, in order.
pub(crate) const LABELS: [(&[u8], Encoding); 162] = [
    (b"866", Encoding::Single(SingleName::Ibm866)),
    (b"ansi_x3.4-1968", Encoding::Windows1252),
    (b"ascii", Encoding::Windows1252),
    (b"big5", Encoding::Big5),
    (b"big5-hkscs", Encoding::Big5),
    (b"chinese", Encoding::Gbk),
    (b"cn-big5", Encoding::Big5),
    (b"cp1250", Encoding::Single(SingleName::Windows1250)),
    (b"cp1251", Encoding::Single(SingleName::Windows1251)),
    (b"cp1252", Encoding::Windows1252),
    (b"cp1253", Encoding::Single(SingleName::Windows1253)),
    (b"cp1254", Encoding::Single(SingleName::Windows1254)),
    (b"cp1255", Encoding::Single(SingleName::Windows1255)),
    (b"cp1256", Encoding::Single(SingleName::Windows1256)),
    (b"cp1257", Encoding::Single(SingleName::Windows1257)),
    (b"cp1258", Encoding::Single(SingleName::Windows1258)),
    (b"cp819", Encoding::Windows1252),
    (b"cp866", Encoding::Single(SingleName::Ibm866)),
    (b"csbig5", Encoding::Big5),
    (b"cseuckr", Encoding::EucKr),
    (b"cseucpkdfmtjapanese", Encoding::EucJp),
    (b"csgb2312", Encoding::Gbk),
    (b"csibm866", Encoding::Single(SingleName::Ibm866)),
    (b"csiso2022jp", Encoding::Iso2022Jp),
    (b"csiso88598i", Encoding::Iso8859_8I),
    (b"csisolatin1", Encoding::Windows1252),
    (b"csisolatin2", Encoding::Single(SingleName::Iso8859_2)),
    (b"csisolatin4", Encoding::Single(SingleName::Iso8859_4)),
    (b"csisolatin5", Encoding::Single(SingleName::Windows1254)),
    (b"csisolatin9", Encoding::Single(SingleName::Iso8859_15)),
    (
        b"csisolatincyrillic",
        Encoding::Single(SingleName::Iso8859_5),
    ),
    (b"csisolatingreek", Encoding::Single(SingleName::Iso8859_7)),
    (b"csisolatinhebrew", Encoding::Single(SingleName::Iso8859_8)),
    (b"cskoi8r", Encoding::Single(SingleName::Koi8R)),
    (b"csmacintosh", Encoding::Single(SingleName::Macintosh)),
    (b"csshiftjis", Encoding::ShiftJis),
    (b"csunicode", Encoding::Utf16Le),
    (b"cyrillic", Encoding::Single(SingleName::Iso8859_5)),
    (b"dos-874", Encoding::Single(SingleName::Windows874)),
    (b"euc-jp", Encoding::EucJp),
    (b"euc-kr", Encoding::EucKr),
    (b"gb18030", Encoding::Gb18030),
    (b"gb2312", Encoding::Gbk),
    (b"gb_2312", Encoding::Gbk),
    (b"gb_2312-80", Encoding::Gbk),
    (b"gbk", Encoding::Gbk),
    (b"greek", Encoding::Single(SingleName::Iso8859_7)),
    (b"hebrew", Encoding::Single(SingleName::Iso8859_8)),
    (b"ibm819", Encoding::Windows1252),
    (b"ibm866", Encoding::Single(SingleName::Ibm866)),
    (b"iso-10646-ucs-2", Encoding::Utf16Le),
    (b"iso-2022-jp", Encoding::Iso2022Jp),
    (b"iso-8859-1", Encoding::Windows1252),
    (b"iso-8859-11", Encoding::Single(SingleName::Windows874)),
    (b"iso-8859-13", Encoding::Single(SingleName::Iso8859_13)),
    (b"iso-8859-15", Encoding::Single(SingleName::Iso8859_15)),
    (b"iso-8859-2", Encoding::Single(SingleName::Iso8859_2)),
    (b"iso-8859-4", Encoding::Single(SingleName::Iso8859_4)),
    (b"iso-8859-5", Encoding::Single(SingleName::Iso8859_5)),
    (b"iso-8859-7", Encoding::Single(SingleName::Iso8859_7)),
    (b"iso-8859-8", Encoding::Single(SingleName::Iso8859_8)),
    (b"iso-8859-8-i", Encoding::Iso8859_8I),
    (b"iso-8859-9", Encoding::Single(SingleName::Windows1254)),
    (b"iso-ir-100", Encoding::Windows1252),
    (b"iso-ir-101", Encoding::Single(SingleName::Iso8859_2)),
    (b"iso8859-1", Encoding::Windows1252),
    (b"iso8859-11", Encoding::Single(SingleName::Windows874)),
    (b"iso8859-13", Encoding::Single(SingleName::Iso8859_13)),
    (b"iso8859-15", Encoding::Single(SingleName::Iso8859_15)),
    (b"iso8859-2", Encoding::Single(SingleName::Iso8859_2)),
    (b"iso8859-4", Encoding::Single(SingleName::Iso8859_4)),
    (b"iso8859-5", Encoding::Single(SingleName::Iso8859_5)),
    (b"iso8859-7", Encoding::Single(SingleName::Iso8859_7)),
    (b"iso8859-8", Encoding::Single(SingleName::Iso8859_8)),
    (b"iso8859-9", Encoding::Single(SingleName::Windows1254)),
    (b"iso88591", Encoding::Windows1252),
    (b"iso885911", Encoding::Single(SingleName::Windows874)),
    (b"iso885913", Encoding::Single(SingleName::Iso8859_13)),
    (b"iso885915", Encoding::Single(SingleName::Iso8859_15)),
    (b"iso88592", Encoding::Single(SingleName::Iso8859_2)),
    (b"iso88594", Encoding::Single(SingleName::Iso8859_4)),
    (b"iso88595", Encoding::Single(SingleName::Iso8859_5)),
    (b"iso88597", Encoding::Single(SingleName::Iso8859_7)),
    (b"iso88598", Encoding::Single(SingleName::Iso8859_8)),
    (b"iso88599", Encoding::Single(SingleName::Windows1254)),
    (b"iso_8859-1", Encoding::Windows1252),
    (b"iso_8859-15", Encoding::Single(SingleName::Iso8859_15)),
    (b"iso_8859-1:1987", Encoding::Windows1252),
    (b"iso_8859-2", Encoding::Single(SingleName::Iso8859_2)),
    (b"iso_8859-4", Encoding::Single(SingleName::Iso8859_4)),
    (b"iso_8859-5", Encoding::Single(SingleName::Iso8859_5)),
    (b"iso_8859-7", Encoding::Single(SingleName::Iso8859_7)),
    (b"iso_8859-8", Encoding::Single(SingleName::Iso8859_8)),
    (b"iso_8859-9", Encoding::Single(SingleName::Windows1254)),
    (b"koi", Encoding::Single(SingleName::Koi8R)),
    (b"koi8", Encoding::Single(SingleName::Koi8R)),
    (b"koi8-r", Encoding::Single(SingleName::Koi8R)),
    (b"koi8-ru", Encoding::Single(SingleName::Koi8U)),
    (b"koi8-u", Encoding::Single(SingleName::Koi8U)),
    (b"koi8_r", Encoding::Single(SingleName::Koi8R)),
    (b"korean", Encoding::EucKr),
    (b"ks_c_5601-1987", Encoding::EucKr),
    (b"ksc5601", Encoding::EucKr),
    (b"ksc_5601", Encoding::EucKr),
    (b"l1", Encoding::Windows1252),
    (b"l2", Encoding::Single(SingleName::Iso8859_2)),
    (b"l4", Encoding::Single(SingleName::Iso8859_4)),
    (b"l5", Encoding::Single(SingleName::Windows1254)),
    (b"l9", Encoding::Single(SingleName::Iso8859_15)),
    (b"latin1", Encoding::Windows1252),
    (b"latin2", Encoding::Single(SingleName::Iso8859_2)),
    (b"latin4", Encoding::Single(SingleName::Iso8859_4)),
    (b"latin5", Encoding::Single(SingleName::Windows1254)),
    (b"logical", Encoding::Iso8859_8I),
    (b"mac", Encoding::Single(SingleName::Macintosh)),
    (b"macintosh", Encoding::Single(SingleName::Macintosh)),
    (b"ms_kanji", Encoding::ShiftJis),
    (b"shift-jis", Encoding::ShiftJis),
    (b"shift_jis", Encoding::ShiftJis),
    (b"sjis", Encoding::ShiftJis),
    (b"tis-620", Encoding::Single(SingleName::Windows874)),
    (b"ucs-2", Encoding::Utf16Le),
    (b"unicode", Encoding::Utf16Le),
    (b"unicode-1-1-utf-8", Encoding::Utf8),
    (b"unicode11utf8", Encoding::Utf8),
    (b"unicode20utf8", Encoding::Utf8),
    (b"unicodefeff", Encoding::Utf16Le),
    (b"unicodefffe", Encoding::Utf16Be),
    (b"us-ascii", Encoding::Windows1252),
    (b"utf-16", Encoding::Utf16Le),
    (b"utf-16be", Encoding::Utf16Be),
    (b"utf-16le", Encoding::Utf16Le),
    (b"utf-8", Encoding::Utf8),
    (b"utf8", Encoding::Utf8),
    (b"windows-1250", Encoding::Single(SingleName::Windows1250)),
    (b"windows-1251", Encoding::Single(SingleName::Windows1251)),
    (b"windows-1252", Encoding::Windows1252),
    (b"windows-1253", Encoding::Single(SingleName::Windows1253)),
    (b"windows-1254", Encoding::Single(SingleName::Windows1254)),
    (b"windows-1255", Encoding::Single(SingleName::Windows1255)),
    (b"windows-1256", Encoding::Single(SingleName::Windows1256)),
    (b"windows-1257", Encoding::Single(SingleName::Windows1257)),
    (b"windows-1258", Encoding::Single(SingleName::Windows1258)),
    (b"windows-31j", Encoding::ShiftJis),
    (b"windows-874", Encoding::Single(SingleName::Windows874)),
    (b"windows-949", Encoding::EucKr),
    (b"x-cp1250", Encoding::Single(SingleName::Windows1250)),
    (b"x-cp1251", Encoding::Single(SingleName::Windows1251)),
    (b"x-cp1252", Encoding::Windows1252),
    (b"x-cp1253", Encoding::Single(SingleName::Windows1253)),
    (b"x-cp1254", Encoding::Single(SingleName::Windows1254)),
    (b"x-cp1255", Encoding::Single(SingleName::Windows1255)),
    (b"x-cp1256", Encoding::Single(SingleName::Windows1256)),
    (b"x-cp1257", Encoding::Single(SingleName::Windows1257)),
    (b"x-cp1258", Encoding::Single(SingleName::Windows1258)),
    (b"x-euc-jp", Encoding::EucJp),
    (b"x-gbk", Encoding::Gbk),
    (b"x-mac-roman", Encoding::Single(SingleName::Macintosh)),
    (b"x-sjis", Encoding::ShiftJis),
    (b"x-unicode20utf8", Encoding::Utf8),
    (b"x-user-defined", Encoding::UserDefined),
    (b"x-x-big5", Encoding::Big5),
];

impl Encoding {
    /// The encoding with this label, without regard to ASCII white space at its ends (tab, LF, FF,
    /// CR, space) and to ASCII case; none for an unknown label (Encoding Standard, section 4.2).
    pub fn for_label(label: &[u8]) -> Option<Encoding>
        ensures { result ≡ encoding_labelled label.now }
    {
        find_label(&LABELS, label.trim_ascii())
    }

    /// The encoding of the byte order mark at the front of `bytes`, and the mark's length in bytes:
    /// EF BB BF is UTF-8, FE FF is UTF-16BE, FF FE is UTF-16LE (Encoding Standard, section 6).
    pub fn for_bom(bytes: &[u8]) -> Option<(Encoding, usize)>
        ensures mark { result ≡ mark bytes.now }
        ensures within { IfSome result (λ found. found.1 ≤ length bytes.now) }
        ensures built_in { IfSome result (λ found. IsTrue (is_built_in found.0)) }
    {
        if bytes.starts_with(b"\xEF\xBB\xBF") {
            Some((Encoding::Utf8, 3))
        } else if bytes.starts_with(b"\xFE\xFF") {
            Some((Encoding::Utf16Be, 2))
        } else if bytes.starts_with(b"\xFF\xFE") {
            Some((Encoding::Utf16Le, 2))
        } else {
            None
        }
    }

    /// The encoding's name.
    pub fn name(self) -> &'static str
        ensures { result.now ≡ name_text self }
    {
        match self {
            Encoding::Utf8 => "UTF-8",
            Encoding::Utf16Be => "UTF-16BE",
            Encoding::Utf16Le => "UTF-16LE",
            Encoding::Windows1252 => "windows-1252",
            Encoding::UserDefined => "x-user-defined",
            Encoding::Single(SingleName::Ibm866) => "IBM866",
            Encoding::Single(SingleName::Iso8859_2) => "ISO-8859-2",
            Encoding::Single(SingleName::Iso8859_4) => "ISO-8859-4",
            Encoding::Single(SingleName::Iso8859_5) => "ISO-8859-5",
            Encoding::Single(SingleName::Iso8859_7) => "ISO-8859-7",
            Encoding::Single(SingleName::Iso8859_8) => "ISO-8859-8",
            Encoding::Iso8859_8I => "ISO-8859-8-I",
            Encoding::Single(SingleName::Iso8859_13) => "ISO-8859-13",
            Encoding::Single(SingleName::Iso8859_15) => "ISO-8859-15",
            Encoding::Single(SingleName::Koi8R) => "KOI8-R",
            Encoding::Single(SingleName::Koi8U) => "KOI8-U",
            Encoding::Single(SingleName::Macintosh) => "macintosh",
            Encoding::Single(SingleName::Windows874) => "windows-874",
            Encoding::Single(SingleName::Windows1250) => "windows-1250",
            Encoding::Single(SingleName::Windows1251) => "windows-1251",
            Encoding::Single(SingleName::Windows1253) => "windows-1253",
            Encoding::Single(SingleName::Windows1254) => "windows-1254",
            Encoding::Single(SingleName::Windows1255) => "windows-1255",
            Encoding::Single(SingleName::Windows1256) => "windows-1256",
            Encoding::Single(SingleName::Windows1257) => "windows-1257",
            Encoding::Single(SingleName::Windows1258) => "windows-1258",
            Encoding::Gbk => "GBK",
            Encoding::Gb18030 => "gb18030",
            Encoding::Big5 => "Big5",
            Encoding::EucJp => "EUC-JP",
            Encoding::Iso2022Jp => "ISO-2022-JP",
            Encoding::ShiftJis => "Shift_JIS",
            Encoding::EucKr => "EUC-KR",
        }
    }

    // The kinds of index that the encoding needs.
    pub(crate) fn kinds(self) -> Kinds
        ensures { kinds_in result ≡ kinds self }
    {
        match self {
            Encoding::Utf8
            | Encoding::Utf16Be
            | Encoding::Utf16Le
            | Encoding::Windows1252
            | Encoding::UserDefined => Kinds::None,
            Encoding::Single(name) => Kinds::One(IndexKind::Single(name)),
            Encoding::Iso8859_8I => Kinds::One(IndexKind::Single(SingleName::Iso8859_8)),
            Encoding::Gbk | Encoding::Gb18030 => {
                Kinds::Two(IndexKind::Gb18030, IndexKind::Gb18030Ranges)
            }
            Encoding::Big5 => Kinds::One(IndexKind::Big5),
            Encoding::EucJp => Kinds::Two(IndexKind::Jis0208, IndexKind::Jis0212),
            Encoding::Iso2022Jp | Encoding::ShiftJis => Kinds::One(IndexKind::Jis0208),
            Encoding::EucKr => Kinds::One(IndexKind::EucKr),
        }
    }

    // Whether text is encoded in it.
    pub(crate) fn has_encoder(self) -> bool
        ensures { result ≡ has_encoder self }
    {
        !matches!(
            self,
            Encoding::Big5 | Encoding::ShiftJis | Encoding::Iso2022Jp
        )
    }

    /// The encoding decodes without an index: UTF-8, UTF-16BE, UTF-16LE, windows-1252 and
    /// x-user-defined.
    pub fn is_built_in(self) -> bool
        ensures { result ≡ is_built_in self }
    {
        match self.kinds() {
            Kinds::None => true,
            Kinds::One(_) | Kinds::Two(_, _) => false,
        }
    }
}

// The kinds of index that an encoding needs.
#[derive(Clone, Copy, Debug)]
pub(crate) enum Kinds {
    None,
    One(IndexKind),
    Two(IndexKind, IndexKind),
}

// The encoding of the first of these labels that the label is, in any ASCII case, by a binary
// search.
fn find_label(rows: &[(&[u8], Encoding)], label: &[u8]) -> Option<Encoding>
    requires { rows_rise (label_rows rows.now) ≡ true }
    ensures { result ≡ find_label (label_rows rows.now) label.now }
{
    let at = rows.partition_point(|row| is_before(row.0, label));
    let row = rows.get(at)?;
    if is_same_label(row.0, label) {
        return Some(row.1);
    }
    None
}

// Whether a label comes before another one, both in lower case.
fn is_before(a: &[u8], b: &[u8]) -> bool
    ensures { result ≡ is_lt (label_order a.now b.now) }
{
    for (i, x) in a.iter().enumerate() {
        let Some(y) = b.get(i) else {
            return false;
        };
        let x = x.to_ascii_lowercase();
        let y = y.to_ascii_lowercase();
        if x != y {
            return x < y;
        }
    }
    a.len() < b.len()
}

// Whether two labels differ at most in ASCII case.
fn is_same_label(a: &[u8], b: &[u8]) -> bool
    ensures { result ≡ str_eq_ignore_ascii_case a.now b.now }
{
    a.eq_ignore_ascii_case(b)
}
