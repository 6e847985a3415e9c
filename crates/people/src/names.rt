//! Charsets by the names that mailers and users write (RFC 2047, section 2; RFC 2231, section 5;
//! Encoding Standard, section 4.2).
ghost use Rattle.std.specs.Prelude.{◌≡◌, ◌==◌, IfSome, IsTrue};
ghost use Rattle.std.specs.List.{before_first};
ghost use Rattle.std.specs.Str.{str_eq_ignore_ascii_case};
ghost use Rattle.enc_front.specs.Encoding.{label_rows, find_label};
ghost use Rattle.enc_front.specs.Indexes.{indexes_of, known};
ghost use Rattle.people.specs.Names.{people_label, without_language, named};

use enc_front::{Encoding, SingleName, Tables};
use memchr::memchr;

// Names that are no labels of the Encoding Standard's section 4.2, but stand in real mail.
pub(crate) const OTHER_NAMES: [(&[u8], Encoding); 12] = [
    (b"cp932", Encoding::ShiftJis),
    (b"ms932", Encoding::ShiftJis),
    (b"shiftjis", Encoding::ShiftJis),
    (b"cp936", Encoding::Gbk),
    (b"ms936", Encoding::Gbk),
    (b"windows-936", Encoding::Gbk),
    (b"cp949", Encoding::EucKr),
    (b"cp950", Encoding::Big5),
    (b"eucjp", Encoding::EucJp),
    (b"ujis", Encoding::EucJp),
    (b"koi8r", Encoding::Single(SingleName::Koi8R)),
    (b"latin-1", Encoding::Windows1252),
];

fn is_same_name(a: &[u8], b: &[u8]) -> bool
    ensures { result ≡ str_eq_ignore_ascii_case a.now b.now }
{
    a.eq_ignore_ascii_case(b)
}

// The encoding of the first of these names that the name is, in any ASCII case.
fn find_name(rows: &[(&[u8], Encoding)], name: &[u8]) -> Option<Encoding>
    ensures { result ≡ find_label (label_rows rows.now) name.now }
{
    for row in rows {
        if is_same_name(row.0, name) {
            return Some(row.1);
        }
    }
    None
}

/// The encoding that a charset's name means, without regard to ASCII white
/// space at its ends (tab, LF, FF, CR, space) and to ASCII case: the one with
/// this label by the Encoding Standard, section 4.2, or else by one of a few
/// names that real mail has besides (`cp932`, `ms932`, `shiftjis`, `cp936`,
/// `ms936`, `windows-936`, `cp949`, `cp950`, `eucjp`, `ujis`, `koi8r`,
/// `latin-1`); none for an unknown name.
pub fn people_label(label: &[u8]) -> Option<Encoding>
    ensures { result ≡ people_label label.now }
{
    match Encoding::for_label(label) {
        Some(encoding) => Some(encoding),
        None => find_name(&OTHER_NAMES, label.trim_ascii()),
    }
}

// The name of a charset field, without the language behind `*`.
fn without_language(field: &[u8]) -> &[u8]
    ensures { result.now ≡ without_language field.now }
{
    match memchr(b'*', field) {
        Some(end) => &field[..end],
        None => field,
    }
}

// The encoding that a charset field names, where the tables have what it needs.
pub(crate) fn named(field: &[u8], tables: &Tables) -> Option<Encoding>
    ensures value { result ≡ named field.now (indexes_of tables.now) }
    ensures known { IfSome result (λ e. IsTrue (known e (indexes_of tables.now))) }
{
    let encoding = people_label(without_language(field))?;
    if tables.has(encoding) {
        Some(encoding)
    } else {
        None
    }
}
