use super::*;
use crate::testing::same;
use IndexKind::*;
use enc_drivers::lookup::Lookup;
use std::alloc::Global;
use std::process::Abort;
use std::test::Fail;

// A kind, pairs, the first faulty one, and its first fault.
type Row = (IndexKind, &'static [(u32, u32)], usize, Why);

// Each fault in the first and in the second row, the first of several, and how many places there
// are.
const FAULTS: [Row; 27] = [
    (EucKr, &[(23_940, 0x4E00)], 0, Why::Place),
    (EucKr, &[(23_939, 0x4E00), (23_940, 0x4E00)], 1, Why::Place),
    (EucKr, &[(0, 0x7F)], 0, Why::Ascii),
    (EucKr, &[(0, 0x80), (1, 0x7F)], 1, Why::Ascii),
    (EucKr, &[(0, 0xD800)], 0, Why::NotScalar),
    (EucKr, &[(0, 0xD7FF), (1, 0x11_0000)], 1, Why::NotScalar),
    (EucKr, &[(0, 0x1_0000)], 0, Why::NotBmp),
    (EucKr, &[(0, 0xFFFF), (1, 0x10_FFFF)], 1, Why::NotBmp),
    (EucKr, &[(23_940, 0x41)], 0, Why::Place),
    (EucKr, &[(5, 0x4E00), (5, 0x41)], 1, Why::Twice),
    (Big5, &[(5, 0x4E00), (5, 0x4E01)], 1, Why::Twice),
    (Big5, &[(19_782, 0x4E00)], 0, Why::Place),
    (Jis0208, &[(11_280, 0x4E00)], 0, Why::Place),
    (Jis0212, &[(8_836, 0x4E00)], 0, Why::Place),
    (Gb18030, &[(23_940, 0x4E00)], 0, Why::Place),
    (Single(SingleName::Koi8R), &[(128, 0xA0)], 0, Why::Place),
    (Gb18030Ranges, &[(1_237_576, 0x80)], 0, Why::Place),
    (Gb18030Ranges, &[(0, 0x80), (1_237_576, 0x80)], 0, Why::Run),
    (Gb18030Ranges, &[(1, 0x80)], 0, Why::Order),
    (Gb18030Ranges, &[(0, 0x80), (0, 0x81)], 1, Why::Order),
    (Gb18030Ranges, &[(0, 0)], 0, Why::Ascii),
    (Gb18030Ranges, &[(0, 0x80), (189_000, 0x7F)], 1, Why::Ascii),
    (Gb18030Ranges, &[(0, 0xD800)], 0, Why::NotScalar),
    (
        Gb18030Ranges,
        &[(0, 0x80), (189_000, 0x11_0000)],
        1,
        Why::NotScalar,
    ),
    (Gb18030Ranges, &[(0, 0x80)], 0, Why::Run),
    (
        Gb18030Ranges,
        &[(0, 0x80), (189_000, 0x1_0001)],
        1,
        Why::Run,
    ),
    (
        Gb18030Ranges,
        &[(0, 0x80), (36, 0xA5), (36, 0xA6)],
        2,
        Why::Order,
    ),
];

// Each refused index leaves the tables as before: a good one of its kind is taken then.
fn check_fault(
    rt: &impl Abort,
    alloc: Global,
    kind: IndexKind,
    pairs: &[(u32, u32)],
    fault: TableError,
) {
    let mut tables = Tables::new();
    same(rt, &tables.add(alloc, kind, pairs), &Err(fault), &pairs);
    let good: &[(u32, u32)] = if kind == Gb18030Ranges {
        &[(0, 0x80), (189_000, 0x1_0000)]
    } else {
        &[(0, 0x80)]
    };
    same(rt, &tables.add(alloc, kind, good), &Ok(()), &pairs);
}

#[test]
fn names_the_first_fault(rt: HostRuntime) {
    for fault in &FAULTS {
        let (kind, pairs, row, why) = *fault;
        check_fault(
            &rt,
            rt.alloc(),
            kind,
            pairs,
            TableError::BadTable { row, why },
        );
    }
}

// A kind, pairs, whether they are taken, an encoding that has its indexes then, and whether it had
// them before.
type Step = (IndexKind, &'static [(u32, u32)], bool, Encoding, bool);

const STEPS: [Step; 4] = [
    (Big5, &[], true, Encoding::Big5, false),
    (Big5, &[(0, 0)], false, Encoding::Big5, true),
    (Jis0208, &[], true, Encoding::ShiftJis, false),
    (Jis0212, &[], true, Encoding::EucJp, false),
];

// Adds an index, which is taken or else refused as the second one of its kind.
fn check_add(
    rt: &impl Abort,
    alloc: Global,
    tables: &mut Tables,
    kind: IndexKind,
    pairs: &[(u32, u32)],
    is_taken: bool,
) {
    let want = if is_taken {
        Ok(())
    } else {
        Err(TableError::AlreadyThere(kind))
    };
    same(rt, &tables.add(alloc, kind, pairs), &want, &kind);
}

#[test]
fn takes_each_kind_once(rt: HostRuntime) {
    let mut tables = Tables::new();
    for step in &STEPS {
        let (kind, pairs, is_taken, encoding, is_there) = *step;
        same(&rt, &tables.has(encoding), &is_there, &encoding);
        check_add(&rt, rt.alloc(), &mut tables, kind, pairs, is_taken);
        same(&rt, &tables.has(encoding), &true, &encoding);
    }
    assert!(rt; !tables.has(Encoding::Gb18030));
}

// A scalar, a bound, and the least place below it that holds the scalar.
type Place = (char, u32, Option<u32>);

const FLAT: [Place; 4] = [
    ('\u{416}', u32::MAX, Some(9)),
    ('\u{416}', 9, None),
    ('\u{20000}', 1, Some(0)),
    ('A', u32::MAX, None),
];

const RANGES: [Place; 6] = [
    ('\u{a4}', 1_237_576, None),
    ('\u{a6}', 1_237_576, Some(37)),
    ('\u{1da2}', 1_237_576, None),
    ('\u{e7c7}', 7458, Some(7457)),
    ('\u{e7c7}', 7457, None),
    ('\u{10ffff}', u32::MAX, Some(1_237_575)),
];

fn check_place<L: Lookup>(rt: &impl Abort, index: &L, scalar: char, below: u32, want: Option<u32>) {
    same(rt, &index.place_of(scalar, below), &want, &(scalar, below));
}

fn check_places<L: Lookup>(rt: &impl Abort, index: &L, rows: &[Place]) {
    for row in rows {
        let (scalar, below, want) = *row;
        check_place(rt, index, scalar, below, want);
    }
}

#[test]
fn finds_places(rt: HostRuntime) -> Result<(), Fail> {
    let mut tables = Tables::new();
    let pairs = [(11_142, 0x416), (9, 0x416), (0, 0x2_0000)];
    check_add(&rt, rt.alloc(), &mut tables, Big5, &pairs, true);
    let index = tables.index(IndexKind::Big5).ok_or("no index")?;
    check_places(&rt, index, &FLAT);
    let pairs = [(0, 0x80), (36, 0xA5), (39_394, 0xA6), (189_000, 0x1_0000)];
    check_add(&rt, rt.alloc(), &mut tables, Gb18030Ranges, &pairs, true);
    let ranges = tables.ranges().ok_or("no ranges")?;
    check_places(&rt, ranges, &RANGES);
    Ok(())
}

const SCALARS: [(u32, Option<char>); 7] = [
    (36, Some('\u{a5}')),
    (7457, Some('\u{e7c7}')),
    (39_419, Some('\u{9a7c}')),
    (39_420, None),
    (188_999, None),
    (1_237_575, Some('\u{10ffff}')),
    (1_237_576, None),
];

fn check_scalar<L: Lookup>(rt: &impl Abort, index: &L, place: u32, want: Option<char>) {
    same(rt, &index.at(place), &want, &place);
}

#[test]
fn looks_places_up(rt: HostRuntime) -> Result<(), Fail> {
    let mut tables = Tables::new();
    let pairs = [(0, 0x80), (36, 0xA5), (189_000, 0x1_0000)];
    check_add(&rt, rt.alloc(), &mut tables, Gb18030Ranges, &pairs, true);
    let ranges = tables.ranges().ok_or("no ranges")?;
    for row in &SCALARS {
        let (place, want) = *row;
        check_scalar(&rt, ranges, place, want);
    }
    Ok(())
}

const TEXTS: [(Why, &str); 7] = [
    (Why::Place, "row 3: the place is past the last one"),
    (
        Why::Order,
        "row 3: the place doesn't follow the one before it",
    ),
    (Why::Twice, "row 3: a row before it has the place"),
    (Why::Ascii, "row 3: the value is an ASCII character"),
    (Why::NotScalar, "row 3: the value is no scalar value"),
    (Why::NotBmp, "row 3: the value is above U+FFFF"),
    (Why::Run, "row 3: a place of the run gets no scalar value"),
];

fn check_text(rt: &impl Abort, alloc: Global, error: &TableError, want: &str) -> Result<(), Fail> {
    let text = format!(in alloc; "{error}")?;
    same(rt, &text.as_str(), &want, &want);
    Ok(())
}

#[test]
fn shows_faults(rt: HostRuntime) -> Result<(), Fail> {
    for row in &TEXTS {
        let (why, want) = *row;
        check_text(&rt, rt.alloc(), &TableError::BadTable { row: 3, why }, want)?;
    }
    check_text(&rt, rt.alloc(), &TableError::Memory, "no memory")?;
    let there = TableError::AlreadyThere(IndexKind::Big5);
    check_text(&rt, rt.alloc(), &there, "there is an index of this kind")
}
