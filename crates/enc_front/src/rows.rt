//! The rows of an index, checked one by one.

ghost use Rattle.std.specs.Prelude.{◌≡◌, ℕ, ◌+◌, ◌-◌, ◌<◌, ◌≤◌, true, false, length, drop, None};
ghost use Rattle.std.specs.Prelude.{IfErr, IfOk, IfSome, IsTrue};
ghost use Rattle.std.specs.List.Sorted.{IsNonDecreasingBy};
ghost use Rattle.std.specs.Option.{option_map};
ghost use Rattle.enc_drivers.specs.Lookup.{FindsScalars};
ghost use Rattle.enc_front.specs.Index.{index_places};
ghost use Rattle.enc_front.specs.Indexes.{IsMemoryOr, row_error};
ghost use Rattle.enc_front.specs.Kinds.{is_ranges};
ghost use Rattle.enc_front.specs.Ranges.{range_places};
ghost use Rattle.enc_front.specs.Scalars.{is_scalar};
ghost use Rattle.enc_front.specs.Tables.{NumbersAreScalars, SomeNumberFails, flat_why, follows};
ghost use Rattle.enc_front.specs.Tables.{pair_places, range_why, row_fault, run_end, run_fails};

use crate::index::{Cells, Index, sorted_keys};
use crate::tables::{IndexKind, TableError, Why};
use std::alloc::Global;

// The number of places of the ranges.
const RANGE_PLACES: u32 = 1_237_576;

// The flat index of a kind that is made of pairs of a place and a scalar.
pub(crate) fn flat_index(
    alloc: Global,
    kind: IndexKind,
    pairs: &[(u32, u32)],
) -> Result<Index, TableError>
    requires { is_ranges kind ≡ false }
    ensures places { IfOk result (λ index. index_places index ≡ pair_places pairs.now) }
    ensures sound { IfOk result (λ _. row_fault kind pairs.now ≡ None) }
    ensures fault { IfErr result (IsMemoryOr (option_map row_error (row_fault kind pairs.now))) }
{
    let mut cells = Cells::empty(alloc, kind.place_count() as usize)?;
    for (row, pair) in pairs.iter().enumerate() {
        let taken = cells.at(pair.0).is_some();
        match flat_why(kind, taken, *pair) {
            Some(why) => return Err(TableError::BadTable { row, why }),
            None => cells.put(pair.0, pair.1),
        }
    }
    let entries = cells.entries(alloc)?;
    let keys = sorted_keys(alloc, pairs)?;
    Ok(Index::of(cells, entries, keys))
}

// Why a row can't stand in a flat index, where `taken` says that an earlier one has its place.
fn flat_why(kind: IndexKind, taken: bool, row: (u32, u32)) -> Option<Why>
    ensures { result ≡ flat_why kind taken row }
{
    if kind.place_count() <= row.0 {
        return Some(Why::Place);
    }
    if taken {
        return Some(Why::Twice);
    }
    if row.1 < 0x80 {
        return Some(Why::Ascii);
    }
    if !is_scalar(row.1) {
        return Some(Why::NotScalar);
    }
    if kind.is_bmp() && 0xFFFF < row.1 {
        return Some(Why::NotBmp);
    }
    None
}

// Whether a number is a scalar's.
pub(crate) fn is_scalar(number: u32) -> bool
    ensures { result ≡ is_scalar number }
{
    number < 0xD800 || (0xE000 <= number && number < 0x11_0000)
}

// The first faulty row of ranges, counted from 0, and the first of its faults.
pub(crate) fn ranges_fault(rows: &[(u32, u32)]) -> Option<(usize, Why)>
    ensures { result ≡ row_fault IndexKind.Gb18030Ranges rows.now }
{
    let mut last = None;
    for (at, row) in rows.iter().enumerate() {
        match range_why(last, *row, end_behind(rows, at)) {
            Some(why) => return Some((at, why)),
            None => last = Some(row.0),
        }
    }
    None
}

// Where the run of a row ends: at the place of the row behind it, or at the end of the ranges.
pub(crate) fn end_behind(rows: &[(u32, u32)], at: usize) -> u32
    requires { at < length rows.now }
    ensures { result ≡ run_end (drop (at + 1) rows.now) }
{
    match rows.get(at + 1) {
        Some(next) => next.0,
        None => RANGE_PLACES,
    }
}

// Why a row can't stand in ranges behind a row at `last`, and before one at `end`.
fn range_why(last: Option<u32>, row: (u32, u32), end: u32) -> Option<Why>
    ensures { result ≡ range_why (follows last row.0) (run_fails row end) row }
{
    if RANGE_PLACES <= row.0 {
        return Some(Why::Place);
    }
    if !follows(last, row.0) {
        return Some(Why::Order);
    }
    if row.1 < 0x80 {
        return Some(Why::Ascii);
    }
    if !is_scalar(row.1) {
        return Some(Why::NotScalar);
    }
    if run_fails(row, end) {
        return Some(Why::Run);
    }
    None
}

// Whether a place comes behind the last one, and is 0 where there is none.
fn follows(last: Option<u32>, place: u32) -> bool
    ensures { result ≡ follows last place }
{
    match last {
        Some(before) => before < place,
        None => place == 0,
    }
}

// Whether a place of the row's run, which ends before `end`, gets no scalar: the parts of the run
// between the places that the ranges leave out.
fn run_fails(row: (u32, u32), end: u32) -> bool
    requires { IsTrue (is_scalar row.1) }
    ensures { result ≡ run_fails row end }
{
    if part_fails(row, 0, end.min(7457)) {
        return true;
    }
    if part_fails(row, 7458, end.min(39_420)) {
        return true;
    }
    part_fails(row, 189_000, end.min(RANGE_PLACES))
}

// Whether a place from `low` to before `high`, of those that aren't below the row's, gets a number
// that is no scalar. The numbers are in a row, so they are all scalars if they are all below the
// surrogates or all above them.
fn part_fails(row: (u32, u32), low: u32, high: u32) -> bool
    requires scalar { IsTrue (is_scalar row.1) }
    requires high { high ≤ 1237576 }
    ensures fails { result ≡ true → SomeNumberFails row low high }
    ensures passes { result ≡ false → NumbersAreScalars row low high }
{
    let from = low.max(row.0);
    if high <= from {
        return false;
    }
    let first = row.1 + (from - row.0);
    let last = row.1 + (high - 1 - row.0);
    0xD800 <= last && (first < 0xE000 || 0x11_0000 <= last)
}
