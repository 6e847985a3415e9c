//! Indexes (Encoding Standard, section 5): the flat ones, and the ranges of gb18030.

ghost use Rattle.std.specs.Prelude.{◌≡◌, ℕ, ◌+◌, ◌-◌, ◌<◌, ◌≤◌, ◌==◌, nat_lt, true, false, Some};
ghost use Rattle.std.specs.Prelude.{None, if◌then◌else◌, is_some, length, IfOk, IfErr, IfSome};
ghost use Rattle.std.specs.Prelude.{IfNone, IsTrue};
ghost use Rattle.std.specs.List.Sorted.{IsNonDecreasing, IsNonDecreasingBy};
ghost use Rattle.enc_drivers.specs.Lookup.{Places, FindsScalars};
ghost use Rattle.enc_front.specs.Cells.{cell_places, cell_entry, cell_entries, byte_entry};
ghost use Rattle.enc_front.specs.Cells.{HasByteEntries};
ghost use Rattle.enc_front.specs.Keys.{FindsPlaces, has_key, key_of, pair_keys};
ghost use Rattle.enc_front.specs.LeastRow.{IsLeastByRows, IsPlaceIn, under, with_7457};
ghost use Rattle.enc_front.specs.Ranges.{is_outside, range_places};
ghost use Rattle.enc_front.specs.Scalars.{is_scalar};
ghost use Rattle.enc_front.specs.Stretch.{HasStretch};

use crate::rows::{end_behind, is_scalar};
use crate::stretch::Stretch;
use enc_drivers::lookup::Lookup;
use enc_handles::entry::entry_of;
use std::alloc::{AllocError, Global};

// Stands in a cell without a scalar.
const NONE: u32 = u32::MAX;

// A scalar or none at each of some places.
#[derive(Debug, Drop)]
pub(crate) struct Cells {
    cells: Vec<u32>,
}

impl Cells {
    // So many places, without a scalar.
    pub(crate) fn empty(alloc: Global, count: usize) -> Result<Cells, AllocError>
        ensures len { IfOk result (λ cells. length cells.cells.items ≡ count) }
        ensures none { IfOk result (λ cells. (place : ℕ)
            → cell_places cells.cells.items place ≡ None) }
    {
        let cells = vec![in alloc; NONE; count]?;
        Ok(Cells { cells })
    }

    // Puts a scalar at a place.
    pub(crate) fn put(&mut self, place: u32, scalar: u32)
        requires within { place < length self.old.cells.items }
        requires scalar { IsTrue (is_scalar scalar) }
        ensures len { length self.new.cells.items ≡ length self.old.cells.items }
        ensures put { (other : ℕ) → cell_places self.new.cells.items other
            ≡ (if place == other then Some scalar else cell_places self.old.cells.items other) }
    {
        self.cells[place as usize] = scalar;
    }

    // The entry of each byte of an encoding of one byte a scalar, or 0.
    fn byte_entries(&self) -> [u32; 256]
        ensures { HasByteEntries self.now.cells.items result }
    {
        let mut entries = [0; 256];
        for byte in 0..256u32 {
            entries[byte as usize] = self.byte_entry(byte);
        }
        entries
    }

    // The entries of the cells.
    pub(crate) fn entries(&self, alloc: Global) -> Result<Vec<u32>, AllocError>
        ensures { IfOk result (λ entries. entries.items ≡ cell_entries self.now.cells.items) }
    {
        entries_of(alloc, self.cells.as_slice())
    }

    // That of one.
    fn byte_entry(&self, byte: u32) -> u32
        ensures { result ≡ byte_entry self.now.cells.items byte }
    {
        if byte < 0x80 {
            return entry_of(byte as u16);
        }
        match self.cells.get((byte - 0x80) as usize) {
            Some(cell) => cell_entry(*cell),
            None => 0,
        }
    }

    // The scalar at a place, or none.
    pub(crate) fn at(&self, place: u32) -> Option<char>
        ensures { result ≡ cell_places self.now.cells.items place }
    {
        let cell = *self.cells.get(place as usize)?;
        char::from_u32(cell)
    }
}

// The entries of cells.
fn entries_of(alloc: Global, cells: &[u32]) -> Result<Vec<u32>, AllocError>
    ensures { IfOk result (λ entries. entries.items ≡ cell_entries cells.now) }
{
    let mut entries = Vec::with_capacity(alloc, cells.len())?;
    for cell in cells {
        entries.push(cell_entry(*cell))?;
    }
    Ok(entries)
}

// The entry of a cell's scalar up to U+FFFF, or 0.
fn cell_entry(cell: u32) -> u32
    ensures { result ≡ cell_entry cell }
{
    if is_scalar(cell) && cell < 0x1_0000 {
        entry_of(cell as u16)
    } else {
        0
    }
}

// An index with a scalar or none at each of its places and its entry, a key for each scalar and
// its place, in the order of the scalars, the longest stretch of these, and the entries of bytes by
// the first 128 places.
#[derive(Debug, Drop)]
pub(crate) struct Index {
    cells: Cells,
    entries: Vec<u32>,
    keys: Vec<u64>,
    stretch: Stretch,
    byte_entries: [u32; 256],
    ghost sorted: { IsNonDecreasing keys.items },
    ghost finds: { FindsPlaces keys.items (cell_places cells.cells.items) },
    ghost stretched: { HasStretch keys.items stretch },
    ghost entered: { entries.items ≡ cell_entries cells.cells.items },
    ghost ready: { HasByteEntries cells.cells.items byte_entries },
}

impl Index {
    ghost use Rattle.enc_drivers.specs.Lookup.{least_place};
    ghost use Rattle.enc_front.specs.Index.{index_places};

    // The index of these cells, entries and keys.
    pub(crate) fn of(cells: Cells, entries: Vec<u32>, keys: Vec<u64>) -> Index
        requires entered { entries.items ≡ cell_entries cells.cells.items }
        requires sorted { IsNonDecreasing keys.items }
        requires finds { FindsPlaces keys.items (cell_places cells.cells.items) }
        ensures { cell_places result.cells.cells.items ≡ cell_places cells.cells.items }
    {
        let stretch = Stretch::longest_of(keys.as_slice());
        let byte_entries = cells.byte_entries();
        Index {
            cells,
            entries,
            keys,
            stretch,
            byte_entries,
        }
    }

    // The least place below one that holds a scalar, by the keys.
    fn place_by_keys(&self, scalar: u32, below: u32) -> Option<u32>
        ensures { result ≡ least_place (index_places self.now) scalar below }
    {
        let least = key_of(scalar, 0);
        let keys = self.keys.as_slice();
        let front = keys.partition_point(|key| *key < least);
        let key = *keys.get(front)?;
        place_below(key - least, below)
    }
}

impl Lookup for Index {
    ghost use Rattle.enc_front.specs.Index.{index_places};
    ghost use Rattle.enc_front.specs.Lemmas.Places.{cells_find_scalars};

    ghost places = { index_places };

    fn at(&self, place: u32) -> Option<char> {
        self.cells.at(place)
    }

    fn place_of(&self, scalar: char, below: u32) -> Option<u32> {
        let scalar = u32::from(scalar);
        match self.stretch.place_of(scalar) {
            Some(place) => place_below(place, below),
            None => self.place_by_keys(scalar, below),
        }
    }

    #[inline(always)]
    fn entry(&self, place: u32) -> u32 {
        match self.entries.get(place as usize) {
            Some(entry) => *entry,
            None => 0,
        }
    }

    #[inline(always)]
    fn byte_entries(&self) -> Option<&[u32; 256]> {
        Some(&self.byte_entries)
    }

    ghost scalars = { λ index. cells_find_scalars index.cells.cells.items };
}

// The keys of pairs of a place and a scalar, in their order.
pub(crate) fn sorted_keys(alloc: Global, pairs: &[(u32, u32)]) -> Result<Vec<u64>, AllocError>
    ensures sorted { IfOk result (λ keys. IsNonDecreasing keys.items) }
    ensures keys { IfOk result (λ keys. (key : ℕ)
        → has_key keys.items key ≡ has_key (pair_keys pairs.now) key) }
{
    let mut keys = keys_of(alloc, pairs)?;
    keys.sort_unstable();
    Ok(keys)
}

// The keys of pairs of a place and a scalar.
fn keys_of(alloc: Global, pairs: &[(u32, u32)]) -> Result<Vec<u64>, AllocError>
    ensures { IfOk result (λ keys. keys.items ≡ pair_keys pairs.now) }
{
    let mut keys = Vec::with_capacity(alloc, pairs.len())?;
    for pair in pairs {
        keys.push(key_of(pair.1, pair.0))?;
    }
    Ok(keys)
}

// A number for a scalar and a place, in the order of the scalars, and of the places for each.
fn key_of(scalar: u32, place: u32) -> u64
    ensures { result ≡ key_of scalar place }
{
    u64::from(scalar) * 0x1_0000_0000 + u64::from(place)
}

// A number as a place, if it is below a place.
fn place_below(number: u64, below: u32) -> Option<u32>
    ensures { result ≡ (if nat_lt number below then Some number else None) }
{
    if number < u64::from(below) {
        Some(number as u32)
    } else {
        None
    }
}

// The ranges of gb18030: rows of a run's first place and its scalar, in the order of the places.
#[derive(Debug, Drop)]
pub(crate) struct Ranges {
    rows: Vec<(u32, u32)>,
    ghost sorted: { IsNonDecreasingBy (λ (row : ℕ × ℕ). row.0) rows.items },
    ghost sound: { FindsScalars (range_places rows.items) },
}

impl Ranges {
    // The ranges of these rows.
    pub(crate) fn of_rows(alloc: Global, rows: &[(u32, u32)]) -> Result<Ranges, AllocError>
        requires sorted { IsNonDecreasingBy (λ (row : ℕ × ℕ). row.0) rows.now }
        requires sound { FindsScalars (range_places rows.now) }
        ensures { IfOk result (λ ranges. ranges.rows.items ≡ rows.now) }
    {
        let rows = Vec::from_slice(alloc, rows)?;
        Ok(Ranges { rows })
    }
}

impl Lookup for Ranges {
    ghost use Rattle.enc_front.specs.Index.{ranges_places};

    ghost places = { ranges_places };

    fn at(&self, place: u32) -> Option<char> {
        if is_outside(place) {
            return None;
        }
        if place == 7457 {
            return Some('\u{E7C7}');
        }
        let rows = self.rows.as_slice();
        let behind = rows.partition_point(|row| row.0 <= place);
        if behind == 0 {
            return None;
        }
        let (first, scalar) = rows[behind - 1];
        char::from_u32(scalar + (place - first))
    }

    // Goes over the rows, of which the standard has some two hundred: the runs of checked rows may
    // stand in any order of their scalars.
    fn place_of(&self, scalar: char, below: u32) -> Option<u32> {
        let by_rows = place_by_rows(self.rows.as_slice(), u32::from(scalar));
        under(with_7457(by_rows, u32::from(scalar)), below)
    }

    ghost scalars = { λ ranges. ranges.sound };
}

// The least place but 7457 that has a scalar by the rows, or none.
fn place_by_rows(rows: &[(u32, u32)], scalar: u32) -> Option<u32>
    requires { IsNonDecreasingBy (λ (row : ℕ × ℕ). row.0) rows.now }
    ensures { IsLeastByRows rows.now scalar result }
{
    for (at, row) in rows.iter().enumerate() {
        match place_in(*row, end_behind(rows, at), scalar) {
            Some(place) => return Some(place),
            None => (),
        }
    }
    None
}

// The place in the run of a row, which ends before `end`, that has the scalar by the row's number,
// or none.
fn place_in(row: (u32, u32), end: u32, scalar: u32) -> Option<u32>
    ensures { IsPlaceIn row end scalar result }
{
    if scalar < row.1 {
        return None;
    }
    let offset = scalar - row.1;
    if end.saturating_sub(row.0) <= offset {
        return None;
    }
    let place = row.0 + offset;
    if is_outside(place) {
        return None;
    }
    if place == 7457 {
        return None;
    }
    Some(place)
}

// With place 7457, which has U+E7C7 whatever the rows.
fn with_7457(place: Option<u32>, scalar: u32) -> Option<u32>
    ensures { result ≡ with_7457 place scalar }
{
    if scalar != 0xE7C7 {
        return place;
    }
    match place {
        Some(place) => Some(place.min(7457)),
        None => Some(7457),
    }
}

// A place, if it is below another.
fn under(place: Option<u32>, below: u32) -> Option<u32>
    ensures { result ≡ under place below }
{
    match place {
        Some(place) => { if place < below { Some(place) } else { None } }
        None => None,
    }
}

// Whether the ranges leave out a place, whatever the rows.
fn is_outside(place: u32) -> bool
    ensures { result ≡ is_outside place }
{
    (39_420 <= place && place < 189_000) || 1_237_575 < place
}

// An index of either form.
#[derive(Debug, Drop)]
pub(crate) enum AnyIndex {
    // With a cell for each place.
    OfCells(Index),
    // With a row for each run of places.
    OfRanges(Ranges),
}
