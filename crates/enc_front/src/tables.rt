//! Indexes of scalars, which are handed in.

ghost use Rattle.std.specs.Prelude.{◌≡◌, ℕ, ◌≤◌, true, false, [], ◌∷◌, ◌++◌, None, Some, Err};
ghost use Rattle.std.specs.Prelude.{IfErr, IfOk, IfSome, OnOk, OnErr};
ghost use Rattle.std.specs.Option.{option_map};
ghost use Rattle.enc_drivers.specs.Lookup.{HasNoAstral};
ghost use Rattle.enc_front.specs.Index.{any_places, index_places, ranges_places, is_of_ranges};
ghost use Rattle.enc_front.specs.Kinds.{is_bmp, is_ranges, place_count, same_kind};

use crate::encoding::{Encoding, Kinds, SingleName};
use crate::index::{AnyIndex, Index, Ranges};
use crate::rows::{flat_index, ranges_fault};
use std::alloc::{AllocError, AllocFailed, Global};
use std::fmt;

/// Which index of the Encoding Standard's section 5 it is.
#[derive(Clone, Copy, Debug, PartialEq, Eq, Hash)]
pub enum IndexKind {
    /// Big5's, of 19782 places.
    Big5,
    /// EUC-KR's, of 23940 places.
    EucKr,
    /// jis0208, of 11280 places, for Shift_JIS and EUC-JP.
    Jis0208,
    /// jis0212, of 8836 places, for EUC-JP.
    Jis0212,
    /// gb18030's, of 23940 places, for gb18030 and GBK.
    Gb18030,
    /// gb18030's ranges, of 1237576 places, for gb18030 and GBK.
    Gb18030Ranges,
    /// That of an encoding of one byte a scalar, of 128 places.
    Single(SingleName),
}

impl IndexKind {
    // How many places an index of the kind has.
    pub(crate) fn place_count(self) -> u32
        ensures { result ≡ place_count self }
    {
        match self {
            IndexKind::Big5 => 19_782,
            IndexKind::EucKr | IndexKind::Gb18030 => 23_940,
            IndexKind::Jis0208 => 11_280,
            IndexKind::Jis0212 => 8_836,
            IndexKind::Gb18030Ranges => 1_237_576,
            IndexKind::Single(_) => 128,
        }
    }

    // Whether the rows are runs.
    fn is_ranges(self) -> bool
        ensures { result ≡ is_ranges self }
    {
        matches!(self, IndexKind::Gb18030Ranges)
    }

    // Whether no scalar above U+FFFF stands in the standard's index.
    pub(crate) fn is_bmp(self) -> bool
        ensures { result ≡ is_bmp self }
    {
        match self {
            IndexKind::Big5 | IndexKind::Gb18030Ranges => false,
            IndexKind::EucKr
            | IndexKind::Jis0208
            | IndexKind::Jis0212
            | IndexKind::Gb18030
            | IndexKind::Single(_) => true,
        }
    }
}

// Whether two kinds are the same.
fn is_same(a: IndexKind, b: IndexKind) -> bool
    ensures { result ≡ same_kind a b }
{
    a == b
}

/// Why a row can't stand in an index.
#[derive(Clone, Copy, Debug, PartialEq, Eq)]
pub enum Why {
    /// Its place isn't below the number of places of the kind.
    Place,
    /// Its place isn't above that of the row before it, or isn't 0 at the first row. Of ranges
    /// only.
    Order,
    /// A row before it has this place. Not of ranges.
    Twice,
    /// Its value is below 0x80.
    Ascii,
    /// Its value is a surrogate or above 0x10FFFF.
    NotScalar,
    /// Its value is above 0xFFFF. Not of Big5 and ranges.
    NotBmp,
    /// A place of its run would get no scalar. Of ranges only.
    Run,
}

/// Why no index was added.
#[derive(Debug, Drop, PartialEq)]
pub enum TableError {
    /// Out of memory.
    Memory,
    /// There is an index of this kind.
    AlreadyThere(IndexKind),
    /// The first faulty row, and the first of its faults.
    BadTable {
        /// The row, counted from 0.
        row: usize,
        /// What is wrong with it.
        why: Why,
    },
}

impl fmt::Display for Why {
    fn fmt<W: fmt::Write>(&self, f: &mut fmt::Formatter<W>) -> fmt::Result {
        match self {
            Why::Place => write!(f, "the place is past the last one"),
            Why::Order => write!(f, "the place doesn't follow the one before it"),
            Why::Twice => write!(f, "a row before it has the place"),
            Why::Ascii => write!(f, "the value is an ASCII character"),
            Why::NotScalar => write!(f, "the value is no scalar value"),
            Why::NotBmp => write!(f, "the value is above U+FFFF"),
            Why::Run => write!(f, "a place of the run gets no scalar value"),
        }
    }
}

impl fmt::Display for TableError {
    fn fmt<W: fmt::Write>(&self, f: &mut fmt::Formatter<W>) -> fmt::Result {
        match self {
            TableError::Memory => write!(f, "no memory"),
            TableError::AlreadyThere(_) => write!(f, "there is an index of this kind"),
            TableError::BadTable { row, why } => write!(f, "row {row}: {why}"),
        }
    }
}

impl From<AllocError> for TableError {
    ghost use Rattle.std.specs.Prelude.{◌≡◌};
    ghost use Rattle.enc_front.specs.declared.tables.TableError.TheVariants.{Memory};

    ghost from_gives = { λ _ e. e ≡ Memory };

    fn from(_error: AllocError) -> TableError {
        TableError::Memory
    }
}

impl<T: Drop> From<AllocFailed<T>> for TableError {
    ghost use Rattle.std.specs.Prelude.{◌≡◌};
    ghost use Rattle.enc_front.specs.declared.tables.TableError.TheVariants.{Memory};

    ghost from_gives = { λ _ e. e ≡ Memory };

    fn from(_error: AllocFailed<T>) -> TableError {
        TableError::Memory
    }
}

// An index and its kind.
#[derive(Debug, Drop)]
pub(crate) struct Entry {
    kind: IndexKind,
    index: AnyIndex,
    ghost form: { is_of_ranges index ≡ is_ranges kind },
    ghost bmp: { is_bmp kind ≡ true → HasNoAstral (any_places index) },
}

/// Indexes by kind, at most one of each.
#[derive(Debug, Drop)]
pub struct Tables {
    entries: Option<Vec<Entry>>,
}

impl Tables {
    ghost use Rattle.enc_front.specs.declared.tables.TableError.TheVariants.{AlreadyThere};
    ghost use Rattle.enc_front.specs.Indexes.{AreChecked, IsMemoryOr, has_kind, index_in};
    ghost use Rattle.enc_front.specs.Indexes.{indexes_of, known, of_entry, table_fault, with_index};

    /// No index.
    pub fn new() -> Tables
        ensures { indexes_of result ≡ [] }
    {
        Tables { entries: None }
    }

    /// Makes an index of pairs of a place and a scalar, for the ranges of the first place of each
    /// run and its scalar, in the order of the places. Places without a pair have no scalar.
    /// `AlreadyThere` where there is an index of this kind, else `BadTable` for the first faulty
    /// row; then, and where there is no memory, the tables are as before.
    pub fn add(
        &mut self,
        alloc: Global,
        kind: IndexKind,
        pairs: &[(u32, u32)],
    ) -> Result<(), TableError>
        ensures added { OnOk result
            (indexes_of self.new ≡ with_index (indexes_of self.old) kind pairs.now) }
        ensures sound { OnOk result (table_fault (indexes_of self.old) kind pairs.now ≡ None) }
        ensures fault { IfErr result
            (IsMemoryOr (table_fault (indexes_of self.old) kind pairs.now)) }
        ensures there { has_kind (indexes_of self.old) kind ≡ true
            → result ≡ Err (AlreadyThere kind) }
        ensures kept { OnErr result (indexes_of self.new ≡ indexes_of self.old) }
    {
        if self.has_kind(kind) {
            return Err(TableError::AlreadyThere(kind));
        }
        let entry = Entry::of_pairs(alloc, kind, pairs)?;
        self.push(alloc, entry)
    }

    /// Every index that the encoding needs is there.
    pub fn has(&self, encoding: Encoding) -> bool
        ensures { result ≡ known encoding (indexes_of self.now) }
    {
        match encoding.kinds() {
            Kinds::None => true,
            Kinds::One(kind) => self.has_kind(kind),
            Kinds::Two(kind, other) => self.has_kind(kind) && self.has_kind(other),
        }
    }

    // There is an index of the kind.
    fn has_kind(&self, kind: IndexKind) -> bool
        ensures { result ≡ has_kind (indexes_of self.now) kind }
    {
        self.find(kind).is_some()
    }

    // The flat index of a kind.
    pub(crate) fn index(&self, kind: IndexKind) -> Option<&Index>
        requires { is_ranges kind ≡ false }
        ensures index { option_map (λ found. index_places found.now) result
            ≡ index_in (indexes_of self.now) kind }
        ensures bmp { is_bmp kind ≡ true
            → IfSome result (λ found. HasNoAstral (index_places found.now)) }
    {
        let entry = self.find(kind)?;
        match &entry.index {
            AnyIndex::OfCells(index) => Some(index),
            AnyIndex::OfRanges(_) => None,
        }
    }

    // The ranges.
    pub(crate) fn ranges(&self) -> Option<&Ranges>
        ensures { option_map (λ found. ranges_places found.now) result
            ≡ index_in (indexes_of self.now) IndexKind.Gb18030Ranges }
    {
        let entry = self.find(IndexKind::Gb18030Ranges)?;
        match &entry.index {
            AnyIndex::OfCells(_) => None,
            AnyIndex::OfRanges(ranges) => Some(ranges),
        }
    }

    // The entry of a kind.
    fn find(&self, kind: IndexKind) -> Option<&Entry>
        ensures index { option_map (λ found. any_places found.now.index) result
            ≡ index_in (indexes_of self.now) kind }
        ensures kind { IfSome result (λ found. found.now.kind ≡ kind) }
    {
        let Some(entries) = &self.entries else {
            return None;
        };
        for entry in entries {
            if is_same(entry.kind, kind) {
                return Some(entry);
            }
        }
        None
    }

    // Adds an entry.
    fn push(&mut self, alloc: Global, entry: Entry) -> Result<(), TableError>
        ensures added { OnOk result
            (indexes_of self.new ≡ indexes_of self.old ++ of_entry entry ∷ []) }
        ensures memory { OnErr result (result ≡ Err TableError.Memory) }
        ensures kept { OnErr result (indexes_of self.new ≡ indexes_of self.old) }
    {
        if let Some(entries) = &mut self.entries {
            entries.push(entry)?;
            return Ok(());
        }
        let mut entries = Vec::with_capacity(alloc, 1)?;
        entries.push(entry)?;
        self.entries = Some(entries);
        Ok(())
    }
}

impl Entry {
    ghost use Rattle.enc_front.specs.declared.tables.IndexKind.TheVariants.{Gb18030Ranges};
    ghost use Rattle.enc_front.specs.Indexes.{IsMemoryOr, of_entry, row_error};
    ghost use Rattle.enc_front.specs.Tables.{pair_places, places_of, row_fault};
    ghost use Rattle.enc_front.specs.Ranges.{range_places};

    // The index of a kind that is made of these pairs.
    fn of_pairs(alloc: Global, kind: IndexKind, pairs: &[(u32, u32)]) -> Result<Entry, TableError>
        ensures entry { IfOk result (λ entry. of_entry entry ≡ (kind, places_of kind pairs.now)) }
        ensures sound { IfOk result (λ _. row_fault kind pairs.now ≡ None) }
        ensures fault { IfErr result
            (IsMemoryOr (option_map row_error (row_fault kind pairs.now))) }
    {
        if kind.is_ranges() {
            return Entry::of_rows(alloc, pairs);
        }
        Entry::of_flat(alloc, kind, pairs)
    }

    // The ranges that are made of these rows.
    fn of_rows(alloc: Global, rows: &[(u32, u32)]) -> Result<Entry, TableError>
        ensures entry { IfOk result
            (λ entry. of_entry entry ≡ (Gb18030Ranges, range_places rows.now)) }
        ensures sound { IfOk result (λ _. row_fault Gb18030Ranges rows.now ≡ None) }
        ensures fault { IfErr result
            (IsMemoryOr (option_map row_error (row_fault Gb18030Ranges rows.now))) }
    {
        match ranges_fault(rows) {
            Some((row, why)) => return Err(TableError::BadTable { row, why }),
            None => (),
        }
        let ranges = Ranges::of_rows(alloc, rows)?;
        Ok(Entry {
            kind: IndexKind::Gb18030Ranges,
            index: AnyIndex::OfRanges(ranges),
        })
    }

    // The flat index of a kind that is made of these pairs.
    fn of_flat(alloc: Global, kind: IndexKind, pairs: &[(u32, u32)]) -> Result<Entry, TableError>
        requires { is_ranges kind ≡ false }
        ensures entry { IfOk result (λ entry. of_entry entry ≡ (kind, pair_places pairs.now)) }
        ensures sound { IfOk result (λ _. row_fault kind pairs.now ≡ None) }
        ensures fault { IfErr result
            (IsMemoryOr (option_map row_error (row_fault kind pairs.now))) }
    {
        let index = flat_index(alloc, kind, pairs)?;
        Ok(Entry {
            kind,
            index: AnyIndex::OfCells(index),
        })
    }
}

#[cfg(test)]
mod tests;
