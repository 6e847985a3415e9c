//! Sources of text in UTF-8 and in UTF-16, for encoders, with their read and unread handles.
ghost use Rattle.std.specs.Prelude.{◌≡◌, ◌+◌, ◌<◌, ◌≤◌, ◌↔◌, [], ◌∷◌, true, length, slice_index};
ghost use Rattle.std.specs.Prelude.{List, ℕ};
ghost use Rattle.std.specs.Borrow.{sem};
ghost use Rattle.std.specs.Char.{IsScalar};
ghost use Rattle.enc_handles.specs.Reading.{left, after_reading};
ghost use Rattle.enc_handles.specs.Scalars.{ReadsScalars};
ghost use Rattle.enc_handles.specs.Space.{IsAvailable, IfAvailable, IfFull, RestsIfFull};
ghost use Rattle.enc_handles.specs.Unicode.{unicode_of, unicode_scalar};

use crate::space::Space;
use crate::text_slice::TextSlice;
use crate::unicode::{Unicode, unicode_of};

#[cfg(test)]
mod tests;

/// Text, and the place of the next scalar to read.
#[derive(Drop)]
pub struct CharSourceOver<T: TextSlice> {
    pub(crate) slice: T,
    pub(crate) pos: usize,
    pub(crate) before: usize,
    ghost within: { pos ≤ length (T.elements slice) },
    ghost seam: { T.is_seam (T.elements slice) pos ≡ true },
    ghost before_within: { before ≤ pos },
    ghost before_seam: { T.is_seam (T.elements slice) before ≡ true },
}

/// A source of UTF-8; its elements are bytes.
pub type Utf8Source<'a> = CharSourceOver<&'a str>;

/// A source of UTF-16; its elements are 16-bit code units.
pub type Utf16Source<'a> = CharSourceOver<&'a [u16]>;

impl<'a> CharSourceOver<&'a str> {
    ghost use Rattle.enc_handles.specs.CharSource.{reading};

    /// A source that stands before the first byte of `src`.
    pub fn new(src: &'a str) -> Utf8Source<'a>
        ensures { reading result ≡ record { items = src.now; place = 0 } }
    {
        CharSourceOver {
            slice: src,
            pos: 0,
            before: 0,
        }
    }
}

impl<'a> CharSourceOver<&'a [u16]> {
    ghost use Rattle.enc_handles.specs.CharSource.{reading};

    /// A source that stands before the first code unit of `src`.
    pub fn new(src: &'a [u16]) -> Utf16Source<'a>
        ensures { reading result ≡ record { items = src.now; place = 0 } }
    {
        CharSourceOver {
            slice: src,
            pos: 0,
            before: 0,
        }
    }
}

impl<T: TextSlice> CharSourceOver<T> {
    ghost use Rattle.enc_handles.specs.CharSource.{reading, unread_place, read_source};
    ghost use Rattle.enc_handles.specs.contracts.char_source.CharSourceOver.{the_row};

    /// How many elements were read. No scalar stands across this place.
    pub fn consumed(&self) -> usize
        ensures place { result ≡ (reading self.now).place }
        ensures within { result ≤ length (reading self.now).items }
        ensures seam { T.is_seam (reading self.now).items result ≡ true }
    {
        self.pos
    }

    /// Puts the scalar back that was read last, and answers the place before it.
    pub fn unread(&mut self) -> usize
        ensures place { result ≡ unread_place self.old }
        ensures moved { reading self.new ≡ record (reading self.old) { place = result } }
    {
        self.pos = self.before;
        self.pos
    }

    /// The source after a read, for further reads.
    pub fn commit(&mut self) -> &mut CharSourceOver<T>
        ensures same_reference { result.ghost_name ≡ self.entry.ghost_name }
        ensures same_source { result.now ≡ self.old }
    {
        self
    }

    /// A handle to read the next scalar, or `Full` with the place where none is left.
    pub fn check_available<'b>(&'b mut self) -> Space<CharReadOver<'b, T>>
        ensures* rests { sem 𝓛 (RestsIfFull (the_row T.row T.TextSlice) self.entry
            (λ h. (read_source h).ghost_name) result (λ n. n ≡ self.old)) }
        ensures available { IsAvailable result ↔ ((reading self.old).place < length
            (reading self.old).items) }
        ensures same_reference { IfAvailable result (λ h. (read_source h).ghost_name
            ≡ self.entry.ghost_name) }
        ensures same_source { IfAvailable result (λ h. (read_source h).now ≡ self.old) }
        ensures element { IfAvailable result (λ h. (reading (read_source h).now).place < length
            (reading (read_source h).now).items) }
        ensures full { IfFull result (λ place. place ≡ (reading self.old).place) }
    {
        if self.pos < self.slice.element_count() {
            Space::Available(CharReadOver { source: self })
        } else {
            Space::Full(self.pos)
        }
    }

    // Reads the next scalar.
    pub(crate) fn next(&mut self) -> char
        requires { (reading self.old).place < length (reading self.old).items }
        ensures scalar { result ≡ slice_index (T.scalars (left (reading self.old))) 0 }
        ensures read { reading self.new ≡ after_reading (reading self.old) (T.first_len
            (left (reading self.old))) }
        ensures scalars { ReadsScalars T.scalars (reading self.old)
            (reading self.new) (result ∷ []) }
        ensures past_ascii { 0x80 ≤ slice_index (reading self.old).items (reading self.old).place
            → 0x80 ≤ result }
        ensures back { unread_place self.new ≡ (reading self.old).place }
    {
        let at = self.pos;
        let (scalar, end) = self.slice.scalar_at(at);
        self.before = at;
        self.pos = end;
        scalar
    }
}

/// The leave to read a scalar.
#[derive(Drop)]
pub struct CharReadOver<'a, T: TextSlice> {
    source: &'a mut CharSourceOver<T>,
}

/// The leave to read a scalar of UTF-8.
pub type Utf8ReadHandle<'a, 'b> = CharReadOver<'a, &'b str>;

/// The leave to read a scalar of UTF-16.
pub type Utf16ReadHandle<'a, 'b> = CharReadOver<'a, &'b [u16]>;

/// The source of which a scalar of UTF-8 was read, which can be put back.
pub type Utf8UnreadHandle<'a, 'b> = &'a mut Utf8Source<'b>;

/// The source of which a scalar of UTF-16 was read, which can be put back.
pub type Utf16UnreadHandle<'a, 'b> = &'a mut Utf16Source<'b>;

impl<'a, T: TextSlice> CharReadOver<'a, T> {
    ghost use Rattle.enc_handles.specs.CharSource.{reading, unread_place, read_source};

    /// Reads the scalar. An unpaired surrogate is read as U+FFFD, one element long; a pair is read
    /// whole.
    pub fn read(self) -> (char, &'a mut CharSourceOver<T>)
        requires { (reading (read_source self).now).place < length
            (reading (read_source self).now).items }
        ensures scalar { result.0 ≡ slice_index (T.scalars
            (left (reading (read_source self.entry).now))) 0 }
        ensures same_reference { result.1.ghost_name ≡ (read_source self.entry).ghost_name }
        ensures moved { reading result.1.now ≡ after_reading
            (reading (read_source self.entry).now) (T.first_len
            (left (reading (read_source self.entry).now))) }
        ensures scalars { ReadsScalars T.scalars (reading (read_source self.entry).now)
            (reading result.1.now) (result.0 ∷ []) }
        ensures back { unread_place result.1.now ≡ (reading (read_source self.entry).now).place }
    {
        let source = self.source;
        let scalar = source.next();
        (scalar, source)
    }

    /// Reads the scalar as `read`, by what an encoder asks of it.
    pub fn read_enum(self) -> (Unicode, &'a mut CharSourceOver<T>)
        requires { (reading (read_source self).now).place < length
            (reading (read_source self).now).items }
        ensures scalar { result.0 ≡ unicode_of (slice_index (T.scalars
            (left (reading (read_source self.entry).now))) 0) }
        ensures is_scalar { IsScalar (unicode_scalar result.0) }
        ensures same_reference { result.1.ghost_name ≡ (read_source self.entry).ghost_name }
        ensures moved { reading result.1.now ≡ after_reading
            (reading (read_source self.entry).now) (T.first_len
            (left (reading (read_source self.entry).now))) }
        ensures scalars { ReadsScalars T.scalars (reading (read_source self.entry).now)
            (reading result.1.now) (unicode_scalar result.0 ∷ []) }
        ensures back { unread_place result.1.now ≡ (reading (read_source self.entry).now).place }
    {
        let source = self.source;
        let scalar = source.next();
        (unicode_of(scalar), source)
    }

    /// How many elements were read.
    pub fn consumed(&self) -> usize
        ensures { result ≡ (reading (read_source self.now).now).place }
    {
        self.source.consumed()
    }
}
