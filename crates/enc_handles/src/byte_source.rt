//! A source of bytes, for decoders, with its read and unread handles.
ghost use Rattle.std.specs.Prelude.{◌≡◌, ◌+◌, ◌-◌, ◌<◌, ◌≤◌, ◌↔◌, [], length, slice_index, List, ℕ};
ghost use Rattle.std.specs.Borrow.{sem};
ghost use Rattle.enc_handles.specs.Reading.{left, after_reading};
ghost use Rattle.enc_handles.specs.Space.{IsAvailable, IfAvailable, IfFull, RestsIfFull};

use crate::byte_slice::ByteSlice;
use crate::space::Space;

#[cfg(test)]
mod tests;

/// A list of bytes and the place of the next one to read.
#[derive(Drop)]
pub struct ByteSourceOver<B: ByteSlice> {
    slice: B,
    pos: usize,
    ghost within: { pos ≤ length (B.bytes slice) },
}

/// A source of bytes over a slice.
pub type ByteSource<'a> = ByteSourceOver<&'a [u8]>;

impl<'a> ByteSourceOver<&'a [u8]> {
    ghost use Rattle.enc_handles.specs.ByteSource.{reading};

    /// A source that stands before the first byte of `src`.
    pub fn new(src: &'a [u8]) -> ByteSource<'a>
        ensures { reading result ≡ record { items = src.now; place = 0 } }
    {
        ByteSourceOver { slice: src, pos: 0 }
    }
}

impl<B: ByteSlice> ByteSourceOver<B> {
    ghost use Rattle.enc_handles.specs.ByteSource.{reading, read_source};
    ghost use Rattle.enc_handles.specs.contracts.byte_source.ByteSourceOver.{the_row};

    /// How many bytes were read.
    pub fn consumed(&self) -> usize
        ensures place { result ≡ (reading self.now).place }
        ensures within { result ≤ length (reading self.now).items }
    {
        self.pos
    }

    // The bytes that are left.
    pub(crate) fn rest(&self) -> &[u8]
        ensures { result.now ≡ left (reading self.now) }
    {
        &self.slice.as_bytes()[self.pos..]
    }

    // Reads on until `rest` bytes are left.
    pub(crate) fn read_until(&mut self, rest: usize)
        requires { rest ≤ length (left (reading self.old)) }
        ensures { reading self.new ≡ after_reading (reading self.old)
            (length (left (reading self.old)) - rest) }
    {
        self.pos = self.slice.as_bytes().len() - rest;
    }

    /// Puts the byte back that was read last, and answers the place.
    pub fn unread(&mut self) -> usize
        requires { 0 < (reading self.old).place }
        ensures place { result + 1 ≡ (reading self.old).place }
        ensures moved { reading self.new ≡ record (reading self.old) { place = result } }
    {
        self.pos -= 1;
        self.pos
    }

    /// The source after a read, for further reads.
    pub fn commit(&mut self) -> &mut ByteSourceOver<B>
        ensures same_reference { result.ghost_name ≡ self.entry.ghost_name }
        ensures same_source { result.now ≡ self.old }
    {
        self
    }

    /// A handle to read the next byte, or `Full` with the place where none is left.
    pub fn check_available<'b>(&'b mut self) -> Space<ByteReadOver<'b, B>>
        ensures* rests { sem 𝓛 (RestsIfFull (the_row B.row B.ByteSlice) self.entry
            (λ h. (read_source h).ghost_name) result (λ n. n ≡ self.old)) }
        ensures available { IsAvailable result ↔ ((reading self.old).place < length
            (reading self.old).items) }
        ensures same_reference { IfAvailable result
            (λ h. (read_source h).ghost_name ≡ self.entry.ghost_name) }
        ensures same_source { IfAvailable result (λ h. (read_source h).now ≡ self.old) }
        ensures element { IfAvailable result (λ h. (reading (read_source h).now).place < length
            (reading (read_source h).now).items) }
        ensures full { IfFull result (λ place. place ≡ (reading self.old).place) }
    {
        if self.pos < self.slice.as_bytes().len() {
            Space::Available(ByteReadOver { source: self })
        } else {
            Space::Full(self.pos)
        }
    }
}

/// The leave to read a byte.
#[derive(Drop)]
pub struct ByteReadOver<'a, B: ByteSlice> {
    source: &'a mut ByteSourceOver<B>,
}

/// The leave to read a byte of a slice.
pub type ByteReadHandle<'a, 'b> = ByteReadOver<'a, &'b [u8]>;

/// The source of which a byte was read, which can be put back.
pub type ByteUnreadHandle<'a, 'b> = &'a mut ByteSource<'b>;

impl<'a, B: ByteSlice> ByteReadOver<'a, B> {
    ghost use Rattle.enc_handles.specs.ByteSource.{reading, read_source};

    /// Reads the byte.
    pub fn read(self) -> (u8, &'a mut ByteSourceOver<B>)
        requires { (reading (read_source self).now).place < length
            (reading (read_source self).now).items }
        ensures byte { result.0 ≡ slice_index (reading (read_source self.entry).now).items
            (reading (read_source self.entry).now).place }
        ensures same_reference { result.1.ghost_name ≡ (read_source self.entry).ghost_name }
        ensures moved { reading result.1.now ≡ after_reading (reading (read_source self.entry).now)
            1 }
    {
        let source = self.source;
        let byte = source.slice.as_bytes()[source.pos];
        source.pos += 1;
        (byte, source)
    }

    /// How many bytes were read.
    pub fn consumed(&self) -> usize
        ensures { result ≡ (reading (read_source self.now).now).place }
    {
        self.source.consumed()
    }
}
