//! A destination of bytes, for encoders, and its handles, the leave to write one to four bytes.
ghost use Rattle.std.specs.Prelude.{◌≡◌, ◌+◌, ◌-◌, ◌<◌, ◌≤◌, ◌↔◌, [], ◌∷◌, length, take, drop};
ghost use Rattle.std.specs.Prelude.{true, List, ℕ};
ghost use Rattle.std.specs.Borrow.{sem};
ghost use Rattle.enc_handles.specs.Writing.{after_writing};
ghost use Rattle.enc_handles.specs.Ascii.{moved_len};
ghost use Rattle.enc_handles.specs.AsciiToBytes.{moved_ascii};
ghost use Rattle.enc_handles.specs.Scalars.{ReadsBetween};
ghost use Rattle.enc_handles.specs.Space.{IsAvailable, IfAvailable, IfFull, RestsIfFull};

use crate::byte_buffer::ByteBuffer;
use crate::space::Space;
use crate::text_slice::TextSlice;

#[cfg(test)]
mod tests;

/// Bytes, of which some are written and the others are free.
#[derive(Drop)]
pub struct ByteDestinationOver<D: ByteBuffer> {
    pub(crate) slice: D,
    pub(crate) pos: usize,
    ghost within: { pos ≤ length (D.bytes slice) },
}

/// A destination of bytes over a slice.
pub type ByteDestination<'a> = ByteDestinationOver<&'a mut [u8]>;

impl<'a> ByteDestinationOver<&'a mut [u8]> {
    ghost use Rattle.enc_handles.specs.ByteDestination.{writing, free_bytes};

    /// A destination that has written nothing, with all of `dst` as its room.
    pub fn new(dst: &'a mut [u8]) -> ByteDestination<'a>
        ensures start { writing result ≡ record {
          text = [];
          free = length dst.old;
          buffer =
              dst.entry.ghost_name;
        } }
        ensures free { free_bytes result ≡ dst.old }
    {
        ByteDestinationOver { slice: dst, pos: 0 }
    }
}

impl<D: ByteBuffer> ByteDestinationOver<D> {
    ghost use Rattle.enc_handles.specs.ByteDestination.{writing, free_bytes, one_destination};
    ghost use Rattle.enc_handles.specs.ByteDestination.{two_destination, three_destination};
    ghost use Rattle.enc_handles.specs.ByteDestination.{four_destination};
    ghost use Rattle.enc_handles.specs.contracts.byte_destination.ByteDestinationOver.{the_row};

    /// How many bytes are written.
    pub fn written(&self) -> usize
        ensures { result ≡ length (writing self.now).text }
    {
        self.pos
    }

    /// Counts `length` bytes of the free part as written.
    pub fn advance(&mut self, length: usize)
        requires { length ≤ (writing self.old).free }
        ensures text { writing self.new ≡ after_writing (writing self.old)
            (take length (free_bytes self.old)) }
        ensures free { free_bytes self.new ≡ drop length (free_bytes self.old) }
    {
        let rest = self.free() - length;
        self.pos = self.slice.byte_count() - rest;
    }

    // How many bytes are free.
    pub(crate) fn free(&self) -> usize
        ensures { result ≡ (writing self.now).free }
    {
        self.slice.byte_count() - self.pos
    }

    // Writes a byte.
    pub(crate) fn put(&mut self, byte: u8)
        requires { 1 ≤ (writing self.old).free }
        ensures { writing self.new ≡ after_writing (writing self.old) (byte ∷ []) }
    {
        self.pos = self.slice.put_byte_at(self.pos, byte);
    }

    // Copies ASCII of `source` from place `from` on behind what is written, as much as fits, and
    // answers the place behind it in the source.
    pub(crate) fn put_ascii<T: TextSlice>(&mut self, source: &T, from: usize) -> usize
        requires from { from ≤ length (T.elements source.now) }
        requires seam { T.is_seam (T.elements source.now) from ≡ true }
        ensures end { result ≡ from + moved_len (drop from (T.elements source.now))
            (writing self.old).free }
        ensures text { writing self.new ≡ after_writing (writing self.old) (moved_ascii
            (drop from (T.elements source.now)) (writing self.old).free) }
        ensures seam { T.is_seam (T.elements source.now) result ≡ true }
        ensures reads { ReadsBetween T.scalars (T.elements source.now) from result
            (moved_ascii (drop from (T.elements source.now)) (writing self.old).free) }
    {
        let (source_end, end) = self.slice.copy_ascii_at(self.pos, source, from);
        self.pos = end;
        source_end
    }

    /// A handle exactly where a byte is free, else `Full` with the bytes written.
    pub fn check_space_one<'b>(&'b mut self) -> Space<ByteOneOver<'b, D>>
        ensures* rests { sem 𝓛 (RestsIfFull (the_row D.row D.ByteBuffer) self.entry
            (λ h. (one_destination h).ghost_name) result (λ n. n ≡ self.old)) }
        ensures available { IsAvailable result ↔ (1 ≤ (writing self.old).free) }
        ensures same_reference { IfAvailable result (λ h. (one_destination h).ghost_name
            ≡ self.entry.ghost_name) }
        ensures same_destination { IfAvailable result (λ h. (one_destination h).now ≡ self.old) }
        ensures room { IfAvailable result (λ h. 1 ≤ (writing (one_destination h).now).free) }
        ensures full { IfFull result (λ place. place ≡ length (writing self.old).text) }
    {
        if self.free() >= 1 {
            Space::Available(ByteOneOver { dest: self })
        } else {
            Space::Full(self.pos)
        }
    }

    /// A handle exactly where two bytes are free, else `Full` with the bytes written.
    pub fn check_space_two<'b>(&'b mut self) -> Space<ByteTwoOver<'b, D>>
        ensures* rests { sem 𝓛 (RestsIfFull (the_row D.row D.ByteBuffer) self.entry
            (λ h. (two_destination h).ghost_name) result (λ n. n ≡ self.old)) }
        ensures available { IsAvailable result ↔ (2 ≤ (writing self.old).free) }
        ensures same_reference { IfAvailable result (λ h. (two_destination h).ghost_name
            ≡ self.entry.ghost_name) }
        ensures same_destination { IfAvailable result (λ h. (two_destination h).now ≡ self.old) }
        ensures room { IfAvailable result (λ h. 2 ≤ (writing (two_destination h).now).free) }
        ensures full { IfFull result (λ place. place ≡ length (writing self.old).text) }
    {
        if self.free() >= 2 {
            Space::Available(ByteTwoOver { dest: self })
        } else {
            Space::Full(self.pos)
        }
    }

    /// A handle exactly where three bytes are free, else `Full` with the bytes written.
    pub fn check_space_three<'b>(&'b mut self) -> Space<ByteThreeOver<'b, D>>
        ensures* rests { sem 𝓛 (RestsIfFull (the_row D.row D.ByteBuffer) self.entry
            (λ h. (three_destination h).ghost_name) result (λ n. n ≡ self.old)) }
        ensures available { IsAvailable result ↔ (3 ≤ (writing self.old).free) }
        ensures same_reference { IfAvailable result (λ h. (three_destination h).ghost_name
            ≡ self.entry.ghost_name) }
        ensures same_destination { IfAvailable result (λ h. (three_destination h).now ≡ self.old) }
        ensures room { IfAvailable result (λ h. 3 ≤ (writing (three_destination h).now).free) }
        ensures full { IfFull result (λ place. place ≡ length (writing self.old).text) }
    {
        if self.free() >= 3 {
            Space::Available(ByteThreeOver { dest: self })
        } else {
            Space::Full(self.pos)
        }
    }

    /// A handle exactly where four bytes are free, else `Full` with the bytes written.
    pub fn check_space_four<'b>(&'b mut self) -> Space<ByteFourOver<'b, D>>
        ensures* rests { sem 𝓛 (RestsIfFull (the_row D.row D.ByteBuffer) self.entry
            (λ h. (four_destination h).ghost_name) result (λ n. n ≡ self.old)) }
        ensures available { IsAvailable result ↔ (4 ≤ (writing self.old).free) }
        ensures same_reference { IfAvailable result (λ h. (four_destination h).ghost_name
            ≡ self.entry.ghost_name) }
        ensures same_destination { IfAvailable result (λ h. (four_destination h).now ≡ self.old) }
        ensures room { IfAvailable result (λ h. 4 ≤ (writing (four_destination h).now).free) }
        ensures full { IfFull result (λ place. place ≡ length (writing self.old).text) }
    {
        if self.free() >= 4 {
            Space::Available(ByteFourOver { dest: self })
        } else {
            Space::Full(self.pos)
        }
    }
}

/// The leave to write a byte.
#[derive(Drop)]
pub struct ByteOneOver<'a, D: ByteBuffer> {
    pub(crate) dest: &'a mut ByteDestinationOver<D>,
}

/// Room for a byte in a slice.
pub type ByteOneHandle<'a, 'b> = ByteOneOver<'a, &'b mut [u8]>;

/// The leave to write up to two bytes.
#[derive(Drop)]
pub struct ByteTwoOver<'a, D: ByteBuffer> {
    pub(crate) dest: &'a mut ByteDestinationOver<D>,
}

/// Room for two bytes in a slice.
pub type ByteTwoHandle<'a, 'b> = ByteTwoOver<'a, &'b mut [u8]>;

/// The leave to write up to three bytes.
#[derive(Drop)]
pub struct ByteThreeOver<'a, D: ByteBuffer> {
    pub(crate) dest: &'a mut ByteDestinationOver<D>,
}

/// Room for three bytes in a slice.
pub type ByteThreeHandle<'a, 'b> = ByteThreeOver<'a, &'b mut [u8]>;

/// The leave to write up to four bytes.
#[derive(Drop)]
pub struct ByteFourOver<'a, D: ByteBuffer> {
    pub(crate) dest: &'a mut ByteDestinationOver<D>,
}

/// Room for four bytes in a slice.
pub type ByteFourHandle<'a, 'b> = ByteFourOver<'a, &'b mut [u8]>;

impl<'a, D: ByteBuffer> ByteOneOver<'a, D> {
    ghost use Rattle.enc_handles.specs.ByteDestination.{writing, one_destination};

    /// How many bytes are written.
    pub fn written(&self) -> usize
        ensures { result ≡ length (writing (one_destination self.now).now).text }
    {
        self.dest.written()
    }

    /// Writes a byte.
    pub fn write_one(self, first: u8) -> &'a mut ByteDestinationOver<D>
        requires { 1 ≤ (writing (one_destination self).now).free }
        ensures same_reference { result.ghost_name ≡ (one_destination self.entry).ghost_name }
        ensures text { writing result.now ≡ after_writing
            (writing (one_destination self.entry).now) (first ∷ []) }
    {
        let dest = self.dest;
        dest.put(first);
        dest
    }
}

impl<'a, D: ByteBuffer> ByteTwoOver<'a, D> {
    ghost use Rattle.enc_handles.specs.ByteDestination.{writing, two_destination};

    /// How many bytes are written.
    pub fn written(&self) -> usize
        ensures { result ≡ length (writing (two_destination self.now).now).text }
    {
        self.dest.written()
    }

    /// Writes a byte.
    pub fn write_one(self, first: u8) -> &'a mut ByteDestinationOver<D>
        requires { 2 ≤ (writing (two_destination self).now).free }
        ensures same_reference { result.ghost_name ≡ (two_destination self.entry).ghost_name }
        ensures text { writing result.now ≡ after_writing
            (writing (two_destination self.entry).now) (first ∷ []) }
    {
        let dest = self.dest;
        dest.put(first);
        dest
    }

    /// Writes two bytes.
    pub fn write_two(self, first: u8, second: u8) -> &'a mut ByteDestinationOver<D>
        requires { 2 ≤ (writing (two_destination self).now).free }
        ensures same_reference { result.ghost_name ≡ (two_destination self.entry).ghost_name }
        ensures text { writing result.now ≡ after_writing
            (writing (two_destination self.entry).now) (first ∷ second ∷ []) }
    {
        let dest = self.dest;
        dest.put(first);
        dest.put(second);
        dest
    }
}

impl<'a, D: ByteBuffer> ByteThreeOver<'a, D> {
    ghost use Rattle.enc_handles.specs.ByteDestination.{writing, three_destination};

    /// How many bytes are written.
    pub fn written(&self) -> usize
        ensures { result ≡ length (writing (three_destination self.now).now).text }
    {
        self.dest.written()
    }

    /// Writes a byte.
    pub fn write_one(self, first: u8) -> &'a mut ByteDestinationOver<D>
        requires { 3 ≤ (writing (three_destination self).now).free }
        ensures same_reference { result.ghost_name ≡ (three_destination self.entry).ghost_name }
        ensures text { writing result.now ≡ after_writing
            (writing (three_destination self.entry).now) (first ∷ []) }
    {
        let dest = self.dest;
        dest.put(first);
        dest
    }

    /// Writes two bytes.
    pub fn write_two(self, first: u8, second: u8) -> &'a mut ByteDestinationOver<D>
        requires { 3 ≤ (writing (three_destination self).now).free }
        ensures same_reference { result.ghost_name ≡ (three_destination self.entry).ghost_name }
        ensures text { writing result.now ≡ after_writing
            (writing (three_destination self.entry).now) (first ∷ second ∷ []) }
    {
        let dest = self.dest;
        dest.put(first);
        dest.put(second);
        dest
    }

    /// Writes three bytes.
    pub fn write_three(self, first: u8, second: u8, third: u8) -> &'a mut ByteDestinationOver<D>
        requires { 3 ≤ (writing (three_destination self).now).free }
        ensures same_reference { result.ghost_name ≡ (three_destination self.entry).ghost_name }
        ensures text { writing result.now ≡ after_writing
            (writing (three_destination self.entry).now) (first ∷ second ∷ third ∷ []) }
    {
        let dest = self.dest;
        dest.put(first);
        dest.put(second);
        dest.put(third);
        dest
    }

    /// Writes three bytes, and answers how many are written.
    pub fn write_three_return_written(self, first: u8, second: u8, third: u8) -> usize
        requires { 3 ≤ (writing (three_destination self).now).free }
        ensures count { result ≡ length (writing (three_destination self.entry).now).text + 3 }
        ensures text { writing self.exit.0.now ≡ after_writing
            (writing (three_destination self.entry).now) (first ∷ second ∷ third ∷ []) }
    {
        let dest = self.dest;
        dest.put(first);
        dest.put(second);
        dest.put(third);
        dest.written()
    }
}

impl<'a, D: ByteBuffer> ByteFourOver<'a, D> {
    ghost use Rattle.enc_handles.specs.ByteDestination.{writing, four_destination};

    /// How many bytes are written.
    pub fn written(&self) -> usize
        ensures { result ≡ length (writing (four_destination self.now).now).text }
    {
        self.dest.written()
    }

    /// Writes a byte.
    pub fn write_one(self, first: u8) -> &'a mut ByteDestinationOver<D>
        requires { 4 ≤ (writing (four_destination self).now).free }
        ensures same_reference { result.ghost_name ≡ (four_destination self.entry).ghost_name }
        ensures text { writing result.now ≡ after_writing
            (writing (four_destination self.entry).now) (first ∷ []) }
    {
        let dest = self.dest;
        dest.put(first);
        dest
    }

    /// Writes two bytes.
    pub fn write_two(self, first: u8, second: u8) -> &'a mut ByteDestinationOver<D>
        requires { 4 ≤ (writing (four_destination self).now).free }
        ensures same_reference { result.ghost_name ≡ (four_destination self.entry).ghost_name }
        ensures text { writing result.now ≡ after_writing
            (writing (four_destination self.entry).now) (first ∷ second ∷ []) }
    {
        let dest = self.dest;
        dest.put(first);
        dest.put(second);
        dest
    }

    /// Writes four bytes.
    pub fn write_four(
        self,
        first: u8,
        second: u8,
        third: u8,
        fourth: u8,
    ) -> &'a mut ByteDestinationOver<D>
        requires { 4 ≤ (writing (four_destination self).now).free }
        ensures same_reference { result.ghost_name ≡ (four_destination self.entry).ghost_name }
        ensures text { writing result.now ≡ after_writing
            (writing (four_destination self.entry).now) (first ∷ second ∷ third ∷ fourth ∷ []) }
    {
        let dest = self.dest;
        dest.put(first);
        dest.put(second);
        dest.put(third);
        dest.put(fourth);
        dest
    }
}
