//! Copies of ASCII from text in either form to bytes, for encoders.
ghost use Rattle.std.specs.Prelude.{◌≡◌, ◌+◌, ◌≤◌, ◌↔◌, length, take, drop, true, IsOk, IfOk};
ghost use Rattle.std.specs.Prelude.{IfErr, OnErr};
ghost use Rattle.std.specs.Borrow.{sem};
ghost use Rattle.std.specs.Char.{IsScalar};
ghost use Rattle.enc_handles.specs.Ascii.{moved_len, GoesOn};
ghost use Rattle.enc_handles.specs.AsciiToBytes.{moved_ascii, GoesOnPast, StopsIn};
ghost use Rattle.enc_handles.specs.ByteDestination.{writing, one_destination, two_destination};
ghost use Rattle.enc_handles.specs.ByteDestination.{four_destination};
ghost use Rattle.enc_handles.specs.CharSource.{reading};
ghost use Rattle.enc_handles.specs.Reading.{left, after_reading};
ghost use Rattle.enc_handles.specs.Scalars.{ReadsScalars};
ghost use Rattle.enc_handles.specs.Space.{IsGoOn, IfGoOn, IfStop, RestsIfStop};
ghost use Rattle.enc_handles.specs.Unicode.{non_ascii_scalar};
ghost use Rattle.enc_handles.specs.Writing.{after_writing};
ghost use Rattle.enc_handles.specs.contracts.byte_destination.ByteDestinationOver.{the_row};

use crate::byte_buffer::ByteBuffer;
use crate::byte_destination::{ByteDestinationOver, ByteFourOver, ByteOneOver, ByteTwoOver};
use crate::char_source::CharSourceOver;
use crate::results::EncoderResult;
use crate::space::CopyAsciiResult;
use crate::text_slice::TextSlice;
use crate::unicode::{NonAscii, non_ascii_of};

#[cfg(test)]
mod tests;

impl<T: TextSlice> CharSourceOver<T> {
    // Moves the ASCII that fits.
    fn copy_ascii<D: ByteBuffer>(&mut self, dest: &mut ByteDestinationOver<D>)
        ensures read { reading self.new ≡ after_reading (reading self.old) (moved_len
            (left (reading self.old)) (writing dest.old).free) }
        ensures scalars { ReadsScalars T.scalars (reading self.old) (reading self.new) (moved_ascii
            (left (reading self.old)) (writing dest.old).free) }
        ensures text { writing dest.new ≡ after_writing (writing dest.old) (moved_ascii
            (left (reading self.old)) (writing dest.old).free) }
    {
        let end = dest.put_ascii(&self.slice, self.pos);
        self.before = end;
        self.pos = end;
    }

    // Moves ASCII, and then reads the scalar past it if there is one and `needed` bytes are free.
    fn move_ascii<D: ByteBuffer>(
        &mut self,
        dest: &mut ByteDestinationOver<D>,
        needed: usize,
    ) -> Result<NonAscii, EncoderResult>
        requires { 1 ≤ needed }
        ensures goes_on { IsOk result ↔ GoesOn (left (reading self.old))
            (writing dest.old).free needed }
        ensures went_on { IfOk result (λ character. GoesOnPast T.scalars T.first_len needed
            (reading self.old) (reading self.new)
            (writing dest.old) (writing dest.new) character) }
        ensures scalar { IfOk result (λ character. IsScalar (non_ascii_scalar character)) }
        ensures stopped { IfErr result (λ stop. StopsIn T.scalars (reading self.old)
            (reading self.new) (writing dest.old)
            (stop, (reading self.new).place, length (writing dest.new).text)) }
        ensures text { OnErr result (writing dest.new
            ≡ after_writing (writing dest.old) (moved_ascii (left (reading self.old))
            (writing dest.old).free)) }
    {
        self.copy_ascii(dest);
        if self.pos == self.slice.element_count() {
            return Err(EncoderResult::InputEmpty);
        }
        if dest.free() < needed {
            return Err(EncoderResult::OutputFull);
        }
        Ok(non_ascii_of(self.next()))
    }

    /// The destination's `copy_ascii_from_check_space_one`, with the two exchanged. What the
    /// destination holds after a stop is told by that call alone.
    pub fn copy_ascii_to_check_space_one<'b, D: ByteBuffer>(
        &mut self,
        dest: &'b mut ByteDestinationOver<D>,
    ) -> CopyAsciiResult<(EncoderResult, usize, usize), (NonAscii, ByteOneOver<'b, D>)>
        ensures goes_on { IsGoOn result ↔ GoesOn (left (reading self.old))
            (writing dest.old).free 1 }
        ensures same_reference { IfGoOn result (λ more. (one_destination more.1).ghost_name
            ≡ dest.entry.ghost_name) }
        ensures went_on { IfGoOn result (λ more. GoesOnPast T.scalars T.first_len 1
            (reading self.old) (reading self.new)
            (writing dest.old) (writing (one_destination more.1).now) more.0) }
        ensures scalar { IfGoOn result (λ more. IsScalar (non_ascii_scalar more.0)) }
        ensures stopped { IfStop result (λ stop. StopsIn T.scalars (reading self.old)
            (reading self.new) (writing dest.old) stop) }
    {
        dest.copy_ascii_from_check_space_one(self)
    }

    /// The destination's `copy_ascii_from_check_space_two`, with the two exchanged. What the
    /// destination holds after a stop is told by that call alone.
    pub fn copy_ascii_to_check_space_two<'b, D: ByteBuffer>(
        &mut self,
        dest: &'b mut ByteDestinationOver<D>,
    ) -> CopyAsciiResult<(EncoderResult, usize, usize), (NonAscii, ByteTwoOver<'b, D>)>
        ensures goes_on { IsGoOn result ↔ GoesOn (left (reading self.old))
            (writing dest.old).free 2 }
        ensures same_reference { IfGoOn result (λ more. (two_destination more.1).ghost_name
            ≡ dest.entry.ghost_name) }
        ensures went_on { IfGoOn result (λ more. GoesOnPast T.scalars T.first_len 2
            (reading self.old) (reading self.new)
            (writing dest.old) (writing (two_destination more.1).now) more.0) }
        ensures scalar { IfGoOn result (λ more. IsScalar (non_ascii_scalar more.0)) }
        ensures stopped { IfStop result (λ stop. StopsIn T.scalars (reading self.old)
            (reading self.new) (writing dest.old) stop) }
    {
        dest.copy_ascii_from_check_space_two(self)
    }

    /// The destination's `copy_ascii_from_check_space_four`, with the two exchanged. What the
    /// destination holds after a stop is told by that call alone.
    pub fn copy_ascii_to_check_space_four<'b, D: ByteBuffer>(
        &mut self,
        dest: &'b mut ByteDestinationOver<D>,
    ) -> CopyAsciiResult<(EncoderResult, usize, usize), (NonAscii, ByteFourOver<'b, D>)>
        ensures goes_on { IsGoOn result ↔ GoesOn (left (reading self.old))
            (writing dest.old).free 4 }
        ensures same_reference { IfGoOn result (λ more. (four_destination more.1).ghost_name
            ≡ dest.entry.ghost_name) }
        ensures went_on { IfGoOn result (λ more. GoesOnPast T.scalars T.first_len 4
            (reading self.old) (reading self.new)
            (writing dest.old) (writing (four_destination more.1).now) more.0) }
        ensures scalar { IfGoOn result (λ more. IsScalar (non_ascii_scalar more.0)) }
        ensures stopped { IfStop result (λ stop. StopsIn T.scalars (reading self.old)
            (reading self.new) (writing dest.old) stop) }
    {
        dest.copy_ascii_from_check_space_four(self)
    }
}

impl<D: ByteBuffer> ByteDestinationOver<D> {
    /// Moves ASCII up to the first other scalar or the end of the source or the room. Where another
    /// scalar is next and a byte is free behind the ASCII, it is read whole, and comes with a
    /// handle for its bytes.
    pub fn copy_ascii_from_check_space_one<'b, T: TextSlice>(
        &'b mut self,
        source: &mut CharSourceOver<T>,
    ) -> CopyAsciiResult<(EncoderResult, usize, usize), (NonAscii, ByteOneOver<'b, D>)>
        ensures* rests { sem 𝓛 (RestsIfStop (the_row D.row D.ByteBuffer) self.entry
            (λ more. (one_destination more.1).ghost_name) result
            (λ n. writing n ≡ after_writing (writing self.old) (moved_ascii
            (left (reading source.old)) (writing self.old).free))) }
        ensures goes_on { IsGoOn result ↔ GoesOn (left (reading source.old))
            (writing self.old).free 1 }
        ensures same_reference { IfGoOn result (λ more. (one_destination more.1).ghost_name
            ≡ self.entry.ghost_name) }
        ensures went_on { IfGoOn result (λ more. GoesOnPast T.scalars T.first_len 1
            (reading source.old) (reading source.new)
            (writing self.old) (writing (one_destination more.1).now) more.0) }
        ensures scalar { IfGoOn result (λ more. IsScalar (non_ascii_scalar more.0)) }
        ensures stopped { IfStop result (λ stop. StopsIn T.scalars (reading source.old)
            (reading source.new) (writing self.old) stop) }
    {
        match source.move_ascii(self, 1) {
            Ok(character) => CopyAsciiResult::GoOn((character, ByteOneOver { dest: self })),
            Err(result) => CopyAsciiResult::Stop((result, source.consumed(), self.written())),
        }
    }

    /// Moves ASCII up to the first other scalar or the end of the source or the room. Where another
    /// scalar is next and two bytes are free behind the ASCII, it is read whole, and comes with a
    /// handle for its bytes.
    pub fn copy_ascii_from_check_space_two<'b, T: TextSlice>(
        &'b mut self,
        source: &mut CharSourceOver<T>,
    ) -> CopyAsciiResult<(EncoderResult, usize, usize), (NonAscii, ByteTwoOver<'b, D>)>
        ensures* rests { sem 𝓛 (RestsIfStop (the_row D.row D.ByteBuffer) self.entry
            (λ more. (two_destination more.1).ghost_name) result
            (λ n. writing n ≡ after_writing (writing self.old) (moved_ascii
            (left (reading source.old)) (writing self.old).free))) }
        ensures goes_on { IsGoOn result ↔ GoesOn (left (reading source.old))
            (writing self.old).free 2 }
        ensures same_reference { IfGoOn result (λ more. (two_destination more.1).ghost_name
            ≡ self.entry.ghost_name) }
        ensures went_on { IfGoOn result (λ more. GoesOnPast T.scalars T.first_len 2
            (reading source.old) (reading source.new)
            (writing self.old) (writing (two_destination more.1).now) more.0) }
        ensures scalar { IfGoOn result (λ more. IsScalar (non_ascii_scalar more.0)) }
        ensures stopped { IfStop result (λ stop. StopsIn T.scalars (reading source.old)
            (reading source.new) (writing self.old) stop) }
    {
        match source.move_ascii(self, 2) {
            Ok(character) => CopyAsciiResult::GoOn((character, ByteTwoOver { dest: self })),
            Err(result) => CopyAsciiResult::Stop((result, source.consumed(), self.written())),
        }
    }

    /// Moves ASCII up to the first other scalar or the end of the source or the room. Where another
    /// scalar is next and four bytes are free behind the ASCII, it is read whole, and comes with a
    /// handle for its bytes.
    pub fn copy_ascii_from_check_space_four<'b, T: TextSlice>(
        &'b mut self,
        source: &mut CharSourceOver<T>,
    ) -> CopyAsciiResult<(EncoderResult, usize, usize), (NonAscii, ByteFourOver<'b, D>)>
        ensures* rests { sem 𝓛 (RestsIfStop (the_row D.row D.ByteBuffer) self.entry
            (λ more. (four_destination more.1).ghost_name) result
            (λ n. writing n ≡ after_writing (writing self.old) (moved_ascii
            (left (reading source.old)) (writing self.old).free))) }
        ensures goes_on { IsGoOn result ↔ GoesOn (left (reading source.old))
            (writing self.old).free 4 }
        ensures same_reference { IfGoOn result (λ more. (four_destination more.1).ghost_name
            ≡ self.entry.ghost_name) }
        ensures went_on { IfGoOn result (λ more. GoesOnPast T.scalars T.first_len 4
            (reading source.old) (reading source.new)
            (writing self.old) (writing (four_destination more.1).now) more.0) }
        ensures scalar { IfGoOn result (λ more. IsScalar (non_ascii_scalar more.0)) }
        ensures stopped { IfStop result (λ stop. StopsIn T.scalars (reading source.old)
            (reading source.new) (writing self.old) stop) }
    {
        match source.move_ascii(self, 4) {
            Ok(character) => CopyAsciiResult::GoOn((character, ByteFourOver { dest: self })),
            Err(result) => CopyAsciiResult::Stop((result, source.consumed(), self.written())),
        }
    }
}
