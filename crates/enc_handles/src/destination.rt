//! Destinations for text in UTF-8 and in UTF-16, for decoders, and the copies of text to them.
ghost use Rattle.std.specs.Prelude.{◌≡◌, ◌+◌, ◌-◌, ◌<◌, ◌≤◌, ◌↔◌, [], ◌∷◌, length, true, false};
ghost use Rattle.std.specs.Prelude.{List, ℕ, IsTrue, encode_utf8, slice_index, drop, IsOk, IfOk};
ghost use Rattle.std.specs.Prelude.{IfErr, IfSome, IfNone, OnOk, OnErr};
ghost use Rattle.enc_handles.specs.Ascii.{ascii_len, moved_len, moved_text, stop_result, GoesOn};
ghost use Rattle.enc_handles.specs.Copies.{Copied, CopiesUtf8, CopiesUnits, CopiesUtf16};
ghost use Rattle.enc_handles.specs.Copies.{MovesScalars};
ghost use Rattle.enc_handles.specs.Entries.{WritesEntry, WritesEntries};
ghost use Rattle.enc_handles.specs.Unaligned.{units_in};
ghost use Rattle.enc_handles.specs.Reading.{left, after_reading};
ghost use Rattle.enc_handles.specs.ByteSource.{reading};
ghost use Rattle.enc_handles.specs.Utf16.{is_lead, is_trail, pair_scalar, code_units, utf16_window};
ghost use Rattle.enc_handles.specs.Utf16.{WindowFits, TakesWhatFits, BeginsNoPair};
ghost use Rattle.std.specs.Borrow.{sem};
ghost use Rattle.std.specs.Char.{IsScalar};
ghost use Rattle.enc_handles.specs.Writing.{Writing, after_writing};
ghost use Rattle.enc_handles.specs.Space.{IsAvailable, IfAvailable, IfFull, RestsIfFull, IsGoOn};
ghost use Rattle.enc_handles.specs.Space.{IfGoOn, IfStop, RestsIfStop};
ghost use Rattle.enc_handles.specs.Room.{bmp_destination, astral_destination};

use crate::byte_slice::ByteSlice;
use crate::byte_source::ByteSourceOver;
use crate::endian::Endian;
use crate::results::DecoderResult;
use crate::room::{AstralRoom, BmpRoom};
use crate::space::{CopyAsciiResult, Space};
use crate::unaligned::UnalignedU16Slice;
use crate::unit_slice::UnitSlice;
use crate::utf8::{sequence_len, sequence_scalar};
use crate::utf16::{scalar_of_pair, well_formed_scalar_at, without_last_lead};

#[cfg(test)]
mod tests;

/// What takes text in one form, UTF-8 or UTF-16, and knows how much room is left.
pub trait Destination: Drop {
    /// The text written, the room that is left, and the buffer.
    ghost state: { Self → Writing };

    /// The elements of a scalar.
    ghost encode: { ℕ → List ℕ };

    /// How many elements any scalar up to U+FFFF has at most.
    ghost bmp_room: { ℕ };

    /// How many elements any scalar has at most.
    ghost astral_room: { ℕ };

    /// How many elements are written.
    fn written(&self) -> usize
        ensures { result ≡ length (state self.now).text };

    /// A handle exactly where any scalar up to U+FFFF fits, else `Full` with the elements written.
    fn check_space_bmp<'b>(&'b mut self) -> Space<BmpRoom<'b, Self>>
        ensures* rests { sem 𝓛 (RestsIfFull Self.row self.entry
            (λ room. (bmp_destination room).ghost_name) result (λ n. n ≡ self.old)) }
        ensures available { IsAvailable result ↔ (bmp_room ≤ (state self.old).free) }
        ensures same_reference { IfAvailable result
            (λ room. (bmp_destination room).ghost_name ≡ self.entry.ghost_name) }
        ensures same_destination { IfAvailable result
            (λ room. (bmp_destination room).now ≡ self.old) }
        ensures room { IfAvailable result (λ room. bmp_room
            ≤ (state (bmp_destination room).now).free) }
        ensures full { IfFull result (λ place. place ≡ length (state self.old).text) };

    /// A handle exactly where any scalar fits, else `Full` with the elements written.
    fn check_space_astral<'b>(&'b mut self) -> Space<AstralRoom<'b, Self>>
        ensures* rests { sem 𝓛 (RestsIfFull Self.row self.entry
            (λ room. (astral_destination room).ghost_name) result (λ n. n ≡ self.old)) }
        ensures available { IsAvailable result ↔ (astral_room ≤ (state self.old).free) }
        ensures same_reference { IfAvailable result
            (λ room. (astral_destination room).ghost_name ≡ self.entry.ghost_name) }
        ensures same_destination { IfAvailable result
            (λ room. (astral_destination room).now ≡ self.old) }
        ensures room { IfAvailable result (λ room. astral_room
            ≤ (state (astral_destination room).now).free) }
        ensures full { IfFull result (λ place. place ≡ length (state self.old).text) };

    /// Writes a scalar up to U+FFFF.
    fn put_bmp(&mut self, bmp: u16)
        requires scalar { IsScalar bmp }
        requires room { length (encode bmp) ≤ (state self.old).free }
        ensures { state self.new ≡ after_writing (state self.old) (encode bmp) };

    /// Writes a scalar above U+FFFF.
    fn put_astral(&mut self, astral: u32)
        requires scalar { IsScalar astral }
        requires above { 0x1_0000 ≤ astral }
        requires room { length (encode astral) ≤ (state self.old).free }
        ensures { state self.new ≡ after_writing (state self.old) (encode astral) };

    /// Moves ASCII up to the first other byte or the end of the source or the room. Where another
    /// byte is next and any scalar up to U+FFFF fits behind the ASCII, it is read, and comes with a
    /// handle for its text.
    fn copy_ascii_from_check_space_bmp<'b, B: ByteSlice>(
        &'b mut self,
        source: &mut ByteSourceOver<B>,
    ) -> CopyAsciiResult<(DecoderResult, usize, usize), (u8, BmpRoom<'b, Self>)>
        ensures* rests { sem 𝓛 (RestsIfStop Self.row self.entry
            (λ more. (bmp_destination more.1).ghost_name) result
            (λ n. state n ≡ after_writing (state self.old)
            (moved_text encode (left (reading source.old)) (state self.old).free))) }
        ensures goes_on { IsGoOn result ↔ GoesOn (left (reading source.old)) (state self.old).free
            bmp_room }

        // A byte past ASCII: it is read, and the handle is of the destination behind the ASCII.
        ensures byte { IfGoOn result (λ more. more.0
            ≡ slice_index (left (reading source.old)) (ascii_len (left (reading source.old)))) }
        ensures past_ascii { IfGoOn result (λ more. 0x80 ≤ more.0) }
        ensures read { IfGoOn result (λ _. reading source.new
            ≡ after_reading (reading source.old) (ascii_len (left (reading source.old)) + 1)) }
        ensures same_reference { IfGoOn result (λ more. (bmp_destination more.1).ghost_name
            ≡ self.entry.ghost_name) }
        ensures room { IfGoOn result (λ more. bmp_room
            ≤ (state (bmp_destination more.1).now).free) }
        ensures text { IfGoOn result (λ more. state (bmp_destination more.1).now
            ≡ after_writing (state self.old) (moved_text encode (left (reading source.old))
            (state self.old).free)) }

        // The end of the source or of the room: the places, and which it was.
        ensures stopped { IfStop result (λ stop. reading source.new
            ≡ after_reading (reading source.old) (moved_len (left (reading source.old))
            (state self.old).free)) }
        ensures cause { IfStop result (λ stop. stop.0
            ≡ stop_result (left (reading source.old)) (state self.old).free) }
        ensures places { IfStop result (λ stop. (stop.1 ≡ (reading source.new).place)
            × (stop.2 ≡ length (after_writing (state self.old)
            (moved_text encode (left (reading source.old)) (state self.old).free)).text)) };

    /// Moves ASCII up to the first other byte or the end of the source or the room. Where another
    /// byte is next and any scalar fits behind the ASCII, it is read, and comes with a handle for
    /// its text.
    fn copy_ascii_from_check_space_astral<'b, B: ByteSlice>(
        &'b mut self,
        source: &mut ByteSourceOver<B>,
    ) -> CopyAsciiResult<(DecoderResult, usize, usize), (u8, AstralRoom<'b, Self>)>
        ensures* rests { sem 𝓛 (RestsIfStop Self.row self.entry
            (λ more. (astral_destination more.1).ghost_name) result
            (λ n. state n ≡ after_writing (state self.old)
            (moved_text encode (left (reading source.old)) (state self.old).free))) }
        ensures goes_on { IsGoOn result ↔ GoesOn (left (reading source.old)) (state self.old).free
            astral_room }

        // A byte past ASCII: it is read, and the handle is of the destination behind the ASCII.
        ensures byte { IfGoOn result (λ more. more.0
            ≡ slice_index (left (reading source.old)) (ascii_len (left (reading source.old)))) }
        ensures past_ascii { IfGoOn result (λ more. 0x80 ≤ more.0) }
        ensures read { IfGoOn result (λ _. reading source.new
            ≡ after_reading (reading source.old) (ascii_len (left (reading source.old)) + 1)) }
        ensures same_reference { IfGoOn result (λ more. (astral_destination more.1).ghost_name
            ≡ self.entry.ghost_name) }
        ensures room { IfGoOn result (λ more. astral_room
            ≤ (state (astral_destination more.1).now).free) }
        ensures text { IfGoOn result (λ more. state (astral_destination more.1).now
            ≡ after_writing (state self.old) (moved_text encode (left (reading source.old))
            (state self.old).free)) }

        // The end of the source or of the room: the places, and which it was.
        ensures stopped { IfStop result (λ stop. reading source.new
            ≡ after_reading (reading source.old) (moved_len (left (reading source.old))
            (state self.old).free)) }
        ensures cause { IfStop result (λ stop. stop.0
            ≡ stop_result (left (reading source.old)) (state self.old).free) }
        ensures places { IfStop result (λ stop. (stop.1 ≡ (reading source.new).place)
            × (stop.2 ≡ length (after_writing (state self.old)
            (moved_text encode (left (reading source.old)) (state self.old).free)).text)) };

    /// Moves the longest front of whole well-formed UTF-8 sequences whose text fits the room.
    fn copy_utf8_up_to_invalid_from<B: ByteSlice>(&mut self, source: &mut ByteSourceOver<B>)
        ensures { CopiesUtf8 encode (reading source.old) (reading source.new) (state self.old)
            (state self.new) };

    /// How much room a copy of UTF-16 asks for before each scalar: four bytes, or nothing.
    ghost utf16_room: { ℕ };

    /// How many of so many code units a copy of UTF-16 takes, for a room: all, or as many as are
    /// free.
    ghost utf16_taken: { ℕ → ℕ → ℕ };

    /// Moves code units, in the order of `E`, of the window that `utf16_window` describes: the
    /// whole units that are left, for UTF-16 no more than fit, without a leading surrogate at the
    /// end. Stops at the window's end or for want of room with `None`, or behind an unpaired
    /// surrogate, which it reads, with the places.
    fn copy_utf16_from<E: Endian, B: ByteSlice>(
        &mut self,
        source: &mut ByteSourceOver<B>,
    ) -> Option<(usize, usize)>
        ensures { CopiesUtf16 encode
            (utf16_window utf16_taken (state self.old).free
            (code_units E.OPPOSITE_ENDIAN (left (reading source.old))))
            utf16_room (reading source.old) (reading source.new) (state self.old) (state self.new)
            result };

    /// An ASCII scalar is one element, itself.
    ghost ascii_text: { (c : ℕ) → c < 0x80 → encode c ≡ c ∷ [] };

    /// A room for the Basic Multilingual Plane holds any of its scalars.
    ghost bmp_fits: { (c : ℕ) → IsScalar c → c < 0x1_0000 → length (encode c) ≤ bmp_room };

    /// An astral room holds any scalar.
    ghost astral_fits: { (c : ℕ) → IsScalar c → length (encode c) ≤ astral_room };

    /// An astral room holds two scalars below U+0800.
    ghost two_fit: { (c d : ℕ) → c < 0x800 → d < 0x800
        → length (encode c) + length (encode d) ≤ astral_room };
}

/// A destination over a slice of code units.
#[derive(Drop)]
pub struct DestinationOver<S: UnitSlice> {
    slice: S,
    pos: usize,
    ghost within: { pos ≤ length (S.units slice) },
}

/// A destination of UTF-8; its elements are bytes.
pub type Utf8Destination<'a> = DestinationOver<&'a mut [u8]>;

/// A destination of UTF-16; its elements are 16-bit code units.
pub type Utf16Destination<'a> = DestinationOver<&'a mut [u16]>;

impl<'a> DestinationOver<&'a mut [u8]> {
    ghost use Rattle.enc_handles.specs.Destination.{writing};

    /// A destination that has written nothing, with all of `dst` as its room.
    pub fn new(dst: &'a mut [u8]) -> Utf8Destination<'a>
        ensures { writing result ≡ record {
          text = [];
          free = length dst.old;
          buffer =
              dst.entry.ghost_name;
        } }
    {
        DestinationOver { slice: dst, pos: 0 }
    }

    /// Writes the scalar of a pair of surrogates.
    #[tactic(auto, using(crate::specs::Rooms::astral_fits_utf8))]
    pub fn write_surrogate_pair(&mut self, high: u16, low: u16)
        requires lead { IsTrue (is_lead high) }
        requires trail { IsTrue (is_trail low) }
        requires room { 4 ≤ (writing self.old).free }
        ensures { writing self.new ≡ after_writing (writing self.old)
            (encode_utf8 (pair_scalar high low)) }
    {
        self.put_astral(scalar_of_pair(high, low));
    }
}

impl<'a> DestinationOver<&'a mut [u16]> {
    ghost use Rattle.enc_handles.specs.Destination.{writing};

    /// A destination that has written nothing, with all of `dst` as its room.
    pub fn new(dst: &'a mut [u16]) -> Utf16Destination<'a>
        ensures { writing result ≡ record {
          text = [];
          free = length dst.old;
          buffer =
              dst.entry.ghost_name;
        } }
    {
        DestinationOver { slice: dst, pos: 0 }
    }
}

impl<S: UnitSlice> DestinationOver<S> {
    ghost use Rattle.enc_handles.specs.Destination.{writing};

    /// Writes the scalars of eight entries (`entry::entry_of`), and answers whether it did: not
    /// always where there is room for their text alone, and never in UTF-16.
    #[inline(always)]
    pub fn write_entries(&mut self, entries: &[u32; 8]) -> bool
        ensures written { result ≡ true → WritesEntries S.encode (writing self.old)
            (writing self.new) entries.now }
        ensures stays { result ≡ false → writing self.new ≡ writing self.old }
    {
        let Some(end) = self.slice.put_entries_at(self.pos, entries) else {
            return false;
        };
        self.pos = end;
        true
    }

    /// Writes the scalar of an entry (`entry::entry_of`), and answers whether it did: not always
    /// where there is room for its text alone, and never in UTF-16.
    #[inline(always)]
    pub fn write_entry(&mut self, entry: u32) -> bool
        ensures written { result ≡ true → WritesEntry S.encode (writing self.old) (writing self.new)
            entry }
        ensures stays { result ≡ false → writing self.new ≡ writing self.old }
    {
        let Some(end) = self.slice.put_entry_at(self.pos, entry) else {
            return false;
        };
        self.pos = end;
        true
    }

    // Writes a scalar.
    fn put_scalar(&mut self, code: u32)
        requires scalar { IsScalar code }
        requires room { length (S.encode code) ≤ (writing self.old).free }
        ensures { writing self.new ≡ after_writing (writing self.old) (S.encode code) }
    {
        if code < 0x1_0000 {
            self.put_bmp(code as u16);
        } else {
            self.put_astral(code);
        }
    }

    // Writes the text of the units at `read` and behind it, of many or of one scalar, and answers
    // the place of the next unit, or `None` where an unpaired surrogate stands there.
    fn move_units<E: Endian>(&mut self, units: &UnalignedU16Slice, read: usize) -> Option<usize>
        requires some { read < length (units_in E.OPPOSITE_ENDIAN units.now) }
        requires room { S.utf16_room ≤ (writing self.old).free }
        requires fits { WindowFits S.encode S.utf16_room
            (drop read (units_in E.OPPOSITE_ENDIAN units.now)) (writing self.old).free }
        ensures moved { IfSome result (λ next. MovesScalars S.encode S.utf16_room
            (units_in E.OPPOSITE_ENDIAN units.now) (writing self.old) (writing self.new) read
            next) }
        ensures unpaired { IfNone result
            (BeginsNoPair (units_in E.OPPOSITE_ENDIAN units.now) read) }
        ensures stays { IfNone result (writing self.new ≡ writing self.old) }
    {
        let (count, end) = self.slice.copy_units_at::<E>(self.pos, units, read);
        if count > 0 {
            self.pos = end;
            return Some(read + count);
        }
        let Some((scalar, count)) = well_formed_scalar_at::<E>(units, read) else {
            return None;
        };
        self.put_scalar(scalar);
        Some(read + count)
    }

    // Writes the text of code units, and answers how many it read and whether an unpaired surrogate
    // was the last.
    fn copy_units<E: Endian>(&mut self, units: UnalignedU16Slice) -> (usize, bool)
        requires { WindowFits S.encode S.utf16_room (units_in E.OPPOSITE_ENDIAN units)
            (writing self.old).free }
        ensures { CopiesUnits S.encode (units_in E.OPPOSITE_ENDIAN units.entry) S.utf16_room
            (writing self.old) (writing self.new) result.0 result.1 }
    {
        let needed = self.slice.room_for_utf16();
        let len = units.len();
        let mut read = 0;
        while read < len && needed <= self.slice.unit_count() - self.pos {
            let Some(next) = self.move_units::<E>(&units, read) else {
                return (read + 1, true);
            };
            read = next;
        }
        (read, false)
    }

    // Moves whole well-formed sequences, as many as the slice sees fit.
    fn move_front<B: ByteSlice>(&mut self, source: &mut ByteSourceOver<B>)
        ensures { (scalars : List ℕ) × Copied S.encode (reading source.old) (reading source.new)
            (writing self.old) (writing self.new) scalars }
    {
        let bytes = source.rest();
        let (read, end) = self.slice.copy_utf8_at(self.pos, bytes);
        let rest = bytes.len() - read;
        self.pos = end;
        source.read_until(rest);
    }

    // Moves ASCII, and then reads the byte past it if there is one and `needed` elements are free.
    fn move_ascii<B: ByteSlice>(
        &mut self,
        source: &mut ByteSourceOver<B>,
        needed: usize,
    ) -> Result<u8, DecoderResult>
        requires { 1 ≤ needed }
        ensures goes_on { IsOk result ↔ GoesOn (left (reading source.old)) (writing self.old).free
            needed }
        ensures byte { IfOk result (λ byte. byte ≡ slice_index (left (reading source.old))
            (ascii_len (left (reading source.old)))) }
        ensures past_ascii { IfOk result (λ byte. 0x80 ≤ byte) }
        ensures read { OnOk result (reading source.new
            ≡ after_reading (reading source.old) (ascii_len (left (reading source.old)) + 1)) }
        ensures stopped { OnErr result (reading source.new
            ≡ after_reading (reading source.old) (moved_len (left (reading source.old))
            (writing self.old).free)) }
        ensures cause { IfErr result (λ result. result
            ≡ stop_result (left (reading source.old)) (writing self.old).free) }
        ensures room { OnOk result (needed ≤ (writing self.new).free) }
        ensures text { writing self.new ≡ after_writing (writing self.old)
            (moved_text S.encode (left (reading source.old)) (writing self.old).free) }
    {
        let bytes = source.rest();
        let end = self.slice.copy_ascii_at(self.pos, bytes);
        let moved = end - self.pos;
        let rest = bytes.len() - moved;
        self.pos = end;
        if rest == 0 {
            source.read_until(0);
            return Err(DecoderResult::InputEmpty);
        }
        if self.slice.unit_count() - end < needed {
            source.read_until(rest);
            return Err(DecoderResult::OutputFull);
        }
        let byte = bytes[moved];
        source.read_until(rest - 1);
        Ok(byte)
    }
}

impl<S: UnitSlice> Destination for DestinationOver<S> {
    ghost use Rattle.enc_handles.specs.Destination.{writing};

    ghost state = { writing };

    ghost encode = { S.encode };

    ghost bmp_room = { S.bmp_room };

    ghost astral_room = { S.astral_room };

    fn written(&self) -> usize {
        self.pos
    }

    fn check_space_bmp<'b>(&'b mut self) -> Space<BmpRoom<'b, Self>> {
        if self.slice.room_for_bmp() <= self.slice.unit_count() - self.pos {
            Space::Available(BmpRoom { dest: self })
        } else {
            Space::Full(self.pos)
        }
    }

    fn check_space_astral<'b>(&'b mut self) -> Space<AstralRoom<'b, Self>> {
        if self.slice.room_for_astral() <= self.slice.unit_count() - self.pos {
            Space::Available(AstralRoom { dest: self })
        } else {
            Space::Full(self.pos)
        }
    }

    fn put_bmp(&mut self, bmp: u16) {
        self.pos = self.slice.put_bmp_at(self.pos, bmp);
    }

    fn put_astral(&mut self, astral: u32) {
        self.pos = self.slice.put_astral_at(self.pos, astral);
    }

    fn copy_ascii_from_check_space_bmp<'b, B: ByteSlice>(
        &'b mut self,
        source: &mut ByteSourceOver<B>,
    ) -> CopyAsciiResult<(DecoderResult, usize, usize), (u8, BmpRoom<'b, Self>)> {
        let needed = self.slice.room_for_bmp();
        match self.move_ascii(source, needed) {
            Ok(byte) => CopyAsciiResult::GoOn((byte, BmpRoom { dest: self })),
            Err(result) => CopyAsciiResult::Stop((result, source.consumed(), self.written())),
        }
    }

    fn copy_ascii_from_check_space_astral<'b, B: ByteSlice>(
        &'b mut self,
        source: &mut ByteSourceOver<B>,
    ) -> CopyAsciiResult<(DecoderResult, usize, usize), (u8, AstralRoom<'b, Self>)> {
        let needed = self.slice.room_for_astral();
        match self.move_ascii(source, needed) {
            Ok(byte) => CopyAsciiResult::GoOn((byte, AstralRoom { dest: self })),
            Err(result) => CopyAsciiResult::Stop((result, source.consumed(), self.written())),
        }
    }

    fn copy_utf8_up_to_invalid_from<B: ByteSlice>(&mut self, source: &mut ByteSourceOver<B>) {
        self.move_front(source);
        loop {
            let bytes = source.rest();
            let len = sequence_len(bytes);
            if len == 0 {
                return;
            }
            let code = sequence_scalar(bytes, len);
            if self.slice.unit_count() - self.pos < self.slice.text_len(code) {
                return;
            }
            let rest = bytes.len() - len;
            self.put_scalar(code);
            source.read_until(rest);
        }
    }

    ghost utf16_room = { S.utf16_room };

    ghost utf16_taken = { S.utf16_taken };

    fn copy_utf16_from<E: Endian, B: ByteSlice>(
        &mut self,
        source: &mut ByteSourceOver<B>,
    ) -> Option<(usize, usize)> {
        let bytes = source.rest();
        let count = self.slice.utf16_count(self.pos, bytes.len() / 2);
        let units = without_last_lead::<E>(UnalignedU16Slice::new(bytes, count));
        let (read, unpaired) = self.copy_units::<E>(units);
        let rest = bytes.len() - 2 * read;
        source.read_until(rest);
        if unpaired {
            Some((source.consumed(), self.written()))
        } else {
            None
        }
    }

    ghost ascii_text = { S.ascii_text };

    ghost bmp_fits = { S.bmp_fits };

    ghost astral_fits = { S.astral_fits };

    ghost two_fit = { S.two_fit };
}
