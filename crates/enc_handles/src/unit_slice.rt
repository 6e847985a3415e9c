//! The slice that a destination of text writes to, in UTF-8 or UTF-16, and how text is put there.
ghost use Rattle.std.specs.Prelude.{◌≡◌, ◌+◌, ◌-◌, ◌<◌, ◌≤◌, [], ◌∷◌, length, take, min, List, ℕ};
ghost use Rattle.std.specs.Prelude.{encode_utf8, IfSome, IfNone};
ghost use Rattle.std.specs.Borrow.{GName};
ghost use Rattle.std.specs.Char.{IsScalar};
ghost use Rattle.std.specs.Char.Escape.{encode_utf16};
ghost use Rattle.enc_handles.specs.Ascii.{moved_len};
ghost use Rattle.enc_handles.specs.Utf16.{TakesWhatFits};
ghost use Rattle.enc_handles.specs.Copies.{MovesFront, MovesFrom};
ghost use Rattle.enc_handles.specs.Unaligned.{units_in};
ghost use Rattle.enc_handles.specs.Entries.{PutsEntry, PutsEntries};
ghost use Rattle.enc_handles.specs.UnitSlice.{Puts};
ghost use Rattle.enc_handles.specs.Rooms.{takes_what_fits_utf8, takes_what_fits_utf16};
ghost use Rattle.enc_handles.specs.Rooms.{ascii_text_utf8, ascii_text_utf16, bmp_fits_utf8};
ghost use Rattle.enc_handles.specs.Rooms.{astral_fits_utf8, two_fit_utf8, bmp_fits_utf16};
ghost use Rattle.enc_handles.specs.Rooms.{astral_fits_utf16, two_fit_utf16};

use crate::blocks::{move_utf8, move_utf16};
use crate::endian::Endian;
use crate::unaligned::UnalignedU16Slice;
use crate::utf8_parts::copy_utf8;
use enc_strides::runs::{ascii_to_ascii, ascii_to_basic_latin};
use enc_strides::utf8::{append_entries, append_entry};

/// A slice of code units: a `&mut [u8]` for UTF-8, a `&mut [u16]` for UTF-16.
pub trait UnitSlice: Drop {
    /// The code units.
    ghost units: { Self → List ℕ };

    /// Which buffer they lie in.
    ghost buffer: { Self → GName };

    /// The code units of a scalar.
    ghost encode: { ℕ → List ℕ };

    /// How many units any scalar up to U+FFFF has at most.
    ghost bmp_room: { ℕ };

    /// How many units any scalar has at most.
    ghost astral_room: { ℕ };

    /// How many units any scalar up to U+FFFF has at most.
    fn room_for_bmp(&self) -> usize
        ensures { result ≡ bmp_room };

    /// How many units any scalar has at most.
    fn room_for_astral(&self) -> usize
        ensures { result ≡ astral_room };

    /// How many units the slice has.
    fn unit_count(&self) -> usize
        ensures { result ≡ length (units self.now) };

    /// Writes a scalar up to U+FFFF at `at`, and answers the place behind it.
    fn put_bmp_at(&mut self, at: usize, bmp: u16) -> usize
        requires scalar { IsScalar bmp }
        requires room { at + length (encode bmp) ≤ length (units self.old) }
        ensures end { result ≡ at + length (encode bmp) }
        ensures text { Puts (units self.old) (units self.new) at (encode bmp) }
        ensures same_buffer { buffer self.new ≡ buffer self.old };

    /// Writes a scalar above U+FFFF at `at`, and answers the place behind it.
    fn put_astral_at(&mut self, at: usize, astral: u32) -> usize
        requires scalar { IsScalar astral }
        requires above { 0x1_0000 ≤ astral }
        requires room { at + length (encode astral) ≤ length (units self.old) }
        ensures end { result ≡ at + length (encode astral) }
        ensures text { Puts (units self.old) (units self.new) at (encode astral) }
        ensures same_buffer { buffer self.new ≡ buffer self.old };

    /// How much room a copy of UTF-16 asks for before each scalar.
    ghost utf16_room: { ℕ };

    /// How many of so many code units a copy of UTF-16 takes, for a room.
    ghost utf16_taken: { ℕ → ℕ → ℕ };

    /// How much room a copy of UTF-16 asks for before each scalar.
    fn room_for_utf16(&self) -> usize
        ensures { result ≡ utf16_room };

    /// How many of `count` code units a copy of UTF-16 to `at` and behind it takes.
    fn utf16_count(&self, at: usize, count: usize) -> usize
        requires { at ≤ length (units self.now) }
        ensures taken { result ≡ utf16_taken (length (units self.now) - at) count }
        ensures within { result ≤ count };

    /// How many units a scalar has.
    fn text_len(&self, code: u32) -> usize
        ensures { result ≡ length (encode code) };

    /// Moves ASCII from the front of `src` to `at` and behind it, up to the first other byte or the
    /// end of either, and answers the place behind it. What stands there and further on is left
    /// open.
    fn copy_ascii_at(&mut self, at: usize, src: &[u8]) -> usize
        requires { at ≤ length (units self.old) }
        ensures end { result ≡ at + moved_len src.now (length (units self.old) - at) }
        ensures text { Puts (units self.old) (units self.new) at
            (take (moved_len src.now (length (units self.old) - at)) src.now) }
        ensures same_buffer { buffer self.new ≡ buffer self.old };

    /// Moves whole well-formed UTF-8 sequences from the front of `src` to `at` and behind it, as
    /// many as it sees fit, and answers how many bytes they are and the place behind their text.
    /// What stands there is left open.
    fn copy_utf8_at(&mut self, at: usize, src: &[u8]) -> (usize, usize)
        requires { at ≤ length (units self.old) }
        ensures moved { MovesFront encode src.now (units self.old) (units self.new) at result }
        ensures same_buffer { buffer self.new ≡ buffer self.old };

    /// Moves code units of `source` from place `from` on, none of which is a surrogate, to `at` and
    /// behind it, as many as it sees fit, and answers how many they are and the place behind their
    /// text. What stands there is left open.
    fn copy_units_at<E: Endian>(
        &mut self,
        at: usize,
        source: &UnalignedU16Slice,
        from: usize,
    ) -> (usize, usize)
        requires at { at ≤ length (units self.old) }
        requires from { from ≤ length (units_in E.OPPOSITE_ENDIAN source.now) }
        ensures moved { MovesFrom encode utf16_room (units_in E.OPPOSITE_ENDIAN source.now)
            (units self.old) (units self.new) at from result }
        ensures same_buffer { buffer self.new ≡ buffer self.old };

    /// Writes the scalars of eight entries (`entry::entry_of`) at `at` and behind it, and answers
    /// the place behind their text, or `None` where the slice takes no entries or sees too little
    /// room. What stands behind the text is left open.
    fn put_entries_at(&mut self, at: usize, entries: &[u32; 8]) -> Option<usize>
        requires { at ≤ length (units self.old) }
        ensures moved { IfSome result (λ end. PutsEntries encode (units self.old) (units self.new)
            at end entries.now) }
        ensures none { IfNone result (units self.new ≡ units self.old) }
        ensures same_buffer { buffer self.new ≡ buffer self.old };

    /// Writes the scalar of an entry (`entry::entry_of`) at `at`, and answers the place behind its
    /// text, or `None` where the slice takes no entries or sees too little room. What stands behind
    /// the text is left open.
    fn put_entry_at(&mut self, at: usize, entry: u32) -> Option<usize>
        requires { at ≤ length (units self.old) }
        ensures moved { IfSome result (λ end. PutsEntry encode (units self.old) (units self.new) at
            end entry) }
        ensures none { IfNone result (units self.new ≡ units self.old) }
        ensures same_buffer { buffer self.new ≡ buffer self.old };

    /// What a copy of UTF-16 takes fits.
    ghost takes_what_fits: { TakesWhatFits encode utf16_room utf16_taken };

    /// An ASCII scalar is one element, itself.
    ghost ascii_text: { (c : ℕ) → c < 0x80 → encode c ≡ c ∷ [] };

    /// The room for a scalar up to U+FFFF holds any of these.
    ghost bmp_fits: { (c : ℕ) → IsScalar c → c < 0x1_0000 → length (encode c) ≤ bmp_room };

    /// The room for any scalar holds each.
    ghost astral_fits: { (c : ℕ) → IsScalar c → length (encode c) ≤ astral_room };

    /// The room for any scalar holds two scalars below U+0800.
    ghost two_fit: { (c d : ℕ) → c < 0x800 → d < 0x800
        → length (encode c) + length (encode d) ≤ astral_room };
}

fn put_byte(slice: &mut [u8], at: usize, byte: u8) -> usize
    requires { at < length slice.old }
    ensures end { result ≡ at + 1 }
    ensures text { Puts slice.old slice.new at (byte ∷ []) }
{
    slice[at] = byte;
    at + 1
}

fn put_two(slice: &mut [u8], at: usize, code: u32) -> usize
    requires low { 0x80 ≤ code }
    requires high { code < 0x800 }
    requires room { at + 2 ≤ length slice.old }
    ensures end { result ≡ at + 2 }
    ensures text { Puts slice.old slice.new at (encode_utf8 code) }
{
    let at = put_byte(slice, at, (0xC0 + code / 0x40) as u8);
    put_byte(slice, at, (0x80 + code % 0x40) as u8)
}

fn put_three(slice: &mut [u8], at: usize, code: u32) -> usize
    requires low { 0x800 ≤ code }
    requires high { code < 0x1_0000 }
    requires room { at + 3 ≤ length slice.old }
    ensures end { result ≡ at + 3 }
    ensures text { Puts slice.old slice.new at (encode_utf8 code) }
{
    let at = put_byte(slice, at, (0xE0 + code / 0x1000) as u8);
    let at = put_byte(slice, at, (0x80 + code / 0x40 % 0x40) as u8);
    put_byte(slice, at, (0x80 + code % 0x40) as u8)
}

fn put_four(slice: &mut [u8], at: usize, code: u32) -> usize
    requires low { 0x1_0000 ≤ code }
    requires high { code < 0x11_0000 }
    requires room { at + 4 ≤ length slice.old }
    ensures end { result ≡ at + 4 }
    ensures text { Puts slice.old slice.new at (encode_utf8 code) }
{
    let at = put_byte(slice, at, (0xF0 + code / 0x4_0000) as u8);
    let at = put_byte(slice, at, (0x80 + code / 0x1000 % 0x40) as u8);
    let at = put_byte(slice, at, (0x80 + code / 0x40 % 0x40) as u8);
    put_byte(slice, at, (0x80 + code % 0x40) as u8)
}

fn put_unit(slice: &mut [u16], at: usize, unit: u16) -> usize
    requires { at < length slice.old }
    ensures end { result ≡ at + 1 }
    ensures text { Puts slice.old slice.new at (unit ∷ []) }
{
    slice[at] = unit;
    at + 1
}

fn put_pair(slice: &mut [u16], at: usize, code: u32) -> usize
    requires low { 0x1_0000 ≤ code }
    requires high { code < 0x11_0000 }
    requires room { at + 2 ≤ length slice.old }
    ensures end { result ≡ at + 2 }
    ensures text { Puts slice.old slice.new at (encode_utf16 code) }
{
    let over = code - 0x1_0000;
    let at = put_unit(slice, at, (0xD800 + over / 0x400) as u16);
    put_unit(slice, at, (0xDC00 + over % 0x400) as u16)
}

impl<'a> UnitSlice for &'a mut [u8] {
    ghost units = { λ s. s.now };

    ghost buffer = { λ s. s.ghost_name };

    ghost encode = { encode_utf8 };

    ghost bmp_room = { 3 };

    ghost astral_room = { 4 };

    fn room_for_bmp(&self) -> usize {
        3
    }

    fn room_for_astral(&self) -> usize {
        4
    }

    fn unit_count(&self) -> usize {
        self.len()
    }

    fn put_bmp_at(&mut self, at: usize, bmp: u16) -> usize {
        let code = u32::from(bmp);
        if code < 0x80 {
            put_byte(self, at, code as u8)
        } else if code < 0x800 {
            put_two(self, at, code)
        } else {
            put_three(self, at, code)
        }
    }

    fn put_astral_at(&mut self, at: usize, astral: u32) -> usize {
        put_four(self, at, astral)
    }

    #[tactic(auto, using(crate::proofs::TextLemmas::text_lengths))]
    fn text_len(&self, code: u32) -> usize {
        if code < 0x80 {
            1
        } else if code < 0x800 {
            2
        } else if code < 0x1_0000 {
            3
        } else {
            4
        }
    }

    fn copy_ascii_at(&mut self, at: usize, src: &[u8]) -> usize {
        let len = ascii_to_ascii(src, &mut self[at..]);
        at + len
    }

    fn copy_utf8_at(&mut self, at: usize, src: &[u8]) -> (usize, usize) {
        let len = copy_utf8(src, &mut self[at..]);
        (len, at + len)
    }

    fn copy_units_at<E: Endian>(
        &mut self,
        at: usize,
        source: &UnalignedU16Slice,
        from: usize,
    ) -> (usize, usize) {
        move_utf8::<E>(source, from, self, at)
    }

    #[inline(always)]
    fn put_entries_at(&mut self, at: usize, entries: &[u32; 8]) -> Option<usize> {
        if self.len() - at < 25 {
            return None;
        }
        Some(append_entries(entries, self, at))
    }

    #[inline(always)]
    fn put_entry_at(&mut self, at: usize, entry: u32) -> Option<usize> {
        if self.len() - at < 4 {
            return None;
        }
        Some(append_entry(entry, self, at))
    }

    ghost utf16_room = { 4 };

    ghost utf16_taken = { λ room count. count };

    fn room_for_utf16(&self) -> usize {
        4
    }

    fn utf16_count(&self, at: usize, count: usize) -> usize {
        count
    }

    ghost takes_what_fits = { takes_what_fits_utf8 };

    ghost ascii_text = { ascii_text_utf8 };

    ghost bmp_fits = { bmp_fits_utf8 };

    ghost astral_fits = { astral_fits_utf8 };

    ghost two_fit = { two_fit_utf8 };
}

impl<'a> UnitSlice for &'a mut [u16] {
    ghost units = { λ s. s.now };

    ghost buffer = { λ s. s.ghost_name };

    ghost encode = { encode_utf16 };

    ghost bmp_room = { 1 };

    ghost astral_room = { 2 };

    fn room_for_bmp(&self) -> usize {
        1
    }

    fn room_for_astral(&self) -> usize {
        2
    }

    fn unit_count(&self) -> usize {
        self.len()
    }

    fn put_bmp_at(&mut self, at: usize, bmp: u16) -> usize {
        put_unit(self, at, bmp)
    }

    fn put_astral_at(&mut self, at: usize, astral: u32) -> usize {
        put_pair(self, at, astral)
    }

    fn text_len(&self, code: u32) -> usize {
        if code < 0x1_0000 { 1 } else { 2 }
    }

    fn copy_ascii_at(&mut self, at: usize, src: &[u8]) -> usize {
        let len = ascii_to_basic_latin(src, &mut self[at..]);
        at + len
    }

    fn copy_utf8_at(&mut self, at: usize, src: &[u8]) -> (usize, usize) {
        (0, at)
    }

    fn copy_units_at<E: Endian>(
        &mut self,
        at: usize,
        source: &UnalignedU16Slice,
        from: usize,
    ) -> (usize, usize) {
        move_utf16::<E>(source, from, self, at)
    }

    #[inline(always)]
    fn put_entries_at(&mut self, at: usize, entries: &[u32; 8]) -> Option<usize> {
        let _ = at;
        let _ = entries;
        None
    }

    #[inline(always)]
    fn put_entry_at(&mut self, at: usize, entry: u32) -> Option<usize> {
        let _ = (at, entry);
        None
    }

    ghost utf16_room = { 0 };

    ghost utf16_taken = { λ room count. min count room };

    fn room_for_utf16(&self) -> usize {
        0
    }

    fn utf16_count(&self, at: usize, count: usize) -> usize {
        count.min(self.len() - at)
    }

    ghost takes_what_fits = { takes_what_fits_utf16 };

    ghost ascii_text = { ascii_text_utf16 };

    ghost bmp_fits = { bmp_fits_utf16 };

    ghost astral_fits = { astral_fits_utf16 };

    ghost two_fit = { two_fit_utf16 };
}
