//! The general driver: one body decodes any code, in any pieces, to UTF-8 or UTF-16. The other
//! drivers call it.
ghost use Rattle.std.specs.Prelude.{◌≡◌, ℕ, ◌+◌, ◌-◌, ◌<◌, ◌≤◌, [], Bool, None, length, take, drop};
ghost use Rattle.std.specs.Prelude.{true, false, encode_utf8};
ghost use Rattle.std.specs.Char.Escape.{encode_utf16};
ghost use Rattle.enc_handles.specs.Ascii.{moved_len, moved_text};
ghost use Rattle.enc_handles.specs.ByteSource.{reading};
ghost use Rattle.enc_handles.specs.Destination.{writing};
ghost use Rattle.enc_handles.specs.Reading.{left};
ghost use Rattle.enc_handles.specs.Writing.{after_writing};
ghost use Rattle.enc_drivers.specs.Front.{front_bytes};
ghost use Rattle.enc_drivers.specs.Codes.Utf16.{scalar_bytes};
ghost use Rattle.enc_drivers.specs.Turn.{CopiesScalars};
ghost use Rattle.enc_drivers.specs.Units.{AreBytes, HasScalars};
ghost use Rattle.enc_drivers.specs.Resume.{item_in};

use crate::code::{Bulk, Code, Step};
use crate::front::Front;
use crate::{Item, Mode};
use enc_handles::byte_source::ByteSource;
use enc_handles::destination::{Destination, DestinationOver, Utf8Destination, Utf16Destination};
use enc_handles::endian::{BigEndian, Endian, LittleEndian};
use enc_handles::entry::entry_of;
use enc_handles::results::DecoderResult;
use enc_handles::space::{CopyAsciiResult, Space};
use enc_handles::unit_slice::UnitSlice;

#[cfg(test)]
mod tests;

// How many bytes are read unit after unit before more are copied in one go.
const FEW: usize = 4;

/// A decoder of a code over a stream in pieces. It doesn't replace malformed units.
#[derive(Drop)]
pub struct GeneralDriver<C: Code> {
    code: C,
    mode: Mode,
    held: Front,
    ghost few: { length (front_bytes held) ≤ 3 },
}

impl<C: Code> GeneralDriver<C> {
    ghost use Rattle.enc_drivers.specs.declared.unit.Mode.{Mode};
    ghost use Rattle.enc_drivers.specs.Bulk.{KeepsAscii, ReadsAs, BeginsWithEntry};
    ghost use Rattle.enc_drivers.specs.Codes.Utf8.{utf8_unit};
    ghost use Rattle.enc_drivers.specs.Driver.{standing, unit_of};
    ghost use Rattle.enc_drivers.specs.Turn.{StepsFront, Looks, Goes, Ends, EndsIf, EndsOrGoesOn};
    ghost use Rattle.enc_drivers.specs.Turn.{malformed_if_ends};
    ghost use Rattle.enc_drivers.specs.Decodes.{DecodesRaw};
    ghost use Rattle.enc_drivers.specs.Resume.{malformed_of};

    /// A driver at the start of a stream.
    pub fn new(code: C) -> Self
        ensures start { standing result ≡ record { held = []; mode = Mode.Plain } }
        ensures same_code { unit_of result ≡ C.unit code }
    {
        GeneralDriver {
            code,
            mode: Mode::Plain,
            held: Front::new(),
        }
    }

    /// Decodes to UTF-8: reads bytes of `src` and writes bytes to the front of `dst`, and answers
    /// how many. `last` says that `src` ends the stream.
    ///
    /// `InputEmpty`: `src` was read, and at most three bytes are held, whose unit depends on what
    /// follows; with `last` none. `OutputFull`: fewer than four bytes are free, and something is
    /// left. `Malformed(n, k)`: a malformed unit of `n` bytes was met, and `k` bytes behind it are
    /// held, all of which were needed to tell; the next call goes on with these. Bytes of `dst`
    /// behind the text are free to change.
    pub fn decode_to_utf8_raw(
        &mut self,
        src: &[u8],
        dst: &mut [u8],
        last: bool,
    ) -> (DecoderResult, usize, usize)
        ensures { DecodesRaw (unit_of self.old) (unit_of self.new) encode_utf8 4 last
            (standing self.old) (standing self.new) src.now dst.old dst.new result }
    {
        let mut dest = Utf8Destination::new(dst);
        self.decode(src, &mut dest, last)
    }

    /// Decodes to UTF-16, as `decode_to_utf8_raw`: the second number is of 16-bit code units, and
    /// `OutputFull` comes only where fewer than two are free.
    pub fn decode_to_utf16_raw(
        &mut self,
        src: &[u8],
        dst: &mut [u16],
        last: bool,
    ) -> (DecoderResult, usize, usize)
        ensures { DecodesRaw (unit_of self.old) (unit_of self.new) encode_utf16 2 last
            (standing self.old) (standing self.new) src.now dst.old dst.new result }
    {
        let mut dest = Utf16Destination::new(dst);
        self.decode(src, &mut dest, last)
    }

    // The unit of a front, or `More` where it is empty or undecided.
    fn step(&self, front: &[u8], last: bool) -> Step
        requires { length front.now ≤ 4 }
        ensures { StepsFront (unit_of self.now) last
            (record { held = front.now; mode = (standing self.now).mode }) result }
    {
        if front.is_empty() {
            return Step::More;
        }
        self.code.step(self.mode, front, last)
    }

    // Reads until the front has its unit whatever follows, or nothing is left; answers besides how
    // many bytes it read.
    fn look(&self, front: &mut Front, src: &[u8], last: bool) -> (Step, usize)
        requires { length (front_bytes front.old) ≤ 3 }
        ensures { Looks (unit_of self.now) (standing self.now).mode last (front_bytes front.old)
            (front_bytes front.new) src.now result.1 result.0 }
    {
        let mut read = 0;
        while read < src.len() {
            let step = self.step(front.as_slice(), false);
            if let Step::Unit { .. } = step {
                return (step, read);
            }
            front.push(src[read]);
            read += 1;
        }
        (self.step(front.as_slice(), last), read)
    }

    // Writes the next unit or units, or ends the call; answers besides how many bytes it read.
    fn turn<S: UnitSlice>(
        &mut self,
        src: &[u8],
        dest: &mut DestinationOver<S>,
        last: bool,
    ) -> (Option<DecoderResult>, usize)
        ensures goes { Goes (unit_of self.old) S.encode last (standing self.old) (standing self.new)
            src.now result.1
            (writing dest.old) (writing dest.new) (malformed_if_ends result.0) }
        ensures ends { EndsOrGoesOn (unit_of self.old) last (standing self.old) (standing self.new)
            src.now result.1
            (writing dest.new).free S.astral_room result.0 }
        ensures same_code { unit_of self.new ≡ unit_of self.old }
    {
        if self.held.len() == 0 {
            return self.run(src, dest, last);
        }
        let mut front = self.held;
        let (step, read) = self.look(&mut front, src, last);
        let Step::Unit { item, length, next } = step else {
            self.held = front;
            return (Some(DecoderResult::InputEmpty), read);
        };
        let rest = front.behind(usize::from(length));
        if let Item::Malformed = item {
            self.held = rest;
            self.mode = next;
            return (
                Some(DecoderResult::Malformed(length, rest.len() as u8)),
                read,
            );
        }
        if write_item(dest, item) {
            self.held = rest;
            self.mode = next;
            return (None, read);
        }
        if front.len() == 4 {
            front.pop();
            self.held = front;
            return (Some(DecoderResult::OutputFull), read - 1);
        }
        self.held = front;
        (Some(DecoderResult::OutputFull), read)
    }

    // Where nothing is held: moves what can be moved in one go, then unit after unit, and goes back
    // where that is worth it.
    fn run<S: UnitSlice>(
        &mut self,
        src: &[u8],
        dest: &mut DestinationOver<S>,
        last: bool,
    ) -> (Option<DecoderResult>, usize)
        requires { (standing self.old).held ≡ [] }
        ensures goes { Goes (unit_of self.old) S.encode last (standing self.old) (standing self.new)
            src.now result.1
            (writing dest.old) (writing dest.new) (malformed_if_ends result.0) }
        ensures ends { EndsOrGoesOn (unit_of self.old) last (standing self.old) (standing self.new)
            src.now result.1
            (writing dest.new).free S.astral_room result.0 }
        ensures same_code { unit_of self.new ≡ unit_of self.old }
    {
        let mut read = self.copy_run(src, dest);
        while read < src.len() {
            let (result, more) = self.unit(&src[read..], dest, last);
            read += more;
            if let Some(result) = result {
                return (Some(result), read);
            }
            if self.is_run() {
                return (None, read);
            }
        }
        (Some(DecoderResult::InputEmpty), read)
    }

    // Where nothing is held and no run of ASCII begins: decodes a few bytes unit after unit. A call
    // begins with them, since text that is often malformed has one or two scalars in a row, which
    // is no start for a copy. Where a unit has too little room, what follows may still copy some.
    #[inline(always)]
    fn few_units<S: UnitSlice>(
        &mut self,
        src: &[u8],
        dest: &mut DestinationOver<S>,
        last: bool,
    ) -> (Option<DecoderResult>, usize)
        ensures goes { Goes (unit_of self.old) S.encode last (standing self.old) (standing self.new)
            src.now result.1
            (writing dest.old) (writing dest.new) (malformed_if_ends result.0) }
        ensures ends { EndsIf (unit_of self.old) last (standing self.new) (drop result.1 src.now)
            (writing dest.new).free S.astral_room result.0 }
        ensures same_code { unit_of self.new ≡ unit_of self.old }
    {
        let mut read = 0;
        while read < FEW && read < src.len() && self.held.len() == 0 && !begins_run(&src[read..]) {
            let (result, more) = self.unit(&src[read..], dest, last);
            read += more;
            if let Some(result) = result {
                if is_output_full(result) {
                    return (None, read);
                }
                return (Some(result), read);
            }
        }
        (None, read)
    }

    // Where nothing is held: writes the unit at the front, or ends the call.
    #[inline(always)]
    fn unit<S: UnitSlice>(
        &mut self,
        src: &[u8],
        dest: &mut DestinationOver<S>,
        last: bool,
    ) -> (Option<DecoderResult>, usize)
        requires nothing { (standing self.old).held ≡ [] }
        requires some { 0 < length src.now }
        ensures goes { Goes (unit_of self.old) S.encode last (standing self.old) (standing self.new)
            src.now result.1
            (writing dest.old) (writing dest.new) (malformed_if_ends result.0) }
        ensures ends { EndsOrGoesOn (unit_of self.old) last (standing self.old) (standing self.new)
            src.now result.1
            (writing dest.new).free S.astral_room result.0 }
        ensures nothing { result.0 ≡ None → (standing self.new).held ≡ [] }
        ensures same_code { unit_of self.new ≡ unit_of self.old }
    {
        let front = first_four(src);
        let Step::Unit { item, length, next } = self.code.step(self.mode, front, last) else {
            self.held = Front::of(front);
            return (Some(DecoderResult::InputEmpty), front.len());
        };
        if let Item::Malformed = item {
            self.mode = next;
            return (
                Some(DecoderResult::Malformed(length, 0)),
                usize::from(length),
            );
        }
        if !write_item(dest, item) {
            return (Some(DecoderResult::OutputFull), 0);
        }
        self.mode = next;
        (None, usize::from(length))
    }

    // Where nothing is held: moves what can be moved in one go, and answers how many bytes that
    // were.
    #[inline(always)]
    fn copy_run<S: UnitSlice>(&self, src: &[u8], dest: &mut DestinationOver<S>) -> usize
        ensures { (last : Bool) (mode : Mode) → Goes (unit_of self.now) S.encode last
            (record { held = []; mode = mode }) (record { held = []; mode = mode })
            src.now result (writing dest.old) (writing dest.new) [] }
    {
        match self.code.bulk() {
            Bulk::None => 0,
            Bulk::Ascii => self.copy_text(src, dest),
            Bulk::Utf8 => self.copy_sequences(src, dest),
            Bulk::Utf16Le => copy_utf16::<LittleEndian, S>(src, dest),
            Bulk::Utf16Be => copy_utf16::<BigEndian, S>(src, dest),
        }
    }

    // Where the units are those of UTF-8: moves whole sequences.
    #[inline(always)]
    fn copy_sequences<S: UnitSlice>(&self, src: &[u8], dest: &mut DestinationOver<S>) -> usize
        requires { ReadsAs utf8_unit (unit_of self.now) }
        ensures { (last : Bool) (mode : Mode) → Goes (unit_of self.now) S.encode last
            (record { held = []; mode = mode }) (record { held = []; mode = mode })
            src.now result (writing dest.old) (writing dest.new) [] }
    {
        copy_utf8(src, dest)
    }

    // Where the code keeps ASCII: moves ASCII and what the code tells of other text, in turn.
    #[inline(always)]
    fn copy_text<S: UnitSlice>(&self, src: &[u8], dest: &mut DestinationOver<S>) -> usize
        requires { KeepsAscii (unit_of self.now) }
        ensures { (last : Bool) (mode : Mode) → Goes (unit_of self.now) S.encode last
            (record { held = []; mode = mode }) (record { held = []; mode = mode })
            src.now result (writing dest.old) (writing dest.new) [] }
    {
        let mut read = 0;
        while read < src.len() {
            let more = self.copy_part(&src[read..], dest);
            read += more;
            if more == 0 || !begins_run(&src[read..]) {
                return read;
            }
        }
        read
    }

    // ASCII at the front, and then other text.
    #[inline(always)]
    fn copy_part<S: UnitSlice>(&self, src: &[u8], dest: &mut DestinationOver<S>) -> usize
        requires { KeepsAscii (unit_of self.now) }
        ensures within { result ≤ length src.now }
        ensures goes { (last : Bool) (mode : Mode)
            → Goes (unit_of self.now) S.encode last (record { held = []; mode = mode })
            (record { held = []; mode = mode })
            src.now result (writing dest.old) (writing dest.new) [] }
    {
        let ascii = self.copy_ascii_run(src, dest);
        let blocks = ascii + self.copy_blocks(&src[ascii..], dest);
        let entries = blocks + self.copy_entries(&src[blocks..], dest);
        entries + self.copy_scalars(&src[entries..], dest)
    }

    // Moves ASCII.
    #[inline(always)]
    fn copy_ascii_run<S: UnitSlice>(&self, src: &[u8], dest: &mut DestinationOver<S>) -> usize
        requires { KeepsAscii (unit_of self.now) }
        ensures within { result ≤ length src.now }
        ensures goes { (last : Bool) (mode : Mode)
            → Goes (unit_of self.now) S.encode last (record { held = []; mode = mode })
            (record { held = []; mode = mode })
            src.now result (writing dest.old) (writing dest.new) [] }
    {
        if src.is_empty() || src[0] >= 0x80 {
            return 0;
        }
        copy_ascii(src, dest)
    }

    // Moves eight bytes at a time, as far as the code tells their scalars and there is room, up to
    // ASCII that is worth a copy of its own. It doesn't begin where the second byte is such ASCII,
    // as in text that has few bytes past ASCII.
    #[inline(always)]
    fn copy_blocks<S: UnitSlice>(&self, src: &[u8], dest: &mut DestinationOver<S>) -> usize
        ensures within { result ≤ length src.now }
        ensures goes { (last : Bool) (mode : Mode)
            → Goes (unit_of self.now) S.encode last (record { held = []; mode = mode })
            (record { held = []; mode = mode })
            src.now result (writing dest.old) (writing dest.new) [] }
    {
        if src.len() < 8 || begins_run(&src[1..]) {
            return 0;
        }
        let mut read = 0;
        while src.len() - read >= 8 && !begins_run(&src[read..]) {
            let Some(entries) = self.code.block(&src[read..]) else {
                return read;
            };
            if !dest.write_entries(&entries) {
                return read;
            }
            read += 8;
        }
        read
    }

    // Moves one scalar at a time, as far as the code tells its entry and there is room, up to ASCII
    // that is worth a copy of its own. It doesn't begin where two bytes at the front aren't told,
    // as in a code without entries.
    #[inline(always)]
    fn copy_entries<S: UnitSlice>(&self, src: &[u8], dest: &mut DestinationOver<S>) -> usize
        requires { KeepsAscii (unit_of self.now) }
        ensures within { result ≤ length src.now }
        ensures goes { (last : Bool) (mode : Mode)
            → Goes (unit_of self.now) S.encode last (record { held = []; mode = mode })
            (record { held = []; mode = mode })
            src.now result (writing dest.old) (writing dest.new) [] }
    {
        if src.len() < 2 || self.code.entry(src[0], src[1]) == 0 {
            return 0;
        }
        let mut read = 0;
        while read < src.len() && !begins_run(&src[read..]) {
            let (entry, length) = self.entry_at(&src[read..]);
            if entry == 0 {
                return read;
            }
            if !dest.write_entry(entry) {
                return read;
            }
            read += length;
        }
        read
    }

    // The entry of the scalar at the front, and how many bytes it has; 0 where it isn't told.
    #[inline(always)]
    fn entry_at(&self, bytes: &[u8]) -> (u32, usize)
        requires ascii { KeepsAscii (unit_of self.now) }
        requires some { 0 < length bytes.now }
        ensures { 0 < result.0 → BeginsWithEntry (unit_of self.now) bytes.now result.0 result.1 }
    {
        let first = bytes[0];
        if first < 0x80 {
            return (entry_of(u16::from(first)), 1);
        }
        if bytes.len() < 2 {
            return (0, 1);
        }
        (self.code.entry(first, bytes[1]), 2)
    }

    // Moves one scalar at a time, as far as the code tells it and there is room, up to ASCII that
    // is worth a copy of its own.
    #[inline(always)]
    fn copy_scalars<S: UnitSlice>(&self, src: &[u8], dest: &mut DestinationOver<S>) -> usize
        ensures within { result ≤ length src.now }
        ensures goes { (last : Bool) (mode : Mode)
            → Goes (unit_of self.now) S.encode last (record { held = []; mode = mode })
            (record { held = []; mode = mode })
            src.now result (writing dest.old) (writing dest.new) [] }
    {
        let mut read = 0;
        while read < src.len() && !begins_run(&src[read..]) {
            let Some((scalar, length)) = self.code.scalar(&src[read..]) else {
                return read;
            };
            if !write_item(dest, Item::One(scalar)) {
                return read;
            }
            read += length;
        }
        read
    }

    // Whether what follows may be worth a copy.
    #[inline(always)]
    fn is_run(&self) -> bool {
        !matches!(self.code.bulk(), Bulk::None)
    }

    // Decodes until the source or the room ends, or a unit is malformed.
    fn decode<S: UnitSlice>(
        &mut self,
        src: &[u8],
        dest: &mut DestinationOver<S>,
        last: bool,
    ) -> (DecoderResult, usize, usize)
        ensures goes { Goes (unit_of self.old) S.encode last (standing self.old) (standing self.new)
            src.now result.1
            (writing dest.old) (writing dest.new) (malformed_of result.0) }
        ensures ends { Ends (unit_of self.old) last (standing self.new) (drop result.1 src.now)
            (writing dest.new).free S.astral_room result.0 }
        ensures written { result.2 ≡ length (writing dest.new).text }
        ensures same_code { unit_of self.new ≡ unit_of self.old }
    {
        let (result, mut read) = self.few_units(src, dest, last);
        if let Some(result) = result {
            return (result, read, dest.written());
        }
        loop {
            let (result, more) = self.turn(&src[read..], dest, last);
            read += more;
            if let Some(result) = result {
                return (result, read, dest.written());
            }
        }
    }
}

// Whether a call had too little room.
#[inline(always)]
fn is_output_full(tells: DecoderResult) -> bool
    ensures { result ≡ true → tells ≡ DecoderResult.OutputFull }
{
    matches!(tells, DecoderResult::OutputFull)
}

// Whether ASCII stands at the front but punctuation, digits and spaces, which stand between other
// characters.
#[inline(always)]
fn begins_run(src: &[u8]) -> bool {
    !src.is_empty() && 0x3C <= src[0] && src[0] < 0x80
}

// Writes an item where any has room.
#[inline(always)]
fn write_item<S: UnitSlice>(dest: &mut DestinationOver<S>, item: Item) -> bool
    requires { HasScalars item }
    ensures room { result ≡ false → (writing dest.new).free < S.astral_room }
    ensures written { result ≡ true → writing dest.new
        ≡ after_writing (writing dest.old) (item_in S.encode item) }
    ensures fits { result ≡ true → length (item_in S.encode item) ≤ (writing dest.old).free }
    ensures full { result ≡ false → writing dest.new ≡ writing dest.old }
{
    let Space::Available(room) = dest.check_space_astral() else {
        return false;
    };
    match item {
        Item::One(scalar) => {
            let code = u32::from(scalar);
            if code < 0x1_0000 {
                room.write_bmp(code as u16);
            } else {
                room.write_astral(code);
            }
        }
        Item::Two(first, second) => {
            room.write_big5_combination(u32::from(first) as u16, u32::from(second) as u16);
        }
        Item::Malformed => {
            room.write_bmp(0xFFFD);
        }
        Item::Silent => {}
    }
    true
}

// The first four bytes, or all where there are fewer.
#[tactic(auto, using(std::proofs::lemmas::List::take_all))]
#[inline(always)]
fn first_four(src: &[u8]) -> &[u8]
    ensures { result.now ≡ take 4 src.now }
{
    if src.len() < 4 { src } else { &src[..4] }
}

// Moves the ASCII at the front, as far as there is room, and answers how many bytes that were.
fn copy_ascii<S: UnitSlice>(src: &[u8], dest: &mut DestinationOver<S>) -> usize
    ensures count { result ≡ moved_len src.now (writing dest.old).free }
    ensures text { writing dest.new ≡ after_writing (writing dest.old)
        (moved_text S.encode src.now (writing dest.old).free) }
{
    let mut source = ByteSource::new(src);
    match dest.copy_ascii_from_check_space_astral(&mut source) {
        CopyAsciiResult::Stop(_) => source.consumed(),
        CopyAsciiResult::GoOn(_) => source.consumed() - 1,
    }
}

// Moves the whole well-formed sequences of UTF-8 at the front, as far as there is room, and answers
// how many bytes they were.
fn copy_utf8<S: UnitSlice>(src: &[u8], dest: &mut DestinationOver<S>) -> usize
    ensures { CopiesScalars encode_utf8 S.encode src.now result (writing dest.old)
        (writing dest.new) }
{
    let mut source = ByteSource::new(src);
    dest.copy_utf8_up_to_invalid_from(&mut source);
    source.consumed()
}

// Moves code units at the front up to an unpaired surrogate, as far as there is room, and answers
// how many bytes they were.
fn copy_utf16<E: Endian, S: UnitSlice>(src: &[u8], dest: &mut DestinationOver<S>) -> usize
    ensures { CopiesScalars (scalar_bytes E.OPPOSITE_ENDIAN) S.encode src.now result
        (writing dest.old) (writing dest.new) }
{
    let mut source = ByteSource::new(src);
    match dest.copy_utf16_from::<E, &[u8]>(&mut source) {
        None => source.consumed(),
        Some(_) => source.consumed() - 2,
    }
}
