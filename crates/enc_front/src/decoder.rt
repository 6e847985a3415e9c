//! The life cycle of a decoder: from the mark at the front of a stream to its end.
ghost use Rattle.std.specs.Prelude.{◌≡◌, ℕ, ◌+◌, ◌-◌, ◌*◌, ◌^◌, ◌<◌, ◌≤◌, ◌⊎◌, List, [], ◌∷◌, ◌++◌};
ghost use Rattle.std.specs.Prelude.{length, take, drop, None, IfSome, true, false, ◌&&◌, IsTrue};
ghost use Rattle.enc_drivers.specs.Resume.{malformed_of, unit_bytes};
ghost use Rattle.enc_drivers.specs.Units.{AreBytes};
ghost use Rattle.enc_front.specs.Decoder.{any_mark, own_mark, no_mark, encoding_to_come, owed_in};
ghost use Rattle.enc_front.specs.Decoder.{to_come};
ghost use Rattle.enc_front.specs.DecoderCalls.{Decodes, DecodesReplacing, DecoderResumes};
ghost use Rattle.enc_front.specs.DecoderCalls.{DecoderResumesWriting, DecoderMayHold};
ghost use Rattle.enc_front.specs.DecoderCalls.{DecoderNeedsLast, HoldsOpen, Replaces};
ghost use Rattle.enc_front.specs.DecoderCalls.{is_input_empty, owed_count, room_for};
ghost use Rattle.enc_front.specs.declared.mark.Start.TheVariants.{Over};
ghost use Rattle.enc_front.specs.DecoderSteps.{SameEnd, at_start, tells_malformed, with_more};
ghost use Rattle.enc_front.specs.Indexes.{indexes_of, known, is_built_in};
ghost use Rattle.enc_front.specs.Output.{utf_8, utf_16, room_in, replacement_in};
ghost use Rattle.enc_front.specs.Units.{unit};
ghost use Rattle.enc_front.specs.Variant.{unit_in, standing_in};

#[cfg(test)]
pub(crate) mod tests;

use crate::encoding::Encoding;
use crate::mark::{Look, Start};
use crate::output::Element;
use crate::tables::Tables;
use crate::variant::VariantDecoder;
use enc_handles::results::{CoderResult, DecoderResult};

/// A decoder of a stream in pieces, whose text doesn't depend on where the pieces are cut.
///
/// A byte order mark at the front of the stream is removed, as the constructor says. A call with
/// `last` that answers `InputEmpty` finishes the decoder.
#[derive(Drop)]
pub struct Decoder<'t> {
    tables: &'t Tables,
    encoding: Encoding,
    variant: VariantDecoder<'t>,
    start: Start,
    replay: &'static [u8],
    owes: bool,
    finished: bool,
    ghost same_code: { unit_in variant ≡ unit encoding (indexes_of tables.now) },
    ghost waits: { ¬ (start ≡ Over) → standing_in variant ≡ at_start },
    ghost few: { length (standing_in variant).held + length replay.now ≤ 3 },
    ghost bytes: { AreBytes (standing_in variant).held },
    ghost replay_bytes: { AreBytes replay.now },
}

impl<'t> Decoder<'t> {
    ghost use Rattle.enc_drivers.specs.declared.unit.Mode.{Mode};
    ghost use Rattle.enc_front.specs.DecoderView.{place_of, standing_of, fresh};
    ghost use Rattle.enc_front.specs.Start.{marks_at};

    /// A decoder from `encoding`, which a byte order mark at the front overrides: any mark is
    /// removed, and decides the encoding (Encoding Standard, section 6, "decode"). `tables` must
    /// have what the encoding needs.
    pub fn new(encoding: Encoding, tables: &'t Tables) -> Decoder<'t>
        requires { IsTrue (known encoding (indexes_of tables.now)) }
        ensures { standing_of result ≡ fresh any_mark encoding (indexes_of tables.now) }
    {
        Decoder::at(Start::Any, encoding, tables)
    }

    /// A decoder from `encoding`, whose own byte order mark at the front is removed. `tables` must
    /// have what the encoding needs.
    pub fn new_with_bom_removal(encoding: Encoding, tables: &'t Tables) -> Decoder<'t>
        requires { IsTrue (known encoding (indexes_of tables.now)) }
        ensures { standing_of result ≡ fresh own_mark encoding (indexes_of tables.now) }
    {
        Decoder::at(Start::Own, encoding, tables)
    }

    /// A decoder from `encoding`, which decodes byte order marks like other bytes. `tables` must
    /// have what the encoding needs.
    pub fn new_without_bom_handling(encoding: Encoding, tables: &'t Tables) -> Decoder<'t>
        requires { IsTrue (known encoding (indexes_of tables.now)) }
        ensures { standing_of result ≡ fresh no_mark encoding (indexes_of tables.now) }
    {
        Decoder::at(Start::Over, encoding, tables)
    }

    // A decoder at the start of a stream.
    fn at(start: Start, encoding: Encoding, tables: &'t Tables) -> Decoder<'t>
        requires known { IsTrue (known encoding (indexes_of tables.now)) }
        requires start { (start ≡ Start.Any) ⊎ ((start ≡ Start.Own) ⊎ (start ≡ Start.Over)) }
        ensures { standing_of result ≡ fresh (marks_at start) encoding (indexes_of tables.now) }
    {
        Decoder {
            tables,
            encoding,
            variant: VariantDecoder::new(encoding, tables),
            start,
            replay: b"",
            owes: false,
            finished: false,
        }
    }

    /// The encoding that is decoded from: the one that the decoder was made with, or that of a mark
    /// that was removed.
    pub fn encoding(&self) -> Encoding
        ensures { result ≡ (place_of self.now).encoding }
    {
        self.encoding
    }

    /// Whether the stream has ended. Then no more may be decoded.
    pub fn is_finished(&self) -> bool
        ensures { result ≡ (standing_of self.now).finished }
    {
        self.finished
    }

    /// Whether U+FFFD has still to be written for a malformed unit, for which there was no room.
    pub fn owes(&self) -> bool
        ensures { result ≡ (standing_of self.now).owes }
    {
        self.owes
    }

    /// Room for the text of `byte_length` bytes, in bytes, that is always enough for
    /// [`Decoder::decode_to_utf8`]: three for each byte and for each of three that may be held,
    /// three where U+FFFD is owed, and four that are free at the end. None exactly where that is
    /// more than `usize::MAX`.
    pub fn max_utf8_buffer_length(&self, byte_length: usize) -> Option<usize>
        ensures room { IfSome result (λ room. room ≡ room_for (standing_of self.now) byte_length) }
        ensures none { result ≡ None → 2 ^ 64 ≤ room_for (standing_of self.now) byte_length }
    {
        let owed = if self.owes { 3 } else { 0 };
        byte_length
            .checked_add(3)?
            .checked_mul(3)?
            .checked_add(4)?
            .checked_add(owed)
    }

    /// Decodes to UTF-8: reads bytes of `src`, writes bytes to the front of `dst`, and answers how
    /// many. `last` says that `src` ends the stream; with it `InputEmpty` finishes the decoder.
    ///
    /// `InputEmpty`: all of `src` was read, and at most three bytes are held, a part of a mark or
    /// of a unit that depends on what follows; with `last` none. `OutputFull`: fewer than four
    /// bytes are free, and there is more to decode. `Malformed(n, k)`: a malformed unit of `n`
    /// bytes was met, and `k` bytes behind it are held; the next call goes on with these. No byte
    /// is read that wasn't needed: without the last one that was read, what stands there was
    /// undecided. Bytes of `dst` behind the text are free to change.
    ///
    /// The decoder mustn't be finished, and mustn't owe U+FFFD.
    pub fn decode_to_utf8_without_replacement(
        &mut self,
        src: &[u8],
        dst: &mut [u8],
        last: bool,
    ) -> (DecoderResult, usize, usize)
        requires unfinished { (standing_of self.old).finished ≡ false }
        requires nothing_owed { (standing_of self.old).owes ≡ false }
        ensures { Decodes utf_8 last (standing_of self.old) (standing_of self.new) src.now
            dst.old dst.new result.0 result.1 result.2 }
    {
        self.decode_to_malformed(src, dst, last)
    }

    /// Decodes to UTF-16: reads bytes of `src`, writes code units to the front of `dst`, and
    /// answers how many. As [`Decoder::decode_to_utf8_without_replacement`], but that `OutputFull`
    /// comes only where fewer than two units are free.
    ///
    /// The decoder mustn't be finished, and mustn't owe U+FFFD.
    pub fn decode_to_utf16_without_replacement(
        &mut self,
        src: &[u8],
        dst: &mut [u16],
        last: bool,
    ) -> (DecoderResult, usize, usize)
        requires unfinished { (standing_of self.old).finished ≡ false }
        requires nothing_owed { (standing_of self.old).owes ≡ false }
        ensures { Decodes utf_16 last (standing_of self.old) (standing_of self.new) src.now
            dst.old dst.new result.0 result.1 result.2 }
    {
        self.decode_to_malformed(src, dst, last)
    }

    /// Decodes to UTF-8 as [`Decoder::decode_to_utf8_without_replacement`], but writes U+FFFD for
    /// each malformed unit. Answers besides whether U+FFFD was written in this call.
    ///
    /// `InputEmpty`: all of `src` was read, nothing is owed, and at most three bytes are held; with
    /// `last` none. `OutputFull`: fewer than four bytes are free, and there is more to decode or to
    /// write. Where U+FFFD has no room, which is three bytes, it is owed, and the next call writes
    /// it first. A call with at least four bytes of room writes a byte or reads all of `src`, and
    /// one with the room of [`Decoder::max_utf8_buffer_length`] never answers `OutputFull`.
    ///
    /// The decoder mustn't be finished.
    pub fn decode_to_utf8(
        &mut self,
        src: &[u8],
        dst: &mut [u8],
        last: bool,
    ) -> (CoderResult, usize, usize, bool)
        requires { (standing_of self.old).finished ≡ false }
        ensures { DecodesReplacing utf_8 last (standing_of self.old) (standing_of self.new) src.now
            dst.old dst.new result.0 result.1 result.2 result.3 }
    {
        self.decode_replacing(src, dst, last)
    }

    /// Decodes to UTF-16 as [`Decoder::decode_to_utf8`] does to UTF-8. `OutputFull` comes only
    /// where fewer than two units are free; U+FFFD has one. A decoder may go on in the other form:
    /// what it owes is written in the form of the next call.
    ///
    /// The decoder mustn't be finished.
    pub fn decode_to_utf16(
        &mut self,
        src: &[u8],
        dst: &mut [u16],
        last: bool,
    ) -> (CoderResult, usize, usize, bool)
        requires { (standing_of self.old).finished ≡ false }
        ensures { DecodesReplacing utf_16 last (standing_of self.old) (standing_of self.new) src.now
            dst.old dst.new result.0 result.1 result.2 result.3 }
    {
        self.decode_replacing(src, dst, last)
    }

    // Decodes up to a malformed unit.
    fn decode_to_malformed<E: Element>(
        &mut self,
        src: &[u8],
        dst: &mut [E],
        last: bool,
    ) -> (DecoderResult, usize, usize)
        requires unfinished { (standing_of self.old).finished ≡ false }
        requires nothing_owed { (standing_of self.old).owes ≡ false }
        ensures { Decodes E.output last (standing_of self.old) (standing_of self.new) src.now
            (E.values dst.old) (E.values dst.new) result.0 result.1 result.2 }
    {
        let read = self.look_for_mark(src, last);
        let Start::Over = self.start else {
            return (DecoderResult::InputEmpty, read, 0);
        };
        let (result, more, written) = self.convert(&src[read..], dst, last);
        self.finished = last && is_input_empty(result);
        (result, read + more, written)
    }

    // Decodes, and writes U+FFFD for each malformed unit.
    fn decode_replacing<E: Element>(
        &mut self,
        src: &[u8],
        dst: &mut [E],
        last: bool,
    ) -> (CoderResult, usize, usize, bool)
        requires { (standing_of self.old).finished ≡ false }
        ensures { DecodesReplacing E.output last (standing_of self.old) (standing_of self.new)
            src.now (E.values dst.old) (E.values dst.new) result.0 result.1 result.2 result.3 }
    {
        let mut read = 0;
        let mut written = 0;
        let mut replaced = false;
        loop {
            let (result, more, text, wrote) = self.turn(&src[read..], &mut dst[written..], last);
            read += more;
            written += text;
            replaced |= wrote;
            match result {
                DecoderResult::InputEmpty => {
                    return (CoderResult::InputEmpty, read, written, replaced);
                }
                DecoderResult::OutputFull => {
                    return (CoderResult::OutputFull, read, written, replaced);
                }
                DecoderResult::Malformed(_, _) => {}
            }
        }
    }

    // Writes U+FFFD where it is owed, and decodes to the next malformed unit, for which it is then
    // owed. Answers besides whether U+FFFD was written.
    fn turn<E: Element>(
        &mut self,
        src: &[u8],
        dst: &mut [E],
        last: bool,
    ) -> (DecoderResult, usize, usize, bool)
        requires { (standing_of self.old).finished ≡ false }
        ensures replaces { Replaces E.output last (standing_of self.old) (standing_of self.new)
            src.now result.1 (take result.2 (E.values dst.new)) result.3 }
        ensures read { result.1 ≤ length src.now }
        ensures written { result.2 ≤ length dst.new }
        ensures len { length dst.new ≡ length dst.old }
        ensures short { result.2
            + 3 * (length (place_of self.new).held + owed_count (standing_of self.new))
            ≤ 3 * (length (place_of self.old).held + result.1 + owed_count (standing_of self.old)) }
        ensures input_empty { result.0 ≡ DecoderResult.InputEmpty → (result.1 ≡ length src.now)
            × ((standing_of self.new).owes ≡ false) × DecoderMayHold last (place_of self.new) }
        ensures output_full { result.0 ≡ DecoderResult.OutputFull →
            length dst.new - result.2 < room_in E.output }
        ensures pending { result.0 ≡ DecoderResult.OutputFull → 0 < length (place_of self.new).held
            + (length src.now - result.1) + owed_count (standing_of self.new) }
        ensures no_room { result.0 ≡ DecoderResult.OutputFull → (standing_of self.new).owes ≡ true →
            length dst.new - result.2 < length (replacement_in E.output) }
        ensures used { (n k : ℕ) → result.0 ≡ DecoderResult.Malformed n k →
            length (place_of self.new).held < length (place_of self.old).held + result.1 }
        ensures end { (standing_of self.new).finished ≡ (last && is_input_empty result.0) }
    {
        let owed = self.owes;
        let Some(first) = self.write_owed(dst) else {
            return (DecoderResult::OutputFull, 0, 0, false);
        };
        let (result, read, more) = self.decode_to_malformed(src, &mut dst[first..], last);
        self.owes = tells_malformed(result);
        (result, read, first + more, owed)
    }

    // Writes U+FFFD where it is owed; none where there is no room for it.
    fn write_owed<E: Element>(&mut self, dst: &mut [E]) -> Option<usize>
        ensures full { result ≡ None → (length dst.new < length (replacement_in E.output))
            × ((standing_of self.old).owes ≡ true) × (standing_of self.new ≡ standing_of self.old) }
        ensures standing { IfSome result (λ _.
            standing_of self.new ≡ record (standing_of self.old) { owes = false }) }
        ensures within { IfSome result (λ n. n ≤ length dst.new) }
        ensures len { length dst.new ≡ length dst.old }
        ensures count { IfSome result (λ n. n ≤ 3 * owed_count (standing_of self.old)) }
        ensures text { IfSome result (λ n.
            take n (E.values dst.new) ≡ owed_in E.output (standing_of self.old)) }
    {
        if !self.owes {
            return Some(0);
        }
        let count = E::put_replacement(dst)?;
        self.owes = false;
        Some(count)
    }

    // Goes on behind a mark, in its encoding.
    fn begin(&mut self, encoding: Encoding)
        requires { IsTrue (is_built_in encoding) }
        ensures place { place_of self.new ≡ record (place_of self.old)
            { encoding = encoding; marks = no_mark; held = []; mode = Mode.Plain } }
        ensures same_end { SameEnd (standing_of self.old) (standing_of self.new) }
    {
        self.variant = VariantDecoder::new(encoding, self.tables);
        self.encoding = encoding;
        self.start = Start::Over;
        self.replay = b"";
    }

    // Ends the start without a mark. The part of one that was read is decoded first.
    fn end_start(&mut self)
        ensures place { place_of self.new ≡ record (place_of self.old) { marks = no_mark } }
        ensures same_end { SameEnd (standing_of self.old) (standing_of self.new) }
    {
        if let Start::Over = self.start {
            return;
        }
        self.replay = self.start.bytes();
        self.start = Start::Over;
    }

    // Reads a byte that goes on with a mark. False where it doesn't, or the start is over: then the
    // byte isn't read.
    fn look_at(&mut self, byte: u8) -> bool
        ensures taken { result ≡ true → (more : List ℕ) →
            to_come (place_of self.old) (byte ∷ more) ≡ to_come (place_of self.new) more }
        ensures open_before { result ≡ true → HoldsOpen (place_of self.old) }
        ensures taken_encoding { result ≡ true → (more : List ℕ) →
            encoding_to_come (place_of self.old) (byte ∷ more)
            ≡ encoding_to_come (place_of self.new) more }
        ensures held { result ≡ true →
            length (place_of self.new).held ≤ length (place_of self.old).held + 1 }
        ensures refused { result ≡ false → (place_of self.new).marks ≡ no_mark }
        ensures refused_units { result ≡ false → (more : List ℕ) →
            to_come (place_of self.old) (byte ∷ more) ≡ to_come (place_of self.new) (byte ∷ more) }
        ensures refused_encoding { result ≡ false → (more : List ℕ) →
            encoding_to_come (place_of self.old) (byte ∷ more)
            ≡ encoding_to_come (place_of self.new) (byte ∷ more) }
        ensures kept_held { result ≡ false → (place_of self.new).held ≡ (place_of self.old).held }
        ensures same_indexes { (place_of self.new).indexes ≡ (place_of self.old).indexes }
        ensures same_end { SameEnd (standing_of self.old) (standing_of self.new) }
    {
        if let Start::Over = self.start {
            return false;
        }
        match self.start.look_at(self.encoding, byte) {
            Look::Part(part) => {
                self.start = Start::Seen(part);
                true
            }
            Look::Mark(found) => {
                self.begin(found);
                true
            }
            Look::Other => {
                self.end_start();
                false
            }
        }
    }

    // Reads bytes while they go on with a mark, and ends the start where they don't, or nothing
    // follows.
    fn look_for_mark(&mut self, src: &[u8], last: bool) -> usize
        ensures resumes { DecoderResumes last (place_of self.old) (place_of self.new)
            src.now result [] [] }
        ensures read { result ≤ length src.now }
        ensures held { length (place_of self.new).held ≤ length (place_of self.old).held + result }
        ensures refused { result < length src.now → (place_of self.new).marks ≡ no_mark }
        ensures ended { last ≡ true → (place_of self.new).marks ≡ no_mark }
        ensures read_ahead { 0 < result → 0 < length (place_of self.new).held →
            DecoderNeedsLast last (place_of self.old) src.now result
            (length (place_of self.new).held) }
        ensures same_end { SameEnd (standing_of self.old) (standing_of self.new) }
    {
        if let Start::Over = self.start {
            return 0;
        }
        let mut read = 0;
        for byte in src {
            if !self.look_at(*byte) {
                return read;
            }
            read += 1;
        }
        if last {
            self.end_start();
        }
        read
    }

    // Decodes behind the start.
    fn convert<E: Element>(
        &mut self,
        src: &[u8],
        dst: &mut [E],
        last: bool,
    ) -> (DecoderResult, usize, usize)
        requires { self.old.start ≡ Start.Over }
        ensures resumes { DecoderResumesWriting E.output last (place_of self.old)
            (place_of self.new) src.now result.1 (take result.2 (E.values dst.new))
            (malformed_of result.0) }
        ensures read { result.1 ≤ length src.now }
        ensures written { result.2 ≤ length dst.new }
        ensures len { length dst.new ≡ length dst.old }
        ensures short { result.2
            + 3 * (length (malformed_of result.0) + length (place_of self.new).held)
            ≤ 3 * (length (place_of self.old).held + result.1) }
        ensures behind { unit_bytes (malformed_of result.0) + length (place_of self.new).held
            ≤ length (place_of self.old).held + result.1 }
        ensures read_ahead { 0 < result.1 → 0 < length (place_of self.new).held →
            DecoderNeedsLast last (place_of self.old) src.now result.1
            (unit_bytes (malformed_of result.0) + length (place_of self.new).held) }
        ensures input_empty { result.0 ≡ DecoderResult.InputEmpty →
            (result.1 ≡ length src.now) × DecoderMayHold last (place_of self.new) }
        ensures output_full { result.0 ≡ DecoderResult.OutputFull →
            length dst.new - result.2 < room_in E.output }
        ensures pending { result.0 ≡ DecoderResult.OutputFull →
            0 < length (place_of self.new).held + (length src.now - result.1) }
        ensures malformed { (n k : ℕ) → result.0 ≡ DecoderResult.Malformed n k →
            k ≡ length (place_of self.new).held }
        ensures same_end { SameEnd (standing_of self.old) (standing_of self.new) }
    {
        let (result, first) = self.give_replay(dst);
        let DecoderResult::InputEmpty = result else {
            return (result, 0, first);
        };
        let (result, read, more) = E::decode_raw(&mut self.variant, src, &mut dst[first..], last);
        (result, read, first + more)
    }

    // Decodes what has to be read first.
    fn give_replay<E: Element>(&mut self, dst: &mut [E]) -> (DecoderResult, usize)
        requires { self.old.start ≡ Start.Over }
        ensures resumes { DecoderResumesWriting E.output false (place_of self.old)
            (place_of self.new) [] 0 (take result.1 (E.values dst.new)) (malformed_of result.0) }
        ensures written { result.1 ≤ length dst.new }
        ensures len { length dst.new ≡ length dst.old }
        ensures short { result.1
            + 3 * (length (malformed_of result.0) + length (place_of self.new).held)
            ≤ 3 * length (place_of self.old).held }
        ensures behind { unit_bytes (malformed_of result.0) + length (place_of self.new).held
            ≤ length (place_of self.old).held }
        ensures all { result.0 ≡ DecoderResult.InputEmpty → self.new.replay.now ≡ [] }
        ensures output_full { result.0 ≡ DecoderResult.OutputFull →
            length dst.new - result.1 < room_in E.output }
        ensures pending { result.0 ≡ DecoderResult.OutputFull
            → 0 < length (place_of self.new).held }
        ensures malformed { (n k : ℕ) → result.0 ≡ DecoderResult.Malformed n k →
            k ≡ length (place_of self.new).held }
        ensures started { self.new.start ≡ Start.Over }
        ensures same_end { SameEnd (standing_of self.old) (standing_of self.new) }
    {
        if self.replay.is_empty() {
            return (DecoderResult::InputEmpty, 0);
        }
        let replay = self.replay;
        let (result, read, written) = E::decode_raw(&mut self.variant, replay, dst, false);
        self.replay = &replay[read..];
        (with_more(result, self.replay.len()), written)
    }
}

// Whether a call has used up its input.
fn is_input_empty(tells: DecoderResult) -> bool
    ensures { result ≡ is_input_empty tells }
{
    matches!(tells, DecoderResult::InputEmpty)
}

// Whether a call has met a malformed unit.
fn tells_malformed(tells: DecoderResult) -> bool
    ensures { result ≡ tells_malformed tells }
{
    matches!(tells, DecoderResult::Malformed(_, _))
}

// The result of a driver, where so many bytes besides are held.
fn with_more(tells: DecoderResult, count: usize) -> DecoderResult
    requires { (n k : ℕ) → tells ≡ DecoderResult.Malformed n k → k + count < 256 }
    ensures { result ≡ with_more tells count }
{
    match tells {
        DecoderResult::Malformed(length, held) => DecoderResult::Malformed(
            length,
            held + count as u8,
        ),
        other => other,
    }
}
