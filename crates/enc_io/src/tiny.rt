//! Decoding where a caller has room for few bytes.
ghost use Rattle.std.specs.Prelude.{◌≡◌, ℕ, ◌+◌, ◌-◌, ◌*◌, ◌<◌, ◌≤◌, ◌↔◌, Bool, true, false, ◌&&◌};
ghost use Rattle.std.specs.Prelude.{List, [], ◌++◌, min, length, take, drop};
ghost use Rattle.enc_drivers.specs.Steps.{MayFollow};
ghost use Rattle.enc_front.specs.DecoderCalls.{DecoderMayHold, Replaces, has_used_up, owed_count};
ghost use Rattle.enc_front.specs.Decoder.{text_to_come};
ghost use Rattle.enc_front.specs.Output.{utf_8};
ghost use Rattle.enc_front.specs.DecoderView.{standing_of};

use crate::filling::give;
use enc_front::Decoder;
use enc_handles::results::CoderResult;
use std::alloc::AllocError;

#[cfg(test)]
mod tests;

/// Text that was decoded into seven bytes, and is given in any pieces.
#[derive(Debug, Drop)]
pub struct TinyTranscoder {
    partial: [u8; 7],
    len: usize,
    pos: usize,
    ghost within: { len ≤ 7 },
    ghost place_within: { pos ≤ len },
}

impl Clone for TinyTranscoder {
    ghost is_clone = { λ x y. y ≡ x };

    ghost is_infallible = { λ _. Unit {0} };

    fn clone(&self) -> Result<TinyTranscoder, AllocError> {
        Ok(TinyTranscoder {
            partial: self.partial,
            len: self.len,
            pos: self.pos,
        })
    }
}

impl TinyTranscoder {
    ghost use Rattle.enc_io.specs.Tiny.{waiting_of};

    /// A transcoder in which no byte waits.
    pub fn new() -> TinyTranscoder
        ensures { waiting_of result ≡ [] }
    {
        TinyTranscoder {
            partial: [0; 7],
            len: 0,
            pos: 0,
        }
    }

    /// Decodes to UTF-8, as [`Decoder::decode_to_utf8`] into seven bytes does, and holds what was
    /// written. Answers how many bytes of `src` were read, and how many wait.
    ///
    /// No byte may wait, the decoder mustn't be finished, and `src` is empty exactly where `last`
    /// says that the stream ends.
    pub fn transcode(
        &mut self,
        decoder: &mut Decoder,
        src: &[u8],
        last: bool,
    ) -> (CoderResult, usize, usize)
        requires nothing_waits { waiting_of self.old ≡ [] }
        requires unfinished { (standing_of decoder.old).finished ≡ false }
        requires piece { (src.now ≡ []) ↔ (last ≡ true) }
        ensures replaces { (replaced : Bool) × Replaces utf_8 last (standing_of decoder.old)
            (standing_of decoder.new) src.now result.1 (waiting_of self.new) replaced }
        ensures text { (more : List ℕ) → MayFollow last more
            → text_to_come (standing_of decoder.old) (src.now ++ more)
            ≡ waiting_of self.new ++ text_to_come (standing_of decoder.new)
            (drop result.1 src.now ++ more) }
        ensures read { result.1 ≤ length src.now }
        ensures waits { result.2 ≡ length (waiting_of self.new) }
        ensures written { result.2 ≤ 7 }
        ensures few { length (standing_of decoder.new).place.held ≤ 3 }
        ensures short { result.2 + 3 * (length (standing_of decoder.new).place.held + owed_count
            (standing_of decoder.new)) ≤ 3 * (length (standing_of decoder.old).place.held + result.1
            + owed_count (standing_of decoder.old)) }
        ensures input_empty { result.0 ≡ CoderResult.InputEmpty → (result.1 ≡ length src.now)
            × ((standing_of decoder.new).owes ≡ false)
            × DecoderMayHold last (standing_of decoder.new).place }
        ensures output_full { result.0 ≡ CoderResult.OutputFull → 7 - result.2 < 4 }
        ensures pending { result.0 ≡ CoderResult.OutputFull
            → 0 < length (standing_of decoder.new).place.held + (length src.now - result.1)
            + owed_count (standing_of decoder.new) }
        ensures owed { (standing_of decoder.new).owes ≡ true → 7 - result.2 < 3 }
        ensures goes_on { result.2 ≡ 0 → result.1 ≡ length src.now }
        ensures end { (standing_of decoder.new).finished ≡ (last && has_used_up result.0) }
    {
        self.fill(decoder, src, last)
    }

    // The same with any piece; only an empty one is the last.
    pub(crate) fn fill(
        &mut self,
        decoder: &mut Decoder,
        src: &[u8],
        last: bool,
    ) -> (CoderResult, usize, usize)
        requires { (standing_of decoder.old).finished ≡ false }
        ensures replaces { (replaced : Bool) × Replaces utf_8 last (standing_of decoder.old)
            (standing_of decoder.new) src.now result.1 (waiting_of self.new) replaced }
        ensures text { (more : List ℕ) → MayFollow last more
            → text_to_come (standing_of decoder.old) (src.now ++ more)
            ≡ waiting_of self.new ++ text_to_come (standing_of decoder.new)
            (drop result.1 src.now ++ more) }
        ensures read { result.1 ≤ length src.now }
        ensures waits { result.2 ≡ length (waiting_of self.new) }
        ensures written { result.2 ≤ 7 }
        ensures few { length (standing_of decoder.new).place.held ≤ 3 }
        ensures short { result.2 + 3 * (length (standing_of decoder.new).place.held + owed_count
            (standing_of decoder.new)) ≤ 3 * (length (standing_of decoder.old).place.held + result.1
            + owed_count (standing_of decoder.old)) }
        ensures input_empty { result.0 ≡ CoderResult.InputEmpty → (result.1 ≡ length src.now)
            × ((standing_of decoder.new).owes ≡ false)
            × DecoderMayHold last (standing_of decoder.new).place }
        ensures output_full { result.0 ≡ CoderResult.OutputFull → 7 - result.2 < 4 }
        ensures pending { result.0 ≡ CoderResult.OutputFull
            → 0 < length (standing_of decoder.new).place.held + (length src.now - result.1)
            + owed_count (standing_of decoder.new) }
        ensures owed { (standing_of decoder.new).owes ≡ true → 7 - result.2 < 3 }
        ensures goes_on { result.2 ≡ 0 → result.1 ≡ length src.now }
        ensures end { (standing_of decoder.new).finished ≡ (last && has_used_up result.0) }
    {
        let (result, read, written, _) = decoder.decode_to_utf8(src, &mut self.partial, last);
        self.len = written;
        self.pos = 0;
        (result, read, written)
    }

    // Forgets what waits.
    pub(crate) fn clear(&mut self)
        ensures { waiting_of self.new ≡ [] }
    {
        self.len = 0;
        self.pos = 0;
    }

    /// Moves the next bytes that wait to the front of `buf`, as many as wait and fit, and answers
    /// how many.
    pub fn read(&mut self, buf: &mut [u8]) -> usize
        ensures count { result ≡ min (length buf.old) (length (waiting_of self.old)) }
        ensures given { waiting_of self.old ≡ take result buf.new ++ waiting_of self.new }
        ensures untouched { drop result buf.new ≡ drop result buf.old }
        ensures len { length buf.new ≡ length buf.old }
    {
        let count = give(&self.partial[self.pos..self.len], buf);
        self.pos += count;
        count
    }
}
