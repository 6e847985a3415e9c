//! A reader of the text of a stream.
ghost use Rattle.std.specs.Prelude.{◌≡◌, ℕ, ◌+◌, ◌*◌, ◌<◌, ◌≤◌, List, [], ◌++◌, Ok, Err, None};
ghost use Rattle.std.specs.Prelude.{length, take, drop, true, false, is_some, if◌then◌else◌};
ghost use Rattle.std.specs.Prelude.{IsTrue, OnOk, IfOk, IfErr, vec_len};
ghost use Rattle.std.specs.Option.{ForSome};
ghost use Rattle.std.specs.Io.{ReadsAtMost};
ghost use Rattle.std.specs.Io.KnownBytes.{IsAtEnd};
ghost use Rattle.enc_drivers.specs.Units.{AreBytes};
ghost use Rattle.enc_front.specs.Indexes.{indexes_of, known};
ghost use Rattle.enc_front.specs.DecoderView.{standing_of as decoder_standing};
ghost use Rattle.enc_io.specs.Options.{default_options, unknown_encoding};
ghost use Rattle.enc_io.specs.BuilderView.{options_of};
ghost use Rattle.enc_io.specs.Marks.{bom_bytes};
ghost use Rattle.enc_io.specs.Peeker.{FrontWaits, HasGivenAll, given_by};
ghost use Rattle.enc_io.specs.Peeking.{standing_of as peeker_standing};
ghost use Rattle.enc_io.specs.Pieces.{DecodesPiece};
ghost use Rattle.enc_io.specs.Reader.{fresh, still, number, has_seen_end, HasTooMuch};
ghost use Rattle.enc_io.specs.ReaderCalls.{Does, GoesOn, Moves, KeepsUndecided, HasGivenText};
ghost use Rattle.enc_io.specs.ReaderCalls.{turns};
ghost use Rattle.enc_io.specs.Text.{chosen};
ghost use Rattle.enc_io.specs.Tiny.{waiting_of};

#[cfg(test)]
mod tests;

use crate::builder::{BuildError, DecodeReaderBytesBuilder};
use crate::outside::Source;
use crate::peeker::BomPeeker;
use crate::tiny::TinyTranscoder;
use enc_front::{Decoder, Tables};
use std::alloc::Global;
use std::error::Error;
use std::fmt;

/// Why a [`DecodeReaderBytes`] gave nothing.
#[derive(Clone, Copy, Debug, PartialEq, Eq)]
pub enum ReadError {
    /// A read of the source failed. The reader stands where it stood, with all bytes that it has,
    /// and may be read on.
    ReadFault,
    /// The source gave more bytes than the limit. Each later read answers this too.
    TooMuch,
}

impl fmt::Display for ReadError {
    fn fmt<W: fmt::Write>(&self, f: &mut fmt::Formatter<W>) -> fmt::Result {
        match self {
            ReadError::ReadFault => write!(f, "a read of the source failed"),
            ReadError::TooMuch => write!(f, "the source gave more bytes than the limit"),
        }
    }
}

impl Error for ReadError {}

/// A reader of the text of a stream, as UTF-8: of the bytes that a source gives, by the encoding
/// that the builder and a byte order mark at the front choose, with U+FFFD for each malformed unit;
/// or of the bytes as they are, where none is chosen.
#[derive(Drop)]
pub struct DecodeReaderBytes<'t, S: Source> {
    tables: &'t Tables,
    options: DecodeReaderBytesBuilder,
    rdr: BomPeeker<S>,
    has_detected: bool,
    decoder: Option<Decoder<'t>>,
    tiny: TinyTranscoder,
    buf: Vec<u8>,
    pos: usize,
    buflen: usize,
    taken: usize,
    ghost pos_within: { pos ≤ buflen },
    ghost buf_within: { buflen ≤ length buf.items },
    ghost room: { 4 ≤ length buf.items },
    ghost are_bytes: { AreBytes (take buflen buf.items) },
    ghost at_most: { taken ≤ options.limit + 1 },
    ghost same_strips: { rdr.strips ≡ options.strip_bom },
    ghost named: { ForSome options.encoding (λ e. IsTrue (known e (indexes_of tables.now))) },
    ghost has_front: { has_detected ≡ true → rdr.peeked ≡ true },
    ghost is_none: { has_detected ≡ false → is_some decoder ≡ false },
    ghost none_taken: { has_detected ≡ false → taken ≡ length (bom_bytes rdr.bom) },
    ghost front: { has_detected ≡ false → rdr.peeked ≡ true → FrontWaits (peeker_standing rdr) },
    ghost passes: { is_some decoder ≡ false → (waiting_of tiny ≡ [])
        × (drop pos (take buflen buf.items) ≡ []) },
    ghost decodes: { has_detected ≡ true → chosen (options_of options) (bom_bytes rdr.bom) ≡ None
        → is_some decoder ≡ false },
    ghost end: { ForSome decoder (λ d. (decoder_standing d).finished ≡ true → rdr.ended ≡ true) },
}

// Decodes a piece to the front of `buf`, through seven bytes where that has room for fewer than
// four. Answers how many bytes were read and how many were written.
fn decode_piece(
    decoder: &mut Decoder,
    tiny: &mut TinyTranscoder,
    src: &[u8],
    buf: &mut [u8],
    last: bool,
) -> (usize, usize)
    requires unfinished { (decoder_standing decoder.old).finished ≡ false }
    requires room { 0 < length buf.old }
    requires piece { last ≡ true → src.now ≡ [] }
    ensures read { result.0 ≤ length src.now }
    ensures written { result.1 ≤ length buf.new }
    ensures len { length buf.new ≡ length buf.old }
    ensures piece { DecodesPiece last (decoder_standing decoder.old) (decoder_standing decoder.new)
        src.now result.0
        (take result.1 buf.new) (waiting_of tiny.new) }
{
    if buf.len() < 4 {
        let (_, read, _) = tiny.fill(decoder, src, last);
        let written = tiny.read(buf);
        return (read, written);
    }
    tiny.clear();
    let (_, read, written, _) = decoder.decode_to_utf8(src, buf, last);
    (read, written)
}

impl<'t, S: Source> DecodeReaderBytes<'t, S> {
    ghost use Rattle.enc_io.specs.ReaderView.{standing_of, source_of};

    /// A reader of the text of the source's bytes, by the default builder.
    ///
    /// # Errors
    ///
    /// Only `Memory`. The source is handed back.
    pub fn new(
        alloc: Global,
        tables: &'t Tables,
        source: S,
    ) -> Result<DecodeReaderBytes<'t, S>, (S, BuildError)>
        ensures fresh { IfOk result (λ reader. standing_of reader ≡ fresh default_options
            (indexes_of tables.now) 8192 (S.left source) (S.faults source) (S.calls source)) }
        ensures source { IfOk result (λ reader. source_of reader ≡ source) }
        ensures refused { IfErr result (λ e. (e.0 ≡ source) × (e.1 ≡ BuildError.Memory)) }
    {
        DecodeReaderBytesBuilder::new().build(alloc, tables, source)
    }

    // A reader at the start of a stream.
    pub(crate) fn at_start(
        tables: &'t Tables,
        options: DecodeReaderBytesBuilder,
        source: S,
        buf: Vec<u8>,
    ) -> DecodeReaderBytes<'t, S>
        requires known { unknown_encoding (options_of options) (indexes_of tables.now) ≡ None }
        requires room { 4 ≤ vec_len buf }
        ensures fresh { standing_of result ≡ fresh (options_of options) (indexes_of tables.now)
            (vec_len buf) (S.left source) (S.faults source) (S.calls source) }
        ensures source { source_of result ≡ source }
    {
        let rdr = BomPeeker::at_start(source, options.strips());
        DecodeReaderBytes {
            tables,
            options,
            rdr,
            has_detected: false,
            decoder: None,
            tiny: TinyTranscoder::new(),
            buf,
            pos: 0,
            buflen: 0,
            taken: 0,
        }
    }

    /// Moves the next bytes of the text to the front of `buf`, and answers how many; bytes of `buf`
    /// behind them are free to change. `Ok(0)` for a nonempty `buf` comes only where the source has
    /// ended and all is given. An empty `buf` makes no call on the source, and once the source has
    /// ended it isn't called again.
    ///
    /// # Errors
    ///
    /// `ReadFault` where a read of the source failed: nothing is lost, and the next read goes on.
    /// `TooMuch` where the source gave more bytes than the limit, then and from then on.
    pub fn read(&mut self, buf: &mut [u8]) -> Result<usize, ReadError>
        ensures within { ReadsAtMost result buf.new }
        ensures len { length buf.new ≡ length buf.old }
        ensures does { 0 < length buf.old → Does (standing_of self.old) (standing_of self.new)
            (given_by result buf.new) result }
        ensures end { 0 < length buf.old → result ≡ Ok 0 → HasGivenText (standing_of self.new) }
        ensures left { has_seen_end (standing_of self.new) ≡ true
            → IsAtEnd (S.left (source_of self.new)) }
        ensures small { length (still (standing_of self.new) [])
            ≤ 3 * ((standing_of self.new).buffer + 10) }
        ensures latched { 0 < length buf.old → HasTooMuch (standing_of self.old)
            → (result ≡ Err ReadError.TooMuch) × (standing_of self.new ≡ standing_of self.old) }
        ensures no_room { length buf.old ≡ 0 → (result ≡ Ok 0)
            × (source_of self.new ≡ source_of self.old)
            × (standing_of self.new ≡ standing_of self.old) }
    {
        if buf.is_empty() {
            return Ok(0);
        }
        if self.taken > self.options.most() {
            return Err(ReadError::TooMuch);
        }
        if let Err(error) = self.detect() {
            return Err(error);
        }
        if self.decoder.is_none() {
            return self.pass_through(buf);
        }
        self.transcode(buf)
    }

    // Gathers the bytes for the mark and chooses the encoding, if that isn't done.
    fn detect(&mut self) -> Result<(), ReadError>
        requires { (standing_of self.old).taken ≤ (standing_of self.old).options.limit }
        ensures does { Does (standing_of self.old) (standing_of self.new) [] result }
        ensures detected { OnOk result ((standing_of self.new).detected ≡ true) }
    {
        if self.has_detected {
            return Ok(());
        }
        if let Err(error) = self.gather() {
            return Err(error);
        }
        self.choose();
        Ok(())
    }

    // Gathers the bytes for the mark.
    fn gather(&mut self) -> Result<(), ReadError>
        requires undetected { (standing_of self.old).detected ≡ false }
        requires within { (standing_of self.old).taken ≤ (standing_of self.old).options.limit }
        ensures does { Does (standing_of self.old) (standing_of self.new) [] result }
        ensures undetected { (standing_of self.new).detected ≡ false }
        ensures peeked { OnOk result ((standing_of self.new).peeker.peeked ≡ true) }
    {
        if self.rdr.is_peeked() {
            return Ok(());
        }
        match self.rdr.gather(self.options.most() + 1) {
            Ok(()) => {
                self.taken = self.rdr.gathered_len();
                if self.taken > self.options.most() {
                    return Err(ReadError::TooMuch);
                }
                Ok(())
            }
            Err(_) => {
                self.taken = self.rdr.gathered_len();
                Err(ReadError::ReadFault)
            }
        }
    }

    // Chooses the encoding by the builder and the mark.
    fn choose(&mut self)
        requires undetected { (standing_of self.old).detected ≡ false }
        requires within { (standing_of self.old).taken ≤ (standing_of self.old).options.limit }
        requires peeked { (standing_of self.old).peeker.peeked ≡ true }
        ensures goes_on { GoesOn (standing_of self.old) (standing_of self.new) [] }
        ensures detected { (standing_of self.new).detected ≡ true }
    {
        self.has_detected = true;
        match self.options.chosen(self.rdr.gathered()) {
            Some(encoding) => {
                self.decoder = Some(Decoder::new_with_bom_removal(encoding, self.tables));
            }
            None => {}
        }
    }

    // Gives the bytes of the stream as they are.
    fn pass_through(&mut self, buf: &mut [u8]) -> Result<usize, ReadError>
        requires detected { (standing_of self.old).detected ≡ true }
        requires within { (standing_of self.old).taken ≤ (standing_of self.old).options.limit }
        requires none { (standing_of self.old).decoder ≡ None }
        requires room { 0 < length buf.old }
        ensures within { ReadsAtMost result buf.new }
        ensures len { length buf.new ≡ length buf.old }
        ensures does { Does (standing_of self.old) (standing_of self.new) (given_by result buf.new)
            result }
        ensures end { result ≡ Ok 0 → HasGivenText (standing_of self.new) }
    {
        match self
            .rdr
            .read_within(buf, self.options.most() + 1 - self.taken)
        {
            Ok((count, taken)) => {
                self.taken += taken;
                if self.taken > self.options.most() {
                    return Err(ReadError::TooMuch);
                }
                Ok(count)
            }
            Err(_) => Err(ReadError::ReadFault),
        }
    }

    // Fills the buffer, of which all is decoded.
    fn fill(&mut self) -> Result<(), ReadError>
        requires detected { (standing_of self.old).detected ≡ true }
        requires within { (standing_of self.old).taken ≤ (standing_of self.old).options.limit }
        requires some { is_some (standing_of self.old).decoder ≡ true }
        requires undecided { KeepsUndecided (standing_of self.old) }
        ensures does { Does (standing_of self.old) (standing_of self.new) [] result }
        ensures same { ((standing_of self.new).detected ≡ true)
            × ((standing_of self.new).decoder ≡ (standing_of self.old).decoder)
            × ((standing_of self.new).tiny ≡ []) }
        ensures turns { OnOk result (turns (standing_of self.new) ≤ turns (standing_of self.old)) }
        ensures falls { OnOk result ((HasGivenAll (standing_of self.old).peeker → ⊥)
            → turns (standing_of self.new) < turns (standing_of self.old)) }
    {
        self.pos = 0;
        self.buflen = 0;
        match self
            .rdr
            .read_within(&mut self.buf, self.options.most() + 1 - self.taken)
        {
            Ok((count, taken)) => {
                self.buflen = count;
                self.taken += taken;
                if self.taken > self.options.most() {
                    return Err(ReadError::TooMuch);
                }
                Ok(())
            }
            Err(_) => Err(ReadError::ReadFault),
        }
    }

    // Decodes what is buffered to the front of `buf`; with `last`, what is held, since nothing
    // follows.
    fn decode_into(&mut self, buf: &mut [u8], last: bool) -> usize
        requires detected { (standing_of self.old).detected ≡ true }
        requires within { (standing_of self.old).taken ≤ (standing_of self.old).options.limit }
        requires none_waits { (standing_of self.old).tiny ≡ [] }
        requires unfinished { ForSome (standing_of self.old).decoder (λ d. d.finished ≡ false) }
        requires some { is_some (standing_of self.old).decoder ≡ true }
        requires room { 0 < length buf.old }
        requires end { last ≡ true → HasGivenAll (standing_of self.old).peeker
            × ((standing_of self.old).buffered ≡ []) }
        ensures written { result ≤ length buf.new }
        ensures len { length buf.new ≡ length buf.old }
        ensures goes_on { GoesOn (standing_of self.old) (standing_of self.new)
            (take result buf.new) }
        ensures none { result ≡ 0 → KeepsUndecided (standing_of self.new) }
        ensures end { result ≡ 0 → last ≡ true → HasGivenText (standing_of self.new) }
        ensures same { standing_of self.new ≡ record (standing_of self.old) {
          decoder = (standing_of self.new).decoder;
          tiny = (standing_of self.new).tiny;
          buffered = (standing_of self.new).buffered;
        } }
        ensures some { is_some (standing_of self.new).decoder ≡ true }
        ensures unfinished { result ≡ 0 → last ≡ false
            → ForSome (standing_of self.new).decoder (λ d. d.finished ≡ false) }
    {
        let Some(decoder) = &mut self.decoder else {
            return 0;
        };
        let src = &self.buf[self.pos..self.buflen];
        let (read, written) = decode_piece(decoder, &mut self.tiny, src, buf, last);
        self.pos += read;
        written
    }

    // Whether the decoder has finished.
    fn is_finished(&self) -> bool
        requires detected { (standing_of self.now).detected ≡ true }
        requires some { is_some (standing_of self.now).decoder ≡ true }
        ensures yes { result ≡ true → has_seen_end (standing_of self.now) ≡ true }
        ensures nothing { result ≡ true → (standing_of self.now).tiny ≡ []
            → still (standing_of self.now) [] ≡ [] }
        ensures no { result ≡ false → ForSome (standing_of self.now).decoder
            (λ d. d.finished ≡ false) }
    {
        match &self.decoder {
            Some(decoder) => decoder.is_finished(),
            None => true,
        }
    }

    // Gives text that waits, as much as fits.
    fn give_waiting(&mut self, buf: &mut [u8]) -> usize
        requires detected { (standing_of self.old).detected ≡ true }
        requires within { (standing_of self.old).taken ≤ (standing_of self.old).options.limit }
        requires some { is_some (standing_of self.old).decoder ≡ true }
        requires room { 0 < length buf.old }
        ensures written { result ≤ length buf.new }
        ensures len { length buf.new ≡ length buf.old }
        ensures goes_on { GoesOn (standing_of self.old) (standing_of self.new)
            (take result buf.new) }
        ensures none { result ≡ 0 → (standing_of self.new).tiny ≡ [] }
        ensures same { standing_of self.new ≡ record (standing_of self.old)
            { tiny = (standing_of self.new).tiny } }
    {
        self.tiny.read(buf)
    }

    // Gives the next bytes of the text.
    fn transcode(&mut self, buf: &mut [u8]) -> Result<usize, ReadError>
        requires detected { (standing_of self.old).detected ≡ true }
        requires within { (standing_of self.old).taken ≤ (standing_of self.old).options.limit }
        requires some { is_some (standing_of self.old).decoder ≡ true }
        requires room { 0 < length buf.old }
        ensures within { ReadsAtMost result buf.new }
        ensures len { length buf.new ≡ length buf.old }
        ensures does { Does (standing_of self.old) (standing_of self.new) (given_by result buf.new)
            result }
        ensures end { result ≡ Ok 0 → HasGivenText (standing_of self.new) }
    {
        let count = self.give_waiting(buf);
        if count > 0 {
            return Ok(count);
        }
        loop {
            if self.is_finished() {
                return Ok(0);
            }
            let last = self.is_at_end();
            let count = self.decode_into(buf, last);
            if count > 0 {
                return Ok(count);
            }
            if last {
                return Ok(0);
            }
            if let Err(error) = self.fill() {
                return Err(error);
            }
        }
    }

    // Whether the source has ended, and all that it gave is decoded or held.
    fn is_at_end(&self) -> bool
        ensures yes { result ≡ true → HasGivenAll (standing_of self.now).peeker
            × ((standing_of self.now).buffered ≡ []) }
        ensures no { result ≡ false → (standing_of self.now).buffered ≡ []
            → HasGivenAll (standing_of self.now).peeker → ⊥ }
    {
        if self.pos < self.buflen {
            return false;
        }
        self.rdr.has_given_all()
    }

    /// The source, as it stands.
    pub fn into_inner(self) -> S
        ensures { result ≡ source_of self.entry }
    {
        self.rdr.into_source()
    }

    /// The source, as it stands, and the buffer, as long as it was made, for a next reader.
    pub fn into_parts(self) -> (S, Vec<u8>)
        ensures source { result.0 ≡ source_of self.entry }
        ensures buffer { vec_len result.1 ≡ (standing_of self.entry).buffer }
    {
        let DecodeReaderBytes { rdr, buf, .. } = self;
        (rdr.into_source(), buf)
    }
}
