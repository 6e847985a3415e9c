//! The options of a reader of a stream's text, and the reader that they make.
ghost use Rattle.std.specs.Prelude.{◌≡◌, ◌^◌, ◌-◌, ◌<◌, ◌≤◌, Some, None, vec_len, IfOk, IfErr};
ghost use Rattle.std.specs.Prelude.{IsTrue};
ghost use Rattle.std.specs.Option.{ForSome};
ghost use Rattle.enc_front.specs.Indexes.{indexes_of, known};
ghost use Rattle.enc_io.specs.Options.{default_options, unknown_encoding};
ghost use Rattle.enc_io.specs.Reader.{fresh};
ghost use Rattle.enc_io.specs.Text.{chosen, marked_encoding};

use crate::bom::PossibleBom;
use crate::outside::Source;
use crate::reader::DecodeReaderBytes;
use enc_front::{Encoding, Tables};
use std::alloc::{AllocError, Global};
use std::error::Error;
use std::fmt;

// The length of a buffer that is made here.
const BUFFER: usize = 8192;

/// Why no [`DecodeReaderBytes`] was made. No call on the source was made then.
#[derive(Clone, Copy, Debug, PartialEq, Eq)]
pub enum BuildError {
    /// The tables lack an index that the named encoding needs.
    NoTable(Encoding),
    /// The buffer has fewer than four bytes: this many.
    TooSmall(usize),
    /// Want of memory.
    Memory,
}

impl fmt::Display for BuildError {
    fn fmt<W: fmt::Write>(&self, f: &mut fmt::Formatter<W>) -> fmt::Result {
        match self {
            BuildError::NoTable(encoding) => {
                let name = encoding.name();
                write!(f, "the encoding {name} has no index")
            }
            BuildError::TooSmall(len) => {
                write!(f, "the buffer has {len} bytes, and at least 4 are needed")
            }
            BuildError::Memory => write!(f, "no memory"),
        }
    }
}

impl Error for BuildError {}

/// How a [`DecodeReaderBytes`] is to read. As made: no encoding is named, byte order marks are
/// looked for, and the source may give 999,999,999 bytes.
#[derive(Clone, Copy)]
pub struct DecodeReaderBytesBuilder {
    encoding: Option<Encoding>,
    utf8_passthru: bool,
    strip_bom: bool,
    bom_override: bool,
    bom_sniffing: bool,
    limit: usize,
    ghost few: { limit < 2 ^ 64 - 1 },
}

impl Default for DecodeReaderBytesBuilder {
    ghost use Rattle.enc_io.specs.BuilderView.{options_of};

    ghost is_default = { λ b. options_of b ≡ default_options };

    fn default() -> DecodeReaderBytesBuilder {
        DecodeReaderBytesBuilder::new()
    }
}

// Zeroes of any number, for a buffer.
fn zeroes(alloc: Global, count: usize) -> Result<Vec<u8>, AllocError>
    ensures { IfOk result (λ v. vec_len v ≡ count) }
{
    vec![in alloc; 0; count]
}

impl DecodeReaderBytesBuilder {
    ghost use Rattle.enc_io.specs.BuilderView.{build_error, options_of};
    ghost use Rattle.enc_io.specs.Marks.{bom_bytes};
    ghost use Rattle.enc_io.specs.ReaderView.{source_of, standing_of};
    ghost use Rattle.std.specs.Option.{option_map_or};

    /// No encoding is named, and byte order marks are looked for.
    pub fn new() -> DecodeReaderBytesBuilder
        ensures { options_of result ≡ default_options }
    {
        DecodeReaderBytesBuilder {
            encoding: None,
            utf8_passthru: false,
            strip_bom: false,
            bom_override: false,
            bom_sniffing: true,
            limit: 999_999_999,
        }
    }

    /// Names the encoding of a stream, or none. A byte order mark decides instead only where none
    /// is named, or with [`DecodeReaderBytesBuilder::bom_override`].
    pub fn encoding(&mut self, encoding: Option<Encoding>) -> &mut DecodeReaderBytesBuilder
        ensures value { options_of result.now
            ≡ record (options_of self.old) { encoding = encoding } }
        ensures same_reference { result.ghost_name ≡ self.entry.ghost_name }
    {
        self.encoding = encoding;
        self
    }

    /// Whether a stream that begins with UTF-8's byte order mark passes as it is, where no encoding
    /// is named.
    pub fn utf8_passthru(&mut self, yes: bool) -> &mut DecodeReaderBytesBuilder
        ensures value { options_of result.now
            ≡ record (options_of self.old) { utf8_passthru = yes } }
        ensures same_reference { result.ghost_name ≡ self.entry.ghost_name }
    {
        self.utf8_passthru = yes;
        self
    }

    /// Whether a byte order mark at the front is left out, also where the bytes pass as they are.
    pub fn strip_bom(&mut self, yes: bool) -> &mut DecodeReaderBytesBuilder
        ensures value { options_of result.now
            ≡ record (options_of self.old) { strip_bom = yes } }
        ensures same_reference { result.ghost_name ≡ self.entry.ghost_name }
    {
        self.strip_bom = yes;
        self
    }

    /// Whether a byte order mark decides the encoding where one is named.
    pub fn bom_override(&mut self, yes: bool) -> &mut DecodeReaderBytesBuilder
        ensures value { options_of result.now
            ≡ record (options_of self.old) { bom_override = yes } }
        ensures same_reference { result.ghost_name ≡ self.entry.ghost_name }
    {
        self.bom_override = yes;
        self
    }

    /// Whether byte order marks are looked for to decide the encoding.
    pub fn bom_sniffing(&mut self, yes: bool) -> &mut DecodeReaderBytesBuilder
        ensures value { options_of result.now
            ≡ record (options_of self.old) { bom_sniffing = yes } }
        ensures same_reference { result.ghost_name ≡ self.entry.ghost_name }
    {
        self.bom_sniffing = yes;
        self
    }

    /// The most bytes that a source may give; below `usize::MAX`.
    pub fn limit(&mut self, limit: usize) -> &mut DecodeReaderBytesBuilder
        requires { limit < 2 ^ 64 - 1 }
        ensures value { options_of result.now
            ≡ record (options_of self.old) { limit = limit } }
        ensures same_reference { result.ghost_name ≡ self.entry.ghost_name }
    {
        self.limit = limit;
        self
    }

    /// A reader of the text of the source's bytes, with a buffer of 8192 bytes.
    ///
    /// # Errors
    ///
    /// `NoTable` exactly where `tables` lack an index that the named encoding needs; else `Memory`
    /// may come. The source is handed back.
    pub fn build<'t, S: Source>(
        &self,
        alloc: Global,
        tables: &'t Tables,
        source: S,
    ) -> Result<DecodeReaderBytes<'t, S>, (S, BuildError)>
        ensures fresh { IfOk result (λ reader. standing_of reader ≡ fresh (options_of self.now)
            (indexes_of tables.now) 8192 (S.left source) (S.faults source) (S.calls source)) }
        ensures source { IfOk result (λ reader. source_of reader ≡ source) }
        ensures built { IfOk result (λ _.
            unknown_encoding (options_of self.now) (indexes_of tables.now) ≡ None) }
        ensures handed_back { IfErr result (λ e. e.0 ≡ source) }
        ensures refused { IfErr result (λ e. e.1 ≡ option_map_or BuildError.NoTable
            (unknown_encoding (options_of self.now) (indexes_of tables.now)) BuildError.Memory) }
    {
        if let Some(encoding) = self.unknown(tables) {
            return Err((source, BuildError::NoTable(encoding)));
        }
        match zeroes(alloc, BUFFER) {
            Ok(buffer) => Ok(DecodeReaderBytes::at_start(tables, *self, source, buffer)),
            Err(_) => Err((source, BuildError::Memory)),
        }
    }

    /// A reader of the text of the source's bytes, with this buffer. It takes no memory.
    ///
    /// # Errors
    ///
    /// `NoTable` exactly where `tables` lack an index that the named encoding needs; else
    /// `TooSmall` exactly where the buffer has fewer than four bytes. Source and buffer are handed
    /// back.
    pub fn build_with_buffer<'t, S: Source>(
        &self,
        tables: &'t Tables,
        source: S,
        buffer: Vec<u8>,
    ) -> Result<DecodeReaderBytes<'t, S>, (S, Vec<u8>, BuildError)>
        ensures fresh { IfOk result (λ reader. standing_of reader ≡ fresh (options_of self.now)
            (indexes_of tables.now) (vec_len buffer) (S.left source) (S.faults source)
            (S.calls source)) }
        ensures source { IfOk result (λ reader. source_of reader ≡ source) }
        ensures built { IfOk result (λ _.
            build_error (options_of self.now) (indexes_of tables.now) (vec_len buffer) ≡ None) }
        ensures handed_back { IfErr result (λ e. (e.0 ≡ source) × (e.1 ≡ buffer)) }
        ensures refused { IfErr result (λ e.
            build_error (options_of self.now) (indexes_of tables.now) (vec_len buffer) ≡ Some e.2) }
    {
        if let Some(encoding) = self.unknown(tables) {
            return Err((source, buffer, BuildError::NoTable(encoding)));
        }
        let room = buffer.len();
        if room < 4 {
            return Err((source, buffer, BuildError::TooSmall(room)));
        }
        Ok(DecodeReaderBytes::at_start(tables, *self, source, buffer))
    }

    // The named encoding, where the tables lack an index for it.
    fn unknown(&self, tables: &Tables) -> Option<Encoding>
        ensures { result ≡ unknown_encoding (options_of self.now) (indexes_of tables.now) }
    {
        let encoding = self.encoding?;
        if tables.has(encoding) {
            return None;
        }
        Some(encoding)
    }

    // The most bytes that a source may give.
    pub(crate) fn most(&self) -> usize
        ensures value { result ≡ (options_of self.now).limit }
        ensures few { result < 2 ^ 64 - 1 }
    {
        self.limit
    }

    // Whether a mark at the front is left out.
    pub(crate) fn strips(&self) -> bool
        ensures { result ≡ (options_of self.now).strip_bom }
    {
        self.strip_bom
    }

    // The encoding that these first bytes of a stream choose.
    #[tactic(auto, unfolding(crate::specs::Text::chosen))]
    pub(crate) fn chosen(&self, bom: PossibleBom) -> Option<Encoding>
        ensures { result ≡ chosen (options_of self.now) (bom_bytes bom) }
    {
        if !self.bom_sniffing || (self.encoding.is_some() && !self.bom_override) {
            return self.encoding;
        }
        match bom.encoding() {
            Some(found) => self.marked(found),
            None => self.encoding,
        }
    }

    // The encoding that a mark decides.
    fn marked(&self, found: Encoding) -> Option<Encoding>
        ensures { result ≡ marked_encoding (options_of self.now) found }
    {
        match found {
            Encoding::Utf8 if self.utf8_passthru => self.encoding,
            other => Some(other),
        }
    }
}
