//! A reader of the fields of a header block, unfolded (RFC 5322, section 2.2.3).
ghost use Rattle.std.specs.Prelude.{◌≡◌, ◌⊎◌, ◌+◌, ◌<◌, ◌≤◌, [], ◌∷◌, ◌++◌, Ok, Err, true, false, length};
ghost use Rattle.std.specs.Prelude.{take, drop, IfOk, IfErr, OnOk, vec_len, map};
ghost use Rattle.header_block.specs.Lines.{has_lf, without_last_cr};
ghost use Rattle.header_block.specs.Fields.{begins_wsp};
ghost use Rattle.header_block.specs.Kept.{goes_with};
ghost use Rattle.header_block.specs.declared.field_reader.TheConstants.{LONGEST};

use crate::field_parts::is_wsp;
use crate::lines::{content_len, line_end};
use enc_io::{DecodeReaderBytes, ReadError, Source};
use std::alloc::Global;

/// The most bytes that a field's unfolded text may have.
pub const LONGEST: usize = 65_536;

// Why a next field isn't found.
#[derive(Clone, Copy, Debug, PartialEq, Eq)]
pub(crate) enum FieldError {
    // Nothing is lost, and the next call goes on.
    Memory,
    // A read of the source failed. Nothing is lost, and the next call goes on.
    ReadFault,
    // The source gave more bytes than the reader's limit.
    TooMuch,
    // The field has more bytes than a field may have. What was read of it is dropped.
    TooLong,
}

// A reader of fields, in pieces as long as a buffer. `text` has the whole lines of the field that
// has begun, unfolded, and from `line_start` on the line that has begun.
#[derive(Drop)]
pub(crate) struct FieldReader<'t, S: Source> {
    reader: DecodeReaderBytes<'t, S>,
    piece: Vec<u8>,
    start: usize,
    end: usize,
    text: Vec<u8>,
    line_start: usize,
    ghost start_within: { start ≤ end },
    ghost end_within: { end ≤ length piece.items },
    ghost room: { 0 < length piece.items },
    ghost line_within: { line_start ≤ length text.items },
    ghost no_lf: { has_lf text.items ≡ false },
    ghost continued: { goes_with (take line_start text.items) (drop line_start text.items)
        ≡ true },
    ghost few: { line_start + length (without_last_cr (drop line_start text.items)) ≤ LONGEST },
}

impl<'t, S: Source> FieldReader<'t, S> {
    ghost use Rattle.enc_io.specs.ReaderView.{standing_of as reader_standing};
    ghost use Rattle.header_block.specs.Gathering.{Answers, Steps};
    ghost use Rattle.header_block.specs.FieldView.{gathered_of, reader_of};

    // A reader of the fields of the text that `reader` has still to give, in pieces as long as
    // `piece`.
    pub(crate) fn new(
        alloc: Global,
        reader: DecodeReaderBytes<'t, S>,
        piece: Vec<u8>,
    ) -> FieldReader<'t, S>
        requires { 0 < vec_len piece }
        ensures fresh { gathered_of result ≡ record {
          reader = reader_standing reader.entry;
          field = [];
          line = [];
          waiting = [];
        } }
        ensures reader { reader_of result ≡ reader.entry }
    {
        FieldReader {
            reader,
            piece,
            start: 0,
            end: 0,
            text: Vec::new(alloc),
            line_start: 0,
        }
    }

    // The reader as it stands.
    pub(crate) fn into_reader(self) -> DecodeReaderBytes<'t, S>
        ensures { result ≡ reader_of self.entry }
    {
        self.reader
    }

    // The field that was found, or nothing where none is left.
    pub(crate) fn text(&self) -> &[u8]
        requires { (gathered_of self.now).line ≡ [] }
        ensures { result.now ≡ (gathered_of self.now).field }
    {
        self.text.as_slice()
    }

    // Drops the field that was found.
    pub(crate) fn pass(&mut self)
        requires { (gathered_of self.old).line ≡ [] }
        ensures { gathered_of self.new ≡ record (gathered_of self.old) { field = [] } }
    {
        self.text.clear();
        self.line_start = 0;
    }

    // Reads until the next field is whole, or none is left.
    pub(crate) fn gather(&mut self) -> Result<(), FieldError>
        ensures { Answers (gathered_of self.old) (gathered_of self.new) result }
    {
        loop {
            match self.step() {
                Ok(true) => return Ok(()),
                Ok(false) => {}
                Err(error) => return Err(error),
            }
        }
    }

    // Reads a piece where nothing waits, or takes what waits of one line. Answers whether the next
    // field is whole, or none is left.
    fn step(&mut self) -> Result<bool, FieldError>
        ensures { Steps (gathered_of self.old) (gathered_of self.new) result }
    {
        if self.start == self.end {
            return self.fill();
        }
        if self.begins_field() {
            return Ok(true);
        }
        self.take_line()
    }

    // Whether a field is whole: what waits begins a line, and not with space or tab.
    fn begins_field(&self) -> bool
        requires { 0 < length (gathered_of self.now).waiting }
        ensures whole { result ≡ true → (0 < length (gathered_of self.now).field)
            × ((gathered_of self.now).line ≡ [])
            × (begins_wsp (gathered_of self.now).waiting ≡ false) }
        ensures goes_on { result ≡ false → goes_with (gathered_of self.now).field
            ((gathered_of self.now).line ++ (gathered_of self.now).waiting) ≡ true }
    {
        if self.line_start == 0 || self.line_start < self.text.len() {
            return false;
        }
        !is_wsp(self.piece[self.start])
    }

    // Takes what waits of the next line. Answers whether that is empty and no field has begun.
    fn take_line(&mut self) -> Result<bool, FieldError>
        requires waits { 0 < length (gathered_of self.old).waiting }
        requires goes_on { goes_with (gathered_of self.old).field
            ((gathered_of self.old).line ++ (gathered_of self.old).waiting) ≡ true }
        ensures { Steps (gathered_of self.old) (gathered_of self.new) result }
    {
        let (count, whole) = line_end(&self.piece[self.start..self.end]);
        if let Err(error) = self.hold(count) {
            return Err(error);
        }
        if !whole {
            return Ok(false);
        }
        self.start += 1;
        self.end_line();
        Ok(self.line_start == 0)
    }

    // Moves the first of the waiting bytes to the line that has begun.
    fn hold(&mut self, count: usize) -> Result<(), FieldError>
        requires within { count ≤ length (gathered_of self.old).waiting }
        requires before { has_lf (take count (gathered_of self.old).waiting) ≡ false }
        requires goes_on { goes_with (gathered_of self.old).field
            ((gathered_of self.old).line ++ take count (gathered_of self.old).waiting) ≡ true }
        ensures held { OnOk result (gathered_of self.new ≡ record (gathered_of self.old) {
          line = (gathered_of self.old).line ++ take count (gathered_of self.old).waiting;
          waiting = drop count (gathered_of self.old).waiting;
        }) }
        ensures memory { IfErr result (λ error. error ≡ FieldError.Memory
            → gathered_of self.new ≡ gathered_of self.old) }
        ensures long { IfErr result (λ error. error ≡ FieldError.TooLong
            → (gathered_of self.new ≡ record (gathered_of self.old) {
              field = [];
              line = [];
              waiting = drop count (gathered_of self.old).waiting;
            }) × (LONGEST < length (gathered_of self.old).field + length (without_last_cr
            ((gathered_of self.old).line ++ take count (gathered_of self.old).waiting)))) }
        ensures errors { IfErr result (λ error.
            (error ≡ FieldError.Memory) ⊎ (error ≡ FieldError.TooLong)) }
    {
        let waiting = &self.piece[self.start..self.end];
        if self.text.extend_from_slice(&waiting[..count]).is_err() {
            return Err(FieldError::Memory);
        }
        self.start += count;
        let line_len = content_len(&self.text[self.line_start..]);
        if self.line_start + line_len > LONGEST {
            self.text.clear();
            self.line_start = 0;
            return Err(FieldError::TooLong);
        }
        Ok(())
    }

    // Ends the line that has begun: without one CR at its end it is joined to the field.
    fn end_line(&mut self)
        ensures { gathered_of self.new ≡ record (gathered_of self.old) {
          field = (gathered_of self.old).field ++ without_last_cr (gathered_of self.old).line;
          line = [];
        } }
    {
        let line_len = content_len(&self.text[self.line_start..]);
        self.text.truncate(self.line_start + line_len);
        self.line_start = self.text.len();
    }

    // Reads the next piece; nothing waits of the last. At the end the line that has begun is whole.
    fn fill(&mut self) -> Result<bool, FieldError>
        requires { (gathered_of self.old).waiting ≡ [] }
        ensures { Steps (gathered_of self.old) (gathered_of self.new) result }
    {
        self.start = 0;
        self.end = 0;
        match self.reader.read(&mut self.piece) {
            Ok(0) => {
                self.end_line();
                Ok(true)
            }
            Ok(count) => {
                self.end = count;
                Ok(false)
            }
            Err(ReadError::ReadFault) => Err(FieldError::ReadFault),
            Err(ReadError::TooMuch) => Err(FieldError::TooMuch),
        }
    }
}
