//! The fields of a header block, one by one.
ghost use Rattle.std.specs.Prelude.{◌≡◌, ◌<◌, [], Some, None, Ok, Err, IfErr, IfNone, IfOk, IfSome};
ghost use Rattle.std.specs.Prelude.{vec_len};
ghost use Rattle.enc_front.specs.Indexes.{indexes_of};
ghost use Rattle.header_block.specs.BlockCalls.{stop_answer as answer_of};
ghost use Rattle.header_block.specs.Showing.{ShowsText};

use crate::field_parts::split_field;
use crate::field_reader::{FieldError, FieldReader};
use enc_front::Tables;
use enc_io::{DecodeReaderBytes, Source};
use std::alloc::Global;
use thiserror::Error;
use words::{Decoder, RecoverStrategy};

/// A field of a header block.
#[derive(Debug, PartialEq, Drop)]
pub struct Field {
    /// The name as it is spelled, without spaces and tabs before the colon: printable ASCII.
    pub name: Vec<u8>,
    /// The text of the value, unfolded and with its encoded words decoded. It may hold any
    /// character, LF too, where an encoded word does.
    pub text: String,
}

/// Why there is no next field. Fields are counted from 0.
#[derive(Debug, PartialEq, Drop, Error)]
pub enum BlockError {
    /// Want of memory. Nothing is lost, and the next call goes on.
    #[error("no memory")]
    Memory,
    /// A read of the source failed. Nothing is lost, and the next call goes on.
    #[error("a read of the source failed")]
    ReadFault,
    /// The source gave more bytes than the reader's limit. Each later call answers this too.
    #[error("the source gave more bytes than the limit")]
    TooMuch,
    /// The unfolded text of the field of this number has more than 65,536 bytes. Each later call
    /// answers this too.
    #[error("field {0} is longer than 65536 bytes")]
    TooLong(u64),
    /// The field of this number has no colon, or no name of printable ASCII before it. Each later
    /// call answers this too.
    #[error("field {0} is no field")]
    NotAField(u64),
    /// The value of the field of this number has no text. The field is passed.
    #[error("field {0}: {1}")]
    Header(u64, words::Error),
}

/// Why a block stands still.
#[derive(Clone, Copy, Debug, PartialEq, Eq)]
pub enum Stop {
    /// All fields are passed.
    AtEnd,
    /// As [`BlockError::TooMuch`].
    TooMuch,
    /// As [`BlockError::TooLong`].
    TooLong,
    /// As [`BlockError::NotAField`].
    NotAField,
}

// Why a field isn't shown.
#[derive(Debug, Drop)]
enum FieldFault {
    Memory,
    NotAField,
    Header(words::Error),
}

impl From<words::Error> for FieldFault {
    ghost use Rattle.std.specs.Prelude.{◌≡◌};
    ghost use Rattle.header_block.specs.Showing.{fault_from};

    ghost from_gives = { λ inner e. e ≡ fault_from inner };

    fn from(error: words::Error) -> FieldFault {
        match error {
            words::Error::Memory => FieldFault::Memory,
            error => FieldFault::Header(error),
        }
    }
}

/// A reader of the fields of the header block at the front of a stream's text: up to the first
/// empty line, or all. It reads no further than the piece in which the block ends.
#[derive(Drop)]
pub struct HeaderBlock<'t, S: Source> {
    fields: FieldReader<'t, S>,
    tables: &'t Tables,
    strategy: RecoverStrategy,
    passed: u64,
    stopped: Option<Stop>,
}

// A field that has this name.
fn named(alloc: Global, name: &[u8], text: String) -> Result<Field, FieldFault>
    ensures name { IfOk result (λ field. field.name.items ≡ name.now) }
    ensures text { IfOk result (λ field. field.text ≡ text) }
    ensures memory { IfErr result (λ fault. fault ≡ FieldFault.Memory) }
{
    let mut bytes = Vec::new(alloc);
    if bytes.extend_from_slice(name).is_err() {
        return Err(FieldFault::Memory);
    }
    Ok(Field { name: bytes, text })
}

// The field of an unfolded text, or why there is none.
fn field_of(
    alloc: Global,
    field: &[u8],
    tables: &Tables,
    strategy: RecoverStrategy,
) -> Result<Field, FieldFault>
    ensures { ShowsText strategy (indexes_of tables.now) field.now result }
{
    let Some((name, value)) = split_field(field) else {
        return Err(FieldFault::NotAField);
    };
    let decoder = Decoder::new().too_long_encoded_word_strategy(strategy);
    match decoder.decode(alloc, tables, value) {
        Ok(text) => named(alloc, name, text),
        Err(error) => Err(FieldFault::from(error)),
    }
}

// The answer of a block that stands still.
fn stop_answer(stop: Stop, passed: u64) -> Result<Option<Field>, BlockError>
    ensures { result ≡ answer_of stop passed }
{
    match stop {
        Stop::AtEnd => Ok(None),
        Stop::TooMuch => Err(BlockError::TooMuch),
        Stop::TooLong => Err(BlockError::TooLong(passed)),
        Stop::NotAField => Err(BlockError::NotAField(passed)),
    }
}

impl<'t, S: Source> HeaderBlock<'t, S> {
    ghost use Rattle.enc_io.specs.ReaderView.{standing_of as reader_standing};
    ghost use Rattle.header_block.specs.Block.{fresh};
    ghost use Rattle.header_block.specs.BlockCalls.{Does};
    ghost use Rattle.header_block.specs.BlockView.{reader_of, standing_of, state_of};
    ghost use Rattle.header_block.specs.Showing.{ShowsNext, error_answer, passed_by, stopped_by};

    /// The header block at the front of the text that `reader` has still to give. Values are
    /// decoded by `tables` and `strategy`. `piece`, which isn't empty, is the buffer that text is
    /// read to. It takes no memory.
    pub fn new(
        alloc: Global,
        reader: DecodeReaderBytes<'t, S>,
        tables: &'t Tables,
        strategy: RecoverStrategy,
        piece: Vec<u8>,
    ) -> HeaderBlock<'t, S>
        requires { 0 < vec_len piece }
        ensures fresh { standing_of result ≡ fresh (reader_standing reader.entry) strategy
            (indexes_of tables.now) }
        ensures reader { reader_of result ≡ reader.entry }
    {
        HeaderBlock {
            fields: FieldReader::new(alloc, reader, piece),
            tables,
            strategy,
            passed: 0,
            stopped: None,
        }
    }

    /// The next field; nothing where an empty line or the end of the text was read and no field is
    /// left, then and from then on.
    ///
    /// # Errors
    ///
    /// `ReadFault` and `TooMuch` as the reader answers. `TooLong` as soon as more than 65,536 bytes
    /// of the field were read, `NotAField` where it is whole and has no colon or no name, `Header`
    /// where its value has no text. `Memory` may come at any growth.
    pub fn next(&mut self, alloc: Global) -> Result<Option<Field>, BlockError>
        ensures does { IfNone (standing_of self.old).stopped
            (Does (standing_of self.old) (standing_of self.new) result) }
        ensures latched { IfSome (standing_of self.old).stopped (λ stop.
            (result ≡ answer_of stop (standing_of self.old).passed)
            × (standing_of self.new ≡ standing_of self.old)) }
    {
        if let Some(stop) = self.stopped {
            return stop_answer(stop, self.passed);
        }
        match self.fields.gather() {
            Ok(()) => self.show(alloc),
            Err(error) => Err(self.refuse(error)),
        }
    }

    /// The reader as it stands. The piece, and text that was read and isn't passed, are dropped.
    pub fn into_reader(self) -> DecodeReaderBytes<'t, S>
        ensures { result ≡ reader_of self.entry }
    {
        self.fields.into_reader()
    }

    // The answer to an error of the reader of fields.
    fn refuse(&mut self, error: FieldError) -> BlockError
        ensures answer { result ≡ error_answer error (state_of self.old).passed }
        ensures stopped { state_of self.new ≡ record (state_of self.old) {
          stopped = stopped_by error (state_of self.old).stopped;
        } }
    {
        match error {
            FieldError::Memory => BlockError::Memory,
            FieldError::ReadFault => BlockError::ReadFault,
            FieldError::TooMuch => {
                self.stopped = Some(Stop::TooMuch);
                BlockError::TooMuch
            }
            FieldError::TooLong => {
                self.stopped = Some(Stop::TooLong);
                BlockError::TooLong(self.passed)
            }
        }
    }

    // Shows the field that was found, or that none is left.
    fn show(&mut self, alloc: Global) -> Result<Option<Field>, BlockError>
        requires { (state_of self.old).at.line ≡ [] }
        ensures { ShowsNext (state_of self.old) (state_of self.new) result }
    {
        if self.fields.text().is_empty() {
            self.stopped = Some(Stop::AtEnd);
            return Ok(None);
        }
        let number = self.passed;
        match field_of(alloc, self.fields.text(), self.tables, self.strategy) {
            Ok(field) => {
                self.pass();
                Ok(Some(field))
            }
            Err(FieldFault::Memory) => Err(BlockError::Memory),
            Err(FieldFault::NotAField) => {
                self.stopped = Some(Stop::NotAField);
                Err(BlockError::NotAField(number))
            }
            Err(FieldFault::Header(error)) => {
                self.pass();
                Err(BlockError::Header(number, error))
            }
        }
    }

    // Passes the field that was found.
    fn pass(&mut self)
        requires { (state_of self.old).at.line ≡ [] }
        ensures { state_of self.new ≡ passed_by (state_of self.old) }
    {
        self.fields.pass();
        self.passed = self.passed.saturating_add(1);
    }
}

#[cfg(test)]
mod tests;
