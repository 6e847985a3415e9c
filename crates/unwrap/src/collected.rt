//! All text of a stream, collected in memory.
ghost use Rattle.std.specs.Prelude.{◌<◌, Some, length};
ghost use Rattle.enc_io.specs.ReaderView.{standing_of};
ghost use Rattle.unwrap.specs.Unwraps.{ReadsFresh};

use crate::devices::sink::Sink;
use crate::status::ReadError;
use crate::text::{CopyFault, copy_text};
use enc_io::{DecodeReaderBytes, Failed, Source};
use std::alloc::Global;

// A sink over a vector.
#[derive(Drop)]
struct Collected {
    bytes: Vec<u8>,
    faults: u64,
    calls: u64,
}

impl Sink for Collected {
    ghost taken = { λ s. Some s.bytes.items };

    ghost faults = { λ s. s.faults };

    ghost calls = { λ s. s.calls };

    fn write(&mut self, piece: &[u8]) -> Result<usize, Failed> {
        self.calls = self.calls.saturating_add(1);
        match self.bytes.extend_from_slice(piece) {
            Ok(()) => Ok(piece.len()),
            Err(_) => {
                self.faults = self.faults.saturating_add(1);
                Err(Failed)
            }
        }
    }
}

impl From<CopyFault> for ReadError {
    ghost use Rattle.std.specs.Prelude.{◌≡◌};
    ghost use Rattle.unwrap.specs.HeaderErrors.{copy_error};

    ghost from_gives = { λ fault e. e ≡ copy_error fault };

    /// A vector fails where it finds no memory.
    fn from(fault: CopyFault) -> ReadError {
        match fault {
            CopyFault::ReadFault => ReadError::ReadFault,
            CopyFault::TooMuch => ReadError::TooMuch,
            CopyFault::WriteFault => ReadError::Memory,
        }
    }
}

// The text of a stream, or why it isn't all there; and the source as it stands then.
#[derive(Drop)]
pub(crate) struct StreamText<S> {
    pub text: Result<Vec<u8>, ReadError>,
    pub source: S,
}

// All text of a reader at the start of its stream.
pub(crate) fn read_text<S: Source>(
    alloc: Global,
    reader: DecodeReaderBytes<'_, S>,
    piece: &mut [u8],
) -> StreamText<S>
    requires { 0 < length piece.old }
    ensures { ReadsFresh (standing_of reader.entry) (S.left result.source)
        (S.faults result.source) result.text }
{
    let mut reader = reader;
    let mut collected = Collected {
        bytes: Vec::new(alloc),
        faults: 0,
        calls: 0,
    };
    let copied = copy_text(&mut reader, piece, &mut collected);
    let source = reader.into_inner();
    match copied {
        Ok(_) => StreamText {
            text: Ok(collected.bytes),
            source,
        },
        Err(fault) => StreamText {
            text: Err(ReadError::from(fault)),
            source,
        },
    }
}
