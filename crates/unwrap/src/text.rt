//! The text of a stream, written as it is read.
ghost use Rattle.std.specs.Prelude.{◌≡◌, ◌≢◌, ◌<◌, Err, length};
ghost use Rattle.enc_io.specs.BuilderView.{options_of};
ghost use Rattle.enc_io.specs.Faults.{Rose};
ghost use Rattle.enc_io.specs.ReaderView.{standing_of};
ghost use Rattle.unwrap.specs.Copies.{Copies};
ghost use Rattle.unwrap.specs.Streams.{reader_of};

use crate::command_line::options::ReaderOptions;
use crate::devices::sink::Sink;
use crate::moving::write_all;
use enc_io::{DecodeReaderBytes, DecodeReaderBytesBuilder, Failed, ReadError, Source};

/// Why a copy of a stream's text ended before its end.
#[derive(Clone, Copy, Debug, PartialEq, Eq)]
pub enum CopyFault {
    /// The source failed. The sink has all that the reader handed out, and the reader may be read
    /// on.
    ReadFault,
    /// The source gave more bytes than the reader's limit. The sink has all that the reader handed
    /// out.
    TooMuch,
    /// The sink failed. It has a prefix of what the reader handed out.
    WriteFault,
}

/// Writes all that a reader has still to give, piece by piece, and answers how many bytes these
/// are, or `u64::MAX` where they are more. `piece` isn't empty. It takes no memory.
///
/// # Errors
///
/// `ReadFault`, `TooMuch` or `WriteFault`, whichever is met first.
pub fn copy_text<S: Source, K: Sink>(
    reader: &mut DecodeReaderBytes<'_, S>,
    piece: &mut [u8],
    out: &mut K,
) -> Result<u64, CopyFault>
    requires { 0 < length piece.old }
    ensures copies { Copies (standing_of reader.old) (standing_of reader.new) (K.taken out.old)
        (K.taken out.new) (length piece.old) result }
    ensures counted { result ≢ Err CopyFault.WriteFault → K.faults out.new ≡ K.faults out.old }
    ensures failed { result ≡ Err CopyFault.WriteFault
        → Rose (K.faults out.old) (K.faults out.new) }
{
    let mut count: u64 = 0;
    loop {
        let n = match reader.read(piece) {
            Ok(0) => return Ok(count),
            Ok(n) => n,
            Err(ReadError::ReadFault) => return Err(CopyFault::ReadFault),
            Err(ReadError::TooMuch) => return Err(CopyFault::TooMuch),
        };
        if let Err(Failed) = write_all(out, &piece[..n]) {
            return Err(CopyFault::WriteFault);
        }
        count = count.saturating_add(n as u64);
    }
}

// A builder of readers with these options.
pub(crate) fn builder_of(options: &ReaderOptions) -> DecodeReaderBytesBuilder
    ensures { options_of result ≡ reader_of options.now }
{
    let mut builder = DecodeReaderBytesBuilder::new();
    let _ = builder
        .encoding(options.encoding)
        .utf8_passthru(options.utf8_passthru)
        .strip_bom(options.strip_bom)
        .bom_override(options.bom_override)
        .bom_sniffing(options.bom_sniffing)
        .limit(options.limit as usize);
    builder
}

#[cfg(test)]
mod tests;
