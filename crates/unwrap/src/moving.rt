//! Moving bytes from a source and to a sink.
ghost use Rattle.std.specs.Prelude.{◌≡◌, ◌+◌, ◌<◌, ◌≤◌, IfOk, IfErr, OnOk, OnErr, length, vec_len};
ghost use Rattle.std.specs.Io.KnownBytes.{Appends, Consumes, IsAtEnd};
ghost use Rattle.enc_io.specs.Faults.{Rose};
ghost use Rattle.unwrap.specs.Moves.{AppendsPrefix, AppendsRead, IsReadError};

use crate::devices::sink::Sink;
use crate::status::ReadError;
use enc_io::{Failed, Source};
use std::alloc::{AllocError, Global};

// The most bytes of one read.
const PIECE: usize = 65_536;

// A vector of so many zeroes.
pub(crate) fn zeroes(alloc: Global, len: usize) -> Result<Vec<u8>, AllocError>
    ensures { IfOk result (λ bytes. vec_len bytes ≡ len) }
{
    vec![in alloc; 0u8; len]
}

// Reads once, and appends what came, which is at most `most` bytes.
fn append_read<S: Source>(
    source: &mut S,
    piece: &mut [u8],
    bytes: &mut Vec<u8>,
    most: usize,
) -> Result<usize, ReadError>
    requires room { 0 < length piece.old }
    requires within { length piece.old ≤ most + 1 }
    ensures moved { IfOk result (λ n. AppendsRead (S.left source.old) (S.left source.new)
        bytes.old.items bytes.new.items n) }
    ensures most { IfOk result (λ n. n ≤ most) }
    ensures end { IfOk result (λ n. n ≡ 0 → IsAtEnd (S.left source.new)) }
    ensures counted { OnOk result (S.faults source.new ≡ S.faults source.old) }
    ensures errors { IfErr result (IsReadError (S.left source.old) (S.left source.new)
        (S.faults source.old) (S.faults source.new) most) }
{
    match source.read(piece) {
        Ok(n) if n > most => Err(ReadError::TooMuch),
        Ok(n) => {
            bytes.extend_from_slice(&piece[..n])?;
            Ok(n)
        }
        Err(Failed) => Err(ReadError::ReadFault),
    }
}

/// All bytes of a source, of which it asks for at most `limit + 1`.
///
/// # Errors
///
/// `ReadFault` where the source failed, `TooMuch` where it gave more than `limit` bytes. `Memory`
/// may come at any growth.
pub fn read_all<S: Source>(
    alloc: Global,
    source: &mut S,
    limit: usize,
) -> Result<Vec<u8>, ReadError>
    requires { limit < usize.MAX }
    ensures moved { IfOk result (λ bytes.
        Consumes (S.left source.old) (S.left source.new) bytes.items) }
    ensures end { OnOk result (IsAtEnd (S.left source.new)) }
    ensures within { IfOk result (λ bytes. length bytes.items ≤ limit) }
    ensures counted { OnOk result (S.faults source.new ≡ S.faults source.old) }
    ensures errors { IfErr result (IsReadError (S.left source.old) (S.left source.new)
        (S.faults source.old) (S.faults source.new) limit) }
{
    let mut piece = zeroes(alloc, PIECE.min(limit + 1))?;
    let mut bytes = Vec::new(alloc);
    loop {
        let most = limit - bytes.len();
        let room = piece.len().min(most + 1);
        match append_read(source, &mut piece[..room], &mut bytes, most) {
            Ok(0) => return Ok(bytes),
            Ok(_) => {}
            Err(error) => return Err(error),
        }
    }
}

/// Writes all bytes to a sink, which is given the whole rest at each call, and isn't called where
/// none are left: it is called at most as often as there are bytes.
///
/// # Errors
///
/// `Failed` where the sink failed; it then has a prefix of the bytes.
pub fn write_all<K: Sink>(sink: &mut K, bytes: &[u8]) -> Result<(), Failed>
    ensures written { OnOk result (Appends (K.taken sink.old) (K.taken sink.new) bytes.now) }
    ensures some { OnErr result (0 < length bytes.now) }
    ensures calls { K.calls sink.new ≤ K.calls sink.old + length bytes.now }
    ensures prefix { OnErr result (AppendsPrefix (K.taken sink.old) (K.taken sink.new) bytes.now) }
    ensures counted { OnOk result (K.faults sink.new ≡ K.faults sink.old) }
    ensures failed { OnErr result (Rose (K.faults sink.old) (K.faults sink.new)) }
{
    let mut count = 0;
    while count < bytes.len() {
        match sink.write(&bytes[count..]) {
            Ok(n) => count += n,
            Err(failed) => return Err(failed),
        }
    }
    Ok(())
}
