//! Values without their folds (RFC 5322, section 2.2.3).
ghost use Rattle.std.specs.Prelude.{◌≡◌, ◌<◌, ◌-◌, ◌++◌, ◌&&◌, ◌==◌, IfOk, IfSome, IfNone, length};
ghost use Rattle.std.specs.Prelude.{nat_lt, slice_index};
ghost use Rattle.people.specs.Unfolded.{begins_blank, is_blank, unfolded, without_return};

use memchr::memchr;
use std::alloc::{AllocError, Global};

// A space or a tab.
pub(crate) fn is_blank(byte: u8) -> bool
    ensures { result ≡ is_blank byte }
{
    byte == b' ' || byte == b'\t'
}

// Whether a blank stands first.
fn begins_blank(bytes: &[u8]) -> bool
    ensures { result ≡ begins_blank bytes.now }
{
    match bytes.first() {
        Some(byte) => is_blank(*byte),
        None => false,
    }
}

// Whether the last byte is a CR.
fn ends_in_return(bytes: &[u8]) -> bool
    ensures { result ≡ (nat_lt 0 (length bytes.now)
        && slice_index bytes.now (length bytes.now - 1) == 13) }
{
    bytes.len() > 0 && bytes[bytes.len() - 1] == b'\r'
}

// The bytes without one CR at their end.
fn without_return(bytes: &[u8]) -> &[u8]
    ensures { result.now ≡ without_return bytes.now }
{
    if ends_in_return(bytes) {
        return &bytes[..bytes.len() - 1];
    }
    bytes
}

// What the first line that an LF ends is unfolded, and what follows that LF.
fn split_line(bytes: &[u8]) -> Option<(&[u8], &[u8])>
    ensures none { IfNone result (unfolded bytes.now ≡ bytes.now) }
    ensures some { IfSome result (λ r. unfolded bytes.now ≡ r.0.now ++ unfolded r.1.now) }
    ensures shorter { IfSome result (λ r. length r.1.now < length bytes.now) }
{
    let end = memchr(b'\n', bytes)?;
    let after = &bytes[end + 1..];
    if begins_blank(after) {
        return Some((without_return(&bytes[..end]), after));
    }
    Some((&bytes[..end + 1], after))
}

/// The bytes without their folds: without each LF that stands directly before
/// a space or a tab, and without the one CR directly before such an LF
/// (RFC 5322, section 2.2.3). The white space stays, and so does any other LF
/// or CR. It fails only for want of memory.
pub fn unfold(alloc: Global, bytes: &[u8]) -> Result<Vec<u8>, AllocError>
    ensures { IfOk result (λ line. line.items ≡ unfolded bytes.now) }
{
    let mut unfolded = Vec::with_capacity(alloc, bytes.len())?;
    let mut rest = bytes;
    while let Some((line, after)) = split_line(rest) {
        unfolded.extend_from_slice(line)?;
        rest = after;
    }
    unfolded.extend_from_slice(rest)?;
    Ok(unfolded)
}
