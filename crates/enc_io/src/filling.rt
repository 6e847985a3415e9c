//! Reading until a buffer is full.
ghost use Rattle.std.specs.Prelude.{◌≡◌, ◌+◌, ◌<◌, ◌≤◌, IsNone, IfOk, IfErr, OnOk, OnErr, min};
ghost use Rattle.std.specs.Prelude.{length, take, drop};
ghost use Rattle.std.specs.Io.{ReadsAtMost};
ghost use Rattle.std.specs.Io.KnownBytes.{Consumes, IsAtEnd};
ghost use Rattle.enc_io.specs.Faults.{Rose};

use crate::outside::{Failed, Source};

#[cfg(test)]
mod tests;

/// Reads until `buf` is full or the source ends, and answers how many bytes stand in `buf`.
///
/// # Errors
///
/// A fault of the source, with how many bytes stand in `buf`.
pub fn read_full<S: Source>(source: &mut S, buf: &mut [u8]) -> Result<usize, (usize, Failed)>
    ensures within { ReadsAtMost result buf.new }
    ensures moved { IfOk result (λ n. Consumes (S.left source.old) (S.left source.new)
        (take n buf.new)) }
    ensures end { IfOk result (λ n. n < length buf.new → IsAtEnd (S.left source.new)) }
    ensures within_err { IfErr result (λ e. e.0 < length buf.new) }
    ensures moved_err { IfErr result (λ e. Consumes (S.left source.old) (S.left source.new)
        (take e.0 buf.new)) }
    ensures silent { IsNone (S.left source.old) → IsNone (S.left source.new) }
    ensures calls { IfOk result (λ n. S.calls source.new ≤ S.calls source.old + n + 1) }
    ensures calls_full { IfOk result (λ n.
        n ≡ length buf.new → S.calls source.new ≤ S.calls source.old + n) }
    ensures calls_err { IfErr result (λ e. S.calls source.new ≤ S.calls source.old + e.0 + 1) }
    ensures nothing_asked { length buf.old ≡ 0 → source.new ≡ source.old }
    ensures counted { OnOk result (S.faults source.new ≡ S.faults source.old) }
    ensures failed { OnErr result (Rose (S.faults source.old) (S.faults source.new)) }
    ensures never_falls { S.faults source.old ≤ S.faults source.new }
{
    let mut count = 0;
    while count < buf.len() {
        match source.read(&mut buf[count..]) {
            Ok(0) => return Ok(count),
            Ok(n) => count += n,
            Err(failed) => return Err((count, failed)),
        }
    }
    Ok(count)
}

// Moves the first of the bytes that wait to the front of `buf`, as many as wait and fit, and
// answers how many.
pub(crate) fn give(waiting: &[u8], buf: &mut [u8]) -> usize
    ensures count { result ≡ min (length buf.old) (length waiting.now) }
    ensures given { take result buf.new ≡ take result waiting.now }
    ensures untouched { drop result buf.new ≡ drop result buf.old }
    ensures len { length buf.new ≡ length buf.old }
{
    let count = buf.len().min(waiting.len());
    buf[..count].copy_from_slice(&waiting[..count]);
    count
}
