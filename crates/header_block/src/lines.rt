//! Where a line ends (RFC 5322, section 2.1).
ghost use Rattle.std.specs.Prelude.{◌≡◌, ◌+◌, ◌≤◌, [], ◌∷◌, false, true, length, take, drop};
ghost use Rattle.header_block.specs.Lines.{has_lf, without_last_cr};

use memchr::memchr;

// How many bytes stand before the first LF, or in all, and whether there is one.
pub(crate) fn line_end(bytes: &[u8]) -> (usize, bool)
    ensures within { result.0 ≤ length bytes.now }
    ensures before { has_lf (take result.0 bytes.now) ≡ false }
    ensures lf { result.1 ≡ true → drop result.0 bytes.now ≡ 10 ∷ drop (result.0 + 1) bytes.now }
    ensures all { result.1 ≡ false → drop result.0 bytes.now ≡ [] }
{
    match memchr(b'\n', bytes) {
        Some(place) => (place, true),
        None => (bytes.len(), false),
    }
}

// How many bytes a line has without one CR at its end.
pub(crate) fn content_len(line: &[u8]) -> usize
    ensures content { take result line.now ≡ without_last_cr line.now }
    ensures len { result ≡ length (without_last_cr line.now) }
{
    let len = line.len();
    if len == 0 {
        return 0;
    }
    if line[len - 1] == b'\r' {
        return len - 1;
    }
    len
}
