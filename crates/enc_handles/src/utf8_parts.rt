//! A copy of whole well-formed UTF-8 sequences, as many as fit: ASCII first, then parts that grow.
ghost use Rattle.std.specs.Prelude.{◌≡◌, ◌≤◌, ◌<◌, ◌+◌, length, take, min, IsTrue, IsFalse, IfSome};
ghost use Rattle.std.specs.Str.{IsUtf8};
ghost use Rattle.std.specs.Str.Lossy.{utf8_valid_len};

use enc_strides::runs::ascii_to_ascii;

const LOOK: usize = 8;

const FIRST_PART: usize = 64;

const LAST_PART: usize = 2048;

// The length of the longest front that is UTF-8.
fn valid_len(bytes: &[u8]) -> usize
    ensures value { result ≡ utf8_valid_len bytes.now }
    ensures within { result ≤ length bytes.now }
    ensures front { IsUtf8 (take result bytes.now) }
{
    match std::str::from_utf8(bytes) {
        Ok(_) => bytes.len(),
        Err(e) => e.valid_up_to(),
    }
}

// The length without the bytes at the end that begin a longer sequence. It only saves work: nothing
// rests on it.
#[inline(always)]
fn without_cut_tail(part: &[u8]) -> usize
    requires { 0 < length part.now }
    ensures { (0 < result) × (result ≤ length part.now) }
{
    let len = part.len();
    if len < 4 {
        return len;
    }
    if part[len - 1] >= 0xC0 {
        len - 1
    } else if part[len - 2] >= 0xE0 {
        len - 2
    } else if part[len - 3] >= 0xF0 {
        len - 3
    } else {
        len
    }
}

// A front of whole sequences, found in a part of so many bytes, and whether no longer one is.
fn next_part(rest: &[u8], size: usize) -> (usize, bool)
    requires some { 0 < length rest.now }
    requires size { 0 < size }
    ensures within { result.0 ≤ length rest.now }
    ensures whole { IsUtf8 (take result.0 rest.now) }
    ensures goes_on { IsFalse result.1 → 0 < result.0 }
    ensures ends { IsTrue result.1 → result.0 ≡ utf8_valid_len rest.now }
{
    let part = without_cut_tail(&rest[..rest.len().min(size)]);
    if simdutf8::is_utf8(&rest[..part]) {
        return (part, false);
    }
    // A sequence that begins in the part ends within three bytes behind it.
    let near = part + (rest.len() - part).min(3);
    let len = valid_len(&rest[..near]);
    (len, near == rest.len() || near - len >= 4)
}

// The longest front of whole sequences where a few bytes show it: text with many malformed units
// costs little.
#[inline(always)]
fn first_look(rest: &[u8]) -> Option<usize>
    ensures longest { IfSome result (λ len. len ≡ utf8_valid_len rest.now) }
    ensures within { IfSome result (λ len. len ≤ length rest.now) }
{
    let near = rest.len().min(LOOK);
    let len = valid_len(&rest[..near]);
    if near - len >= 4 { Some(len) } else { None }
}

// Copies so many bytes behind those that were copied before.
#[inline(always)]
fn copy_part(src: &[u8], dst: &mut [u8], at: usize, len: usize)
    requires within { at + len ≤ length src.now }
    requires room { at + len ≤ length dst.old }
    requires before { take at dst.old ≡ take at src.now }
    ensures copied { take (at + len) dst.new ≡ take (at + len) src.now }
    ensures same_length { length dst.new ≡ length dst.old }
{
    dst[at..at + len].copy_from_slice(&src[at..at + len]);
}

// Copies on behind a front of whole sequences, up to the end of the longest one.
fn copy_parts(src: &[u8], dst: &mut [u8], start: usize) -> usize
    requires within { start ≤ length src.now }
    requires room { length src.now ≤ length dst.old }
    requires whole { IsUtf8 (take start src.now) }
    requires before { take start dst.old ≡ take start src.now }
    ensures within { result ≤ length src.now }
    ensures longest { result ≡ utf8_valid_len src.now }
    ensures copied { take result dst.new ≡ take result src.now }
    ensures same_length { length dst.new ≡ length dst.old }
{
    if let Some(len) = first_look(&src[start..]) {
        copy_part(src, dst, start, len);
        return start + len;
    }
    let mut at = start;
    let mut size = FIRST_PART;
    while at < src.len() {
        let (part, last) = next_part(&src[at..], size);
        copy_part(src, dst, at, part);
        at += part;
        if last {
            break;
        }
        size = (2 * size).min(LAST_PART);
    }
    at
}

// Copies the longest front of whole well-formed sequences that fits, and says how long it is.
pub(crate) fn copy_utf8(src: &[u8], dst: &mut [u8]) -> usize
    ensures within { result ≤ length src.now }
    ensures fits { result ≤ length dst.old }
    ensures whole { IsUtf8 (take result src.now) }
    ensures longest { result
        ≡ utf8_valid_len (take (min (length src.now) (length dst.old)) src.now) }
    ensures copied { take result dst.new ≡ take result src.now }
    ensures same_length { length dst.new ≡ length dst.old }
{
    let window = &src[..src.len().min(dst.len())];
    let ascii = ascii_to_ascii(window, dst);
    copy_parts(window, dst, ascii)
}
