//! The slice that a source of text reads from, in UTF-8 or UTF-16, and how a scalar is read there.
ghost use Rattle.std.specs.Prelude.{◌≡◌, ◌+◌, ◌<◌, ◌≤◌, [], ◌∷◌, ◌++◌, ◌&&◌, IsTrue, Bool, true};
ghost use Rattle.std.specs.Prelude.{length, take, drop, slice_index, List, ℕ};
ghost use Rattle.std.specs.Str.{chars};
ghost use Rattle.enc_handles.specs.Ascii.{moved_len};
ghost use Rattle.enc_handles.specs.AsciiToBytes.{moved_ascii};
ghost use Rattle.enc_handles.specs.Utf16.{is_lead, is_trail, pair_scalar};
ghost use Rattle.enc_handles.specs.Scalars.{lone_scalar, scalars16, first_len16, is_seam16};
ghost use Rattle.enc_handles.specs.Scalars.{first_len8, is_seam8, ReadsBetween};
ghost use Rattle.enc_handles.specs.Lemmas.TextLaws.{at_start8, whole8, at_start16, whole16};

use crate::basic_latin::basic_latin_to_ascii;
use crate::utf16::{is_lead, is_surrogate, is_trail, pair_scalar};
use enc_strides::runs::ascii_to_ascii;

/// Text in one form: a `&str`, whose elements are bytes of UTF-8, or a `&[u16]`, whose elements are
/// code units of UTF-16.
pub trait TextSlice: Drop {
    /// The elements.
    ghost elements: { Self → List ℕ };

    /// The scalars of a list of elements.
    ghost scalars: { List ℕ → List ℕ };

    /// How many elements the first scalar of a nonempty list has.
    ghost first_len: { List ℕ → ℕ };

    /// No scalar of the list stands across a place.
    ghost is_seam: { List ℕ → ℕ → Bool };

    /// How many elements there are.
    fn element_count(&self) -> usize
        ensures { result ≡ length (elements self.now) };

    /// The scalar at a place, and the place behind it. An unpaired surrogate is read as U+FFFD.
    fn scalar_at(&self, at: usize) -> (char, usize)
        requires within { at < length (elements self.now) }
        requires seam { is_seam (elements self.now) at ≡ true }
        ensures end { result.1 ≡ at + first_len (drop at (elements self.now)) }
        ensures more { at < result.1 }
        ensures within { result.1 ≤ length (elements self.now) }
        ensures past_ascii { 0x80 ≤ slice_index (elements self.now) at → 0x80 ≤ result.0 }
        ensures seam { is_seam (elements self.now) result.1 ≡ true }
        ensures reads { ReadsBetween scalars (elements self.now) at result.1 (result.0 ∷ []) };

    /// Copies ASCII from a place on to the front of `dst`, up to the first other element or the end
    /// of either, and answers the place behind it. What stands in `dst` behind it is left open.
    fn copy_ascii_from(&self, at: usize, dst: &mut [u8]) -> usize
        requires within { at ≤ length (elements self.now) }
        requires seam { is_seam (elements self.now) at ≡ true }
        ensures end { result ≡ at + moved_len (drop at (elements self.now)) (length dst.old) }
        ensures copied { let ascii = moved_ascii (drop at (elements self.now)) (length dst.old) in
            take (length ascii) dst.new ≡ ascii }
        ensures seam { is_seam (elements self.now) result ≡ true }
        ensures reads { ReadsBetween scalars (elements self.now) at result (moved_ascii
            (drop at (elements self.now)) (length dst.old)) };

    /// No scalar stands across the start.
    ghost at_start: { (elements : List ℕ) → is_seam elements 0 ≡ true };

    /// Where no scalar stands across a place, the scalars of a list are those before it and those
    /// behind it.
    ghost whole: { (elements : List ℕ) (n : ℕ) → is_seam elements n ≡ true
        → scalars elements ≡ scalars (take n elements) ++ scalars (drop n elements) };
}

// The scalar at a place of UTF-8, and the place behind it.
fn utf8_scalar_at(text: &str, at: usize) -> (char, usize)
    requires within { at < length text.now }
    requires seam { is_seam8 text.now at ≡ true }
    ensures end { result.1 ≡ at + first_len8 (drop at text.now) }
    ensures more { at < result.1 }
    ensures within { result.1 ≤ length text.now }
    ensures past_ascii { 0x80 ≤ slice_index text.now at → 0x80 ≤ result.0 }
    ensures seam { is_seam8 text.now result.1 ≡ true }
    ensures reads { ReadsBetween chars text.now at result.1 (result.0 ∷ []) }
{
    match text[at..].chars().next() {
        Some(scalar) => (scalar, at + scalar.len_utf8()),
        None => ('\u{FFFD}', at),
    }
}

// Copies ASCII of UTF-8 from a place on to the front of `dst`, and answers the place behind it.
fn copy_ascii_of_utf8(text: &str, at: usize, dst: &mut [u8]) -> usize
    requires within { at ≤ length text.now }
    requires seam { is_seam8 text.now at ≡ true }
    ensures end { result ≡ at + moved_len (drop at text.now) (length dst.old) }
    ensures copied { let ascii = moved_ascii (drop at text.now) (length dst.old) in take
        (length ascii) dst.new ≡ ascii }
    ensures seam { is_seam8 text.now result ≡ true }
    ensures reads { ReadsBetween chars text.now at result (moved_ascii
        (drop at text.now) (length dst.old)) }
{
    let bytes = text.as_bytes();
    let len = ascii_to_ascii(&bytes[at..], dst);
    at + len
}

impl<'a> TextSlice for &'a str {
    ghost elements = { λ s. s.now };

    ghost scalars = { chars };

    ghost first_len = { first_len8 };

    ghost is_seam = { is_seam8 };

    fn element_count(&self) -> usize {
        self.len()
    }

    fn scalar_at(&self, at: usize) -> (char, usize) {
        utf8_scalar_at(self, at)
    }

    fn copy_ascii_from(&self, at: usize, dst: &mut [u8]) -> usize {
        copy_ascii_of_utf8(self, at, dst)
    }

    ghost at_start = { at_start8 };

    ghost whole = { whole8 };
}

// The scalar of a code unit in no pair: U+FFFD for a surrogate.
fn lone_scalar(unit: u16) -> char
    ensures { result ≡ lone_scalar unit }
{
    if is_surrogate(unit) {
        '\u{FFFD}'
    } else {
        char::from_u32(u32::from(unit)).unwrap()
    }
}

// Whether a pair of surrogates stands at a place.
fn is_pair_at(units: &[u16], at: usize) -> bool
    requires { at < length units.now }
    ensures { result ≡ (is_lead (slice_index units.now at) && is_trail
        (slice_index units.now (at + 1))) }
{
    is_lead(units[at]) && at + 1 < units.len() && is_trail(units[at + 1])
}

// Copies ASCII of UTF-16 from a place on to the front of `dst`, and answers the place behind it.
fn copy_ascii_of_utf16(text: &[u16], at: usize, dst: &mut [u8]) -> usize
    requires within { at ≤ length text.now }
    requires seam { is_seam16 text.now at ≡ true }
    ensures end { result ≡ at + moved_len (drop at text.now) (length dst.old) }
    ensures copied { let ascii = moved_ascii (drop at text.now) (length dst.old) in take
        (length ascii) dst.new ≡ ascii }
    ensures seam { is_seam16 text.now result ≡ true }
    ensures reads { ReadsBetween scalars16 text.now at result (moved_ascii
        (drop at text.now) (length dst.old)) }
{
    let len = basic_latin_to_ascii(&text[at..], dst);
    at + len
}

impl<'a> TextSlice for &'a [u16] {
    ghost elements = { λ s. s.now };

    ghost scalars = { scalars16 };

    ghost first_len = { first_len16 };

    ghost is_seam = { is_seam16 };

    fn element_count(&self) -> usize {
        self.len()
    }

    fn scalar_at(&self, at: usize) -> (char, usize) {
        if is_pair_at(self, at) {
            (pair_scalar(self[at], self[at + 1]), at + 2)
        } else {
            (lone_scalar(self[at]), at + 1)
        }
    }

    fn copy_ascii_from(&self, at: usize, dst: &mut [u8]) -> usize {
        copy_ascii_of_utf16(self, at, dst)
    }

    ghost at_start = { at_start16 };

    ghost whole = { whole16 };
}
