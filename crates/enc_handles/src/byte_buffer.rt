//! The slice that a destination of bytes writes to, and how a byte and ASCII are put there.
ghost use Rattle.std.specs.Prelude.{◌≡◌, ◌+◌, ◌-◌, ◌<◌, ◌≤◌, [], ◌∷◌, length, take, drop, List, ℕ};
ghost use Rattle.std.specs.Prelude.{true};
ghost use Rattle.std.specs.Borrow.{GName};
ghost use Rattle.enc_handles.specs.Ascii.{moved_len};
ghost use Rattle.enc_handles.specs.AsciiToBytes.{moved_ascii};
ghost use Rattle.enc_handles.specs.Scalars.{ReadsBetween};
ghost use Rattle.enc_handles.specs.UnitSlice.{Puts};

use crate::text_slice::TextSlice;

/// What the bytes of a destination lie in: a `&mut [u8]`.
pub trait ByteBuffer: Drop {
    /// The bytes.
    ghost bytes: { Self → List ℕ };

    /// Which buffer they lie in.
    ghost buffer: { Self → GName };

    /// How many bytes there are.
    fn byte_count(&self) -> usize
        ensures { result ≡ length (bytes self.now) };

    /// Writes a byte at `at`, and answers the place behind it.
    fn put_byte_at(&mut self, at: usize, byte: u8) -> usize
        requires { at < length (bytes self.old) }
        ensures end { result ≡ at + 1 }
        ensures text { Puts (bytes self.old) (bytes self.new) at (byte ∷ []) }
        ensures same_buffer { buffer self.new ≡ buffer self.old };

    /// Copies ASCII of `source` from place `from` on to `at` and behind it, up to the first other
    /// element or the end of either, and answers the places behind it in the source and here. What
    /// stands further on here is left open.
    fn copy_ascii_at<T: TextSlice>(&mut self, at: usize, source: &T, from: usize) -> (usize, usize)
        requires at { at ≤ length (bytes self.old) }
        requires from { from ≤ length (T.elements source.now) }
        requires seam { T.is_seam (T.elements source.now) from ≡ true }
        ensures source_end { result.0 ≡ from + moved_len
            (drop from (T.elements source.now)) (length (bytes self.old) - at) }
        ensures end { result.1 ≡ at + moved_len (drop from (T.elements source.now))
            (length (bytes self.old) - at) }
        ensures text { Puts (bytes self.old) (bytes self.new) at (moved_ascii
            (drop from (T.elements source.now)) (length (bytes self.old) - at)) }
        ensures seam { T.is_seam (T.elements source.now) result.0 ≡ true }
        ensures reads { ReadsBetween T.scalars (T.elements source.now) from result.0
            (moved_ascii (drop from (T.elements source.now)) (length (bytes self.old) - at)) }
        ensures same_buffer { buffer self.new ≡ buffer self.old };
}

impl<'a> ByteBuffer for &'a mut [u8] {
    ghost bytes = { λ s. s.now };

    ghost buffer = { λ s. s.ghost_name };

    fn byte_count(&self) -> usize {
        self.len()
    }

    fn put_byte_at(&mut self, at: usize, byte: u8) -> usize {
        self[at] = byte;
        at + 1
    }

    fn copy_ascii_at<T: TextSlice>(
        &mut self,
        at: usize,
        source: &T,
        from: usize,
    ) -> (usize, usize) {
        let end = source.copy_ascii_from(from, &mut self[at..]);
        (end, at + (end - from))
    }
}
