//! The slice that a source of bytes reads from.
ghost use Rattle.std.specs.Prelude.{◌≡◌, List, ℕ};

/// What the bytes of a source lie in: a `&[u8]`.
pub trait ByteSlice: Drop {
    /// The bytes.
    ghost bytes: { Self → List ℕ };

    /// The bytes.
    fn as_bytes(&self) -> &[u8]
        ensures { result.now ≡ bytes self.now };
}

impl<'a> ByteSlice for &'a [u8] {
    ghost bytes = { λ s. s.now };

    fn as_bytes(&self) -> &[u8] {
        self
    }
}
