//! The first bytes of a stream, which may be a byte order mark.
ghost use Rattle.std.specs.Prelude.{◌≡◌, ◌+◌, ◌-◌, ◌≤◌, [], ◌++◌, length, drop, replicate};
ghost use Rattle.enc_drivers.specs.Units.{AreBytes};

use enc_front::Encoding;

/// The first three bytes of a stream, or all of a shorter one. Bytes from `len` on are 0.
#[derive(Clone, Copy, Debug, PartialEq, Eq)]
pub struct PossibleBom {
    /// The bytes, and 0 behind them.
    pub bytes: [u8; 3],
    /// How many they are.
    pub len: usize,
    ghost within: { len ≤ 3 },
    ghost zeros: { drop len bytes ≡ replicate (3 - len) 0 },
    ghost are_bytes: { AreBytes bytes },
}

impl PossibleBom {
    ghost use Rattle.enc_io.specs.Marks.{bom_bytes, peeked_encoding, front_length};

    // No bytes.
    pub(crate) fn new() -> PossibleBom
        ensures { bom_bytes result ≡ [] }
    {
        PossibleBom {
            bytes: [0; 3],
            len: 0,
        }
    }

    /// The encoding of the byte order mark at the front; none under three bytes. The Encoding
    /// Standard's "BOM sniff" (section 6.1) takes the two bytes of a UTF-16 mark alone too.
    pub fn encoding(&self) -> Option<Encoding>
        ensures { result ≡ peeked_encoding (bom_bytes self.now) }
    {
        if self.len < 3 {
            return None;
        }
        match Encoding::for_bom(&self.bytes[..self.len]) {
            Some((encoding, _)) => Some(encoding),
            None => None,
        }
    }

    // The length of the mark at the front, where a mark is taken off.
    pub(crate) fn front_len(&self, strips: bool) -> usize
        ensures len { result ≡ front_length strips (bom_bytes self.now) }
        ensures within { result ≤ length (bom_bytes self.now) }
    {
        if !strips {
            return 0;
        }
        match Encoding::for_bom(&self.bytes[..self.len]) {
            Some((_, len)) => len,
            None => 0,
        }
    }

    // These bytes and a part behind them.
    pub(crate) fn with(self, part: &[u8]) -> PossibleBom
        requires { self.len + length part.now ≤ 3 }
        ensures bytes { bom_bytes result ≡ bom_bytes self ++ part.now }
        ensures len { result.len ≡ self.len + length part.now }
    {
        let end = self.len + part.len();
        let mut bytes = self.bytes;
        bytes[self.len..end].copy_from_slice(part);
        PossibleBom { bytes, len: end }
    }
}
