//! What an encoder is: how the bytes of a scalar are found.
ghost use Rattle.std.specs.Prelude.{◌≡◌, ◌≤◌, List, [], ◌∷◌, ℕ, length};

use std::marker::Model;

#[cfg(test)]
mod tests;

/// The bytes of a scalar in an encoding: one to four.
#[derive(Clone, Copy, Debug, PartialEq, Eq)]
pub struct Encoded {
    bytes: [u8; 4],
    len: u8,
}

impl Model for Encoded {
    ghost use Rattle.std.specs.Prelude.{List, ℕ, take};
    ghost use Rattle.std.specs.Coded.{coded_list, coded_ℕ};

    ghost Value = { List ℕ };

    ghost coded = { coded_list coded_ℕ };

    ghost use Rattle.enc_drivers.specs.Encoded.{padded, IsPadded};
    ghost use Rattle.enc_drivers.specs.Lemmas.PaddedLaw.{is_padded};

    ghost view = { λ e. take e.len e.bytes };

    ghost invariant = { λ e. IsPadded e };

    ghost inverse = { λ bytes. padded bytes };

    ghost inverse_ok = { λ e h. is_padded e h };
}

impl Encoded {
    /// One byte.
    pub fn one(first: u8) -> Encoded
        ensures { result ≡ first ∷ [] }
    {
        Encoded {
            bytes: [first, 0, 0, 0],
            len: 1,
        }
    }

    /// Two bytes.
    pub fn two(first: u8, second: u8) -> Encoded
        ensures { result ≡ first ∷ second ∷ [] }
    {
        Encoded {
            bytes: [first, second, 0, 0],
            len: 2,
        }
    }

    /// Three bytes.
    pub fn three(first: u8, second: u8, third: u8) -> Encoded
        ensures { result ≡ first ∷ second ∷ third ∷ [] }
    {
        Encoded {
            bytes: [first, second, third, 0],
            len: 3,
        }
    }

    /// Four bytes.
    pub fn four(first: u8, second: u8, third: u8, fourth: u8) -> Encoded
        ensures { result ≡ first ∷ second ∷ third ∷ fourth ∷ [] }
    {
        Encoded {
            bytes: [first, second, third, fourth],
            len: 4,
        }
    }

    /// The bytes.
    pub fn as_slice(&self) -> &[u8]
        ensures bytes { result.now ≡ self.now }
        ensures some { 1 ≤ length result.now }
        ensures four { length result.now ≤ 4 }
    {
        &self.bytes[..usize::from(self.len)]
    }
}

/// How the scalars of an encoding are written.
pub trait EncodeCode {
    ghost use Rattle.enc_drivers.specs.Encode.{BytesOf, IsEncoder};

    /// The bytes of each scalar, none where the encoding has none.
    ghost bytes: { Self → BytesOf };

    /// How many bytes a scalar has at most.
    ghost max: { ℕ };

    /// How many bytes a scalar has at most: one to four.
    fn max(&self) -> usize
        ensures { result ≡ max };

    /// The bytes of a scalar, or none.
    fn bytes_of(&self, scalar: char) -> Option<Encoded>
        ensures { result ≡ bytes self.now scalar };

    /// A scalar that has bytes has one to `max`, which are four at most.
    ghost laws: { (code : Self) → IsEncoder max (bytes code) };
}
