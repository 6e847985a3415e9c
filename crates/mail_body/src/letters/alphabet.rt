//! The letters of base64 and their values (RFC 2045, section 6.8, table 1).

ghost use Rattle.std.specs.Prelude.{◌≡◌, ◌<◌, IsTrue, true, false, MatchOption};
ghost use Rattle.mail_body.specs.Base64.{value_or_none};
ghost use Rattle.words.specs.Base64.{is_letter, letter_value};

/// What stands in the table at a byte that is no letter.
pub const NO_LETTER: u8 = 255;

/// How many letters there are: every letter's value is below this, and what stands in the table
/// elsewhere isn't.
pub const LETTERS: u8 = 64;

/// Each letter's value, by its byte.
pub const VALUES: [u8; 256] = [
    255, 255, 255, 255, 255, 255, 255, 255, 255, 255, 255, 255, 255, 255, 255, 255, 255, 255, 255,
    255, 255, 255, 255, 255, 255, 255, 255, 255, 255, 255, 255, 255, 255, 255, 255, 255, 255, 255,
    255, 255, 255, 255, 255, 62, 255, 255, 255, 63, 52, 53, 54, 55, 56, 57, 58, 59, 60, 61, 255,
    255, 255, 255, 255, 255, 255, 0, 1, 2, 3, 4, 5, 6, 7, 8, 9, 10, 11, 12, 13, 14, 15, 16, 17, 18,
    19, 20, 21, 22, 23, 24, 25, 255, 255, 255, 255, 255, 255, 26, 27, 28, 29, 30, 31, 32, 33, 34,
    35, 36, 37, 38, 39, 40, 41, 42, 43, 44, 45, 46, 47, 48, 49, 50, 51, 255, 255, 255, 255, 255,
    255, 255, 255, 255, 255, 255, 255, 255, 255, 255, 255, 255, 255, 255, 255, 255, 255, 255, 255,
    255, 255, 255, 255, 255, 255, 255, 255, 255, 255, 255, 255, 255, 255, 255, 255, 255, 255, 255,
    255, 255, 255, 255, 255, 255, 255, 255, 255, 255, 255, 255, 255, 255, 255, 255, 255, 255, 255,
    255, 255, 255, 255, 255, 255, 255, 255, 255, 255, 255, 255, 255, 255, 255, 255, 255, 255, 255,
    255, 255, 255, 255, 255, 255, 255, 255, 255, 255, 255, 255, 255, 255, 255, 255, 255, 255, 255,
    255, 255, 255, 255, 255, 255, 255, 255, 255, 255, 255, 255, 255, 255, 255, 255, 255, 255, 255,
    255, 255, 255, 255, 255, 255, 255, 255, 255, 255, 255, 255, 255, 255,
];

/// The value of a letter, or `NO_LETTER`.
#[inline(always)]
pub fn value_at(byte: u8) -> u8
    ensures { result ≡ value_or_none byte }
{
    VALUES[usize::from(byte)]
}

/// A letter.
#[derive(Clone, Copy, Debug)]
pub struct Letter {
    byte: u8,
    ghost in_alphabet: { IsTrue (is_letter byte) },
}

impl Letter {
    /// The byte as a letter, where it is one.
    pub fn new(byte: u8) -> Option<Letter>
        ensures { MatchOption result (is_letter byte ≡ false) (λ letter. letter.byte ≡ byte) }
    {
        if value_at(byte) == NO_LETTER {
            None
        } else {
            Some(Letter { byte })
        }
    }

    /// Its six-bit value.
    pub fn value(self) -> u8
        ensures value { result ≡ letter_value self.byte }
        ensures six_bits { result < 64 }
    {
        value_at(self.byte)
    }
}
