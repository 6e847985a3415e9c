//! The letters of Base64 (RFC 2045, section 6.8, table 1).
ghost use Rattle.std.specs.Prelude.{◌≡◌, ◌<◌, MatchOption, true, false};
ghost use Rattle.people.specs.BText.{is_letter, letter_value};

// The six-bit value of a letter.
#[derive(Clone, Copy)]
pub(crate) struct Value {
    pub(crate) number: u8,
    ghost six_bits: { number < 64 },
}

impl Value {
    // The value of a byte, where it is a letter.
    pub(crate) fn of(byte: u8) -> Option<Value>
        ensures { MatchOption result (is_letter byte ≡ false)
            (λ value. (is_letter byte ≡ true) × (value.number ≡ letter_value byte)) }
    {
        match byte {
            b'A'..=b'Z' => Some(Value {
                number: byte - b'A',
            }),
            b'a'..=b'z' => Some(Value {
                number: byte - b'a' + 26,
            }),
            b'0'..=b'9' => Some(Value {
                number: byte - b'0' + 52,
            }),
            b'+' => Some(Value { number: 62 }),
            b'/' => Some(Value { number: 63 }),
            _ => None,
        }
    }
}
