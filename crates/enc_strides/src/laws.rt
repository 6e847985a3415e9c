//! Laws of the definitions. Each function's contract is a law; it does nothing.
ghost use Rattle.std.specs.Prelude.{◌≡◌, ℕ, ◌<◌, ◌+◌, ◌*◌, List, [], ◌∷◌, map, true};
ghost use Rattle.enc_strides.specs.Lanes.{all_below, low_byte, swapped, units_of};

/// Units of ASCII are their low bytes: where nothing is found past ASCII, a copy to bytes loses
/// nothing.
pub fn ascii_is_its_low_bytes()
    ensures { (xs : List ℕ) → all_below 0x80 xs ≡ true → map low_byte xs ≡ xs }
{}

/// Bytes exchanged twice are as they were.
pub fn swapped_twice()
    ensures { (unit : ℕ) → unit < 65536 → swapped (swapped unit) ≡ unit }
{}

/// A unit is its low byte and its high byte.
pub fn unit_of_its_bytes()
    ensures { (low high : ℕ) (rest : List ℕ) → units_of (low ∷ high ∷ rest)
        ≡ (low + 256 * high) ∷ units_of rest }
{}
