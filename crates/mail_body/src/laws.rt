//! Laws of what bodies stand for. Each function's contract is a law, and it does nothing.

ghost use Rattle.std.specs.Prelude.{◌≡◌, ◌==◌, ℕ, List, ◌∷◌, ◌++◌, Some, false};
ghost use Rattle.mail_body.specs.Base64.{base64_body};
ghost use Rattle.words.specs.Base64.{b_value, is_letter};

/// Where a base64 body has a value as the text of an encoded word, it stands for that value.
pub fn same_as_b_texts()
    ensures { (body value : List ℕ) → b_value body ≡ Some value → base64_body body ≡ value }
{}

/// Nothing of a base64 body counts from the first `=` on.
pub fn ends_at_equals()
    ensures { (front rest : List ℕ) → base64_body (front ++ 61 ∷ rest) ≡ base64_body front }
{}

/// A byte of a base64 body that is neither a letter nor `=` counts nowhere.
pub fn other_bytes_are_ignored()
    ensures { (front rest : List ℕ) (b : ℕ) → (b == 61) ≡ false → is_letter b ≡ false →
        base64_body (front ++ b ∷ rest) ≡ base64_body (front ++ rest) }
{}
