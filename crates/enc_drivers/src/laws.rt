//! What holds of all codes: their units cover the bytes in order, how long the text is, and that
//! two calls in a row decode as one on both pieces. Each function's contract is a law; it does
//! nothing. The laws of one code stand in its file in `codes/`.

ghost use Rattle.std.specs.Prelude.{◌≡◌, ℕ, ◌+◌, ◌*◌, ◌<◌, ◌≤◌, Bool, true, List, [], ◌∷◌, ◌++◌};
ghost use Rattle.std.specs.Prelude.{length, drop, encode_utf8, ◌↔◌};
ghost use Rattle.std.specs.List.{All, sum_by};
ghost use Rattle.enc_drivers.specs.declared.code.Bulk.{Bulk};
ghost use Rattle.enc_drivers.specs.declared.code.Step.{Step};
ghost use Rattle.enc_drivers.specs.declared.unit.Item.{Item};
ghost use Rattle.enc_drivers.specs.declared.unit.JisSet.{JisSet};
ghost use Rattle.enc_drivers.specs.declared.unit.Mode.{Mode};
ghost use Rattle.enc_drivers.specs.Resume.{Standing, Resumes, text_in};
ghost use Rattle.enc_drivers.specs.Steps.{MayFollow};
ghost use Rattle.enc_handles.specs.TypeLaws.{IsEquality, ClonesSame};
ghost use Rattle.enc_drivers.specs.Units.{Code, IsCode, AreBytes, units, text, IsShort};

use crate::code::{Bulk, Step};
use crate::codes::user_defined::UserDefined;
use crate::codes::utf8::Utf8Code;
use crate::codes::windows_1252::Windows1252;
use crate::encode::Encoded;
use crate::{Item, JisSet, Mode};

/// The units of bytes are the unit at their front, and then the units of what follows it, in the
/// next mode.
pub fn units_in_order()
    ensures none { (unit : Code) (mode : Mode) → units unit mode [] ≡ [] }
    ensures some { (unit : Code) → IsCode unit → (mode : Mode) (bytes : List ℕ) → AreBytes bytes
        → 0 < length bytes →
        let u = unit mode bytes in
        units unit mode bytes ≡ (u.item, u.len) ∷ units unit u.next (drop u.len bytes) }
{}

/// The units of bytes cover them: no byte is in none of them, or in two.
pub fn units_cover()
    ensures { (unit : Code) → IsCode unit → (mode : Mode) (bytes : List ℕ) → AreBytes bytes →
        sum_by (λ u. u.1) (units unit mode bytes) ≡ length bytes }
{}

/// The text of bytes has at most three bytes for each of them.
pub fn short_text()
    ensures { (unit : Code) → IsCode unit → (mode : Mode) (bytes : List ℕ) → AreBytes bytes →
        length (text (units unit mode bytes)) ≤ 3 * length bytes }
{}

/// The text of units in UTF-8, as a form that writes one scalar after another, is their text.
pub fn text_in_utf_8()
    ensures { (us : List (Item × ℕ)) → text_in encode_utf8 us ≡ text us }
{}

/// Each unit of bytes has at most three bytes of text for each of its bytes.
pub fn short_units()
    ensures { (unit : Code) → IsCode unit → (mode : Mode) (bytes : List ℕ) → AreBytes bytes
        → All IsShort (units unit mode bytes) }
{}

/// A call of a driver writes at most three bytes of UTF-8 for each byte that it uses up: what it
/// held and read, but for a malformed unit and what it holds now.
pub fn short_call()
    ensures { (unit : Code) → IsCode unit → (last : Bool) (before after : Standing) (src : List ℕ)
        (read : ℕ) (decoded malformed : List (Item × ℕ)) →
        AreBytes before.held → AreBytes src → read ≤ length src
        → Resumes unit last before after src read decoded malformed →
        length (text decoded) + 3 * (sum_by (λ u. u.1) malformed + length after.held)
        ≤ 3 * (length before.held + read) }
{}

/// A call of a driver, and one on what it left of its piece and the next piece: what both have
/// decoded, with the malformed units that they met, and what is still to come are the units of all
/// bytes. So a cut changes nothing. Where the first piece is the last one, so is the second, and it
/// has no further bytes.
pub fn joined_calls()
    ensures { (unit : Code) (first last : Bool) (start middle end : Standing) (src next : List ℕ)
        (read read_then : ℕ) (decoded malformed decoded_then malformed_then : List (Item × ℕ)) →
        Resumes unit first start middle src read decoded malformed →
        Resumes unit last middle end (drop read src ++ next) read_then decoded_then malformed_then →
        AreBytes next → (first ≡ true → (last ≡ true) × (next ≡ [])) → (more : List ℕ)
        → MayFollow last more →
        units unit start.mode (start.held ++ (src ++ (next ++ more)))
        ≡ (decoded ++ malformed) ++ ((decoded_then ++ malformed_then) ++ units unit end.mode
        (end.held ++ (drop read_then (drop read src ++ next) ++ more))) }
{}

/// Two values of a type of this crate are equal by `==` exactly where they are the same.
pub fn equality()
    ensures items { IsEquality ⟦<Item as PartialEq>⟧.eq }
    ensures sets { IsEquality ⟦<JisSet as PartialEq>⟧.eq }
    ensures modes { IsEquality ⟦<Mode as PartialEq>⟧.eq }
    ensures steps { IsEquality ⟦<Step as PartialEq>⟧.eq }
    ensures bulks { IsEquality ⟦<Bulk as PartialEq>⟧.eq }
    ensures utf8_codes { IsEquality ⟦<Utf8Code as PartialEq>⟧.eq }
    ensures windows_1252_codes { IsEquality ⟦<Windows1252 as PartialEq>⟧.eq }
    ensures user_defined_codes { IsEquality ⟦<UserDefined as PartialEq>⟧.eq }
{}

/// The same of the bytes of a scalar, which are four at most.
pub fn equality_of_encoded()
    ensures { (x y : Encoded) → length x ≤ 4 → length y ≤ 4 →
        (⟦<Encoded as PartialEq>⟧.eq x y ≡ true) ↔ (x ≡ y) }
{}

/// A clone of a value of a type of this crate is that value.
pub fn clones()
    ensures items { ClonesSame ⟦<Item as Clone>⟧.is_clone }
    ensures sets { ClonesSame ⟦<JisSet as Clone>⟧.is_clone }
    ensures modes { ClonesSame ⟦<Mode as Clone>⟧.is_clone }
    ensures steps { ClonesSame ⟦<Step as Clone>⟧.is_clone }
    ensures bulks { ClonesSame ⟦<Bulk as Clone>⟧.is_clone }
    ensures encoded { ClonesSame ⟦<Encoded as Clone>⟧.is_clone }
    ensures utf8_codes { ClonesSame ⟦<Utf8Code as Clone>⟧.is_clone }
    ensures windows_1252_codes { ClonesSame ⟦<Windows1252 as Clone>⟧.is_clone }
    ensures user_defined_codes { ClonesSame ⟦<UserDefined as Clone>⟧.is_clone }
{}
