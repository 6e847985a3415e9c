//! Laws of what quoted-printable text stands for. Each function's contract is a law; the function
//! does nothing, or makes the one call that the law is about.

ghost use Rattle.std.specs.Prelude.{◌≡◌, ◌≢◌, ◌↔◌, ℕ, ◌≤◌, ◌<◌, List, ◌∷◌, ◌++◌, length, All, Ok};
ghost use Rattle.std.specs.Prelude.{Some, IfOk, IsTrue, true};
ghost use Rattle.std.specs.Ordering.{nat_cmp};
ghost use Rattle.qp.specs.Text.{kept};
ghost use Rattle.qp.specs.Line.{line_value};
ghost use Rattle.qp.specs.Robust.{robust, line_end};
ghost use Rattle.qp.specs.Strict.{strict};
ghost use Rattle.qp.specs.Items.{items};
ghost use Rattle.qp.specs.Layout.{laid_out, broken_lines};
ghost use Rattle.qp.specs.Rows.{StandsInRows};
ghost use Rattle.qp.specs.Settings.{parse_mode_place, input_mode_place, error_place};
ghost use Rattle.qp.specs.declared.InputMode.{InputMode};
ghost use Rattle.qp.specs.declared.Options.{Options};
ghost use Rattle.qp.specs.declared.ParseMode.{ParseMode};
ghost use Rattle.qp.specs.declared.QuotedPrintableError.{QuotedPrintableError};

use super::{InputMode, Options, ParseMode, QpError, QuotedPrintableError};
use std::alloc::AllocError;
use std::cmp::Ordering;
use std::hash::Hash;

/// A text without LF is one line, and has no line break at its end.
pub fn one_line()
    ensures { (text : List ℕ) → All (λ b. b ≢ 10) text → robust text ≡ line_value (kept text) }
{}

/// A text is read line by line: the first line's value and its line break, then what follows its
/// LF.
pub fn line_by_line()
    ensures { (line rest : List ℕ) → All (λ b. b ≢ 10) line →
        robust (line ++ 10 ∷ rest) ≡ line_value (kept line) ++ line_end (kept line) ++ robust rest }
{}

/// Printable octets but `=` stand for themselves (RFC 2045 section 6.7, rule 2).
pub fn literal_octets()
    ensures { (text : List ℕ) →
        All (λ b. (33 ≤ b) × (b ≤ 126) × (b ≢ 61)) text → robust text ≡ text }
{}

/// Where strict reading gives a value, robust reading gives the same.
pub fn strict_is_robust()
    ensures { (limit : ℕ) (input value : List ℕ) →
        strict limit input ≡ Ok value → robust input ≡ value }
{}

/// What an encoder writes is read back, strictly, in either mode and at every limit of at least 6.
pub fn reads_back()
    ensures { (mode : InputMode) (limit : ℕ) (bytes : List ℕ) →
        6 ≤ limit → All (λ b. b < 256) bytes →
        strict limit (laid_out limit (items mode bytes)) ≡ Ok bytes }
{}

/// What an encoder writes has no line longer than the limit, without its CR LF.
pub fn short_lines()
    ensures { (mode : InputMode) (limit : ℕ) (bytes : List ℕ) →
        6 ≤ limit → All (λ b. b < 256) bytes →
        All (λ line. length line ≤ limit) (broken_lines (laid_out limit (items mode bytes))) }
{}

/// What an encoder writes has whole items on each line: no escape is cut.
pub fn whole_items()
    ensures { (mode : InputMode) (limit : ℕ) (bytes : List ℕ) →
        6 ≤ limit → All (λ b. b < 256) bytes →
        StandsInRows (items mode bytes) (laid_out limit (items mode bytes)) }
{}

/// Parse modes are equal where they are the same.
pub fn equal_parse_modes(first: &ParseMode, second: &ParseMode) -> bool
    ensures { IsTrue result ↔ (first.now ≡ second.now) }
{
    first == second
}

/// Parse modes are ordered as they are listed.
pub fn order_of_parse_modes(first: &ParseMode, second: &ParseMode) -> (Ordering, Option<Ordering>)
    ensures cmp { result.0 ≡ nat_cmp (parse_mode_place first.now) (parse_mode_place second.now) }
    ensures partial_cmp { result.1
        ≡ Some (nat_cmp (parse_mode_place first.now) (parse_mode_place second.now)) }
{
    (first.cmp(second), first.partial_cmp(second))
}

/// A clone of a parse mode is the same.
pub fn clone_of_parse_mode(mode: &ParseMode) -> Result<ParseMode, AllocError>
    ensures { IfOk result (λ copy. copy ≡ mode.now) }
{
    mode.clone()
}

/// Input modes are equal where they are the same.
pub fn equal_input_modes(first: &InputMode, second: &InputMode) -> bool
    ensures { IsTrue result ↔ (first.now ≡ second.now) }
{
    first == second
}

/// Input modes are ordered as they are listed.
pub fn order_of_input_modes(first: &InputMode, second: &InputMode) -> (Ordering, Option<Ordering>)
    ensures cmp { result.0 ≡ nat_cmp (input_mode_place first.now) (input_mode_place second.now) }
    ensures partial_cmp { result.1
        ≡ Some (nat_cmp (input_mode_place first.now) (input_mode_place second.now)) }
{
    (first.cmp(second), first.partial_cmp(second))
}

/// A clone of an input mode is the same.
pub fn clone_of_input_mode(mode: &InputMode) -> Result<InputMode, AllocError>
    ensures { IfOk result (λ copy. copy ≡ mode.now) }
{
    mode.clone()
}

/// Faults are equal where they are the same.
pub fn equal_faults(first: &QuotedPrintableError, second: &QuotedPrintableError) -> bool
    ensures { IsTrue result ↔ (first.now ≡ second.now) }
{
    first == second
}

/// Faults are ordered as they are listed.
pub fn order_of_faults(
    first: &QuotedPrintableError,
    second: &QuotedPrintableError,
) -> (Ordering, Option<Ordering>)
    ensures cmp { result.0 ≡ nat_cmp (error_place first.now) (error_place second.now) }
    ensures partial_cmp { result.1
        ≡ Some (nat_cmp (error_place first.now) (error_place second.now)) }
{
    (first.cmp(second), first.partial_cmp(second))
}

/// A clone of a fault is the same.
pub fn clone_of_fault(fault: &QuotedPrintableError) -> Result<QuotedPrintableError, AllocError>
    ensures { IfOk result (λ copy. copy ≡ fault.now) }
{
    fault.clone()
}

/// Options are equal where they are the same.
pub fn equal_options(first: &Options, second: &Options) -> bool
    ensures { IsTrue result ↔ (first.now ≡ second.now) }
{
    first == second
}

/// A clone of options is the same.
pub fn clone_of_options(options: &Options) -> Result<Options, AllocError>
    ensures { IfOk result (λ copy. copy ≡ options.now) }
{
    options.clone()
}

/// Errors are equal where they are the same.
pub fn equal_errors(first: &QpError, second: &QpError) -> bool
    ensures { IsTrue result ↔ (first.now ≡ second.now) }
{
    first == second
}

/// Equal values give a hasher the same bytes, in the same writes.
pub fn hashes()
    ensures parse_modes { (x y : ParseMode) → ⟦<ParseMode as PartialEq>⟧.eq x y ≡ true →
        ⟦<ParseMode as Hash>⟧.hash_input x ≡ ⟦<ParseMode as Hash>⟧.hash_input y }
    ensures input_modes { (x y : InputMode) → ⟦<InputMode as PartialEq>⟧.eq x y ≡ true →
        ⟦<InputMode as Hash>⟧.hash_input x ≡ ⟦<InputMode as Hash>⟧.hash_input y }
    ensures faults { (x y : QuotedPrintableError) →
        ⟦<QuotedPrintableError as PartialEq>⟧.eq x y ≡ true →
        ⟦<QuotedPrintableError as Hash>⟧.hash_input x
        ≡ ⟦<QuotedPrintableError as Hash>⟧.hash_input y }
    ensures options { (x y : Options) → ⟦<Options as PartialEq>⟧.eq x y ≡ true →
        ⟦<Options as Hash>⟧.hash_input x ≡ ⟦<Options as Hash>⟧.hash_input y }
{}
