//! A decoder that is given a body in pieces.

ghost use Rattle.std.specs.Prelude.{◌≡◌, ◌+◌, ◌*◌, ◌/◌, ◌%◌, ◌≤◌, ℕ, List, [], ◌∷◌, ◌++◌, length, take};
ghost use Rattle.mail_body.specs.HeldLetters.{base64_rest, held_letters, is_ended, octet_list};
ghost use Rattle.words.specs.Base64.{letter_value};

use crate::letters::alphabet::Letter;

const PAD: u8 = b'=';

/// What a decoder holds between pieces: up to three letters, or that `=` was seen.
#[derive(Clone, Copy, Debug)]
pub enum HeldLetters {
    NoLetter,
    OneLetter(Letter),
    TwoLetters(Letter, Letter),
    ThreeLetters(Letter, Letter, Letter),
    Ended,
}

/// Up to three octets.
#[derive(Clone, Copy, Debug)]
pub enum Octets {
    NoOctet,
    OneOctet(u8),
    TwoOctets(u8, u8),
    ThreeOctets(u8, u8, u8),
}

// The octet of two letters, and what the second and the third, and the third and the fourth make.
fn first_octet(a: Letter, b: Letter) -> u8
    ensures { result ≡ letter_value a.byte * 4 + letter_value b.byte / 16 }
{
    a.value() * 4 + b.value() / 16
}

fn second_octet(b: Letter, c: Letter) -> u8
    ensures { result ≡ letter_value b.byte % 16 * 16 + letter_value c.byte / 4 }
{
    b.value() % 16 * 16 + c.value() / 4
}

fn third_octet(c: Letter, d: Letter) -> u8
    ensures { result ≡ letter_value c.byte % 4 * 64 + letter_value d.byte }
{
    c.value() % 4 * 64 + d.value()
}

// What the held letters give where no other letter follows.
pub fn last_octets(held: HeldLetters) -> Octets
    ensures all { octet_list result ≡ base64_rest held [] }
    ensures count { 4 * length (octet_list result) ≤ 3 * length (held_letters held) }
{
    match held {
        HeldLetters::NoLetter => Octets::NoOctet,
        HeldLetters::OneLetter(_) => Octets::NoOctet,
        HeldLetters::TwoLetters(a, b) => Octets::OneOctet(first_octet(a, b)),
        HeldLetters::ThreeLetters(a, b, c) => Octets::TwoOctets(
            first_octet(a, b),
            second_octet(b, c),
        ),
        HeldLetters::Ended => Octets::NoOctet,
    }
}

// What is held after one more letter, and the octets that are whole then.
fn with_letter(held: HeldLetters, letter: Letter) -> (HeldLetters, Octets)
    ensures rest { (rest : List ℕ) → octet_list result.1 ++ base64_rest result.0 rest
        ≡ base64_rest held (letter.byte ∷ rest) }
    ensures count { 4 * length (octet_list result.1) + 3 * length (held_letters result.0)
        ≤ 3 * length (held_letters held) + 3 }
{
    match held {
        HeldLetters::NoLetter => (HeldLetters::OneLetter(letter), Octets::NoOctet),
        HeldLetters::OneLetter(a) => (HeldLetters::TwoLetters(a, letter), Octets::NoOctet),
        HeldLetters::TwoLetters(a, b) => (HeldLetters::ThreeLetters(a, b, letter), Octets::NoOctet),
        HeldLetters::ThreeLetters(a, b, c) => (
            HeldLetters::NoLetter,
            Octets::ThreeOctets(
                first_octet(a, b),
                second_octet(b, c),
                third_octet(c, letter),
            ),
        ),
        HeldLetters::Ended => (HeldLetters::Ended, Octets::NoOctet),
    }
}

// What is held after one more byte, and the octets that are whole then.
pub fn with_byte(held: HeldLetters, byte: u8) -> (HeldLetters, Octets)
    ensures rest { (rest : List ℕ) → octet_list result.1 ++ base64_rest result.0 rest
        ≡ base64_rest held (byte ∷ rest) }
    ensures count { 4 * length (octet_list result.1) + 3 * length (held_letters result.0)
        ≤ 3 * length (held_letters held) + 3 }
{
    if byte == PAD {
        return (HeldLetters::Ended, last_octets(held));
    }
    match Letter::new(byte) {
        Some(letter) => with_letter(held, letter),
        None => (held, Octets::NoOctet),
    }
}

// Whether `=` was seen.
pub fn is_ended(held: HeldLetters) -> bool
    ensures { result ≡ is_ended held }
{
    matches!(held, HeldLetters::Ended)
}

// Writes octets at a place, and gives the place behind them.
pub fn put(octets: Octets, out: &mut [u8], at: usize) -> usize
    requires { at + length (octet_list octets) ≤ length out.old }
    ensures end { result ≡ at + length (octet_list octets) }
    ensures written { take result out.new ≡ take at out.old ++ octet_list octets }
{
    match octets {
        Octets::NoOctet => at,
        Octets::OneOctet(a) => {
            out[at] = a;
            at + 1
        }
        Octets::TwoOctets(a, b) => {
            out[at] = a;
            out[at + 1] = b;
            at + 2
        }
        Octets::ThreeOctets(a, b, c) => {
            out[at] = a;
            out[at + 1] = b;
            out[at + 2] = c;
            at + 3
        }
    }
}
