//! The octets of B texts, read leniently (RFC 2047, section 4.1; RFC 2045, section 6.8).
ghost use Rattle.std.specs.Prelude.{◌≡◌, ◌+◌, ◌*◌, ◌/◌, ◌%◌, ℕ, List, [], ◌∷◌, ◌++◌, IfOk, OnOk};
ghost use Rattle.people.specs.BText.{group_octets, b_octets, b_octets_behind};
ghost use Rattle.people.specs.Groups.{values, LetterGoes, ByteGoes};

use crate::letter::Value;
use std::alloc::AllocError;

const PAD: u8 = b'=';

// The letters of a group that isn't closed yet.
#[derive(Clone, Copy)]
enum Group {
    NoLetter,
    OneLetter(Value),
    TwoLetters(Value, Value),
    ThreeLetters(Value, Value, Value),
}

// The octet of two letters, and what the second and the third, and the third and the fourth make.
fn first_octet(a: Value, b: Value) -> u8
    ensures { result ≡ a.number * 4 + b.number / 16 }
{
    a.number * 4 + b.number / 16
}

fn second_octet(b: Value, c: Value) -> u8
    ensures { result ≡ b.number % 16 * 16 + c.number / 4 }
{
    b.number % 16 * 16 + c.number / 4
}

fn third_octet(c: Value, d: Value) -> u8
    ensures { result ≡ c.number % 4 * 64 + d.number }
{
    c.number % 4 * 64 + d.number
}

// Appends the octets of a group that closes.
fn push_group(octets: &mut Vec<u8>, group: Group) -> Result<(), AllocError>
    ensures { OnOk result (octets.new.items ≡ octets.old.items ++ group_octets (values group)) }
{
    match group {
        Group::NoLetter => Ok(()),
        Group::OneLetter(_) => Ok(()),
        Group::TwoLetters(a, b) => octets.extend_from_slice(&[first_octet(a, b)]),
        Group::ThreeLetters(a, b, c) => {
            octets.extend_from_slice(&[first_octet(a, b), second_octet(b, c)])
        }
    }
}

// Appends the octets of four letters.
fn push_four(octets: &mut Vec<u8>, a: Value, b: Value, c: Value, d: Value) -> Result<(), AllocError>
    ensures { OnOk result (octets.new.items ≡ octets.old.items
        ++ group_octets (a.number ∷ b.number ∷ c.number ∷ d.number ∷ [])) }
{
    octets.extend_from_slice(&[first_octet(a, b), second_octet(b, c), third_octet(c, d)])
}

// Takes one more letter: the fourth closes the group.
fn with_letter(octets: &mut Vec<u8>, group: Group, letter: Value) -> Result<Group, AllocError>
    ensures { IfOk result (λ next. LetterGoes octets.old.items (values group) letter.number
        octets.new.items (values next)) }
{
    match group {
        Group::NoLetter => Ok(Group::OneLetter(letter)),
        Group::OneLetter(a) => Ok(Group::TwoLetters(a, letter)),
        Group::TwoLetters(a, b) => Ok(Group::ThreeLetters(a, b, letter)),
        Group::ThreeLetters(a, b, c) => {
            push_four(octets, a, b, c, letter)?;
            Ok(Group::NoLetter)
        }
    }
}

// Takes an `=`: it closes a group of two or three letters.
fn with_pad(octets: &mut Vec<u8>, group: Group) -> Result<Group, AllocError>
    ensures { IfOk result (λ next. ByteGoes octets.old.items (values group) 61
        octets.new.items (values next)) }
{
    match group {
        Group::NoLetter => Ok(group),
        Group::OneLetter(_) => Ok(group),
        Group::TwoLetters(_, _) => {
            push_group(octets, group)?;
            Ok(Group::NoLetter)
        }
        Group::ThreeLetters(_, _, _) => {
            push_group(octets, group)?;
            Ok(Group::NoLetter)
        }
    }
}

// Takes one more byte: one outside of the alphabet is nothing.
fn with_byte(octets: &mut Vec<u8>, group: Group, byte: u8) -> Result<Group, AllocError>
    ensures { IfOk result (λ next. ByteGoes octets.old.items (values group) byte
        octets.new.items (values next)) }
{
    if byte == PAD {
        return with_pad(octets, group);
    }
    match Value::of(byte) {
        Some(letter) => with_letter(octets, group, letter),
        None => Ok(group),
    }
}

// Appends the octets of a text.
pub(crate) fn push_b_octets(octets: &mut Vec<u8>, text: &[u8]) -> Result<(), AllocError>
    ensures { OnOk result (octets.new.items ≡ octets.old.items ++ b_octets text.now) }
{
    let mut group = Group::NoLetter;
    for byte in text {
        group = with_byte(octets, group, *byte)?;
    }
    push_group(octets, group)
}
