//! Letters of base64 in pieces of any length (RFC 2045, section 6.8).

ghost use Rattle.std.specs.Prelude.{◌≡◌, ◌+◌, ◌*◌, ◌<◌, ◌≤◌, ℕ, List, ◌++◌, length, take};
ghost use Rattle.mail_body.specs.HeldLetters.{Goes, base64_rest, held_letters};

pub mod alphabet;
pub mod fours;
pub mod held;

use crate::letters::fours::decode_fours;
use crate::letters::held::{HeldLetters, is_ended, put, with_byte};

// How many fours of letters stand here, which are decoded: none where a four is begun.
#[inline(always)]
fn fours_at(held: HeldLetters, piece: &[u8], at: usize, out: &mut [u8], filled: usize) -> usize
    requires in_piece { at ≤ length piece.now }
    requires in_out { filled ≤ length out.old }
    ensures in_piece { at + 4 * result ≤ length piece.now }
    ensures in_out { filled + 3 * result ≤ length out.old }
    ensures goes { Goes piece.now held at out.old filled
        held (at + 4 * result) out.new (filled + 3 * result) }
{
    match held {
        HeldLetters::NoLetter => decode_fours(piece, at, out, filled),
        _ => 0,
    }
}

// One byte, whatever it is: what is held after it, and how much is written then.
fn byte_at(
    held: HeldLetters,
    piece: &[u8],
    at: usize,
    out: &mut [u8],
    filled: usize,
) -> (HeldLetters, usize)
    requires in_piece { at < length piece.now }
    requires room { 4 * filled + 3 * length (held_letters held) + 3 ≤ 4 * length out.old }
    ensures count { 4 * result.1 + 3 * length (held_letters result.0)
        ≤ 4 * filled + 3 * length (held_letters held) + 3 }
    ensures goes { Goes piece.now held at out.old filled result.0 (at + 1) out.new result.1 }
{
    let (next, octets) = with_byte(held, piece[at]);
    let end = put(octets, out, filled);
    (next, end)
}

/// Decodes a piece into `out` from a place on, and gives what is held after it and the place behind
/// what it wrote.
pub fn decode_piece(
    start: HeldLetters,
    piece: &[u8],
    out: &mut [u8],
    from: usize,
) -> (HeldLetters, usize)
    requires room { 4 * from + 3 * (length piece.now + 3) ≤ 4 * length out.old }
    ensures within { result.1 ≤ length out.old }
    ensures count { 4 * result.1 + 3 * length (held_letters result.0)
        ≤ 4 * from + 3 * (length (held_letters start) + length piece.now) }
    ensures len { length out.new ≡ length out.old }
    ensures rest { (rest : List ℕ) → take result.1 out.new ++ base64_rest result.0 rest
        ≡ take from out.old ++ base64_rest start (piece.now ++ rest) }
{
    let mut held = start;
    let mut at = 0;
    let mut filled = from;
    'bytes: while at < piece.len() && !is_ended(held) {
        let fours = fours_at(held, piece, at, out, filled);
        at += 4 * fours;
        filled += 3 * fours;
        if at < piece.len() {
            (held, filled) = byte_at(held, piece, at, out, filled);
            at += 1;
        }
    }
    (held, filled)
}
