//! Fours of letters without other bytes between them.

ghost use Rattle.std.specs.Prelude.{◌≡◌, ◌+◌, ◌*◌, ◌≤◌, length, true, false};
ghost use Rattle.mail_body.specs.HeldLetters.{Goes};
ghost use Rattle.mail_body.specs.declared.letters.held.HeldLetters.TheVariants.{NoLetter};

use crate::letters::alphabet::{LETTERS, value_at};

// Decodes four letters, where four letters stand.
#[inline(always)]
fn decode_four(piece: &[u8], at: usize, out: &mut [u8], filled: usize) -> bool
    requires in_piece { at + 4 ≤ length piece.now }
    requires in_out { filled + 3 ≤ length out.old }
    ensures goes { result ≡ true →
        Goes piece.now NoLetter at out.old filled NoLetter (at + 4) out.new (filled + 3) }
    ensures stays { result ≡ false → out.new ≡ out.old }
{
    let a = value_at(piece[at]);
    let b = value_at(piece[at + 1]);
    let c = value_at(piece[at + 2]);
    let d = value_at(piece[at + 3]);
    if (a | b | c | d) >= LETTERS {
        return false;
    }
    out[filled] = a * 4 + b / 16;
    out[filled + 1] = b % 16 * 16 + c / 4;
    out[filled + 2] = c % 4 * 64 + d;
    true
}

/// Decodes fours of letters up to the first four that aren't, or the end of either slice, and
/// gives how many these are.
pub fn decode_fours(piece: &[u8], at: usize, out: &mut [u8], filled: usize) -> usize
    requires in_piece { at ≤ length piece.now }
    requires in_out { filled ≤ length out.old }
    ensures in_piece { at + 4 * result ≤ length piece.now }
    ensures in_out { filled + 3 * result ≤ length out.old }
    ensures goes { Goes piece.now NoLetter at out.old filled
        NoLetter (at + 4 * result) out.new (filled + 3 * result) }
{
    let most = ((piece.len() - at) / 4).min((out.len() - filled) / 3);
    'fours: for four in 0..most {
        if !decode_four(piece, at + 4 * four, out, filled + 3 * four) {
            return four;
        }
    }
    most
}
