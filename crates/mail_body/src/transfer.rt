//! The transfer encodings of mail bodies, in pieces of any length (RFC 2045, section 6.1).

ghost use Rattle.std.specs.Prelude.{◌≡◌, ℕ, ◌+◌, ◌*◌, ◌≤◌, List, [], ◌++◌, None, length, take, true};
ghost use Rattle.std.specs.Prelude.{IfOk, IfSome};
ghost use Rattle.qp.specs.Text.{kept};
ghost use Rattle.mail_body.specs.Quoted.{has_blank_run};
ghost use Rattle.mail_body.specs.Transfer.{Carry, Steps, fresh_carry, transferred};

#[cfg(test)]
mod tests;

use crate::letters::decode_piece;
use crate::letters::held::{HeldLetters, last_octets, put as put_octets};
use crate::quoted::{HeldLine, MOST_BLANKS};
use crate::writing::put;
use std::alloc::{AllocError, Global};

/// How a body is encoded for its transfer: not at all ("7bit", "8bit" and "binary"), as
/// quoted-printable text, or in base64.
#[derive(Clone, Copy, Debug, PartialEq, Eq)]
pub enum Transfer {
    Plain,
    Quoted,
    Base64,
}

/// How many bytes are kept between pieces at most: `=`, a byte, and blanks.
pub const MOST_KEPT: usize = MOST_BLANKS + 2;

/// A decoder of a transfer encoding, with what it keeps between pieces.
#[derive(Drop)]
pub enum TransferDecoder {
    Plain,
    Quoted(HeldLine),
    Base64(HeldLetters),
}

impl TransferDecoder {
    ghost use Rattle.mail_body.specs.TransferDecoder.{carry_of};
    ghost use Rattle.mail_body.specs.declared.transfer.Transfer.TheVariants.{Quoted};

    /// A decoder at the start of a body. Fails only for want of memory.
    pub fn new(alloc: Global, kind: Transfer) -> Result<TransferDecoder, AllocError>
        ensures { IfOk result (λ decoder. carry_of decoder ≡ fresh_carry kind) }
    {
        match kind {
            Transfer::Plain => Ok(TransferDecoder::Plain),
            Transfer::Quoted => {
                let line = HeldLine::new(alloc)?;
                Ok(TransferDecoder::Quoted(line))
            }
            Transfer::Base64 => Ok(TransferDecoder::Base64(HeldLetters::NoLetter)),
        }
    }

    /// Decodes a piece to the front of `octets`, and gives how many it wrote; none where too many
    /// blanks stand in a row in quoted-printable text.
    pub fn step(&mut self, piece: &[u8], octets: &mut [u8]) -> Option<usize>
        requires room { MOST_KEPT + 2 * length piece.now + 9 ≤ length octets.old }
        ensures steps { IfSome result (λ end.
            Steps (carry_of self.old) (carry_of self.new) piece.now (take end octets.new)) }
        ensures within { IfSome result (λ end. end ≤ length octets.new) }
        ensures few { length (carry_of self.new).kept ≤ MOST_KEPT }
        ensures quoted { result ≡ None → (carry_of self.old).kind ≡ Quoted }
        ensures none { result ≡ None
            → has_blank_run ((carry_of self.old).kept ++ kept piece.now) ≡ true }
        ensures len { length octets.new ≡ length octets.old }
    {
        match self {
            TransferDecoder::Plain => Some(put(octets, 0, piece)),
            TransferDecoder::Quoted(line) => line.decode(piece, octets),
            TransferDecoder::Base64(held) => {
                let (next, end) = decode_piece(*held, piece, octets, 0);
                *held = next;
                Some(end)
            }
        }
    }

    /// Writes the octets of what is kept at the end of the body to the front of `octets`, and gives
    /// how many these are.
    pub fn finish(&mut self, octets: &mut [u8]) -> usize
        requires { 3 ≤ length octets.old }
        ensures value { take result octets.new ≡ transferred (carry_of self.old) [] }
        ensures within { result ≤ length octets.new }
        ensures none { (carry_of self.new).kept ≡ [] }
        ensures kind { (carry_of self.new).kind ≡ (carry_of self.old).kind }
        ensures count { result ≤ length (carry_of self.old).kept }
        ensures len { length octets.new ≡ length octets.old }
    {
        match self {
            TransferDecoder::Plain => 0,
            TransferDecoder::Quoted(line) => line.finish(octets),
            TransferDecoder::Base64(held) => {
                let end = put_octets(last_octets(*held), octets, 0);
                *held = HeldLetters::NoLetter;
                end
            }
        }
    }
}
