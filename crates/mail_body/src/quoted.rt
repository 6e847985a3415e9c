//! Quoted-printable text in pieces of any length, of which nothing is refused but a long run of
//! blanks (RFC 2045, section 6.7).

ghost use Rattle.std.specs.Prelude.{◌≡◌, ◌+◌, ◌*◌, ◌≤◌, ◌<◌, ◌==◌, ℕ, List, [], ◌∷◌, ◌++◌, None};
ghost use Rattle.std.specs.Prelude.{length, take, true, false, IfOk, IfSome, MatchOption};
ghost use Rattle.qp.specs.Line.{escape_value};
ghost use Rattle.qp.specs.Robust.{robust};
ghost use Rattle.qp.specs.Text.{is_text_octet, is_line_padding, kept};
ghost use Rattle.mail_body.specs.Quoted.{is_plain, has_plain, IsHeld, GoesOn, DecodesQuoted, begun_bytes};
ghost use Rattle.mail_body.specs.Quoted.{has_blank_run, blanks_needed};

mod bytes;

use crate::quoted::bytes::{is_blank, is_text, put_escape};
use crate::writing::put;
use std::alloc::{AllocError, Global};

/// How many tabs, spaces and CRs in a row are held at most, since they may stand at a line's end.
pub const MOST_BLANKS: usize = 4096;

/// An escape that is begun: nothing of it, `=`, or `=` and the byte behind it.
#[derive(Clone, Copy, Debug)]
pub enum Begun {
    NoEscape,
    Equals,
    OneByte(u8),
}

/// What is kept of a line whose value depends on what follows: an escape that is begun, and blanks.
#[derive(Drop)]
pub struct HeldLine {
    begun: Begun,
    blanks: Vec<u8>,
    count: usize,
    ghost held: { IsHeld begun count blanks.items },
}

// Writes the bytes of an escape that is begun.
fn put_begun(begun: Begun, out: &mut [u8], at: usize) -> usize
    requires { at + length (begun_bytes begun) ≤ length out.old }
    ensures written { take result out.new ≡ take at out.old ++ begun_bytes begun }
    ensures end { result ≡ at + length (begun_bytes begun) }
    ensures len { length out.new ≡ length out.old }
{
    match begun {
        Begun::NoEscape => at,
        Begun::Equals => put(out, at, b"="),
        Begun::OneByte(byte) => put(out, at, &[b'=', byte]),
    }
}

// How many blanks behind it make it stand as it is.
fn blanks_needed(begun: Begun) -> usize
    ensures { result ≡ blanks_needed begun }
{
    match begun {
        Begun::NoEscape => 0,
        Begun::Equals => 2,
        Begun::OneByte(_) => 1,
    }
}

impl HeldLine {
    ghost use Rattle.mail_body.specs.HeldLine.{held_line};

    /// What is kept at the start of a body. Fails only for want of memory.
    pub fn new(alloc: Global) -> Result<HeldLine, AllocError>
        ensures { IfOk result (λ line. held_line line ≡ []) }
    {
        let blanks = vec![in alloc; 0; MOST_BLANKS]?;
        Ok(HeldLine {
            begun: Begun::NoEscape,
            blanks,
            count: 0,
        })
    }

    // Keeps this escape alone.
    fn keep(&mut self, begun: Begun)
        requires { has_plain begun ≡ true }
        ensures { held_line self.new ≡ begun_bytes begun }
    {
        self.begun = begun;
        self.count = 0;
    }

    // Keeps one more blank; false where no more are held.
    fn hold(&mut self, byte: u8) -> bool
        requires { is_line_padding byte ≡ true }
        ensures held { result ≡ true → held_line self.new ≡ held_line self.old ++ byte ∷ [] }
        ensures full { result ≡ false → self.old.count ≡ length self.old.blanks.items }
    {
        if self.count >= self.blanks.len() {
            return false;
        }
        self.blanks[self.count] = byte;
        self.count += 1;
        true
    }

    // Takes a byte where nothing is kept.
    fn begin(&mut self, byte: u8, out: &mut [u8], at: usize) -> usize
        requires plain { is_plain byte ≡ true }
        requires none { held_line self.old ≡ [] }
        requires room { at + 1 ≤ length out.old }
        ensures goes_on { GoesOn [] byte (held_line self.new)
            (take at out.old) (take result out.new) }
        ensures end { result + length (held_line self.new) ≤ at + 1 }
        ensures len { length out.new ≡ length out.old }
    {
        if byte == b'=' {
            self.keep(Begun::Equals);
            return at;
        }
        put(out, at, &[byte])
    }

    // Takes a byte where no blanks are kept.
    fn go_on_at_once(&mut self, byte: u8, out: &mut [u8], at: usize) -> usize
        requires plain { is_plain byte ≡ true }
        requires none { self.old.count ≡ 0 }
        requires room { at + length (held_line self.old) + 1 ≤ length out.old }
        ensures goes_on { GoesOn (held_line self.old) byte (held_line self.new)
            (take at out.old) (take result out.new) }
        ensures end { result + length (held_line self.new) ≤ at + length (held_line self.old) + 1 }
        ensures len { length out.new ≡ length out.old }
    {
        match self.begun {
            Begun::NoEscape => self.begin(byte, out, at),
            Begun::Equals => {
                self.keep(Begun::OneByte(byte));
                at
            }
            Begun::OneByte(first) => {
                self.keep(Begun::NoEscape);
                put_escape(first, byte, out, at)
            }
        }
    }

    // Writes what is kept, as it is.
    fn put_held(&mut self, out: &mut [u8], at: usize) -> usize
        requires { at + length (held_line self.old) ≤ length out.old }
        ensures written { take result out.new ≡ take at out.old ++ held_line self.old }
        ensures end { result ≡ at + length (held_line self.old) }
        ensures none { held_line self.new ≡ [] }
        ensures len { length out.new ≡ length out.old }
    {
        let blanks = put_begun(self.begun, out, at);
        let end = put(out, blanks, &self.blanks[..self.count]);
        self.keep(Begun::NoEscape);
        end
    }

    // Takes a byte that is neither a blank nor LF.
    fn go_on(&mut self, byte: u8, out: &mut [u8], at: usize) -> usize
        requires plain { is_plain byte ≡ true }
        requires room { at + length (held_line self.old) + 1 ≤ length out.old }
        ensures goes_on { GoesOn (held_line self.old) byte (held_line self.new)
            (take at out.old) (take result out.new) }
        ensures end { result + length (held_line self.new) ≤ at + length (held_line self.old) + 1 }
        ensures len { length out.new ≡ length out.old }
    {
        if self.count == 0 {
            return self.go_on_at_once(byte, out, at);
        }
        let is_whole = self.count < blanks_needed(self.begun);
        let end = self.put_held(out, at);
        if is_whole {
            return put(out, end, &[byte]);
        }
        self.begin(byte, out, end)
    }

    // Ends the line at an LF.
    fn end_line(&mut self, out: &mut [u8], at: usize) -> usize
        requires { at + length (held_line self.old) + 2 ≤ length out.old }
        ensures goes_on { GoesOn (held_line self.old) 10 (held_line self.new)
            (take at out.old) (take result out.new) }
        ensures end { result + length (held_line self.new) ≤ at + length (held_line self.old) + 2 }
        ensures len { length out.new ≡ length out.old }
    {
        let begun = self.begun;
        self.keep(Begun::NoEscape);
        match begun {
            Begun::NoEscape => put(out, at, b"\r\n"),
            Begun::Equals => at,
            Begun::OneByte(byte) => put(out, at, &[b'=', byte, b'\r', b'\n']),
        }
    }

    // Takes the next byte, whatever it is; none where it is one blank too many.
    fn with_byte(&mut self, byte: u8, out: &mut [u8], at: usize) -> Option<usize>
        requires room { at + length (held_line self.old) + 2 ≤ length out.old }
        ensures decodes { IfSome result (λ end. DecodesQuoted (held_line self.old) (byte ∷ [])
            (held_line self.new) (take at out.old) (take end out.new)) }
        ensures end { IfSome result (λ end.
            end + length (held_line self.new) ≤ at + length (held_line self.old) + 2) }
        ensures none { result ≡ None → (rest : List ℕ)
            → has_blank_run (held_line self.old ++ kept (byte ∷ rest)) ≡ true }
        ensures len { length out.new ≡ length out.old }
    {
        if !is_text(byte) {
            return Some(at);
        }
        if is_blank(byte) {
            return if self.hold(byte) { Some(at) } else { None };
        }
        if byte == b'\n' {
            return Some(self.end_line(out, at));
        }
        Some(self.go_on(byte, out, at))
    }

    /// Decodes a piece to the front of `out`, and gives how many bytes it wrote; none where too
    /// many blanks stand in a row.
    pub fn decode(&mut self, piece: &[u8], out: &mut [u8]) -> Option<usize>
        requires room { length (held_line self.old) + 2 * length piece.now ≤ length out.old }
        ensures decodes { IfSome result (λ end. DecodesQuoted (held_line self.old) piece.now
            (held_line self.new) [] (take end out.new)) }
        ensures within { IfSome result (λ end. end ≤ length out.new) }
        ensures count { IfSome result (λ end.
            end + length (held_line self.new) ≤ length (held_line self.old) + 2 * length piece.now) }
        ensures few { length (held_line self.new) ≤ MOST_BLANKS + 2 }
        ensures none { result ≡ None
            → has_blank_run (held_line self.old ++ kept piece.now) ≡ true }
        ensures some { IfSome result (λ _.
            has_blank_run (held_line self.old ++ kept piece.now) ≡ false) }
        ensures len { length out.new ≡ length out.old }
    {
        let mut filled = 0;
        for byte in piece {
            match self.with_byte(*byte, out, filled) {
                Some(end) => filled = end,
                None => return None,
            }
        }
        Some(filled)
    }

    /// Writes what is kept at the end of the text to the front of `out`, and gives how many bytes
    /// these are.
    pub fn finish(&mut self, out: &mut [u8]) -> usize
        requires { 2 ≤ length out.old }
        ensures value { take result out.new ≡ robust (held_line self.old) }
        ensures within { result ≤ length out.new }
        ensures count { result ≤ length (held_line self.old) }
        ensures none { held_line self.new ≡ [] }
        ensures len { length out.new ≡ length out.old }
    {
        let begun = self.begun;
        self.keep(Begun::NoEscape);
        match begun {
            Begun::NoEscape => 0,
            Begun::Equals => 0,
            Begun::OneByte(byte) => put(out, 0, &[b'=', byte]),
        }
    }
}
