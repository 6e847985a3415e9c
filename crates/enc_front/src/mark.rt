//! A byte order mark at the front of a stream, byte by byte (Encoding Standard, section 6).
ghost use Rattle.std.specs.Prelude.{◌≡◌, ◌≤◌, nat_eq, if◌then◌else◌, length};
ghost use Rattle.enc_front.specs.declared.mark.Look.TheVariants as look;
ghost use Rattle.enc_front.specs.Start.{part_bytes, bytes_at, next_byte, LooksAt};

use crate::encoding::Encoding;

// A part of a byte order mark that isn't the whole mark.
#[derive(Clone, Copy, Debug, PartialEq, Eq)]
pub(crate) enum MarkPart {
    // EF, of UTF-8's.
    Ef,
    // EF BB, of UTF-8's.
    EfBb,
    // FE, of UTF-16BE's.
    Fe,
    // FF, of UTF-16LE's.
    Ff,
}

// Where a decoder is with the mark at the front of its stream.
#[derive(Clone, Copy, Debug, PartialEq, Eq)]
pub(crate) enum Start {
    // Nothing was read, and any mark is removed.
    Any,
    // Nothing was read, and the mark of the decoder's encoding is removed.
    Own,
    // Part of a mark was read that is removed if its rest follows.
    Seen(MarkPart),
    // The start is over.
    Over,
}

// What the next byte makes of what was read.
#[derive(Clone, Copy, Debug, PartialEq, Eq)]
pub(crate) enum Look {
    // A part of a mark that is removed if its rest follows.
    Part(MarkPart),
    // The mark of this encoding, whole.
    Mark(Encoding),
    // No mark that is removed begins like that.
    Other,
}

impl Start {
    // What the next byte makes of what was read.
    pub(crate) fn look_at(self, encoding: Encoding, byte: u8) -> Look
        ensures { LooksAt self encoding byte result }
    {
        match self {
            Start::Any => first_of_any(encoding, byte),
            Start::Own => first_of_own(encoding, byte),
            Start::Seen(part) => next_of(part, encoding, byte),
            Start::Over => Look::Other,
        }
    }

    // The bytes of a mark that were read.
    pub(crate) fn bytes(self) -> &'static [u8]
        ensures bytes { result.now ≡ bytes_at self }
        ensures few { length result.now ≤ 2 }
    {
        match self {
            Start::Any | Start::Own | Start::Over => b"",
            Start::Seen(part) => part.bytes(),
        }
    }
}

impl MarkPart {
    // Its bytes.
    fn bytes(self) -> &'static [u8]
        ensures bytes { result.now ≡ part_bytes self }
        ensures few { length result.now ≤ 2 }
    {
        match self {
            MarkPart::Ef => b"\xEF",
            MarkPart::EfBb => b"\xEF\xBB",
            MarkPart::Fe => b"\xFE",
            MarkPart::Ff => b"\xFF",
        }
    }

    // The mark's byte behind it.
    fn next_byte(self) -> u8
        ensures { result ≡ next_byte self }
    {
        match self {
            MarkPart::Ef => 0xBB,
            MarkPart::EfBb => 0xBF,
            MarkPart::Fe => 0xFF,
            MarkPart::Ff => 0xFE,
        }
    }
}

// What a first byte is of any mark.
fn first_of_any(encoding: Encoding, byte: u8) -> Look
    ensures { LooksAt Start.Any encoding byte result }
{
    let _ = encoding;
    if byte == 0xEF {
        Look::Part(MarkPart::Ef)
    } else if byte == 0xFE {
        Look::Part(MarkPart::Fe)
    } else if byte == 0xFF {
        Look::Part(MarkPart::Ff)
    } else {
        Look::Other
    }
}

// What a first byte is of the encoding's mark.
fn first_of_own(encoding: Encoding, byte: u8) -> Look
    ensures { LooksAt Start.Own encoding byte result }
{
    match encoding {
        Encoding::Utf8 => first_is(MarkPart::Ef, 0xEF, byte),
        Encoding::Utf16Be => first_is(MarkPart::Fe, 0xFE, byte),
        Encoding::Utf16Le => first_is(MarkPart::Ff, 0xFF, byte),
        _ => Look::Other,
    }
}

// The part, where the byte is this one.
fn first_is(part: MarkPart, first: u8, byte: u8) -> Look
    ensures { result ≡ (if nat_eq first byte then look.Part part else look.Other) }
{
    if first == byte {
        Look::Part(part)
    } else {
        Look::Other
    }
}

// What the byte behind a part of a mark makes of it.
fn next_of(part: MarkPart, encoding: Encoding, byte: u8) -> Look
    ensures { LooksAt (Start.Seen part) encoding byte result }
{
    let _ = encoding;
    if byte != part.next_byte() {
        return Look::Other;
    }
    match part {
        MarkPart::Ef => Look::Part(MarkPart::EfBb),
        MarkPart::EfBb => Look::Mark(Encoding::Utf8),
        MarkPart::Fe => Look::Mark(Encoding::Utf16Be),
        MarkPart::Ff => Look::Mark(Encoding::Utf16Le),
    }
}
