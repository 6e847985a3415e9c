//! A scalar by what an encoder asks of it: ASCII, up to U+FFFF, or above.
ghost use Rattle.std.specs.Prelude.{◌≡◌};
ghost use Rattle.enc_handles.specs.Unicode.{unicode_of, non_ascii_of};

/// A scalar past ASCII.
#[derive(Clone, Copy, Debug, PartialEq, Eq)]
pub enum NonAscii {
    /// A scalar from U+0080 to U+FFFF.
    BmpExclAscii(u16),
    /// A scalar above U+FFFF.
    Astral(char),
}

/// A scalar.
#[derive(Clone, Copy, Debug, PartialEq, Eq)]
pub enum Unicode {
    /// A scalar below U+0080.
    Ascii(u8),
    /// Any other.
    NonAscii(NonAscii),
}

// A scalar past ASCII by its variant.
pub(crate) fn non_ascii_of(scalar: char) -> NonAscii
    ensures { result ≡ non_ascii_of scalar }
{
    let code = scalar as u32;
    if code < 0x1_0000 {
        NonAscii::BmpExclAscii(code as u16)
    } else {
        NonAscii::Astral(scalar)
    }
}

// A scalar by its variant.
pub(crate) fn unicode_of(scalar: char) -> Unicode
    ensures { result ≡ unicode_of scalar }
{
    let code = scalar as u32;
    if code < 0x80 {
        Unicode::Ascii(code as u8)
    } else {
        Unicode::NonAscii(non_ascii_of(scalar))
    }
}
