//! Entries: the UTF-8 of a scalar up to U+FFFF and how many bytes that are, in one number.
ghost use Rattle.std.specs.Prelude.{◌≡◌};
ghost use Rattle.enc_handles.specs.Entries.{entry_of};

/// The entry of a number up to FFFF as a scalar: its UTF-8 in the low three bytes, the first the
/// lowest, and how many bytes that are in the high one.
pub fn entry_of(number: u16) -> u32
    ensures { result ≡ entry_of number }
{
    let code = u32::from(number);
    if code < 0x80 {
        return code + 0x100_0000;
    }
    let last = 0x80 + code % 0x40;
    if code < 0x800 {
        return 0xC0 + code / 0x40 + 0x100 * last + 0x200_0000;
    }
    let middle = 0x80 + code / 0x40 % 0x40;
    0xE0 + code / 0x1000 + 0x100 * middle + 0x1_0000 * last + 0x300_0000
}
