//! Rooms: the leave to write to a destination without a further check.
ghost use Rattle.std.specs.Prelude.{◌≡◌, ◌+◌, ◌<◌, ◌≤◌, ◌++◌, length, IsTrue};
ghost use Rattle.std.specs.Char.{IsScalar};
ghost use Rattle.enc_handles.specs.Writing.{after_writing};
ghost use Rattle.enc_handles.specs.Room.{bmp_destination, astral_destination};
ghost use Rattle.enc_handles.specs.Utf16.{is_lead, is_trail, pair_scalar};

use crate::destination::{Destination, Utf8Destination, Utf16Destination};
use crate::utf16::scalar_of_pair;

#[cfg(test)]
mod tests;

/// The leave to write a scalar up to U+FFFF.
#[derive(Drop)]
pub struct BmpRoom<'a, D> {
    pub(crate) dest: &'a mut D,
}

/// The leave to write any scalar, or two scalars below U+0800.
#[derive(Drop)]
pub struct AstralRoom<'a, D> {
    pub(crate) dest: &'a mut D,
}

/// Room for a scalar up to U+FFFF in UTF-8.
pub type Utf8BmpHandle<'a, 'b> = BmpRoom<'a, Utf8Destination<'b>>;

/// Room for any scalar in UTF-8.
pub type Utf8AstralHandle<'a, 'b> = AstralRoom<'a, Utf8Destination<'b>>;

/// Room for a scalar up to U+FFFF in UTF-16.
pub type Utf16BmpHandle<'a, 'b> = BmpRoom<'a, Utf16Destination<'b>>;

/// Room for any scalar in UTF-16.
pub type Utf16AstralHandle<'a, 'b> = AstralRoom<'a, Utf16Destination<'b>>;

impl<'a, D: Destination> BmpRoom<'a, D> {
    /// How many elements are written.
    pub fn written(&self) -> usize
        ensures { result ≡ length (D.state (bmp_destination self.now).now).text }
    {
        self.dest.written()
    }

    /// Writes a scalar below U+0080.
    pub fn write_ascii(self, ascii: u8) -> &'a mut D
        requires value { ascii < 0x80 }
        requires room { D.bmp_room ≤ (D.state (bmp_destination self).now).free }
        ensures same_reference { result.ghost_name ≡ (bmp_destination self.entry).ghost_name }
        ensures text { D.state result.now ≡ after_writing (D.state (bmp_destination self.entry).now)
            (D.encode ascii) }
    {
        self.write_bmp(u16::from(ascii))
    }

    /// Writes a scalar up to U+FFFF.
    pub fn write_bmp(self, bmp: u16) -> &'a mut D
        requires value { IsScalar bmp }
        requires room { D.bmp_room ≤ (D.state (bmp_destination self).now).free }
        ensures same_reference { result.ghost_name ≡ (bmp_destination self.entry).ghost_name }
        ensures text { D.state result.now ≡ after_writing (D.state (bmp_destination self.entry).now)
            (D.encode bmp) }
    {
        let dest = self.dest;
        dest.put_bmp(bmp);
        dest
    }

    /// Writes a scalar from U+0080 to U+FFFF.
    pub fn write_bmp_excl_ascii(self, bmp: u16) -> &'a mut D
        requires value { 0x80 ≤ bmp }
        requires scalar { IsScalar bmp }
        requires room { D.bmp_room ≤ (D.state (bmp_destination self).now).free }
        ensures same_reference { result.ghost_name ≡ (bmp_destination self.entry).ghost_name }
        ensures text { D.state result.now ≡ after_writing (D.state (bmp_destination self.entry).now)
            (D.encode bmp) }
    {
        self.write_bmp(bmp)
    }

    /// Writes a scalar from U+0080 to U+07FF.
    pub fn write_mid_bmp(self, bmp: u16) -> &'a mut D
        requires low { 0x80 ≤ bmp }
        requires high { bmp < 0x800 }
        requires room { D.bmp_room ≤ (D.state (bmp_destination self).now).free }
        ensures same_reference { result.ghost_name ≡ (bmp_destination self.entry).ghost_name }
        ensures text { D.state result.now ≡ after_writing (D.state (bmp_destination self.entry).now)
            (D.encode bmp) }
    {
        self.write_bmp(bmp)
    }

    /// Writes a scalar from U+0800 to U+FFFF.
    pub fn write_upper_bmp(self, bmp: u16) -> &'a mut D
        requires value { 0x800 ≤ bmp }
        requires scalar { IsScalar bmp }
        requires room { D.bmp_room ≤ (D.state (bmp_destination self).now).free }
        ensures same_reference { result.ghost_name ≡ (bmp_destination self.entry).ghost_name }
        ensures text { D.state result.now ≡ after_writing (D.state (bmp_destination self.entry).now)
            (D.encode bmp) }
    {
        self.write_bmp(bmp)
    }

    /// The destination as it is.
    pub fn commit(self) -> &'a mut D
        ensures same_reference { result.ghost_name ≡ (bmp_destination self.entry).ghost_name }
        ensures same_destination { result.now ≡ (bmp_destination self.entry).now }
    {
        self.dest
    }
}

impl<'a, D: Destination> AstralRoom<'a, D> {
    /// How many elements are written.
    pub fn written(&self) -> usize
        ensures { result ≡ length (D.state (astral_destination self.now).now).text }
    {
        self.dest.written()
    }

    /// Writes a scalar below U+0080.
    pub fn write_ascii(self, ascii: u8) -> &'a mut D
        requires value { ascii < 0x80 }
        requires room { D.astral_room ≤ (D.state (astral_destination self).now).free }
        ensures same_reference { result.ghost_name ≡ (astral_destination self.entry).ghost_name }
        ensures text { D.state result.now ≡ after_writing
            (D.state (astral_destination self.entry).now) (D.encode ascii) }
    {
        self.write_bmp(u16::from(ascii))
    }

    /// Writes a scalar up to U+FFFF.
    pub fn write_bmp(self, bmp: u16) -> &'a mut D
        requires value { IsScalar bmp }
        requires room { D.astral_room ≤ (D.state (astral_destination self).now).free }
        ensures same_reference { result.ghost_name ≡ (astral_destination self.entry).ghost_name }
        ensures text { D.state result.now ≡ after_writing
            (D.state (astral_destination self.entry).now) (D.encode bmp) }
    {
        let dest = self.dest;
        dest.put_bmp(bmp);
        dest
    }

    /// Writes a scalar from U+0080 to U+FFFF.
    pub fn write_bmp_excl_ascii(self, bmp: u16) -> &'a mut D
        requires value { 0x80 ≤ bmp }
        requires scalar { IsScalar bmp }
        requires room { D.astral_room ≤ (D.state (astral_destination self).now).free }
        ensures same_reference { result.ghost_name ≡ (astral_destination self.entry).ghost_name }
        ensures text { D.state result.now ≡ after_writing
            (D.state (astral_destination self.entry).now) (D.encode bmp) }
    {
        self.write_bmp(bmp)
    }

    /// Writes a scalar from U+0800 to U+FFFF.
    pub fn write_upper_bmp(self, bmp: u16) -> &'a mut D
        requires value { 0x800 ≤ bmp }
        requires scalar { IsScalar bmp }
        requires room { D.astral_room ≤ (D.state (astral_destination self).now).free }
        ensures same_reference { result.ghost_name ≡ (astral_destination self.entry).ghost_name }
        ensures text { D.state result.now ≡ after_writing
            (D.state (astral_destination self.entry).now) (D.encode bmp) }
    {
        self.write_bmp(bmp)
    }

    /// Writes a scalar from U+10000 to U+10FFFF.
    pub fn write_astral(self, astral: u32) -> &'a mut D
        requires low { 0x1_0000 ≤ astral }
        requires high { astral ≤ 0x10_FFFF }
        requires room { D.astral_room ≤ (D.state (astral_destination self).now).free }
        ensures same_reference { result.ghost_name ≡ (astral_destination self.entry).ghost_name }
        ensures text { D.state result.now ≡ after_writing
            (D.state (astral_destination self.entry).now) (D.encode astral) }
    {
        let dest = self.dest;
        dest.put_astral(astral);
        dest
    }

    /// Writes the scalar of a pair of surrogates.
    pub fn write_surrogate_pair(self, high: u16, low: u16) -> &'a mut D
        requires lead { IsTrue (is_lead high) }
        requires trail { IsTrue (is_trail low) }
        requires room { D.astral_room ≤ (D.state (astral_destination self).now).free }
        ensures same_reference { result.ghost_name ≡ (astral_destination self.entry).ghost_name }
        ensures text { D.state result.now ≡ after_writing
            (D.state (astral_destination self.entry).now) (D.encode (pair_scalar high low)) }
    {
        self.write_astral(scalar_of_pair(high, low))
    }

    /// Writes two scalars from U+0080 to U+07FF, as Big5 has them for some pointers.
    pub fn write_big5_combination(self, combined: u16, combining: u16) -> &'a mut D
        requires combined_low { 0x80 ≤ combined }
        requires combined_high { combined < 0x800 }
        requires combining_low { 0x80 ≤ combining }
        requires combining_high { combining < 0x800 }
        requires room { D.astral_room ≤ (D.state (astral_destination self).now).free }
        ensures same_reference { result.ghost_name ≡ (astral_destination self.entry).ghost_name }
        ensures text { D.state result.now ≡ after_writing
            (after_writing (D.state (astral_destination self.entry).now) (D.encode combined))
            (D.encode combining) }
    {
        let dest = self.dest;
        dest.put_bmp(combined);
        dest.put_bmp(combining);
        dest
    }

    /// The destination as it is.
    pub fn commit(self) -> &'a mut D
        ensures same_reference { result.ghost_name ≡ (astral_destination self.entry).ghost_name }
        ensures same_destination { result.now ≡ (astral_destination self.entry).now }
    {
        self.dest
    }
}
