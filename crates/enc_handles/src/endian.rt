//! The order of the two bytes of a code unit.
ghost use Rattle.std.specs.Prelude.{Bool, true, false};

/// The order of the two bytes of a code unit.
pub trait Endian {
    /// Whether the more significant byte comes first.
    ghost OPPOSITE_ENDIAN: { Bool };

    /// Whether the order is the opposite of the machine's, which is little-endian: true for
    /// big-endian.
    const OPPOSITE_ENDIAN: bool;
}

/// The more significant byte comes first.
pub struct BigEndian;

impl Endian for BigEndian {
    ghost OPPOSITE_ENDIAN = { true };

    const OPPOSITE_ENDIAN: bool = true;
}

/// The less significant byte comes first.
pub struct LittleEndian;

impl Endian for LittleEndian {
    ghost OPPOSITE_ENDIAN = { false };

    const OPPOSITE_ENDIAN: bool = false;
}
