//! What a code is: how the unit at the front of bytes is found.
ghost use Rattle.std.specs.Prelude.{◌<◌, ◌≤◌, List, ℕ, length, take, IfSome};
ghost use Rattle.enc_drivers.specs.declared.unit.Mode.{Mode};
ghost use Rattle.enc_drivers.specs.Units.{UnitAt, IsCode};

use crate::{Item, Mode};

/// What the front of bytes tells of the unit there.
#[derive(Clone, Copy, Debug, PartialEq, Eq)]
pub enum Step {
    /// Whatever follows, this unit stands at the front.
    Unit {
        /// What it stands for.
        item: Item,
        /// How many bytes it has.
        length: u8,
        /// The mode of what follows.
        next: Mode,
    },
    /// It depends on what follows.
    More,
}

/// What a driver may copy in one go while it holds nothing.
#[derive(Clone, Copy, Debug, PartialEq, Eq)]
pub enum Bulk {
    /// Nothing.
    None,
    /// ASCII: a byte below 80 is in every mode a unit of itself that keeps the mode.
    Ascii,
    /// UTF-8: the units are those of UTF-8.
    Utf8,
    /// UTF-16: the units are those of UTF-16LE.
    Utf16Le,
    /// UTF-16: the units are those of UTF-16BE.
    Utf16Be,
}

/// How the bytes of an encoding are read, one unit after another.
pub trait Code {
    ghost use Rattle.enc_drivers.specs.Bulk.{MayCopy, BeginsWithScalar, IsPairEntry, ReadsEntries};
    ghost use Rattle.enc_drivers.specs.Steps.{Steps};

    /// The unit at the front of a nonempty rest of bytes, in a mode.
    ghost unit: { Self → Mode → List ℕ → UnitAt };

    /// The unit at the front, where it is the same whatever follows the one to four bytes of
    /// `front`; with `last` nothing follows. `More` exactly where `last` is false and what may
    /// follow decides the unit.
    fn step(&self, mode: Mode, front: &[u8], last: bool) -> Step
        requires some { 0 < length front.now }
        requires few { length front.now ≤ 4 }
        ensures { Steps (unit self.now) mode front.now last result };

    /// What a driver may copy. `None` is right for every code.
    fn bulk(&self) -> Bulk
        ensures { MayCopy (unit self.now) result }
    {
        Bulk::None
    }

    /// The scalar at the front of bytes, and how many of them it has, where these are so in every
    /// mode and whatever follows. `None` is right for every code, and costs a driver time alone.
    fn scalar(&self, bytes: &[u8]) -> Option<(char, usize)>
        requires { 0 < length bytes.now }
        ensures { IfSome result (λ found. BeginsWithScalar (unit self.now) bytes.now found.0
            found.1) }
    {
        let _ = bytes;
        None
    }

    /// The entry (`enc_handles::entry::entry_of`) of the scalar that two bytes are in every mode
    /// and whatever follows, or 0 where that isn't told. 0 is right for every code.
    fn entry(&self, first: u8, second: u8) -> u32
        ensures { 0 < result → IsPairEntry (unit self.now) first second result }
    {
        let _ = (first, second);
        0
    }

    /// The entries of the scalars of the first eight bytes, where each of these is a unit in every
    /// mode. `None` is right for every code.
    fn block(&self, bytes: &[u8]) -> Option<[u32; 8]>
        requires { 8 ≤ length bytes.now }
        ensures { IfSome result (λ entries. ReadsEntries (unit self.now) (take 8 bytes.now)
            entries) }
    {
        let _ = bytes;
        None
    }

    /// A unit has one to four bytes and at most those that are left, the first four bytes decide
    /// it, its text has at most three bytes for each of its bytes, and its scalars are scalars,
    /// both of two from U+0080 to U+07FF.
    ghost laws: { (code : Self) → IsCode (unit code) };
}
