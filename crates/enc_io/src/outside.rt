//! What stands outside: where bytes come from.
ghost use Rattle.std.specs.Prelude.{◌≡◌, ℕ, ◌≤◌, List, IsNone, OnOk, OnErr};
ghost use Rattle.std.specs.declared.option.Option.{Option};
ghost use Rattle.std.specs.Io.{ReadsAtMost};
ghost use Rattle.std.specs.Io.KnownBytes.{ReadConsumes};
ghost use Rattle.enc_io.specs.Faults.{Rose, count_after};

use std::error::Error;
use std::fmt;

/// A call on the outside failed.
#[derive(Clone, Copy, Debug, PartialEq, Eq)]
pub struct Failed;

impl fmt::Display for Failed {
    fn fmt<W: fmt::Write>(&self, f: &mut fmt::Formatter<W>) -> fmt::Result {
        write!(f, "a call on a device failed")
    }
}

impl Error for Failed {}

/// Where bytes come from.
///
/// A source has a list of the bytes left, where it tells that, a count of faults that never falls,
/// and a number of calls. Whether it tells does not change.
pub trait Source {
    /// The bytes left, or nothing where the source does not tell.
    ghost left: { Self → Option (List ℕ) };

    /// How many reads failed, which stands still at `u64::MAX`.
    ghost faults: { Self → ℕ };

    /// How many reads there were, which stands still at `u64::MAX`.
    ghost calls: { Self → ℕ };

    /// Moves the first bytes left to the front of `buf`, and answers how many.
    ///
    /// `Ok(0)` for a nonempty `buf` comes only where nothing is left.
    ///
    /// # Errors
    ///
    /// `Failed` moves nothing, and the count of faults rose or stands at its last value.
    fn read(&mut self, buf: &mut [u8]) -> Result<usize, Failed>
        ensures within { ReadsAtMost result buf.new }
        ensures moved { ReadConsumes (left self.old) (left self.new) result buf.new }
        ensures silent { IsNone (left self.old) → IsNone (left self.new) }
        ensures calls { calls self.new ≡ count_after (calls self.old) }
        ensures counted { OnOk result (faults self.new ≡ faults self.old) }
        ensures failed { OnErr result (Rose (faults self.old) (faults self.new)) }
        ensures never_falls { faults self.old ≤ faults self.new };
}
