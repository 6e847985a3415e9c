//! Where bytes go: the trait of what takes bytes, which may fail, and counts calls and faults.
ghost use Rattle.std.specs.Prelude.{◌≡◌, ℕ, ◌<◌, ◌≤◌, List, IsNone, IfOk, OnOk, OnErr, length};
ghost use Rattle.std.specs.declared.option.Option.{Option};
ghost use Rattle.std.specs.Io.{WritesAtMost};
ghost use Rattle.std.specs.Io.KnownBytes.{WriteAppends};
ghost use Rattle.enc_io.specs.Faults.{Rose, count_after};

use enc_io::Failed;

/// Where bytes go.
///
/// A sink has the bytes taken, where it tells that, a count of faults that never falls, and a
/// number of calls. Whether it tells does not change.
pub trait Sink {
    /// The bytes taken, or nothing where the sink does not tell.
    ghost taken: { Self → Option (List ℕ) };

    /// How many writes failed, which stands still at `u64::MAX`.
    ghost faults: { Self → ℕ };

    /// How many calls there were, which stands still at `u64::MAX`.
    ghost calls: { Self → ℕ };

    /// Appends the first bytes of `piece`, and answers how many: at least one of a nonempty piece.
    ///
    /// # Errors
    ///
    /// `Failed` appends nothing, and the count of faults rose or stands at its last value.
    fn write(&mut self, piece: &[u8]) -> Result<usize, Failed>
        ensures within { WritesAtMost result piece.now }
        ensures appended { WriteAppends (taken self.old) (taken self.new) result piece.now }
        ensures some { IfOk result (λ n. 0 < length piece.now → 1 ≤ n) }
        ensures silent { IsNone (taken self.old) → IsNone (taken self.new) }
        ensures calls { calls self.new ≡ count_after (calls self.old) }
        ensures counted { OnOk result (faults self.new ≡ faults self.old) }
        ensures failed { OnErr result (Rose (faults self.old) (faults self.new)) }
        ensures never_falls { faults self.old ≤ faults self.new };
}
