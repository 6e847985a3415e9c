//! Where files come from.
ghost use Rattle.std.specs.Prelude.{◌≡◌, ℕ, ◌≤◌, List, Some, IfSome, IfOk, OnOk, IsErrOf};
ghost use Rattle.std.specs.declared.option.Option.{Option};
ghost use Rattle.enc_io.specs.Faults.{Rose, count_after};
ghost use Rattle.unwrap.specs.Files.{file, IsShortFile, IsLongFile};

use std::alloc::{AllocError, Global};

// The most bytes of a file.
pub(crate) const MOST_BYTES: usize = 4_194_304;

/// Why a file could not be fetched.
#[derive(Clone, Copy, Debug, PartialEq, Eq)]
pub enum ShelfError {
    /// Want of memory.
    Memory,
    /// The shelf failed, or has no file of this name.
    Failed,
    /// The file has more than 4,194,304 bytes.
    TooLong,
}

impl From<AllocError> for ShelfError {
    ghost use Rattle.std.specs.Prelude.{◌≡◌};
    ghost use Rattle.unwrap.specs.declared.devices.shelf.ShelfError.TheVariants.{Memory};

    ghost from_gives = { λ _ e. e ≡ Memory };

    fn from(_error: AllocError) -> ShelfError {
        ShelfError::Memory
    }
}

/// Where files come from.
///
/// A shelf has a finite map from names to bytes, where it tells that, a count of faults that never
/// falls, and a number of calls, which stands still at `u64::MAX`. No call changes the map or
/// whether it is told.
pub trait Shelf {
    /// The files by their names, of which the first of a name counts; nothing where the shelf does
    /// not tell.
    ghost files: { Self → Option (List (List ℕ × List ℕ)) };

    /// How many calls failed, which stands still at `u64::MAX`.
    ghost faults: { Self → ℕ };

    /// How many calls there were, which stands still at `u64::MAX`.
    ghost calls: { Self → ℕ };

    /// The bytes of a file, at most 4,194,304.
    ///
    /// # Errors
    ///
    /// `Failed` where the count of faults rose or stands at its last value, and always where no
    /// file has this name; else `TooLong` exactly where the file has more than 4,194,304 bytes.
    /// `Memory` may come at any growth.
    fn fetch(&mut self, alloc: Global, name: &str) -> Result<Vec<u8>, ShelfError>
        ensures found { IfOk result (λ bytes.
            IfSome (files self.old) (λ all. file all name.now ≡ Some bytes.items)) }
        ensures short { IfOk result (λ bytes. IsShortFile bytes.items) }
        ensures long { IsErrOf result ShelfError.TooLong
            → IfSome (files self.old) (λ all. IsLongFile (file all name.now)) }
        ensures same { files self.new ≡ files self.old }
        ensures calls { calls self.new ≡ count_after (calls self.old) }
        ensures counted { OnOk result (faults self.new ≡ faults self.old) }
        ensures counted_memory { IsErrOf result ShelfError.Memory
            → faults self.new ≡ faults self.old }
        ensures counted_long { IsErrOf result ShelfError.TooLong
            → faults self.new ≡ faults self.old }
        ensures failed { IsErrOf result ShelfError.Failed
            → Rose (faults self.old) (faults self.new) }
        ensures never_falls { faults self.old ≤ faults self.new };
}
