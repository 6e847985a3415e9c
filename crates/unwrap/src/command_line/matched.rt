//! What `clap` finds in the words of a command line.
ghost use Rattle.std.specs.Prelude.{◌≡◌, MatchResult, map, string_bytes, true, Some, None};
ghost use Rattle.clap.specs.Words.{app_of, found_of, is_simple_and_free, kind_of, rows_of};
ghost use Rattle.unwrap.specs.Matched.{matched_in, refusal_of};
ghost use Rattle.unwrap.specs.declared.command_line.matched.Refusal.TheVariants.{Memory, Usage};

use clap::error::ErrorKind;
use clap::{ArgMatches, Command, Error};
use std::alloc::{AllocError, AllocFailed};

// Why a command line gave no command.
#[derive(Clone, Copy, Debug, PartialEq, Eq)]
pub(crate) enum Refusal {
    // The words are no use of a command, or a value is not of its form.
    Usage,
    // Out of memory.
    Memory,
}

impl From<AllocError> for Refusal {
    ghost from_gives = { λ _ refusal. refusal ≡ Memory };

    fn from(_error: AllocError) -> Refusal {
        Refusal::Memory
    }
}

impl<T: Drop> From<AllocFailed<T>> for Refusal {
    ghost from_gives = { λ _ refusal. refusal ≡ Memory };

    fn from(_error: AllocFailed<T>) -> Refusal {
        Refusal::Memory
    }
}

impl From<Error> for Refusal {
    ghost from_gives = { λ error refusal. refusal ≡ refusal_of (kind_of error) };

    fn from(error: Error) -> Refusal {
        match error.kind() {
            ErrorKind::OutOfMemory => Refusal::Memory,
            _ => Refusal::Usage,
        }
    }
}

// What a description finds in the words, of which the first is passed over.
pub(crate) fn matches_in<'a>(
    command: Command<'a>,
    words: &'a [String],
) -> Result<ArgMatches<'a>, Refusal>
    requires { is_simple_and_free (app_of command) ≡ true }
    ensures { MatchResult result
        (λ m. matched_in (app_of command.entry) (map string_bytes words.entry.now)
        ≡ Some (rows_of (found_of m)))
        (λ e. e ≡ Usage
        → matched_in (app_of command.entry) (map string_bytes words.entry.now) ≡ None) }
{
    Ok(command.try_get_matches_from(words)?)
}
