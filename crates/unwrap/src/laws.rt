//! What holds of the types of this program at every value: each function's contract is a law; it
//! does nothing.
ghost use Rattle.std.specs.Prelude.{◌≡◌, ◌↔◌, true};
ghost use Rattle.enc_handles.specs.TypeLaws.{IsEquality, ClonesSame};
ghost use Rattle.unwrap.specs.Same.{IsSameError, IsSameStatus};
ghost use Rattle.unwrap.specs.declared.header.HeaderError.{HeaderError};
ghost use Rattle.unwrap.specs.declared.status.Status.{Status};

use crate::command_line::matched::Refusal;
use crate::command_line::options::{IndexFile, Parts, ReaderOptions};
use crate::devices::shelf::ShelfError;
use crate::header::HeaderError;
use crate::run::unwrap::Header;
use crate::status::{IndexFault, ReadError, ShelfFault, Status, TableFault};
use crate::text::CopyFault;
use words::{Error, LexerError};

/// Values of a type of this program are equal exactly where they are the same.
pub fn equals()
    ensures table_faults { IsEquality ⟦<TableFault as PartialEq>⟧.eq }
    ensures index_faults { IsEquality ⟦<IndexFault as PartialEq>⟧.eq }
    ensures shelf_faults { IsEquality ⟦<ShelfFault as PartialEq>⟧.eq }
    ensures read_errors { IsEquality ⟦<ReadError as PartialEq>⟧.eq }
    ensures copy_faults { IsEquality ⟦<CopyFault as PartialEq>⟧.eq }
    ensures shelf_errors { IsEquality ⟦<ShelfError as PartialEq>⟧.eq }
    ensures refusals { IsEquality ⟦<Refusal as PartialEq>⟧.eq }
{}

/// Options of a reader are equal exactly where they are the same.
pub fn equality_of_options()
    ensures { IsEquality ⟦<ReaderOptions as PartialEq>⟧.eq }
{}

/// Statuses, and errors of a header, are equal exactly where they are the same; errors of `words`
/// in them count as the same where `==` of `words` says so.
pub fn equality_of_errors()
    ensures statuses { (x y : Status) → (⟦<Status as PartialEq>⟧.eq x y ≡ true)
        ↔ IsSameStatus ⟦<Error as PartialEq>⟧.eq x y }
    ensures header_errors { (x y : HeaderError) → (⟦<HeaderError as PartialEq>⟧.eq x y ≡ true)
        ↔ IsSameError ⟦<LexerError as PartialEq>⟧.eq x y }
{}

/// A clone of a value of a type of this program is that value.
pub fn clones()
    ensures table_faults { ClonesSame ⟦<TableFault as Clone>⟧.is_clone }
    ensures index_faults { ClonesSame ⟦<IndexFault as Clone>⟧.is_clone }
    ensures shelf_faults { ClonesSame ⟦<ShelfFault as Clone>⟧.is_clone }
    ensures read_errors { ClonesSame ⟦<ReadError as Clone>⟧.is_clone }
    ensures copy_faults { ClonesSame ⟦<CopyFault as Clone>⟧.is_clone }
    ensures shelf_errors { ClonesSame ⟦<ShelfError as Clone>⟧.is_clone }
    ensures refusals { ClonesSame ⟦<Refusal as Clone>⟧.is_clone }
    ensures reader_options { ClonesSame ⟦<ReaderOptions as Clone>⟧.is_clone }
    ensures index_files { ClonesSame ⟦<IndexFile<'static> as Clone>⟧.is_clone }
    ensures parts { ClonesSame ⟦<Parts as Clone>⟧.is_clone }
    ensures headers { ClonesSame ⟦<Header<'static> as Clone>⟧.is_clone }
{}
