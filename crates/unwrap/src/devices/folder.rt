//! A shelf over a folder.
ghost use Rattle.std.specs.Prelude.{◌≡◌, None, IfOk};
ghost use Rattle.unwrap.specs.Files.{IsShortFile};

use crate::devices::shelf::{MOST_BYTES, Shelf, ShelfError};
use crate::moving::read_all;
use crate::status::ReadError;
use enc_io::StreamSource;
use std::alloc::Global;
use std::fs;
use std::io::ErrorKind;
use std::marker::Model;
use std::path::Path;
use std::rt::Files;

/// A shelf of the files of a folder, whose names are joined to it as paths. It tells nothing, and
/// keeps counts of its failures and of its calls, which stand still at `u64::MAX`.
#[derive(Drop)]
pub struct FolderShelf<'a, R> {
    rt: &'a R,
    folder: &'a str,
    faults: u64,
    calls: u64,
}

// What a clause sees are the counts of failures and of calls.
impl<'a, R> Model for FolderShelf<'a, R> {
    ghost use Rattle.unwrap.specs.Memory.{Counters};

    ghost Value = { Counters };

    ghost view = { λ s. record { faults = s.faults; calls = s.calls } };
}

impl<'a, R: Files> FolderShelf<'a, R> {
    /// A shelf over this folder.
    pub fn new(rt: &'a R, folder: &'a str) -> FolderShelf<'a, R>
        ensures { result ≡ record { faults = 0; calls = 0 } }
    {
        FolderShelf {
            rt,
            folder,
            faults: 0,
            calls: 0,
        }
    }
}

// The bytes of a file of a folder.
fn read_file<R: Files>(
    rt: &R,
    alloc: Global,
    folder: &str,
    name: &str,
) -> Result<Vec<u8>, ShelfError>
    ensures { IfOk result (λ bytes. IsShortFile bytes.items) }
{
    let path = Path::new(folder).join(alloc, name)?;
    let file = match fs::open(rt, path) {
        Ok(file) => file,
        Err(error) if error.kind() == ErrorKind::OutOfMemory => return Err(ShelfError::Memory),
        Err(_) => return Err(ShelfError::Failed),
    };
    match read_all(alloc, &mut StreamSource::new(file), MOST_BYTES) {
        Ok(bytes) => Ok(bytes),
        Err(ReadError::ReadFault) => Err(ShelfError::Failed),
        Err(ReadError::TooMuch) => Err(ShelfError::TooLong),
        Err(ReadError::Memory) => Err(ShelfError::Memory),
    }
}

impl<'a, R: Files> Shelf for FolderShelf<'a, R> {
    ghost files = { λ _. None };

    ghost faults = { λ s. s.faults };

    ghost calls = { λ s. s.calls };

    /// A name that leads to a folder fails, and so does a file that can't be opened or read.
    fn fetch(&mut self, alloc: Global, name: &str) -> Result<Vec<u8>, ShelfError> {
        self.calls = self.calls.saturating_add(1);
        match read_file(self.rt, alloc, self.folder, name) {
            Err(ShelfError::Failed) => {
                self.faults = self.faults.saturating_add(1);
                Err(ShelfError::Failed)
            }
            fetched => fetched,
        }
    }
}

#[cfg(test)]
mod tests;
