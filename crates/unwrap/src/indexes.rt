//! The index files that the words name, fetched from the shelf and added in their order.
ghost use Rattle.std.specs.Prelude.{◌≡◌, [], map};
ghost use Rattle.enc_front.specs.Indexes.{indexes_of};
ghost use Rattle.enc_io.specs.Faults.{count_after};
ghost use Rattle.unwrap.specs.Indexes.{Adds, MakesTables, line_status, shelf_status, table_status};
ghost use Rattle.unwrap.specs.Values.{file_view};

use crate::command_line::options::IndexFile;
use crate::devices::shelf::{Shelf, ShelfError};
use crate::status::{IndexFault, ShelfFault, Status, TableFault};
use enc_front::{IndexError, TableError, Tables, read_index};
use std::alloc::Global;

// The status of a file, by its number, that the shelf didn't give.
fn shelf_status(number: usize, error: ShelfError) -> Status
    ensures { result ≡ shelf_status number error }
{
    match error {
        ShelfError::Memory => Status::Memory,
        ShelfError::Failed => Status::Shelf(ShelfFault {
            file: number,
            too_long: false,
        }),
        ShelfError::TooLong => Status::Shelf(ShelfFault {
            file: number,
            too_long: true,
        }),
    }
}

// The status of a file with a bad line.
fn line_status(number: usize, error: IndexError) -> Status
    ensures { result ≡ line_status number error }
{
    match error {
        IndexError::Memory => Status::Memory,
        IndexError::BadLine(line) => Status::BadIndex(IndexFault {
            file: number,
            fault: TableFault::BadLine(line),
        }),
    }
}

// The status of a file whose pairs make no index.
fn table_status(number: usize, error: TableError) -> Status
    ensures { result ≡ table_status number error }
{
    match error {
        TableError::Memory => Status::Memory,
        TableError::AlreadyThere(kind) => Status::BadIndex(IndexFault {
            file: number,
            fault: TableFault::AlreadyThere(kind),
        }),
        TableError::BadTable { row, why } => Status::BadIndex(IndexFault {
            file: number,
            fault: TableFault::BadTable { row, why },
        }),
    }
}

// Adds the index of the file of this number.
fn add_file<F: Shelf>(
    alloc: Global,
    shelf: &mut F,
    number: usize,
    file: &IndexFile<'_>,
    tables: &mut Tables,
) -> Result<(), Status>
    ensures same { F.files shelf.new ≡ F.files shelf.old }
    ensures called { F.calls shelf.new ≡ count_after (F.calls shelf.old) }
    ensures adds { Adds number (file_view file.now) (F.files shelf.old) (F.faults shelf.old)
        (F.faults shelf.new) (indexes_of tables.old) (indexes_of tables.new) result }
{
    let bytes = match shelf.fetch(alloc, file.name) {
        Ok(bytes) => bytes,
        Err(error) => return Err(shelf_status(number, error)),
    };
    let pairs = match read_index(alloc, bytes.as_slice()) {
        Ok(pairs) => pairs,
        Err(error) => return Err(line_status(number, error)),
    };
    match tables.add(alloc, file.kind, pairs.as_slice()) {
        Ok(()) => Ok(()),
        Err(error) => Err(table_status(number, error)),
    }
}

// The indexes of files, which are fetched and added in their order.
//
// # Statuses
//
// Of the first file that gives none: `Shelf` where the shelf fails or the file is too long, then
// `BadIndex` for its first bad line, for a kind that is already there, or for its first faulty
// row. `Memory` may come at any growth.
pub(crate) fn tables_of<F: Shelf>(
    alloc: Global,
    shelf: &mut F,
    files: &[IndexFile<'_>],
) -> Result<Tables, Status>
    ensures kept { map file_view files.now ≡ [] → shelf.new ≡ shelf.old }
    ensures makes { MakesTables (map file_view files.now) (F.files shelf.old) (F.files shelf.new)
        (F.faults shelf.old) (F.faults shelf.new) (F.calls shelf.old) (F.calls shelf.new) result }
{
    let mut tables = Tables::new();
    for (number, file) in files.iter().enumerate() {
        match add_file(alloc, shelf, number, file, &mut tables) {
            Ok(()) => (),
            Err(status) => return Err(status),
        }
    }
    Ok(tables)
}
