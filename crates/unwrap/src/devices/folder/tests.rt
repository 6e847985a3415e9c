//! What a shelf fetches from a folder: no clause knows of files.

use crate::devices::folder::FolderShelf;
use crate::devices::shelf::ShelfError;
use crate::tests::check_files;
use std::alloc::Global;
use std::fs;
use std::rt::Files;
use std::test::Fail;

const FOLDER: &str = "folder_shelf_test";

// Files and their lengths.
const MADE: [(&str, usize); 4] = [
    ("folder_shelf_test/short", 3),
    ("folder_shelf_test/inner/short", 1),
    ("folder_shelf_test/full", 4_194_304),
    ("folder_shelf_test/long", 4_194_305),
];

const FETCHED: [(&str, Result<usize, ShelfError>); 6] = [
    ("short", Ok(3)),
    ("inner/short", Ok(1)),
    ("full", Ok(4_194_304)),
    ("long", Err(ShelfError::TooLong)),
    ("missing", Err(ShelfError::Failed)),
    ("inner", Err(ShelfError::Failed)),
];

// A file of so many zeroes.
fn make_file(rt: &impl Files, alloc: Global, name: &str, len: usize) -> Result<(), Fail> {
    let bytes = vec![in alloc; 0u8; len]?;
    fs::write(rt, name, bytes.as_slice())?;
    Ok(())
}

#[test]
fn fetches(rt: HostRuntime) -> Result<(), Fail> {
    let _ = fs::remove_dir_all(&rt, FOLDER);
    fs::create_dir(&rt, FOLDER)?;
    fs::create_dir(&rt, "folder_shelf_test/inner")?;
    for file in &MADE {
        let (name, len) = *file;
        make_file(&rt, rt.alloc(), name, len)?;
    }
    let mut shelf = FolderShelf::new(&rt, FOLDER);
    check_files(&rt, rt.alloc(), &mut shelf, &FETCHED);
    fs::remove_dir_all(&rt, FOLDER)?;
    Ok(())
}
